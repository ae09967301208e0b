use crate::drawn::day::Day;
use crate::drawn::encoding::{add_record, add_records};
use crate::drawn::site::DrawnSite;
use crate::drawn::source::Source;
use dayfile::record::Record;
use std::alloc::{AllocError, Global};

/// The records of a sound file, those before its plan is made and those after.
#[derive(Drop)]
pub struct SoundFile {
    pub before: Vec<Record>,
    pub after: Vec<Record>,
    pub day: Day,
}

impl SoundFile {
    pub fn draw(source: &mut Source) -> Result<SoundFile, AllocError> {
        let most = if source.one_in(12) { 64 } else { 20 };
        let nodes = source.byte(most).saturating_add(1);
        let site = DrawnSite::draw(source, nodes)?;
        let mut day = Day::draw(source, site.scale());
        let before = site.records(source)?;
        let bookings = if source.one_in(16) {
            0
        } else {
            source.below(40).saturating_add(1)
        };
        let acts = if source.one_in(16) {
            0
        } else {
            source.below(80)
        };
        let after = day.records(source, bookings, acts)?;
        Ok(SoundFile { before, after, day })
    }

    pub fn bytes(&self, heap: Global) -> Result<Vec<u8>, AllocError> {
        let mut bytes = Vec::new(heap);
        add_records(&mut bytes, self.before.as_slice())?;
        add_records(&mut bytes, self.after.as_slice())?;
        Ok(bytes)
    }

    /// All records in one list.
    pub fn joined(self) -> Result<Vec<Record>, AllocError> {
        let SoundFile {
            before: mut records,
            after,
            day: _,
        } = self;
        records.extend_from_slice(after.as_slice())?;
        Ok(records)
    }
}

// A source and a size go through three functions: there is no more to be said of the two together. The next two differ in
// what they add and how far: as one function they would take both.
fn add_short_acts(
    bytes: &mut Vec<u8>,
    day: &mut Day,
    source: &mut Source,
    size: usize,
) -> Result<(), AllocError> {
    for _ in 0..size {
        if bytes.len().saturating_add(16) >= size {
            break;
        }
        add_record(bytes, day.short_act(source))?;
    }
    Ok(())
}

/// Runs of 3 bytes up to the size.
fn add_runs(bytes: &mut Vec<u8>, source: &mut Source, size: usize) -> Result<(), AllocError> {
    for _ in 0..size {
        if bytes.len() >= size {
            break;
        }
        add_record(
            bytes,
            Record::Run {
                slots: source.word(8),
            },
        )?;
    }
    Ok(())
}

/// A sound file of exactly this many bytes: releases of 5 bytes until runs of 3 bytes can fill the rest.
pub fn filled_bytes(source: &mut Source, size: usize) -> Result<Vec<u8>, AllocError> {
    let file = SoundFile::draw(source)?;
    let mut bytes = file.bytes(source.heap)?;
    let mut day = file.day;
    add_short_acts(&mut bytes, &mut day, source, size)?;
    for _ in 0..2 {
        if size.saturating_sub(bytes.len()) % 3 != 0 {
            add_record(&mut bytes, day.release(source))?;
        }
    }
    add_runs(&mut bytes, source, size)?;
    Ok(bytes)
}
