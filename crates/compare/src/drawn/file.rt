use crate::drawn::day::Day;
use crate::drawn::encoding::add_records;
use crate::drawn::site::DrawnSite;
use crate::drawn::sound::{SoundFile, filled_bytes};
use crate::drawn::source::Source;
use dayfile::FILE_LIMIT;
use dayfile::record::Record;
use std::alloc::{AllocError, Global};

/// A day file with the lengths of the lists that it is listed into.
#[derive(Drop)]
pub struct DayFile {
    pub bytes: Vec<u8>,
    /// For the lines.
    pub room: usize,
    /// For the STOP line, which needs up to 18 bytes.
    pub stop_room: usize,
}

/// What is done to a file so that it ends in a certain way.
#[derive(Clone, Copy)]
enum Class {
    Sound,
    FaultySite,
    WrongOrder,
    UnknownKind,
    CutShort,
    Changed,
    Noise,
    ShortList,
    Filled,
}

impl Class {
    fn of(index: u32) -> Class {
        match index % 16 {
            0..=5 => Class::Sound,
            6 => Class::FaultySite,
            7 => Class::WrongOrder,
            8 => Class::UnknownKind,
            9 => Class::CutShort,
            10..=11 => Class::Changed,
            12 => Class::Noise,
            13..=14 => Class::ShortList,
            _ => Class::Filled,
        }
    }

    // Each class has its own function, named here once: a table of closures would say the same.
    fn draw(self, source: &mut Source) -> Result<Vec<u8>, AllocError> {
        match self {
            Class::Sound | Class::ShortList => SoundFile::draw(source)?.bytes(source.heap),
            Class::FaultySite => faulty_site(source),
            Class::WrongOrder => wrong_order(source),
            Class::UnknownKind => unknown_kind(source),
            Class::CutShort => cut_short(source),
            Class::Changed => changed(source),
            Class::Noise => noise(source),
            Class::Filled => filled(source),
        }
    }

    fn room(self, source: &mut Source, size: usize) -> usize {
        let Class::ShortList = self else {
            // Ample: a line has at most 24 bytes, and but for PLAN each has a record of 5 bytes or more behind it.
            return size.saturating_mul(6).saturating_add(64);
        };
        match source.below(4) {
            0 => source.place(12),
            1 => source.place(100),
            2 => source.place(size.saturating_add(1)),
            _ => source.place(size.saturating_mul(2).saturating_add(1)),
        }
    }
}

fn faulty_site(source: &mut Source) -> Result<Vec<u8>, AllocError> {
    let nodes = source.byte(17).saturating_add(4);
    let mut site = DrawnSite::draw(source, nodes)?;
    let mut day = Day::draw(source, site.scale());
    site.spoil(source)?;
    // A second fault shows in which order the checks run.
    if source.one_in(2) {
        site.spoil(source)?;
    }
    let before = site.records(source)?;
    let bookings = source.below(3);
    let acts = source.below(3);
    let after = day.records(source, bookings, acts)?;
    SoundFile { before, after, day }.bytes(source.heap)
}

/// Puts a record at a drawn place, but not in front of all.
fn insert_late(
    source: &mut Source,
    records: &mut Vec<Record>,
    record: Record,
) -> Result<(), AllocError> {
    let at = source.place(records.len()).saturating_add(1);
    if at <= records.len() {
        records.insert(at, record)?;
    }
    Ok(())
}

fn without_nodes(source: &Source, file: SoundFile) -> Result<Vec<u8>, AllocError> {
    let records = file.joined()?;
    let mut bytes = Vec::new(source.heap);
    add_records(&mut bytes, records.get(1..).unwrap_or(&[]))?;
    Ok(bytes)
}

fn nodes_twice(source: &mut Source, file: SoundFile) -> Result<Vec<u8>, AllocError> {
    let mut records = file.joined()?;
    let count = source.byte(65);
    insert_late(source, &mut records, Record::Nodes { count })?;
    let mut bytes = Vec::new(source.heap);
    add_records(&mut bytes, records.as_slice())?;
    Ok(bytes)
}

fn act_first(source: &mut Source, mut file: SoundFile) -> Result<Vec<u8>, AllocError> {
    let first = file.day.act(source);
    let mut bytes = Vec::new(source.heap);
    add_records(&mut bytes, &[first])?;
    bytes.extend_from_slice(file.bytes(source.heap)?.as_slice())?;
    Ok(bytes)
}

fn wrong_order(source: &mut Source) -> Result<Vec<u8>, AllocError> {
    let mut file = SoundFile::draw(source)?;
    match source.below(6) {
        0 => return without_nodes(source, file),
        1 => return nodes_twice(source, file),
        2 => insert_late(source, &mut file.after, Record::Edge { from: 0, to: 0 })?,
        3 => {
            let link = Record::Tree {
                child: 1,
                parent: 0,
                slots: 1,
            };
            insert_late(source, &mut file.after, link)?
        }
        4 => return act_first(source, file),
        _ => return Ok(Vec::new(source.heap)),
    }
    file.bytes(source.heap)
}

fn unknown_kind(source: &mut Source) -> Result<Vec<u8>, AllocError> {
    let records = SoundFile::draw(source)?.joined()?;
    let at = source.place(records.len().saturating_add(1));
    let kind = if source.one_in(4) {
        0
    } else {
        source.byte_from(8)
    };
    let mut bytes = Vec::new(source.heap);
    add_records(&mut bytes, records.get(0..at).unwrap_or(&[]))?;
    bytes.push(kind)?;
    add_records(&mut bytes, records.get(at..).unwrap_or(&[]))?;
    Ok(bytes)
}

fn cut_short(source: &mut Source) -> Result<Vec<u8>, AllocError> {
    let mut bytes = SoundFile::draw(source)?.bytes(source.heap)?;
    bytes.truncate(source.place(bytes.len()));
    Ok(bytes)
}

fn changed(source: &mut Source) -> Result<Vec<u8>, AllocError> {
    let mut bytes = SoundFile::draw(source)?.bytes(source.heap)?;
    for _ in 0..source.below(4).saturating_add(1) {
        let at = source.place(bytes.len());
        let most = if source.one_in(2) { 256 } else { 9 };
        let value = source.byte(most);
        if let Some(byte) = bytes.get_mut(at) {
            *byte = value;
        }
    }
    Ok(bytes)
}

/// Bytes with no order among them, some with a site of one node in front so that the engine is reached.
fn noise(source: &mut Source) -> Result<Vec<u8>, AllocError> {
    let how = source.below(3);
    let mut bytes = Vec::new(source.heap);
    if how == 2 {
        bytes.extend_from_slice(&[1, 1])?;
    }
    let most = if how == 0 { 256 } else { 9 };
    for _ in 0..source.below(64) {
        bytes.push(source.byte(most))?;
    }
    Ok(bytes)
}

/// Long files, at the limit and beyond it.
fn filled(source: &mut Source) -> Result<Vec<u8>, AllocError> {
    let size = match source.below(8) {
        0 => FILE_LIMIT,
        1..=2 => source.place(FILE_LIMIT - 2_000).saturating_add(2_000),
        3..=4 => FILE_LIMIT + 1,
        _ => source.place(4_000).saturating_add(FILE_LIMIT + 1),
    };
    filled_bytes(source, size)
}

/// The day file of this index.
pub fn draw_file(heap: Global, index: u32) -> Result<DayFile, AllocError> {
    let mut source = Source::new(heap, index);
    let class = Class::of(index);
    let bytes = class.draw(&mut source)?;
    let room = class.room(&mut source, bytes.len());
    let stop_room = source.place(24);
    Ok(DayFile {
        bytes,
        room,
        stop_room,
    })
}
