use crate::comparison::Comparison;
use crate::drawn::file::DayFile;
use crate::ending::Stop;
use std::alloc::{AllocError, Global};
use std::fmt;

/// Endings that are counted together.
#[derive(Clone, Copy, PartialEq, Eq)]
enum Kind {
    Complete,
    Refusal(u8),
    /// Refusal 35 with this inner number.
    Inner(u8),
}

const KINDS: [Kind; 12] = [
    Kind::Complete,
    Kind::Refusal(31),
    Kind::Refusal(32),
    Kind::Refusal(33),
    Kind::Refusal(34),
    Kind::Inner(1),
    Kind::Inner(2),
    Kind::Inner(3),
    Kind::Inner(4),
    Kind::Inner(11),
    Kind::Inner(12),
    Kind::Refusal(36),
];

impl Kind {
    fn of(stop: Option<Stop>) -> Kind {
        let Some(stop) = stop else {
            return Kind::Complete;
        };
        match stop.inner {
            Some(inner) => Kind::Inner(inner),
            None => Kind::Refusal(stop.refusal),
        }
    }
}

impl fmt::Display for Kind {
    fn fmt<W: fmt::Write>(&self, f: &mut fmt::Formatter<W>) -> fmt::Result {
        match self {
            Kind::Complete => write!(f, "complete"),
            Kind::Refusal(refusal) => write!(f, "stopped by {refusal}:"),
            Kind::Inner(inner) => write!(f, "stopped by 35, inner {inner}:"),
        }
    }
}

/// The files of one kind of ending, as the naive scheduler sees it.
#[derive(Clone, Copy)]
struct KindCount {
    kind: Kind,
    files: u32,
    agree: u32,
}

/// The lines that begin so.
#[derive(Clone, Copy)]
struct LineCount {
    front: &'static str,
    lines: u32,
}

const FRONTS: [&'static str; 11] = [
    "PLAN", "QUERY", "START", "NO 20", "NO 21", "NO 22", "NO 23", "NO 24", "NO 25", "NO 26",
    "NO 27",
];

/// A running FNV-1a hash.
#[derive(Clone, Copy)]
struct Digest(u64);

impl Digest {
    fn new() -> Digest {
        Digest(0xcbf2_9ce4_8422_2325)
    }

    fn add(&mut self, bytes: &[u8]) {
        for byte in bytes {
            self.0 = (self.0 ^ u64::from(*byte)).wrapping_mul(0x0100_0000_01b3);
        }
    }
}

/// What was seen of all files. The digests stand for every file and every listing, so that another program can show
/// that it has the same.
#[derive(Drop)]
pub struct Tally {
    files: u32,
    agree: u32,
    kinds: Vec<KindCount>,
    lines: Vec<LineCount>,
    drawn: Digest,
    listed: Digest,
}

fn kind_counts(heap: Global) -> Result<Vec<KindCount>, AllocError> {
    KINDS
        .iter()
        .map(|kind| KindCount {
            kind: *kind,
            files: 0,
            agree: 0,
        })
        .collect(heap)
}

fn line_counts(heap: Global) -> Result<Vec<LineCount>, AllocError> {
    FRONTS
        .iter()
        .map(|front| LineCount {
            front: *front,
            lines: 0,
        })
        .collect(heap)
}

impl Tally {
    pub fn new(heap: Global) -> Result<Tally, AllocError> {
        Ok(Tally {
            files: 0,
            agree: 0,
            kinds: kind_counts(heap)?,
            lines: line_counts(heap)?,
            drawn: Digest::new(),
            listed: Digest::new(),
        })
    }

    /// The files that differ so far.
    pub fn differ(&self) -> u32 {
        self.files.saturating_sub(self.agree)
    }

    pub fn note(&mut self, file: &DayFile, comparison: &Comparison) {
        let agree = u32::from(comparison.agrees());
        self.files = self.files.saturating_add(1);
        self.agree = self.agree.saturating_add(agree);
        self.note_kind(Kind::of(comparison.naive.stop), agree);
        self.note_lines(comparison.naive.text.as_slice());
        self.drawn.add(file.bytes.as_slice());
        self.listed.add(comparison.naive.text.as_slice());
        self.listed.add(comparison.stop.as_bytes());
    }

    fn note_kind(&mut self, kind: Kind, agree: u32) {
        if let Some(count) = self.kinds.iter_mut().find(|count| count.kind == kind) {
            count.files = count.files.saturating_add(1);
            count.agree = count.agree.saturating_add(agree);
        }
    }

    fn note_lines(&mut self, text: &[u8]) {
        let mut at_front = true;
        for (place, byte) in text.iter().enumerate() {
            if at_front {
                self.note_line(text.get(place..).unwrap_or(&[]));
            }
            at_front = *byte == b'\n';
        }
    }

    /// Counts the line at the front of a text.
    fn note_line(&mut self, text: &[u8]) {
        for count in self.lines.iter_mut() {
            if text.starts_with(count.front.as_bytes()) {
                count.lines = count.lines.saturating_add(1);
            }
        }
    }

    fn print_lines(&self, rt: &HostRuntime) -> anyhow::Result<()> {
        let mut line = String::from_str(rt.alloc(), "lines:")?;
        let mut comma = "";
        for count in self.lines.iter() {
            let front = count.front;
            let lines = count.lines;
            let text = format!(in rt.alloc(); "{comma} {front} {lines}")?;
            line.push_str(text.as_str())?;
            comma = ",";
        }
        println!(rt; "{line}")?;
        Ok(())
    }

    pub fn print(&self, rt: &HostRuntime) -> anyhow::Result<()> {
        let files = self.files;
        let agree = self.agree;
        let differ = self.differ();
        println!(rt; "files {files}, agree {agree}, differ {differ}")?;
        for count in self.kinds.iter() {
            let kind = count.kind;
            let agree = count.agree;
            let files = count.files;
            println!(rt; "{kind} {agree} of {files}")?;
        }
        self.print_lines(rt)?;
        let drawn = self.drawn.0;
        let listed = self.listed.0;
        println!(rt; "digest of the files {drawn:016x}")?;
        println!(rt; "digest of the listings {listed:016x}")?;
        Ok(())
    }
}
