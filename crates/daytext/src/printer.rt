// A record as a line of text.
ghost use Rattle.std.specs.Prelude.{◌≡◌, ◌+◌, ◌≤◌, [], ◌∷◌, ◌++◌, length, take, drop, decimal};
ghost use Rattle.daytext.specs.Lines.{line_of, spaced};
ghost use Rattle.daytext.specs.RoundTrip.{ParsesBack};

use arrayvec::ArrayString;
use dayfile::record::Record;
use itoa::{Buffer, write_digits};

/// Room for every line: a word of seven letters, and three numbers of ten digits with a space before each.
pub const LINE_BYTES: usize = 40;

// A word and its numbers, each after a space. No `Display`: a formatted write may fail, and this does not.
fn line(word: &str, numbers: &[u32]) -> ArrayString<LINE_BYTES>
    requires short { length word.now ≤ 7 }
    requires few { length numbers.now ≤ 3 }
    ensures text { result.bytes ≡ word.now ++ spaced numbers.now }
    ensures bound { length result.bytes ≤ 40 }
{
    let mut line = ArrayString::new();
    let mut digits = Buffer::new();
    line.push_str(word);
    for number in numbers {
        line.push_str(" ");
        line.push_str(digits.format(*number));
    }
    line
}

/// The line of a record, without an end of line. Parsing the line gives the record back.
#[tactic(auto, using(crate::proofs::RoundTrip::parses_back))]
pub fn print(record: Record) -> ArrayString<LINE_BYTES>
    ensures text { result.bytes ≡ line_of «record» }
    ensures bound { length result.bytes ≤ 40 }
    ensures parses_back { ParsesBack «record» }
{
    match record {
        Record::Nodes { count } => line("nodes", &[u32::from(count)]),
        Record::Edge { from, to } => line("edge", &[u32::from(from), u32::from(to)]),
        Record::Tree {
            child,
            parent,
            slots,
        } => line(
            "tree",
            &[u32::from(child), u32::from(parent), u32::from(slots)],
        ),
        Record::Query {
            priority,
            period,
            deadline,
        } => line(
            "query",
            &[u32::from(priority), u32::from(period), u32::from(deadline)],
        ),
        Record::Release { number } => line("release", &[number]),
        Record::Close { number } => line("close", &[number]),
        Record::Run { slots } => line("run", &[u32::from(slots)]),
    }
}

// The same line, written from its last byte to its first: a number's digits come in that order, and so they are written
// once, where they stay. A text of many lines is made of these, since an `ArrayString` takes twice the time for short numbers.

// Puts a space and the number before the byte at `end`, and answers where they begin.
fn put_number(text: &mut [u8; LINE_BYTES], end: usize, number: u32) -> usize
    requires { (11 ≤ end) × (end ≤ 40) }
    ensures start { result + length (decimal number) + 1 ≡ end }
    ensures bound { end ≤ result + 11 }
    ensures before { take result text.new ≡ take result text.old }
    ensures text { drop result text.new ≡ 32 ∷ (decimal number ++ drop end text.old) }
{
    let digits = write_digits(u64::from(number), text, end);
    text[digits - 1] = b' ';
    digits - 1
}

// Puts a word and a number before the byte at `end`.
fn put_one<const N: usize>(
    text: &mut [u8; LINE_BYTES],
    end: usize,
    word: &[u8; N],
    first: u32,
) -> usize
    requires { (N ≤ 7) × (18 ≤ end) × (end ≤ 40) }
    ensures start { result + N + length (decimal first) + 1 ≡ end }
    ensures before { take result text.new ≡ take result text.old }
    ensures text { drop result text.new ≡ word.now ++ (32 ∷ (decimal first ++ drop end text.old)) }
{
    let end = put_number(text, end, first);
    let start = end - N;
    text[start..end].copy_from_slice(word);
    start
}

// Puts a word and two numbers before the byte at `end`.
fn put_two<const N: usize>(
    text: &mut [u8; LINE_BYTES],
    end: usize,
    word: &[u8; N],
    first: u32,
    second: u32,
) -> usize
    requires { (N ≤ 7) × (29 ≤ end) × (end ≤ 40) }
    ensures start { result + N + length (decimal first) + length (decimal second) + 2 ≡ end }
    ensures before { take result text.new ≡ take result text.old }
    ensures text { drop result text.new ≡ word.now ++ (32 ∷ (decimal first ++ (32 ∷ (decimal second ++ drop end text.old)))) }
{
    let end = put_number(text, end, second);
    put_one(text, end, word, first)
}

// Puts a word and three numbers at the end.
fn put_three<const N: usize>(
    text: &mut [u8; LINE_BYTES],
    word: &[u8; N],
    first: u32,
    second: u32,
    third: u32,
) -> usize
    requires { N ≤ 7 }
    ensures start { result + N + length (decimal first) + length (decimal second) + length (decimal third) + 3 ≡ 40 }
    ensures before { take result text.new ≡ take result text.old }
    ensures text { drop result text.new ≡ word.now ++ (32 ∷ (decimal first ++ (32 ∷ (decimal second ++ (32 ∷ (decimal third ++ [])))))) }
{
    let end = put_number(text, LINE_BYTES, third);
    put_two(text, end, word, first, second)
}

/// Writes the line of a record, without an end of line, to the end of `text`, leaves what stands before it as it is, and
/// answers where it begins.
pub fn print_at_end(record: Record, text: &mut [u8; LINE_BYTES]) -> usize
    ensures start { result + length (line_of «record») ≡ 40 }
    ensures before { take result text.new ≡ take result text.old }
    ensures text { drop result text.new ≡ line_of «record» }
{
    match record {
        Record::Nodes { count } => put_one(text, LINE_BYTES, b"nodes", u32::from(count)),
        Record::Edge { from, to } => {
            put_two(text, LINE_BYTES, b"edge", u32::from(from), u32::from(to))
        }
        Record::Tree {
            child,
            parent,
            slots,
        } => put_three(
            text,
            b"tree",
            u32::from(child),
            u32::from(parent),
            u32::from(slots),
        ),
        Record::Query {
            priority,
            period,
            deadline,
        } => put_three(
            text,
            b"query",
            u32::from(priority),
            u32::from(period),
            u32::from(deadline),
        ),
        Record::Release { number } => put_one(text, LINE_BYTES, b"release", number),
        Record::Close { number } => put_one(text, LINE_BYTES, b"close", number),
        Record::Run { slots } => put_one(text, LINE_BYTES, b"run", u32::from(slots)),
    }
}
