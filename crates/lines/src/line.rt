ghost use Rattle.std.specs.Prelude.{◌≡◌, ◌+◌, ◌≤◌, ◌∷◌, ◌++◌, length, drop, decimal};
ghost use Rattle.lines.specs.Text.{bytes_of, line_of, third_of};

use itoa::write_digits;

// Room for every line: a word of five letters, three numbers of twenty digits, and a byte after each.
pub(crate) const LINE_BYTES: usize = 69;

// Refusals stand here as the numbers that are printed: this crate knows no other crate's refusals.
/// One line of a listing.
#[derive(Clone, Copy, PartialEq, Eq, Debug)]
pub enum TextLine {
    /// The plan was made: its length and minimum step distance.
    Plan {
        length: u64,
        distance: u64,
    },
    /// A query was accepted: its number and longest wait.
    Query {
        number: u64,
        wait: u64,
    },
    /// A round of the query starts in the slot.
    Start {
        slot: u64,
        number: u64,
    },
    /// The engine refused what the record at the offset asks; the query that the refusal names, if it names one.
    No {
        refusal: u64,
        offset: u64,
        named: Option<u64>,
    },
    /// The listing stopped at the offset; the number of the fault inside, if there is one.
    Stop {
        refusal: u64,
        offset: u64,
        inner: Option<u64>,
    },
}

// A line is written from its last byte to its first: a number's digits come in that order, and so they are written once,
// where they stay. (An `ArrayString` takes them from a buffer of their own, in twice the time for short numbers.)

// Puts a space and the number before the byte at `end`, and answers where they begin.
fn put_number(text: &mut [u8; LINE_BYTES], end: usize, number: u64) -> usize
    requires { (21 ≤ end) × (end ≤ 69) }
    ensures start { result + length (decimal number) + 1 ≡ end }
    ensures bound { end ≤ result + 21 }
    ensures text { drop result text.new ≡ 32 ∷ (decimal number ++ drop end text.old) }
{
    let digits = write_digits(number, text, end);
    text[digits - 1] = b' ';
    digits - 1
}

// Puts the third number, if there is one, before the byte at `end`.
fn put_third(text: &mut [u8; LINE_BYTES], end: usize, third: Option<u64>) -> usize
    requires { (21 ≤ end) × (end ≤ 69) }
    ensures bound { (end ≤ result + 21) × (result ≤ end) }
    ensures text { drop result text.new ≡ third_of third ++ drop end text.old }
{
    match third {
        None => end,
        Some(number) => put_number(text, end, number),
    }
}

// Puts a word with its space, the numbers with a space between them, and the line feed at the end of the text, and answers
// where the line begins. No `Display`: a formatted write may fail, and this does not.
// The word is an array, whose length the compiler knows, so that it is copied without a call.
fn put<const N: usize>(
    text: &mut [u8; LINE_BYTES],
    word: &[u8; N],
    first: u64,
    second: u64,
    third: Option<u64>,
) -> usize
    requires { N ≤ 6 }
    ensures start { result ≤ 69 }
    ensures text { drop result text.new ≡ line_of word.now first second third }
{
    let end = LINE_BYTES - 1;
    text[end] = b'\n';
    let end = put_third(text, end, third);
    let end = put_number(text, end, second);
    let end = write_digits(first, text, end);
    let start = end - N;
    text[start..end].copy_from_slice(word);
    start
}

impl TextLine {
    /// Puts the line, its line feed among it, at the end of the text, and answers where it begins.
    pub(crate) fn put(self, text: &mut [u8; LINE_BYTES]) -> usize
        ensures start { result ≤ 69 }
        ensures text { drop result text.new ≡ bytes_of self }
    {
        match self {
            TextLine::Plan { length, distance } => put(text, b"PLAN ", length, distance, None),
            TextLine::Query { number, wait } => put(text, b"QUERY ", number, wait, None),
            TextLine::Start { slot, number } => put(text, b"START ", slot, number, None),
            TextLine::No {
                refusal,
                offset,
                named,
            } => put(text, b"NO ", refusal, offset, named),
            TextLine::Stop {
                refusal,
                offset,
                inner,
            } => put(text, b"STOP ", refusal, offset, inner),
        }
    }
}
