// The words of a line, one after another, and the numbers among them.
ghost use Rattle.std.specs.Prelude.{◌≡◌, ◌≤◌, [], ◌∷◌, length, IfOk, Ok, Err, MatchResult};
ghost use Rattle.std.specs.List.{prefix_len};
ghost use Rattle.daytext.specs.Words.{is_blank, in_word, first_word, after_word, value_after, number_of, numbers_of, end_of};

use crate::fault::LineFault;
use crate::field::Field;

// A space, a tab, or the carriage return before a line feed.
fn is_blank(byte: u8) -> bool
    ensures { result ≡ is_blank byte }
{
    byte == b' ' || byte == b'\t' || byte == b'\r'
}

// Neither a blank nor the start of a comment.
fn is_in_word(byte: u8) -> bool
    ensures { result ≡ in_word byte }
{
    !is_blank(byte) && byte != b'#'
}

// One line each over the library's `take_while`, as in `textfile`: a function that takes the test would be longer.
// How many blanks the bytes begin with.
fn count_blanks(bytes: &[u8]) -> usize
    ensures value { result ≡ prefix_len is_blank bytes.now }
    ensures bound { result ≤ length bytes.now }
{
    bytes.iter().take_while(|byte| is_blank(**byte)).count()
}

// How many bytes of a word they begin with.
fn count_word(bytes: &[u8]) -> usize
    ensures value { result ≡ prefix_len in_word bytes.now }
    ensures bound { result ≤ length bytes.now }
{
    bytes.iter().take_while(|byte| is_in_word(**byte)).count()
}

/// The first word and the bytes after it; the word is empty where a comment or the end comes first.
pub(crate) fn next_word(bytes: &[u8]) -> (&[u8], &[u8])
    ensures word { result.0.now ≡ first_word bytes.now }
    ensures rest { result.1.now ≡ after_word bytes.now }
{
    let unindented = &bytes[count_blanks(bytes)..];
    unindented.split_at(count_word(unindented))
}

// The number that decimal digits write, at most `most`. Not the library's `parse`: that takes a sign, and the first fault
// from the left is the one that is named.
fn value(digits: &[u8], most: u32) -> Result<u32, LineFault>
    ensures answer { result ≡ value_after most 0 digits.now }
    ensures bound { IfOk result (λ n. n ≤ most) }
{
    let mut value: u64 = 0;
    for byte in digits {
        if !byte.is_ascii_digit() {
            return Err(LineFault::NotANumber);
        }
        value = value * 10 + u64::from(*byte - b'0');
        if value > u64::from(most) {
            return Err(LineFault::TooLarge);
        }
    }
    Ok(value as u32)
}

/// The number at the front, and the bytes after it.
pub(crate) fn number<N: Field>(bytes: &[u8]) -> Result<(N, &[u8]), LineFault>
    ensures { MatchResult result (λ p. number_of N.MOST bytes.now ≡ Ok (N.number p.0, p.1.now)) (λ f. number_of N.MOST bytes.now ≡ Err f) }
{
    let (word, rest) = next_word(bytes);
    if word.is_empty() {
        return Err(LineFault::MissingNumber);
    }
    Ok((N::holding(value(word, N::MOST)?), rest))
}

// Refuses words where there should be none.
fn end(bytes: &[u8]) -> Result<(), LineFault>
    ensures { result ≡ end_of bytes.now }
{
    let (word, _) = next_word(bytes);
    if word.is_empty() {
        Ok(())
    } else {
        Err(LineFault::TooMuch)
    }
}

/// The number at the front, where nothing comes after it.
pub(crate) fn last<N: Field>(bytes: &[u8]) -> Result<N, LineFault>
    ensures { MatchResult result (λ n. numbers_of (N.MOST ∷ []) bytes.now ≡ Ok (N.number n ∷ [])) (λ f. numbers_of (N.MOST ∷ []) bytes.now ≡ Err f) }
{
    let (number, rest) = number(bytes)?;
    end(rest)?;
    Ok(number)
}
