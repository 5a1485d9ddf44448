// The words of a line. What reads the start of a text answers what it read, and the text behind that.
ghost use Rattle.std.specs.Prelude.{◌≤◌};

use crate::CaseError;
use numbers::Vector;

// What a row can have: numbers and marks, or bytes in hex.
pub trait Entry: Copy {
    // The entry that a text begins with.
    fn first(s: &[u8]) -> Option<(Self, &[u8])>;
}

impl Entry for i32 {
    fn first(s: &[u8]) -> Option<(i32, &[u8])> {
        word(s, 10)
    }
}

impl Entry for u8 {
    fn first(s: &[u8]) -> Option<(u8, &[u8])> {
        let (x, rest) = word(s, 16)?;
        Some((u8::try_from(x).ok()?, rest))
    }
}

// What stands before the first byte that passes the test, and the text from it on.
pub fn cut<F: FnMut(&u8) -> bool>(s: &[u8], test: F) -> (&[u8], &[u8])
    requires { (state : F) (b : _) → F.pre state b }
{
    s.split_at(s.iter().position(test).unwrap_or(s.len()))
}

// The text behind blanks.
fn trimmed(s: &[u8]) -> &[u8] {
    cut(s, |b| *b != b' ').1
}

// The text behind blanks, this byte, and blanks. The end stays the end.
pub fn behind(s: &[u8], byte: u8) -> Result<&[u8], CaseError> {
    match trimmed(s) {
        [] => Ok(&[]),
        [first, rest @ ..] if *first == byte => Ok(trimmed(rest)),
        _ => Err(CaseError::Unreadable),
    }
}

// Nothing but blanks may be left.
pub fn end(s: &[u8]) -> Result<(), CaseError> {
    match trimmed(s) {
        [] => Ok(()),
        _ => Err(CaseError::Unreadable),
    }
}

// The small letters that a text begins with.
pub fn name(s: &[u8]) -> (&[u8], &[u8]) {
    cut(s, |b| !b.is_ascii_lowercase())
}

fn is_digit(c: u8, base: u32) -> bool {
    match c {
        b'0'..=b'9' => true,
        b'A'..=b'F' => base == 16,
        _ => false,
    }
}

// The digits that a text begins with: a number below 2^31.
fn digits(s: &[u8], base: u32) -> Option<(i32, &[u8])>
    requires least { 2 ≤ base }
    requires most { base ≤ 36 }
{
    let (digits, rest) = cut(s, |b| !is_digit(*b, base));
    let text = str::from_utf8(digits).ok()?;
    Some((i32::from_str_radix(text, base).ok()?, rest))
}

// The word that a text begins with: a number in a base, perhaps below 0, or M for the mark.
fn word(s: &[u8], base: u32) -> Option<(i32, &[u8])>
    requires least { 2 ≤ base }
    requires most { base ≤ 36 }
{
    match s {
        [b'M', rest @ ..] => Some((Vector::MARK, rest)),
        [b'-', rest @ ..] => {
            let (x, rest) = digits(rest, base)?;
            Some((x.checked_neg()?, rest))
        }
        _ => digits(s, base),
    }
}

// Puts the entries of a row at the start of out, and answers them: those up to a bar, the end, or what is no entry.
pub fn row<'a, 'b, T: Entry>(s: &'a [u8], out: &'b mut [T]) -> (&'b [T], &'a [u8]) {
    let mut rest = s;
    for (i, x) in out.iter_mut().enumerate() {
        let Some((entry, after)) = T::first(trimmed(rest)) else {
            return (&out[..i], rest);
        };
        *x = entry;
        rest = after;
    }
    (out, rest)
}

// The row behind the next bar.
pub fn next_row<'a, 'b, T: Entry>(
    s: &'a [u8],
    out: &'b mut [T],
) -> Result<(&'b [T], &'a [u8]), CaseError> {
    Ok(row(behind(s, b'|')?, out))
}

// A number of a model: one below 0 stands for 0.
pub fn natural(x: i32) -> u32 {
    u32::try_from(x).unwrap_or(0)
}

// A number for a call: one below 0 stands for the largest there is.
pub fn size(x: i32) -> usize {
    usize::try_from(x).unwrap_or(usize::MAX)
}
