// What is printed of answers and areas.
use numbers::{Refusal, Vector};
use std::io;

// What each word of an area is before a call.
pub const FILL: i32 = 7;

// Prints a word, and the number of a refusal.
pub fn refused(rt: &impl Print, word: &str, e: Refusal) -> io::Result<()> {
    print!(rt; "{word} {}", e.number())
}

// Prints a word of an area behind a blank.
fn word(rt: &impl Print, x: i32) -> io::Result<()> {
    if x == Vector::MARK {
        return print!(rt; " -oo");
    }
    print!(rt; " {x}")
}

// A word modulo 2^32; the mark counts 123,457.
fn residue(x: i32) -> u32 {
    if x == Vector::MARK {
        123457
    } else {
        x.cast_unsigned()
    }
}

// The sum of the words, each times its place from 1, modulo 2^32: the sum of the sums from each place on.
fn sum(words: &[i32]) -> u32 {
    let mut whole = 0u32;
    let mut tail = 0u32;
    for x in words.iter().rev() {
        tail = tail.wrapping_add(residue(*x));
        whole = whole.wrapping_add(tail);
    }
    whole
}

// Prints a state area after a walk: as at entry, every word 0, or how many words there are up to the last that is not
// as at entry, and their sum.
pub fn states(rt: &impl Print, area: &[i32]) -> io::Result<()> {
    let Some(last) = area.iter().rposition(|x| *x != FILL) else {
        return print!(rt; ", entry");
    };
    if area.iter().all(|x| *x == 0) {
        return print!(rt; ", zero");
    }
    let kept = &area[..=last];
    print!(rt; ", kept {} {}", kept.len(), sum(kept))
}

// Prints the first n words of a result and whether the area behind them is as at entry.
pub fn result(rt: &impl Print, area: &[i32], n: usize) -> io::Result<()> {
    for x in area.iter().take(n) {
        word(rt, *x)?;
    }
    if area.iter().skip(n).all(|x| *x == FILL) {
        print!(rt; ", rest as before")
    } else {
        print!(rt; ", rest changed")
    }
}
