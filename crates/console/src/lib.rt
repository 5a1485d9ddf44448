// The program: one model from standard input, one answer to standard output.
#![tactic(auto)]

ghost use Rattle.std.specs.Prelude.{◌≡◌, ◌≤◌, length, IfOk, IfSome};
ghost use Rattle.std.specs.Io.{ReadsAtMost};
ghost use Rattle.std.specs.Io.KnownBytes.{ReadConsumes};
ghost use Rattle.console.specs.Reports.{Begins, Reported, Reports};

use answer::TEXT;
use std::io;
use std::io::{ErrorKind, Read, Write};

// The most bytes that are read of an input: more than the longest model has.
pub const INPUT: usize = 65536;

// The words of a state area with room for 64 states over 6 clocks.
const AREA: usize = 14592;

// The bytes of the text of an error: more than the system's or std's longest.
const REASON: usize = 128;

// Writes the text for the input of which the first n bytes of the buffer are all that it has room for.
pub fn report(buffer: &[u8; INPUT], n: usize, text: &mut [u8; TEXT]) -> usize
    ensures { Reports buffer.now n text.old result text.new }
{
    let mut area = [0i32; AREA];
    answer::answer(&buffer[..n.min(buffer.len())], &mut area, text)
}

// Reads once, and again as long as a signal comes first.
fn read_some<R: Read>(input: &mut R, part: &mut [u8]) -> io::Result<usize>
    ensures bound { ReadsAtMost result part.new }
    ensures bytes { ReadConsumes (R.remaining input.old) (R.remaining input.new) result part.new }
{
    for _ in 0..u64::MAX {
        match input.read(part) {
            Err(e) if e.kind() == ErrorKind::Interrupted => {}
            got => return got,
        }
    }
    input.read(part)
}

// Reads the input until it ends or the buffer is full, and answers how many bytes there are.
fn read<R: Read>(input: &mut R, buffer: &mut [u8]) -> io::Result<usize>
    ensures within { IfOk result (λ n. n ≤ length buffer.new) }
    ensures begins { IfOk result (λ n. IfSome (R.remaining input.old) (Begins buffer.new n)) }
{
    let mut at = 0;
    // a reading takes as many bytes as come, so no range counts them
    while at < buffer.len() {
        let more = read_some(input, &mut buffer[at..])?;
        if more == 0 {
            return Ok(at);
        }
        at += more;
    }
    Ok(at)
}

// Writes the text for what the input holds.
fn respond<R: Read>(input: &mut R, text: &mut [u8; TEXT]) -> io::Result<usize>
    ensures within { IfOk result (λ r. r ≤ length text.new) }
    ensures reported { IfOk result (λ r. IfSome (R.remaining input.old) (λ xs. Reported xs text.old r text.new)) }
{
    let mut buffer = [0u8; INPUT];
    let n = read(input, &mut buffer)?;
    Ok(report(&buffer, n, text))
}

// The text of an error at the start of zeros, without the number that std puts behind the system's.
fn reason(text: &str) -> &str {
    match text.split_once(" (os error ") {
        Some((front, _)) => front,
        None => text.trim_end_matches('\0'),
    }
}

// Tells on standard error which stream failed, and why.
fn tell(rt: &impl Eprint, stream: &str, error: io::Error) {
    let mut bytes = [0u8; REASON];
    let mut room = &mut bytes[..];
    let _ = write!(room, "{error}");
    let why = reason(str::from_utf8(&bytes).unwrap_or(""));
    let _ = eprintln!(rt; "scionwheel: {stream}: {why}");
}

// Prints the text for standard input; what cannot be read or written is told on standard error.
pub fn run(rt: &(impl Input + Print + Eprint)) {
    let mut text = [0u8; TEXT];
    let mut input = rt.reader();
    match respond(&mut input, &mut text) {
        Err(e) => tell(rt, "standard input", e),
        Ok(length) => {
            if let Err(e) = rt.write_all(&text[..length]) {
                tell(rt, "standard output", e);
            }
        }
    }
}
