// Runs the cases of standard input, one to a line, and prints the answer of each behind its label.
// A line is `label: call numbers | row | row`; the heads of lists.rt, models.rt and walking.rt say which calls there
// are. A line that is empty or begins with # is passed over.
#![tactic(auto)]

use std::io;
use std::io::Read;

mod lists; // lists.rt: the calls over lists
mod models; // models.rt: reading and writing of models
mod show; // show.rt: what is printed
mod text; // text.rt: the words of a line
mod walking; // walking.rt: walks over a lent area

// The most bytes of standard input, and one more.
const MOST: usize = 131072;

// Why a line has no answer: it is not as it must be, or nothing can be printed.
#[derive(Debug, Drop)]
pub enum CaseError {
    Unreadable,
    Output(io::Error),
}

impl From<io::Error> for CaseError {
    fn from(e: io::Error) -> CaseError {
        CaseError::Output(e)
    }
}

fn main(rt: HostRuntime) -> io::Result<()> {
    let mut input = [0u8; MOST];
    let n = read(&mut rt.stdin(), &mut input)?;
    if MOST <= n {
        return println!(rt; "too many cases");
    }
    for s in input[..n].split(|b| *b == b'\n') {
        line(&rt, s)?;
    }
    Ok(())
}

// Reads the input until it ends or the buffer is full, and answers how many bytes there are.
fn read(input: &mut impl Read, mut buffer: &mut [u8]) -> io::Result<usize> {
    let most = buffer.len() as u64;
    let n = io::copy(&mut input.by_ref().take(most), &mut buffer)?;
    Ok(n as usize)
}

// Prints a line's label, and what its call answers.
fn line(rt: &impl Print, s: &[u8]) -> io::Result<()> {
    if matches!(s, [] | [b'#', ..]) {
        return Ok(());
    }
    let (label, rest) = text::cut(s, |b| *b == b':');
    rt.write_all(label)?;
    print!(rt; ": ")?;
    match call(rt, rest) {
        Ok(()) => println!(rt),
        Err(CaseError::Unreadable) => println!(rt; "UNREADABLE"),
        Err(CaseError::Output(e)) => Err(e),
    }
}

// Runs the call that stands behind the label.
fn call(rt: &impl Print, s: &[u8]) -> Result<(), CaseError> {
    let (name, rest) = text::name(text::behind(s, b':')?);
    match name {
        b"read" => models::read(rt, rest),
        b"write" => models::write(rt, rest),
        b"walk" => walking::run(rt, rest),
        _ => lists::run(rt, name, rest),
    }
}
