// Walks over a lent area: `walk words | bytes`.
use crate::show::FILL;
use crate::{CaseError, show, text};
use numbers::Refusal;
use runs::Verdict;
use std::io;

// The words of the largest area: 65 records over 6 clocks.
const MOST: usize = 14820;

// Walks a model in the first words of an area.
pub fn run(rt: &impl Print, s: &[u8]) -> Result<(), CaseError> {
    let mut words = [0];
    let mut bytes = [0u8; 1024];
    let (_, rest) = text::row(s, &mut words);
    let (bytes, rest) = text::next_row(rest, &mut bytes)?;
    text::end(rest)?;
    let words = text::size(words[0]);
    print!(rt; "{words} words, ")?;
    let mut area = [FILL; MOST];
    let lent = area.get_mut(..words).ok_or(CaseError::Unreadable)?;
    verdict(rt, walk::walk(bytes, lent))?;
    show::states(rt, lent)?;
    Ok(())
}

fn verdict(rt: &impl Print, answer: Result<Verdict, Refusal>) -> io::Result<()> {
    match answer {
        Ok(Verdict::Reached { edges, kept, tried }) => print!(rt; "REACHED {edges} {kept} {tried}"),
        Ok(Verdict::Never { kept, tried }) => print!(rt; "NEVER {kept} {tried}"),
        Ok(Verdict::Open { depth, kept, tried }) => print!(rt; "OPEN {depth} {kept} {tried}"),
        Err(e) => show::refused(rt, "REFUSED", e),
    }
}
