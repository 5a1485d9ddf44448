// The calls over lists: `contains n | list | point`, `included n | inner | outer`,
// `intersect n area | list | half-space`, `delay n area | list`, `hull n area | first | second`,
// `reset n area clock | list | value`. The area has 231 words where no number is given.
use crate::show::FILL;
use crate::{CaseError, show, text};
use numbers::Refusal;
use std::io;

// The words of the area: those of 33 vectors over 6 clocks.
const MOST: usize = 231;

// A question of a set, or the making of one.
#[derive(Clone, Copy)]
enum Call {
    Contains,
    Included,
    Make(Operation),
}

// What makes a set.
#[derive(Clone, Copy)]
enum Operation {
    Intersect,
    Delay,
    Hull,
    Reset,
}

impl TryFrom<&[u8]> for Call {
    type Error = CaseError;

    fn try_from(name: &[u8]) -> Result<Call, CaseError> {
        match name {
            b"contains" => Ok(Call::Contains),
            b"included" => Ok(Call::Included),
            b"intersect" => Ok(Call::Make(Operation::Intersect)),
            b"delay" => Ok(Call::Make(Operation::Delay)),
            b"hull" => Ok(Call::Make(Operation::Hull)),
            b"reset" => Ok(Call::Make(Operation::Reset)),
            _ => Err(CaseError::Unreadable),
        }
    }
}

// Asks, or makes a set.
pub fn run(rt: &impl Print, name: &[u8], s: &[u8]) -> Result<(), CaseError> {
    let call = Call::try_from(name)?;
    let mut numbers = [0, 231, 0];
    let mut first = [0i32; 240];
    let mut second = [0i32; 240];
    let (_, rest) = text::row(s, &mut numbers);
    let (first, rest) = text::next_row(rest, &mut first)?;
    let (second, rest) = text::next_row(rest, &mut second)?;
    text::end(rest)?;
    let numbers = numbers.map(text::size);
    let n = numbers[0];
    match call {
        Call::Contains => told(rt, sets::contains(n, first, second))?,
        Call::Included => told(rt, sets::included(n, first, second))?,
        Call::Make(operation) => make(rt, operation, numbers, first, second)?,
    }
    Ok(())
}

fn told(rt: &impl Print, answer: Result<bool, Refusal>) -> io::Result<()> {
    match answer {
        Ok(true) => print!(rt; "yes"),
        Ok(false) => print!(rt; "no"),
        Err(e) => show::refused(rt, "refused", e),
    }
}

// Makes a set in the first words of an area.
fn make(
    rt: &impl Print,
    operation: Operation,
    numbers: [usize; 3],
    first: &[i32],
    second: &[i32],
) -> Result<(), CaseError> {
    let [n, words, clock] = numbers;
    let mut area = [FILL; MOST];
    let lent = area.get_mut(..words).ok_or(CaseError::Unreadable)?;
    let answer = match operation {
        Operation::Intersect => making::intersect(n, first, second, lent),
        Operation::Delay => making::delay(n, first, lent),
        Operation::Hull => making::hull(n, first, second, lent),
        Operation::Reset => making::reset(n, first, clock, only(second), lent),
    };
    made(rt, answer, lent, n)?;
    Ok(())
}

// The one word of a row.
fn only(row: &[i32]) -> i32 {
    match row {
        [x] => *x,
        _ => 0,
    }
}

fn made(rt: &impl Print, answer: Result<usize, Refusal>, area: &[i32], n: usize) -> io::Result<()> {
    match answer {
        Ok(k) => {
            print!(rt; "vectors {k}, words")?;
            show::result(rt, area, n.saturating_add(1).saturating_mul(k))
        }
        Err(e) => {
            show::refused(rt, "refused", e)?;
            show::result(rt, area, 0)
        }
    }
}
