// Reading and writing of models: `read | bytes`, and `write room | bytes | change | change`. A change names a field of
// the model that was read, and gives its numbers: `clocks k`, `depth k`, `target k`, `invariant i count`,
// `resets i set`; of the target list `bound i kind x y k` and `entry i j word`. An index counts round its list.
use crate::{CaseError, show, text};
use bounds::{Bound, Kind};
use model::Model;
use numbers::Refusal;
use std::io;

// What each byte of an area is before a call.
const BLANK: u8 = 7;

// The bytes of the area that a changed model is written to.
const MOST: usize = 64;

// What a field of a model becomes; an item's place in its list comes first.
#[derive(Clone, Copy)]
enum Change {
    Clocks(u32),
    Depth(u32),
    Target(u32),
    Invariant(usize, u32),
    Resets(usize, u32),
    Bound(usize, Bound),
    Entry(usize, usize, i32),
}

impl Change {
    // The change of the field of that name.
    fn new(name: &[u8], numbers: [i32; 5]) -> Result<Change, CaseError> {
        let [k, l, word, ..] = numbers;
        let (k, l) = (text::natural(k), text::natural(l));
        match name {
            b"clocks" => Ok(Change::Clocks(k)),
            b"depth" => Ok(Change::Depth(k)),
            b"target" => Ok(Change::Target(k)),
            b"invariant" => Ok(Change::Invariant(k as usize, l)),
            b"resets" => Ok(Change::Resets(k as usize, l)),
            b"bound" => Ok(Change::Bound(k as usize, bound(numbers))),
            b"entry" => Ok(Change::Entry(k as usize, l as usize, word)),
            _ => Err(CaseError::Unreadable),
        }
    }

    // Makes the change in a model.
    fn make(self, m: &mut Model) {
        match self {
            Change::Clocks(k) => m.clocks = k,
            Change::Depth(k) => m.depth = k,
            Change::Target(k) => m.target = k,
            Change::Invariant(i, count) => m.invariants[i % 32].count = count,
            Change::Resets(i, set) => m.steps[i % 64].resets = set,
            Change::Bound(i, b) => m.list.items[i % 8] = b,
            Change::Entry(i, j, word) => m.list.items[i % 8].half[j % 14] = word,
        }
    }
}

// Reads bytes, and writes what was read.
pub fn read(rt: &impl Print, s: &[u8]) -> Result<(), CaseError> {
    let mut bytes = [0u8; 1024];
    let (bytes, rest) = text::next_row(s, &mut bytes)?;
    text::end(rest)?;
    rewrite(rt, bytes)?;
    Ok(())
}

fn rewrite(rt: &impl Print, bytes: &[u8]) -> io::Result<()> {
    let mut out = [BLANK; 1024];
    match model::read(bytes) {
        Ok(m) => back(rt, model::write(&m, &mut out), &out, bytes),
        Err(e) => show::refused(rt, "REFUSED", e),
    }
}

// Prints whether a model was written as the same bytes.
fn back(
    rt: &impl Print,
    answer: Result<usize, Refusal>,
    out: &[u8],
    bytes: &[u8],
) -> io::Result<()> {
    let Ok(n) = answer else {
        return print!(rt; "MODEL, not written");
    };
    let which = if out.get(..n) == Some(bytes) {
        "the same"
    } else {
        "others"
    };
    print!(rt; "MODEL {n} bytes, {which}")
}

// Reads bytes, changes the model, and writes it.
pub fn write(rt: &impl Print, s: &[u8]) -> Result<(), CaseError> {
    let mut room = [0];
    let mut bytes = [0u8; 1024];
    let (_, rest) = text::row(s, &mut room);
    let (bytes, rest) = text::next_row(rest, &mut bytes)?;
    let (a, rest) = next_change(rest)?;
    let (b, rest) = next_change(rest)?;
    text::end(rest)?;
    write_first(rt, bytes, [a, b], text::size(room[0]))
}

// The model that is changed where the bytes are refused: every number of it is 0.
fn no_model() -> Model {
    Model {
        clocks: 0,
        locations: 0,
        edges: 0,
        initial: 0,
        invariants: [bounds::no_bounds(); 32],
        steps: [model::no_edge(); 64],
        target: 0,
        list: bounds::no_bounds(),
        depth: 0,
    }
}

// Writes the model of the bytes, with the changes, to the first bytes of an area.
fn write_first(
    rt: &impl Print,
    bytes: &[u8],
    changes: [Option<Change>; 2],
    room: usize,
) -> Result<(), CaseError> {
    let mut area = [BLANK; MOST];
    let lent = area.get_mut(..room).ok_or(CaseError::Unreadable)?;
    let mut m = model::read(bytes).unwrap_or(no_model());
    for change in changes.into_iter().flatten() {
        change.make(&mut m);
    }
    written(rt, model::write(&m, lent), &area)?;
    Ok(())
}

fn written(rt: &impl Print, answer: Result<usize, Refusal>, area: &[u8]) -> io::Result<()> {
    match answer {
        Ok(n) => {
            print!(rt; "BYTES {n}")?;
            unchanged(rt, area, n)
        }
        Err(e) => {
            show::refused(rt, "REFUSED", e)?;
            unchanged(rt, area, 0)
        }
    }
}

// Prints whether the area from a place on is as at entry.
fn unchanged(rt: &impl Print, area: &[u8], from: usize) -> io::Result<()> {
    let mut behind = area.iter().enumerate().skip(from);
    match behind.find(|(_, b)| **b != BLANK) {
        Some((i, _)) => print!(rt; ", changed behind {i}"),
        None => print!(rt; ", unchanged from {from}"),
    }
}

// The change that stands behind the next bar, if one does.
fn next_change(s: &[u8]) -> Result<(Option<Change>, &[u8]), CaseError> {
    let (name, rest) = text::name(text::behind(s, b'|')?);
    let mut numbers = [0; 5];
    let (_, rest) = text::row(rest, &mut numbers);
    if name.is_empty() {
        return Ok((None, rest));
    }
    Ok((Some(Change::new(name, numbers)?), rest))
}

// The bound of a kind, x, y and k, in words 1 to 4; its entries are 0.
fn bound(numbers: [i32; 5]) -> Bound {
    let [_, which, x, y, k] = numbers;
    Bound {
        x: text::natural(x),
        y: text::natural(y),
        k,
        half: [0; 14],
        kind: Kind::try_from(which.cast_unsigned()).unwrap_or(Kind::HalfSpace),
    }
}
