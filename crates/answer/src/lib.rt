// The answer of the walk as text: from a model's bytes to the lines that a person reads.
#![tactic(auto)]

ghost use Rattle.model.specs.Outlines.{model_by};
ghost use Rattle.answer.specs.Printed.{Prints};
ghost use Rattle.answer.specs.Shown.{Printable, Lines, Ready, PrintsModel};

use model::{Outline, places};
use runs::Verdict;

// The bytes of a text area: room for every answer, of which the longest has 397.
pub const TEXT: usize = 512;

// The lines of the path to state i: those of its parent, kept before it, and its own.
fn lines(area: &[i32], n: usize, i: usize, text: &mut [u8], at: usize) -> usize
    requires { Printable n area.now i text.old at }
    ensures { Lines n area.now i text.old at text.new result }
{
    let from = i * area::size(n);
    let parent = area[from + 1];
    if parent < 0 {
        return at;
    }
    let edge = area[from + 2];
    let location = area[from];
    let end = lines(area, n, parent as usize, text, at);
    printing::line(text, end, edge as usize, location as usize)
}

// Walks a model and writes its text: the first line, and under REACHED the lines of the path.
fn print(outline: Outline, area: &mut [i32], text: &mut [u8]) -> usize
    requires { Ready outline text.old }
    ensures { PrintsModel (model_by outline.entry) area.old text.old
        area.new text.new result }
{
    let n = outline.clocks as usize;
    let answer = walk::walk_outline(outline, area);
    let at = printing::head(text, answer);
    match answer {
        Ok(Verdict::Reached { kept, .. }) => lines(area, n, kept - 1, text, at),
        Ok(Verdict::Never { .. }) => at, // the first line is all
        Ok(Verdict::Open { .. }) => at,
        Err(_) => at,
    }
}

// Writes the text of the walk over bytes, and answers how long it is.
pub fn answer(bytes: &[u8], area: &mut [i32], text: &mut [u8; TEXT]) -> usize
    ensures { Prints bytes.now area.old text.old result area.new
        text.new }
{
    match places::read_outline(bytes) {
        Ok(outline) => print(outline, area, text),
        Err(e) => printing::head(text, Err(e)),
    }
}
