// The text of an answer, written into a lent area.
#![tactic(auto)]

ghost use Rattle.std.specs.Prelude.{◌∷◌, [], ◌++◌};
ghost use Rattle.codec.specs.Answers.{Writes, Room};
ghost use Rattle.codec.specs.Arrays.{each};
ghost use Rattle.codec.specs.Writing.{HasRoom, Wrote};
ghost use Rattle.runs.specs.Verdicts.{answer_by};
ghost use Rattle.printing.specs.Text.{decimal, spaced, newline, head_of, line_of};

use codec::Writer;
use numbers::Refusal;
use runs::Verdict;

// A number in decimal. By hand: `write!` says what it wrote only where it answers Ok, and not that it does.
#[tactic(auto, using(codec::proofs::WriteLaws::stores, crate::proofs::NumberText::by_digits))]
fn number(w: &mut Writer<'_>, v: usize)
    requires { HasRoom w.old (decimal v) }
    ensures { Wrote w.old (decimal v) w.new }
{
    if v < 10 {
        w.byte(b'0' + v as u8);
    } else {
        number(w, v / 10);
        w.byte(b'0' + (v % 10) as u8);
    }
}

// A space and a number.
#[tactic(auto, using(codec::proofs::WriteLaws::stores), unfolding(crate::specs::Text::spaced))]
fn after_space(w: &mut Writer<'_>, v: usize)
    requires { HasRoom w.old (spaced v) }
    ensures { Wrote w.old (spaced v) w.new }
{
    w.byte(b' ');
    number(w, v);
}

// A word, numbers behind it, and the end of the line.
#[tactic(auto, using(codec::proofs::WriteLaws::items))]
fn row(w: &mut Writer<'_>, word: &[u8], numbers: &[usize])
    requires { HasRoom w.old (word.now ++ (each spaced numbers.now ++ newline)) }
    ensures { Wrote w.old (word.now ++ (each spaced numbers.now ++ newline)) w.new }
{
    w.bytes(word);
    for v in numbers {
        after_space(w, *v);
    }
    w.byte(b'\n');
}

// The first line of an answer.
fn first(w: &mut Writer<'_>, answer: Result<Verdict, Refusal>)
    requires { HasRoom w.old (head_of (answer_by answer)) }
    ensures { Wrote w.old (head_of (answer_by answer)) w.new }
{
    match answer {
        Ok(Verdict::Reached { edges, kept, tried }) => row(w, b"REACHED", &[edges, kept, tried]),
        Ok(Verdict::Never { kept, tried }) => row(w, b"NEVER", &[kept, tried]),
        Ok(Verdict::Open { depth, kept, tried }) => row(w, b"OPEN", &[depth, kept, tried]),
        Err(e) => row(w, b"REFUSED", &[e.number()]),
    }
}

// The first line of an answer, at the start of the area, and where it ends.
pub fn head(out: &mut [u8], answer: Result<Verdict, Refusal>) -> usize
    requires { Room 0 (head_of (answer_by answer)) out.old }
    ensures { Writes out.old 0 (head_of (answer_by answer)) out.new result }
{
    let mut text = Writer { out, at: 0 };
    first(&mut text, answer);
    text.at
}

// The line of an edge and the location that it enters, from a place on, and where it ends.
#[tactic(auto, using(codec::proofs::WriteLaws::stores), unfolding(crate::specs::Text::line_of))]
pub fn line(out: &mut [u8], at: usize, edge: usize, location: usize) -> usize
    requires { Room at (line_of (record { edge = edge; location = location })) out.old }
    ensures { Writes out.old at (line_of (record { edge = edge; location = location }))
        out.new result }
{
    let mut text = Writer { out, at };
    number(&mut text, edge);
    after_space(&mut text, location);
    text.byte(b'\n');
    text.at
}
