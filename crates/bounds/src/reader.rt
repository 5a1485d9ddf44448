// Bounds read from bytes. The first fault in reading order is the refusal.
ghost use Rattle.std.specs.Prelude.{◌≡◌, ◌≤◌, ◌<◌, MatchResult};
ghost use Rattle.numbers.specs.declared.Refusal.TheVariants.{Model};
ghost use Rattle.codec.specs.Answers.{Reads};
ghost use Rattle.bounds.specs.Bounds.{kind_of, entry_of};
ghost use Rattle.bounds.specs.Bounds.{entry_form, plain_form, differ_form, half_form};
ghost use Rattle.bounds.specs.Bounds.{bound_form, bounds_form};

use crate::{Bound, Bounds, Kind};
use codec::Reading;
use numbers::{Refusal, Vector};

// The entry of a half-space that a number stands for.
fn entry_of(v: u32) -> i32
    requires { v < 2000002 }
    ensures { result ≡ entry_of v }
{
    if v == 0 {
        Vector::MARK
    } else {
        codec::unfold(v - 1)
    }
}

// An entry of a half-space.
#[tactic(auto, unfolding(crate::specs::Bounds::entry_form, codec::specs::Form::read_in))]
fn read_entry(s: &[u8]) -> Reading<'_, i32>
    ensures { Reads entry_form s.now result }
{
    let (v, s) = codec::read_below(s, 2000002)?;
    Ok((entry_of(v), s))
}

// The kind of each number below 5.
impl TryFrom<u32> for Kind {
    type Error = Refusal;

    fn try_from(v: u32) -> Result<Kind, Refusal>
        ensures { MatchResult result (λ k. (v < 5) × (k ≡ kind_of v)) (λ e. (5 ≤ v) × (e ≡ Model)) }
    {
        match v {
            0 => Ok(Kind::AtMost),
            1 => Ok(Kind::AtLeast),
            2 => Ok(Kind::DifferAtMost),
            3 => Ok(Kind::DifferAtLeast),
            4 => Ok(Kind::HalfSpace),
            _ => Err(Refusal::Model),
        }
    }
}

// Kinds 0 and 1: clock and k.
#[tactic(auto, unfolding(crate::specs::Bounds::plain_form, codec::specs::Form::read_in))]
fn read_plain(s: &[u8], n: u32, kind: Kind) -> Reading<'_, Bound>
    ensures { Reads (plain_form n kind) s.now result }
{
    let (x, s) = codec::read_below(s, n)?;
    let (k, s) = codec::read_below(s, 1000001)?;
    let bound = Bound {
        x,
        y: 0,
        k: k as i32,
        half: [0; 14],
        kind,
    };
    Ok((bound, s))
}

// Kinds 2 and 3: two clocks that differ, and a folded k.
#[tactic(auto, unfolding(crate::specs::Bounds::differ_form, codec::specs::Form::read_in))]
fn read_differ(s: &[u8], n: u32, kind: Kind) -> Reading<'_, Bound>
    ensures { Reads (differ_form n kind) s.now result }
{
    let (x, s) = codec::read_below(s, n)?;
    let (y, s) = codec::read_below(s, n)?;
    if x == y {
        return Err(Refusal::Model);
    }
    let (v, s) = codec::read_below(s, 2000001)?;
    let bound = Bound {
        x,
        y,
        k: codec::unfold(v),
        half: [0; 14],
        kind,
    };
    Ok((bound, s))
}

// Kind 4: a whole half-space.
#[tactic(auto, unfolding(crate::specs::Bounds::half_form, codec::specs::Form::read_in))]
fn read_whole(s: &[u8], n: u32) -> Reading<'_, Bound>
    requires { n ≤ 6 }
    ensures { Reads (half_form n) s.now result }
{
    let mut half = [0; 14];
    let count = ((n + 1) * 2) as usize;
    let s = codec::read_items(s, &mut half[..count], read_entry)?;
    let bound = Bound {
        x: 0,
        y: 0,
        k: 0,
        half,
        kind: Kind::HalfSpace,
    };
    Ok((bound, s))
}

// A bound over n clocks.
#[tactic(auto, unfolding(crate::specs::Bounds::bound_form, codec::specs::Form::read_in))]
fn read_bound(s: &[u8], n: u32) -> Reading<'_, Bound>
    requires { n ≤ 6 }
    ensures { Reads (bound_form n) s.now result }
{
    let (v, s) = codec::read_number(s)?;
    let kind = Kind::try_from(v)?;
    match kind {
        Kind::AtMost | Kind::AtLeast => read_plain(s, n, kind),
        Kind::DifferAtMost | Kind::DifferAtLeast => read_differ(s, n, kind),
        Kind::HalfSpace => read_whole(s, n),
    }
}

// A list of bounds over n clocks.
#[tactic(auto, unfolding(crate::specs::Bounds::bounds_form, codec::specs::Form::read_in))]
pub fn read_bounds(s: &[u8], n: u32) -> Reading<'_, Bounds>
    requires { n ≤ 6 }
    ensures { Reads (bounds_form n) s.now result }
{
    let (count, s) = codec::read_below(s, 9)?;
    let mut items = [crate::no_bound(); 8];
    let s = codec::read_items(s, &mut items[..count as usize], |s| read_bound(s, n))?;
    Ok((Bounds { count, items }, s))
}
