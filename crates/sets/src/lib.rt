// The two questions asked of a set: is a point in it, and is it included in another. Clocks and list come apart here and
// in what rests on this, as the calls take any of both; n ≤ 6 stands in clauses, since n is used as a number.
#![tactic(auto)]

ghost use Rattle.sets.specs.Calls.{Contains, IsIncluded};

use numbers::{Refusal, Vector};

pub mod entries; // entries.rt: whether words are within their limits
pub mod input; // input.rt: whether the input of a call is good
pub mod against; // against.rt: a vector tested against a list

// Where a vector falls short of what a list reaches: the entry, and the value reached there.
#[derive(Clone, Copy, Debug, PartialEq, Eq)]
pub struct Short {
    pub at: usize,
    pub reached: i32,
}

// Whether the point is in the list's set.
pub fn contains(n: usize, list: &[i32], point: &[i32]) -> Result<bool, Refusal>
    ensures { Contains n list.now point.now result }
{
    input::contains(n, list, point)?;
    let w = n + 1;
    let vector = Vector::point(point);
    Ok(against::generates(list, list.len() / w, &vector.words[..w]))
}

// Whether every vector of inner's set is in outer's set.
pub fn included(n: usize, inner: &[i32], outer: &[i32]) -> Result<bool, Refusal>
    ensures { IsIncluded n inner.now outer.now result }
{
    input::included(n, inner, outer)?;
    if !entries::has_point(n, inner) {
        return Ok(true); // the empty set is in every set
    }
    Ok(against::covered(n, inner, outer))
}
