// The walk's steps on lists of words: bounds as half-spaces, entering a location, a candidate, the target test.
#![tactic(auto)]

ghost use Rattle.std.specs.Prelude.{◌≡◌};
ghost use Rattle.bounds.specs.Limits.{BoundsLimits};
ghost use Rattle.model.specs.Plain.{bounds_of, edge_of};
ghost use Rattle.runs.specs.Rule.{cut_all, entering, following};
ghost use Rattle.runs.specs.Shown.{Shows};
ghost use Rattle.steps.specs.Steps.{Listed, Starts, meets_by};

use bounds::Bounds;
use list::{begin, cut_all, entered, followed, show};
use model::Edge;
use numbers::Refusal;

mod table; // table.rt: bounds as half-spaces
mod list; // list.rt: steps on the list at the front of working memory

// Enters a location with its invariant.
pub fn enter(n: usize, invariant: &Bounds, list: &[i32], out: &mut [i32]) -> Result<usize, Refusal>
    requires { Starts n list.now out.old × BoundsLimits n invariant.now }
    ensures { Shows n (entering n (bounds_of n invariant.now) list.now)
        out.old result out.new }
{
    let mut work = [0; 224];
    let k = begin(&mut work, list, n);
    let answer = entered(&mut work, k, invariant, n);
    show(out, answer, &work, n)
}

// Forms the candidate over an edge to a location with its invariant.
pub fn candidate(
    n: usize,
    edge: &Edge,
    invariant: &Bounds,
    list: &[i32],
    out: &mut [i32],
) -> Result<usize, Refusal>
    requires { Starts n list.now out.old × BoundsLimits n edge.now.guard × BoundsLimits n invariant.now }
    ensures { Shows n (following n (edge_of n edge.now) (bounds_of n invariant.now) list.now)
        out.old result out.new }
{
    let mut work = [0; 224];
    let k = begin(&mut work, list, n);
    let answer = followed(&mut work, k, edge, invariant, n);
    show(out, answer, &work, n)
}

// Whether the list's set meets the bounds of the target.
pub fn meets(n: usize, goal: &Bounds, list: &[i32]) -> Result<bool, Refusal>
    requires { Listed n list.now × BoundsLimits n goal.now }
    ensures { result ≡ meets_by (cut_all n (bounds_of n goal.now) list.now) }
{
    let mut work = [0; 224];
    let k = begin(&mut work, list, n);
    let m = cut_all(&mut work, k, goal, n)?;
    Ok(m != 0)
}
