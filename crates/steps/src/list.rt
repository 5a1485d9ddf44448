// Steps on the list at the front of working memory. What stands behind the list is never read.
ghost use Rattle.std.specs.Prelude.{◌<◌};
ghost use Rattle.bounds.specs.Limits.{BoundLimits, BoundsLimits};
ghost use Rattle.model.specs.Bytes.{clocks_of};
ghost use Rattle.model.specs.Plain.{bound_by, bounds_of, edge_of};
ghost use Rattle.runs.specs.Rule.{cut as cut_to, delayed as delayedTo, reset_to0, cut_all, reset_all};
ghost use Rattle.runs.specs.Rule.{entering, following};
ghost use Rattle.runs.specs.Shown.{Shows};
ghost use Rattle.runs.specs.Table.{half_of};
ghost use Rattle.steps.specs.Steps.{Listed};
ghost use Rattle.steps.specs.Working.{front, step_by, Memory, Working, Begun, Stepped, Showable};

use crate::table::half;
use bounds::{Bound, Bounds};
use model::Edge;
use numbers::Refusal;

// The list copied to the front, and how many vectors it has.
pub fn begin(work: &mut [i32], list: &[i32], n: usize) -> usize
    requires { Memory n work.old × Listed n list.now }
    ensures { Begun n list.now result work.new }
{
    work[..list.len()].copy_from_slice(list);
    list.len() / (n + 1)
}

// The list that an answer tells of, put to the front of the area; a refusal leaves the area as it was.
pub fn show(
    area: &mut [i32],
    answer: Result<usize, Refusal>,
    work: &[i32],
    n: usize,
) -> Result<usize, Refusal>
    requires { Showable n answer work.now area.old }
    ensures { Shows n (step_by n answer work.now) area.old result area.new }
{
    let k = answer?;
    let words = k * (n + 1);
    area[..words].copy_from_slice(&work[..words]);
    Ok(k)
}

// What satisfies the bound.
fn cut(work: &mut [i32], k: usize, b: &Bound, n: usize) -> Result<usize, Refusal>
    requires { Working n k work.old × BoundLimits n b.now }
    ensures { Stepped n (cut_to n (half_of n (bound_by n b.now b.now.kind)) (front n k work.old))
        result work.new }
{
    let words = half(b, n);
    let mut next = [0; 224];
    let answer = making::intersect(n, &work[..k * (n + 1)], &words[..2 * (n + 1)], &mut next);
    show(work, answer, &next, n)
}

// What is reached by a delay.
fn delayed(work: &mut [i32], k: usize, n: usize) -> Result<usize, Refusal>
    requires { Working n k work.old }
    ensures { Stepped n (delayedTo n (front n k work.old)) result work.new }
{
    let mut next = [0; 224];
    let answer = making::delay(n, &work[..k * (n + 1)], &mut next);
    show(work, answer, &next, n)
}

// Clock i set to 0.
fn reset(work: &mut [i32], k: usize, i: usize, n: usize) -> Result<usize, Refusal>
    requires { Working n k work.old × (i < n) }
    ensures { Stepped n (reset_to0 n i (front n k work.old)) result work.new }
{
    let mut next = [0; 224];
    let answer = making::reset(n, &work[..k * (n + 1)], i, 0, &mut next);
    show(work, answer, &next, n)
}

// What satisfies the bounds of a list, in their order.
pub fn cut_all(work: &mut [i32], k: usize, bounds: &Bounds, n: usize) -> Result<usize, Refusal>
    requires { Working n k work.old × BoundsLimits n bounds.now }
    ensures { Stepped n (cut_all n (bounds_of n bounds.now) (front n k work.old)) result work.new }
{
    let mut m = k;
    for b in &bounds.items[..bounds.count as usize] {
        m = cut(work, m, b, n)?;
    }
    Ok(m)
}

// The clocks whose bits are set, set to 0 in rising order.
fn reset_all(work: &mut [i32], k: usize, resets: u32, n: usize) -> Result<usize, Refusal>
    requires { Working n k work.old }
    ensures { Stepped n (reset_all n (clocks_of n 0 resets) (front n k work.old)) result work.new }
{
    let mut m = k;
    let mut bits = resets;
    for i in 0..n {
        if bits % 2 == 1 {
            m = reset(work, m, i, n)?;
        }
        bits /= 2;
    }
    Ok(m)
}

// A location entered: its invariant, a delay, its invariant.
pub fn entered(work: &mut [i32], k: usize, invariant: &Bounds, n: usize) -> Result<usize, Refusal>
    requires { Working n k work.old × BoundsLimits n invariant.now }
    ensures { Stepped n (entering n (bounds_of n invariant.now) (front n k work.old)) result work.new }
{
    let l = cut_all(work, k, invariant, n)?;
    let m = delayed(work, l, n)?;
    cut_all(work, m, invariant, n)
}

// An edge followed to a location: its guard, its resets, the location entered.
pub fn followed(
    work: &mut [i32],
    k: usize,
    edge: &Edge,
    invariant: &Bounds,
    n: usize,
) -> Result<usize, Refusal>
    requires { Working n k work.old × BoundsLimits n edge.now.guard × BoundsLimits n invariant.now }
    ensures { Stepped n (following n (edge_of n edge.now) (bounds_of n invariant.now) (front n k work.old))
        result work.new }
{
    let l = cut_all(work, k, &edge.guard, n)?;
    let m = reset_all(work, l, edge.resets, n)?;
    entered(work, m, invariant, n)
}
