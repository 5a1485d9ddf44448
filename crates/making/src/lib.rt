// The four calls that make a set: intersect, delay, reset, hull.
#![tactic(auto)]

ghost use Rattle.making.specs.Calls.{Intersects, Delays, Resets, Hulls};

use finish::finish;
use numbers::Refusal;
use work::Work;

mod input; // input.rt: whether the input of a call is good
mod work; // work.rt: vectors put into working memory
mod build; // build.rt: the vectors that stand before cleaning
mod half; // half.rt: the vectors that a half-space makes
mod clean; // clean.rt: vectors that others generate are dropped
mod range; // range.rt: the limits of a result
mod finish; // finish.rt: the result written to the lent area

// The vectors of the list's set that satisfy the half-space.
pub fn intersect(n: usize, list: &[i32], half: &[i32], out: &mut [i32]) -> Result<usize, Refusal>
    ensures { Intersects n list.now half.now out.old result out.new }
{
    input::intersect(n, list, half, out)?;
    let mut work = Work::new();
    half::cut(&mut work, list, half, n);
    finish(out, &work, n)
}

// All vectors of the list's set, later by whole ticks.
pub fn delay(n: usize, list: &[i32], out: &mut [i32]) -> Result<usize, Refusal>
    ensures { Delays n list.now out.old result out.new }
{
    input::delay(n, list, out)?;
    let mut work = Work::new();
    build::each(&mut work, list, n);
    build::rays(&mut work, list, n);
    finish(out, &work, n)
}

// All vectors of the list's set, with one clock replaced.
pub fn reset(
    n: usize,
    list: &[i32],
    clock: usize,
    value: i32,
    out: &mut [i32],
) -> Result<usize, Refusal>
    ensures { Resets n list.now clock value out.old result out.new }
{
    input::reset(n, list, clock, value, out)?;
    let mut work = Work::new();
    build::replace(&mut work, list, n, clock, value);
    finish(out, &work, n)
}

// The smallest max-plus polyhedron that holds both lists' sets.
pub fn hull(n: usize, first: &[i32], second: &[i32], out: &mut [i32]) -> Result<usize, Refusal>
    ensures { Hulls n first.now second.now out.old result out.new }
{
    input::hull(n, first, second, out)?;
    let mut work = Work::new();
    build::pointed(&mut work, first, n);
    build::pointed(&mut work, second, n);
    finish(out, &work, n)
}
