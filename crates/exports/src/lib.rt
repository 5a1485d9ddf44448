// The calls for C and Rust: over slices and plain numbers, each answer one number.
#![tactic(auto)]

ghost use Rattle.std.specs.Prelude.{◌≡◌, pos, ◌≤◌};
ghost use Rattle.numbers.specs.Integers.{hi};
ghost use Rattle.numbers.specs.Refusals.{refusal_number};
ghost use Rattle.runs.specs.Verdicts.{answer_by};
ghost use Rattle.exports.specs.Exported.{minus, told_number, made_number, answer_number, counts_of};
ghost use Rattle.exports.specs.Exported.{ContainsNumbered, IncludedNumbered, IntersectsNumbered, DelaysNumbered};
ghost use Rattle.exports.specs.Exported.{ResetsNumbered, HullsNumbered, Rewrites, WalksNumbered, PrintsNumbered};

use answer::TEXT;
use numbers::Refusal;
use runs::Verdict;

// A refusal: minus its number.
fn refused(e: Refusal) -> i64
    ensures { result ≡ minus (refusal_number e) }
{
    0 - (e.number() as i64)
}

// A count.
fn count(k: usize) -> i64
    requires { k ≤ 33664 }
    ensures { result ≡ pos k }
{
    k as i64
}

// The answer of a call that asks: 1 or 0, or the refusal.
fn told(answer: Result<bool, Refusal>) -> i64
    ensures { result ≡ told_number answer }
{
    match answer {
        Ok(yes) => i64::from(yes),
        Err(e) => refused(e),
    }
}

// The answer of a call that makes a set or writes bytes: how many vectors or bytes stand in the area, or the refusal.
fn counted(answer: Result<usize, Refusal>) -> i64
    requires { hi (made_number answer) ≤ 33664 }
    ensures { result ≡ made_number answer }
{
    match answer {
        Ok(k) => count(k),
        Err(why) => refused(why),
    }
}

// The answer of the walk: 0 for NEVER, 1 for REACHED, 2 for OPEN, or the refusal.
fn walked(answer: Result<Verdict, Refusal>) -> i64
    ensures { result ≡ answer_number (answer_by answer) }
{
    match answer {
        Ok(Verdict::Never { .. }) => 0,
        Ok(Verdict::Reached { .. }) => 1,
        Ok(Verdict::Open { .. }) => 2,
        Err(e) => refused(e),
    }
}

// Its counts: edges or depth, kept, tried; a refusal has none, and leaves those that were there.
fn counts_of(answer: Result<Verdict, Refusal>, earlier: [u64; 3]) -> [u64; 3]
    ensures { result ≡ counts_of (answer_by answer) earlier }
{
    match answer {
        Ok(Verdict::Never { kept, tried }) => [0, kept as u64, tried as u64],
        Ok(Verdict::Reached { edges, kept, tried }) => [edges as u64, kept as u64, tried as u64],
        Ok(Verdict::Open { depth, kept, tried }) => [depth as u64, kept as u64, tried as u64],
        Err(_) => earlier,
    }
}

// Whether the point is in the list's set.
#[unsafe(no_mangle)]
pub extern "C" fn scionwheel_contains(n: usize, list: &[i32], point: &[i32]) -> i64
    ensures { ContainsNumbered n list.now point.now result }
{
    told(sets::contains(n, list, point))
}

// Whether inner's set is in outer's.
#[unsafe(no_mangle)]
pub extern "C" fn scionwheel_included(n: usize, inner: &[i32], outer: &[i32]) -> i64
    ensures { IncludedNumbered n inner.now outer.now result }
{
    told(sets::included(n, inner, outer))
}

// The vectors of the list's set that satisfy the half-space.
#[unsafe(no_mangle)]
pub extern "C" fn scionwheel_intersect(n: usize, list: &[i32], half: &[i32], out: &mut [i32]) -> i64
    ensures { IntersectsNumbered n list.now half.now out.old result out.new }
{
    counted(making::intersect(n, list, half, out))
}

// All vectors of the list's set, later by whole ticks.
#[unsafe(no_mangle)]
pub extern "C" fn scionwheel_delay(n: usize, list: &[i32], out: &mut [i32]) -> i64
    ensures { DelaysNumbered n list.now out.old result out.new }
{
    counted(making::delay(n, list, out))
}

// All vectors of the list's set, with one clock replaced.
#[unsafe(no_mangle)]
pub extern "C" fn scionwheel_reset(
    n: usize,
    list: &[i32],
    clock: usize,
    value: i32,
    out: &mut [i32],
) -> i64
    ensures { ResetsNumbered n list.now clock value out.old result out.new }
{
    counted(making::reset(n, list, clock, value, out))
}

// The smallest max-plus polyhedron that holds both lists' sets.
#[unsafe(no_mangle)]
pub extern "C" fn scionwheel_hull(n: usize, first: &[i32], second: &[i32], out: &mut [i32]) -> i64
    ensures { HullsNumbered n first.now second.now out.old result out.new }
{
    counted(making::hull(n, first, second, out))
}

// Reads a model and writes it.
fn rewrite(bytes: &[u8], out: &mut [u8]) -> Result<usize, Refusal>
    ensures exact { Rewrites bytes.now out.old (made_number result) out.new }
    ensures few { hi (made_number result) ≤ 33664 }
{
    let model = model::read(bytes)?;
    model::write(&model, out)
}

// Reads a model and writes it: how many bytes stand in the area.
#[unsafe(no_mangle)]
pub extern "C" fn scionwheel_rewrite(bytes: &[u8], out: &mut [u8]) -> i64
    ensures { Rewrites bytes.now out.old result out.new }
{
    counted(rewrite(bytes, out))
}

// Walks a model: 0 for NEVER, 1 for REACHED, 2 for OPEN, and the answer's numbers in `counts`.
#[unsafe(no_mangle)]
pub extern "C" fn scionwheel_walk(bytes: &[u8], area: &mut [i32], counts: &mut [u64; 3]) -> i64
    ensures { WalksNumbered bytes.now area.old counts.old result area.new
        counts.new }
{
    let answer = walk::walk(bytes, area);
    *counts = counts_of(answer, *counts);
    walked(answer)
}

// The printed answer for a model: its length.
#[unsafe(no_mangle)]
pub extern "C" fn scionwheel_print(bytes: &[u8], area: &mut [i32], text: &mut [u8; TEXT]) -> i64
    ensures { PrintsNumbered bytes.now area.old text.old result area.new
        text.new }
{
    count(answer::answer(bytes, area, text))
}
