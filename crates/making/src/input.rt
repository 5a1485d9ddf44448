// Whether the input of a making call is good: SHAPE before ENTRY before ARG.
ghost use Rattle.std.specs.Prelude.{◌≡◌};
ghost use Rattle.making.specs.Rules.{shape_ok, intersect_checked, delay_checked, reset_checked, hull_checked};

use numbers::Refusal;
use sets::{entries, input};

// The shape of a list and of a result area.
#[tactic(auto, using(crate::proofs::InputLaws::few_clocks), unfolding(crate::specs::Rules::shape_ok))]
fn shape(n: usize, list: &[i32], area: &[i32]) -> bool
    ensures { result ≡ shape_ok n list.now area.now }
{
    input::clocks(n) && input::whole(n, list.len()) && 32 * (n + 1) <= area.len()
}

// The input of `intersect`: good, or the first refusal.
#[tactic(auto, using(crate::proofs::InputLaws::few_shape), unfolding(crate::specs::Rules::intersect_checked))]
pub fn intersect(n: usize, list: &[i32], half: &[i32], area: &[i32]) -> Result<(), Refusal>
    ensures { result ≡ intersect_checked n list.now half.now area.now }
{
    if !shape(n, list, area) || half.len() != 2 * (n + 1) {
        return Err(Refusal::Shape);
    }
    if !entries::list_fits(n, list) || !entries::words_fit(half, 2 * (n + 1), true) {
        return Err(Refusal::Entry);
    }
    Ok(())
}

// The input of `delay`: good, or the first refusal.
#[tactic(auto, using(crate::proofs::InputLaws::few_shape), unfolding(crate::specs::Rules::delay_checked))]
pub fn delay(n: usize, list: &[i32], area: &[i32]) -> Result<(), Refusal>
    ensures { result ≡ delay_checked n list.now area.now }
{
    if !shape(n, list, area) {
        return Err(Refusal::Shape);
    }
    if !entries::list_fits(n, list) {
        return Err(Refusal::Entry);
    }
    Ok(())
}

// The input of `reset`: good, or the first refusal.
#[tactic(auto, using(crate::proofs::InputLaws::few_shape), unfolding(crate::specs::Rules::reset_checked))]
pub fn reset(n: usize, list: &[i32], clock: usize, value: i32, area: &[i32]) -> Result<(), Refusal>
    ensures { result ≡ reset_checked n list.now clock value area.now }
{
    delay(n, list, area)?;
    if n <= clock || !entries::word_fits(value, false) {
        return Err(Refusal::Arg);
    }
    Ok(())
}

// The input of `hull`: good, or the first refusal.
#[tactic(auto, using(crate::proofs::InputLaws::few_shape), unfolding(crate::specs::Rules::hull_checked))]
pub fn hull(n: usize, first: &[i32], second: &[i32], area: &[i32]) -> Result<(), Refusal>
    ensures { result ≡ hull_checked n first.now second.now area.now }
{
    if !shape(n, first, area) || !input::whole(n, second.len()) {
        return Err(Refusal::Shape);
    }
    if !entries::list_fits(n, first) || !entries::list_fits(n, second) {
        return Err(Refusal::Entry);
    }
    Ok(())
}
