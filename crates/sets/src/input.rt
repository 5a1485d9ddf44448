// Whether the input of a call is good: SHAPE before ENTRY.
ghost use Rattle.std.specs.Prelude.{◌≡◌, ◌≤◌};
ghost use Rattle.sets.specs.Tests.{clocks_ok, whole_ok};
ghost use Rattle.sets.specs.Rules.{contains_checked, included_checked};

use crate::entries;
use numbers::Refusal;

// 1 to 6 clocks
#[tactic(auto, unfolding(crate::specs::Tests::clocks_ok))]
pub fn clocks(n: usize) -> bool
    ensures { result ≡ clocks_ok n }
{
    (1..=6).contains(&n)
}

// Whole vectors, at most 32.
#[tactic(auto, unfolding(crate::specs::Tests::whole_ok))]
pub fn whole(n: usize, long: usize) -> bool
    requires { n ≤ 6 }
    ensures { result ≡ whole_ok n long }
{
    let w = n + 1;
    long % w == 0 && long / w <= 32
}

// The input of `contains`: good, or the first refusal.
#[tactic(auto, unfolding(crate::specs::Rules::contains_checked, crate::specs::Tests::clocks_ok))]
pub fn contains(n: usize, list: &[i32], point: &[i32]) -> Result<(), Refusal>
    ensures { result ≡ contains_checked n list.now point.now }
{
    if !clocks(n) || !whole(n, list.len()) || point.len() != n {
        return Err(Refusal::Shape);
    }
    if !entries::list_fits(n, list) || !entries::words_fit(point, n, false) {
        return Err(Refusal::Entry);
    }
    Ok(())
}

// The input of `included`: good, or the first refusal.
#[tactic(auto, unfolding(crate::specs::Rules::included_checked, crate::specs::Tests::clocks_ok))]
pub fn included(n: usize, inner: &[i32], outer: &[i32]) -> Result<(), Refusal>
    ensures { result ≡ included_checked n inner.now outer.now }
{
    if !clocks(n) || !whole(n, inner.len()) || !whole(n, outer.len()) {
        return Err(Refusal::Shape);
    }
    if !entries::list_fits(n, inner) || !entries::list_fits(n, outer) {
        return Err(Refusal::Entry);
    }
    Ok(())
}
