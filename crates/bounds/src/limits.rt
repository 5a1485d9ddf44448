// Whether bounds are in their limits, what is unused being 0.
ghost use Rattle.std.specs.Prelude.{◌≤◌};
ghost use Rattle.numbers.proofs.Tells.{Tells};
ghost use Rattle.bounds.specs.Limits.{EntryLimits, PlainLimits, DifferLimits, HalfLimits};
ghost use Rattle.bounds.specs.Limits.{BoundLimits, BoundsLimits};

use crate::{Bound, Bounds, Kind};
use codec::arrays::packed;
use numbers::Vector;

fn entry_fits(z: &i32) -> bool
    ensures { Tells result (EntryLimits z.now) }
{
    *z == Vector::MARK || (Vector::LEAST_RAY..=Vector::MOST).contains(z)
}

// Kinds 0 and 1.
fn plain_fits(b: &Bound, n: u32) -> bool
    ensures { Tells result (PlainLimits n b.now) }
{
    b.x < n && b.y == 0 && (0..=Vector::MOST).contains(&b.k) && b.half == [0; 14]
}

// Kinds 2 and 3.
fn differ_fits(b: &Bound, n: u32) -> bool
    ensures { Tells result (DifferLimits n b.now) }
{
    b.x < n
        && b.y < n
        && b.x != b.y
        && (Vector::LEAST_RAY..=Vector::MOST).contains(&b.k)
        && b.half == [0; 14]
}

// Kind 4.
fn whole_fits(b: &Bound, n: u32) -> bool
    requires { n ≤ 6 }
    ensures { Tells result (HalfLimits n b.now) }
{
    let count = ((n + 1) * 2) as usize;
    b.x == 0 && b.y == 0 && b.k == 0 && packed(&b.half, count, 0, entry_fits)
}

fn bound_fits(b: &Bound, n: u32) -> bool
    requires { n ≤ 6 }
    ensures { Tells result (BoundLimits n b.now) }
{
    match b.kind {
        Kind::AtMost | Kind::AtLeast => plain_fits(b, n),
        Kind::DifferAtMost | Kind::DifferAtLeast => differ_fits(b, n),
        Kind::HalfSpace => whole_fits(b, n),
    }
}

// Whether a list of bounds over n clocks is in its limits.
pub fn bounds_fit(bs: &Bounds, n: u32) -> bool
    requires { n ≤ 6 }
    ensures { Tells result (BoundsLimits n bs.now) }
{
    let blank = crate::no_bound();
    packed(&bs.items, bs.count as usize, blank, |b| bound_fits(b, n))
}
