// Bounds in their limits, written as bytes. Each list has a loop of its own: a closure would need room that its caller
// shows.
ghost use Rattle.std.specs.Prelude.{◌≡◌, ◌≤◌, take};
ghost use Rattle.numbers.specs.Words.{number};
ghost use Rattle.codec.specs.Arrays.{each, All};
ghost use Rattle.codec.specs.Writing.{HasRoom, Wrote};
ghost use Rattle.bounds.specs.Limits.{EntryLimits, BoundLimits, BoundsLimits};
ghost use Rattle.bounds.specs.Written.{entry_number, entry_bytes, bound_bytes, bounds_bytes};

use crate::{Bound, Bounds, Kind};
use codec::Writer;
use numbers::Vector;

// The number that an entry of a half-space is written as.
#[tactic(auto, using(crate::proofs::WriterLaws::marks))]
fn entry_number(z: i32) -> u32
    requires { EntryLimits z }
    ensures { result ≡ entry_number (number z) }
{
    if z == Vector::MARK {
        0
    } else {
        codec::fold(z) + 1
    }
}

// The entries of a half-space.
#[tactic(auto, using(crate::proofs::WriterLaws::entries))]
fn write_half(w: &mut Writer<'_>, half: &[i32])
    requires limits { All EntryLimits half.now }
    requires room { HasRoom w.old (each entry_bytes half.now) }
    ensures { Wrote w.old (each entry_bytes half.now) w.new }
{
    for z in half {
        w.number(entry_number(*z));
    }
}

// A bound over n clocks.
#[tactic(auto, using(crate::proofs::WriterLaws::bound_stores), unfolding(crate::specs::Written::bound_bytes))]
fn write_bound(w: &mut Writer<'_>, b: &Bound, n: u32)
    requires n_bound { (n ≤ 6) × BoundLimits n b.now }
    requires room { HasRoom w.old (bound_bytes n b.now) }
    ensures { Wrote w.old (bound_bytes n b.now) w.new }
{
    w.number(b.kind.number());
    match b.kind {
        Kind::AtMost | Kind::AtLeast => {
            w.number(b.x);
            w.number(b.k as u32);
        }
        Kind::DifferAtMost | Kind::DifferAtLeast => {
            w.number(b.x);
            w.number(b.y);
            w.number(codec::fold(b.k));
        }
        Kind::HalfSpace => write_half(w, &b.half[..(n + 1) as usize * 2]),
    }
}

// A list of bounds over n clocks.
#[tactic(auto, using(codec::proofs::WriteLaws::items), unfolding(crate::specs::Written::bounds_bytes))]
pub fn write_bounds(w: &mut Writer<'_>, bs: &Bounds, n: u32)
    requires n_bound { (n ≤ 6) × BoundsLimits n bs.now }
    requires room { HasRoom w.old (bounds_bytes n bs.now) }
    ensures { Wrote w.old (bounds_bytes n bs.now) w.new }
{
    w.number(bs.count);
    for b in &bs.items[..bs.count as usize] {
        write_bound(w, b, n);
    }
}
