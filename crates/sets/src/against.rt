// A vector tested against a list, as membership, inclusion and cleaning ask it.
ghost use Rattle.std.specs.Prelude.{◌≡◌, ◌≤◌, length};
ghost use Rattle.numbers.specs.Places.{entries};
ghost use Rattle.sets.specs.Falls.{Falls, reach_of, Testable, Next, Gathered, Ends};
ghost use Rattle.sets.specs.Falls.{Raisable, Raised, Coverable, all_used};
ghost use Rattle.sets.specs.Rules.{generated, covered as coveredBy};

use crate::Short;
use numbers::{Vector, lift, weight};

// What no vectors reach.
const NOTHING: [i32; 7] = [Vector::MARK; 7];

// The flags of a list of which all vectors are used.
const ALL: [bool; 32] = [true; 32];

// The first entry where the largest combination of the used vectors that is not above x is smaller than x.
pub fn short(list: &[i32], m: usize, used: &[bool], x: &[i32]) -> Option<Short>
    requires { Testable list.now m used.now x.now }
    ensures { Falls (length x.now)
        (reach_of list.now m used.now x.now) (entries x.now) result }
{
    let mut reached = NOTHING;
    let at = gather(&mut reached[..x.len()], list, m, used, x)?;
    Some(Short {
        at,
        reached: reached[at],
    })
}

// The first entry of x from `from` on that is above what is reached.
fn next(reached: &[i32], from: usize, x: &[i32]) -> Option<usize>
    requires { (length reached.now ≡ length x.now) × (from ≤ length x.now) }
    ensures { Next from reached.now x.now result }
{
    (from..x.len()).find(|j| reached[*j] < x[*j])
}

// The first entry of x above what the used vectors reach, which is left in `reached` there.
#[inline(always)] // in both callers: cleaning took 9% more where it was a call of its own
fn gather(reached: &mut [i32], list: &[i32], m: usize, used: &[bool], x: &[i32]) -> Option<usize>
    requires testable { Testable list.now m used.now x.now }
    requires gathered { Gathered list.now used.now x.now 0 0 reached.old }
    ensures { Ends list.now m used.now x.now result reached.new }
{
    let w = x.len();
    let mut from = 0;
    for i in 0..m {
        // by index: x may have no words, and there are no chunks of none
        if used[i] {
            let at = i * w;
            from = raise(reached, from, &list[at..at + w], x)?; // all of x is reached, and more vectors reach no less
        }
    }
    next(reached, from, x)
}

// What is reached from `from` on is raised by g at its largest weight. The answer: x is reached before it, or all of x.
fn raise(reached: &mut [i32], from: usize, g: &[i32], x: &[i32]) -> Option<usize>
    requires { Raisable from reached.old g.now x.now }
    ensures { Raised from reached.old g.now x.now result reached.new }
{
    let t = weight(g, x);
    if t == Vector::MARK {
        return Some(from);
    }
    lift(reached, from, g, t);
    next(reached, from, x)
}

// Whether x is a combination of the list's first m vectors.
pub fn generates(list: &[i32], m: usize, x: &[i32]) -> bool
    requires { Testable list.now m all_used x.now }
    ensures { result ≡ generated list.now m x.now }
{
    let mut reached = NOTHING;
    gather(&mut reached[..x.len()], list, m, &ALL, x).is_none()
}

// Whether each vector of inner is a combination of outer's vectors.
pub fn covered(n: usize, inner: &[i32], outer: &[i32]) -> bool
    requires { Coverable n inner.now outer.now }
    ensures { result ≡ coveredBy n inner.now outer.now }
{
    let m = outer.len() / (n + 1);
    inner
        .chunks_exact(n + 1)
        .all(|vector| generates(outer, m, vector))
}
