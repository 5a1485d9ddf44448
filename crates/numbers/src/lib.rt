// Numbers as words: the leaves that every vector is computed with.
#![tactic(auto)]

ghost use Rattle.std.specs.Prelude.{◌≡◌, ◌≤◌, pos, length};
ghost use Rattle.numbers.specs.Numbers.{◌⊕◌, ◌⊗◌, IsFin, Within};
ghost use Rattle.numbers.specs.Words.{number, mark};
ghost use Rattle.numbers.specs.Places.{entries, Each, side_of, Mixed, Lifted, Ended};
ghost use Rattle.numbers.specs.Weights.{bound, meet, weight_of, cap_of};
ghost use Rattle.numbers.specs.Refusals.{refusal_number};

// Why a call refuses.
#[derive(Clone, Copy, Debug, PartialEq, Eq)]
pub enum Refusal {
    Shape = 1,
    Entry = 2,
    Arg = 3,
    Range = 4,
    Gens = 5,
    Room = 6,
    Bytes = 7,
    Model = 8,
}

impl Refusal {
    // The number of the refusal.
    pub fn number(self) -> usize
        ensures { result ≡ refusal_number self }
    {
        self as usize
    }
}

// A vector in words: n clocks, then 0 for a point or the mark for a ray, the rest 0.
#[derive(Clone, Copy, Debug, PartialEq, Eq)]
pub struct Vector {
    pub words: [i32; 7],
}

impl Vector {
    // The word for −∞, and the last word of a ray.
    pub const MARK: i32 = -2147483648;

    // The least entry of a point.
    pub const LEAST_POINT: i32 = 0;

    // The least entry of a ray but for −∞.
    pub const LEAST_RAY: i32 = -1000000;

    // The largest entry of a point or a ray.
    pub const MOST: i32 = 1000000;

    // The point with these clocks.
    pub fn point(clocks: &[i32]) -> Self
        requires { length clocks.now ≤ 6 }
        ensures { Ended clocks.now (pos 0) result.words }
    {
        Vector::ended(clocks, 0)
    }

    // The ray with these clocks.
    pub fn ray(clocks: &[i32]) -> Self
        requires { length clocks.now ≤ 6 }
        ensures { Ended clocks.now mark result.words }
    {
        Vector::ended(clocks, Vector::MARK)
    }

    fn ended(clocks: &[i32], last: i32) -> Self
        requires { length clocks.now ≤ 6 }
        ensures { Ended clocks.now last result.words }
    {
        let n = clocks.len();
        let mut words = [0; 7];
        words[..n].copy_from_slice(clocks);
        words[n] = last;
        Vector { words }
    }
}

// A word below this, where vectors are computed with, is the mark: the test takes less than one for the mark itself.
// Each function says its own words' bound: they are lent slices, and a type that wraps them would be no plainer.
const LEAST: i32 = -1000000000;

// The larger of two numbers.
fn larger(a: i32, b: i32) -> i32
    ensures { number result ≡ number a ⊕ number b }
{
    a.max(b)
}

// The product of two numbers: their sum, and −∞ if one of them is −∞.
pub fn product(a: i32, b: i32) -> i32
    requires { Within 1000000000 (number a) × Within 1000000000 (number b) }
    ensures { number result ≡ number a ⊗ number b }
{
    if a == Vector::MARK {
        return a;
    }
    if b == Vector::MARK {
        return b;
    }
    a + b
}

// One side of a half-space at a vector.
pub fn side(a: &[i32], x: &[i32]) -> i32
    requires { (length a.now ≡ length x.now) × Each 1000000000 a.now × Each 1000000000 x.now }
    ensures { number result
        ≡ side_of (length x.now) (entries a.now) (entries x.now) }
{
    let mut most = Vector::MARK;
    for (c, y) in a.iter().zip(x) {
        if LEAST <= *c {
            most = larger(most, product(*c, *y));
        }
    }
    most
}

// The bound of a weight that nothing bounds: with an Option for it a test takes a twelfth more instructions.
const FREE: i32 = 2147483647;

// The smaller of the bound m and x − g, where neither x nor g is −∞.
fn under(m: i32, x: i32, g: i32) -> i32
    requires fin { IsFin (number x) × IsFin (number g) }
    requires within { Within 1000000000 (number x) × Within 1000000000 (number g) }
    ensures { cap_of result ≡ meet (cap_of m) (bound (number x) (number g)) }
{
    m.min(x - g)
}

// The largest weight at which g stays below x; x − (−∞) sets no bound, and −∞ − g leaves no weight but −∞.
pub fn weight(g: &[i32], x: &[i32]) -> i32
    requires { (length g.now ≡ length x.now) × Each 1000000000 g.now × Each 1000000000 x.now }
    ensures { number result
        ≡ weight_of (length x.now) (entries g.now) (entries x.now) }
{
    let mut m = FREE;
    // from the last entry, which tells a point from a ray; by index, since a zip from its end takes two fifths longer
    for j in (0..x.len()).rev() {
        if LEAST <= g[j] {
            if x[j] < LEAST {
                return x[j];
            }
            m = under(m, x[j], g[j]);
        }
    }
    if m == FREE { Vector::MARK } else { m }
}

// The vector in `out`, weighted by s, becomes the larger of itself and h weighted by t.
pub fn mix(out: &mut [i32], s: i32, h: &[i32], t: i32)
    requires h_len { length h.now ≡ length out.old }
    requires each { Each 1000000000 out.old × Each 1000000000 h.now }
    requires within { Within 1000000000 (number s) × Within 1000000000 (number t) }
    ensures { Mixed out.old (number s) h.now (number t) out.new }
{
    // by index: after a zip of what is written a proof would know its length alone
    for (j, x) in out.iter_mut().enumerate() {
        *x = larger(product(s, *x), product(t, h[j]));
    }
}

// The vector in `out` becomes, from entry `from` on, the larger of itself and h weighted by t.
pub fn lift(out: &mut [i32], from: usize, h: &[i32], t: i32)
    requires h_len { (length h.now ≡ length out.old) × (from ≤ length out.old) }
    requires each { Each 1000000000 h.now × Within 1000000000 (number t) }
    ensures { Lifted from out.old h.now (number t) out.new }
{
    for j in from..out.len() {
        if LEAST <= h[j] {
            out[j] = larger(out[j], product(t, h[j]));
        }
    }
}
