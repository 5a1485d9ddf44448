// Bounds and lists of bounds.
#![tactic(auto)]

ghost use Rattle.std.specs.Prelude.{◌≡◌};
ghost use Rattle.bounds.specs.Bounds.{kind_number, no_bound, no_bounds};

pub mod limits;
pub mod reader;
pub mod writer;

// A bound's kind: x ≤ k, x ≥ k, x − y ≤ k, x − y ≥ k, or a whole half-space.
#[derive(Clone, Copy, Debug, PartialEq, Eq)]
pub enum Kind {
    AtMost,
    AtLeast,
    DifferAtMost,
    DifferAtLeast,
    HalfSpace,
}

impl Kind {
    // The number that a kind is written as.
    pub fn number(self) -> u32
        ensures { result ≡ kind_number self }
    {
        self as u32
    }
}

// A bound. What its kind leaves unused is 0.
#[derive(Clone, Copy, Debug, PartialEq, Eq)]
pub struct Bound {
    pub x: u32,
    pub y: u32,
    pub k: i32,
    pub half: [i32; 14],
    pub kind: Kind,
}

// A list of bounds. What is behind the first `count` is unused, and may be what a model is refused for.
#[derive(Clone, Copy, Debug, PartialEq, Eq)]
pub struct Bounds {
    pub count: u32,
    pub items: [Bound; 8],
}

// The bound that stands where there is none.
pub fn no_bound() -> Bound
    ensures { result ≡ no_bound }
{
    Bound {
        x: 0,
        y: 0,
        k: 0,
        half: [0; 14],
        kind: Kind::AtMost,
    }
}

// The list that has no bounds.
pub fn no_bounds() -> Bounds
    ensures { result ≡ no_bounds }
{
    Bounds {
        count: 0,
        items: [no_bound(); 8],
    }
}
