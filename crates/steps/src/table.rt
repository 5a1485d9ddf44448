// Bounds become half-spaces by a fixed table of four rows; a half-space of its own is taken as it is.
ghost use Rattle.std.specs.Prelude.{◌≡◌, ◌≤◌, ◌<◌};
ghost use Rattle.bounds.specs.Limits.{BoundLimits};
ghost use Rattle.model.specs.Plain.{bound_by};
ghost use Rattle.runs.specs.Table.{half_of, row_words, place as place_of};
ghost use Rattle.steps.specs.Rows.{slot_by, row_by, Halves};

use bounds::{Bound, Kind};
use numbers::Vector;

// The slots of a half-space: clock x or y of a, b, clock x or y of c, and d.
#[derive(Clone, Copy)]
enum Slot {
    Ax,
    Ay,
    B,
    Cx,
    Cy,
    D,
}

// Which slot gets 0, and which gets k. All other entries are −∞.
#[derive(Clone, Copy)]
struct Row {
    nought: Slot,
    constant: Slot,
}

// Where a slot stands among the 2(n + 1) words.
fn place(n: usize, x: usize, y: usize, slot: Slot) -> usize
    requires { (n ≤ 6) × (x < n) × (y < n) }
    ensures { result ≡ place_of n x y (slot_by slot) }
{
    match slot {
        Slot::Ax => x,
        Slot::Ay => y,
        Slot::B => n,
        Slot::Cx => n + 1 + x,
        Slot::Cy => n + 1 + y,
        Slot::D => n + 1 + n,
    }
}

// The half-space that a row makes of the clocks x and y and the constant k.
fn by_row(n: usize, row: Row, x: usize, y: usize, k: i32) -> [i32; 14]
    requires { (n ≤ 6) × (x < n) × (y < n) }
    ensures { Halves n (row_words n (row_by row) x y k) result }
{
    let p = place(n, x, y, row.nought);
    let q = place(n, x, y, row.constant);
    let mut half = [Vector::MARK; 14];
    half[p] = 0;
    half[q] = k;
    half
}

// The half-space of a bound: by the row of its kind, or its own.
pub fn half(b: &Bound, n: usize) -> [i32; 14]
    requires { (n ≤ 6) × BoundLimits n b.now }
    ensures { Halves n (half_of n (bound_by n b.now b.now.kind)) result }
{
    let row = match b.kind {
        Kind::AtMost => Row {
            nought: Slot::Ax,
            constant: Slot::D,
        },
        Kind::AtLeast => Row {
            nought: Slot::Cx,
            constant: Slot::B,
        },
        Kind::DifferAtMost => Row {
            nought: Slot::Ax,
            constant: Slot::Cy,
        },
        Kind::DifferAtLeast => Row {
            nought: Slot::Cx,
            constant: Slot::Ay,
        },
        Kind::HalfSpace => return b.half,
    };
    by_row(n, row, b.x as usize, b.y as usize, b.k)
}
