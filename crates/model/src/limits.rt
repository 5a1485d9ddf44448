// Whether a model is in its limits, what is unused being 0.
ghost use Rattle.std.specs.Prelude.{◌≤◌};
ghost use Rattle.numbers.proofs.Tells.{Tells};
ghost use Rattle.codec.specs.Arrays.{Packed};
ghost use Rattle.bounds.specs.Bounds.{no_bounds};
ghost use Rattle.bounds.specs.Limits.{BoundsLimits};
ghost use Rattle.model.specs.Models.{no_edge};
ghost use Rattle.model.specs.Limits.{EdgeLimits, NumberLimits, ModelLimits};

use crate::{Edge, Model};
use bounds::limits::bounds_fit;
use codec::arrays::packed;

fn edge_fits(e: &Edge, n: u32, l: u32) -> bool
    requires { n ≤ 6 }
    ensures { Tells result (EdgeLimits n l e.now) }
{
    e.source < l && e.destination < l && e.resets < crate::reset_sets(n) && bounds_fit(&e.guard, n)
}

// The counts and the numbers of a model.
fn numbers_fit(m: &Model) -> bool
    ensures { Tells result
        (NumberLimits m.now.clocks m.now.locations m.now.edges m.now.initial m.now.target m.now.depth) }
{
    (1..=6).contains(&m.clocks)
        && (1..=32).contains(&m.locations)
        && m.edges <= 64
        && m.initial < m.locations
        && m.target < m.locations
        && m.depth <= 200
}

fn invariants_fit(m: &Model) -> bool
    requires { m.now.clocks ≤ 6 }
    ensures { Tells result (Packed (BoundsLimits m.now.clocks) no_bounds 32 m.now.locations m.now.invariants) }
{
    let blank = bounds::no_bounds();
    let n = m.clocks;
    let count = m.locations as usize;
    packed(&m.invariants, count, blank, |bs| bounds_fit(bs, n))
}

fn edges_fit(m: &Model) -> bool
    requires { m.now.clocks ≤ 6 }
    ensures { Tells result (Packed (EdgeLimits m.now.clocks m.now.locations) no_edge 64 m.now.edges m.now.steps) }
{
    let blank = crate::no_edge();
    let n = m.clocks;
    let l = m.locations;
    packed(&m.steps, m.edges as usize, blank, |e| edge_fits(e, n, l))
}

// Whether a model is in its limits.
pub fn model_fits(m: &Model) -> bool
    ensures { Tells result (ModelLimits m.now) }
{
    numbers_fit(m) && invariants_fit(m) && edges_fit(m) && bounds_fit(&m.list, m.clocks)
}
