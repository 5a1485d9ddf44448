// The parts of a model, read from bytes. The first fault in reading order is the refusal.
ghost use Rattle.std.specs.Prelude.{◌≡◌, ◌≤◌};
ghost use Rattle.codec.specs.Answers.{Reads};
ghost use Rattle.model.specs.Bytes.{counted};
ghost use Rattle.model.specs.Models.{head_form, invariants_form, edge_form, edges_form, goal_form};

use crate::Edge;
use bounds::Bounds;
use codec::Reading;
use numbers::Refusal;

// What stands before the invariants.
#[derive(Clone, Copy)]
pub struct Head {
    pub clocks: u32,
    pub locations: u32,
    pub edges: u32,
    pub initial: u32,
}

// What stands behind the edges.
#[derive(Clone, Copy)]
pub struct Goal {
    pub target: u32,
    pub list: Bounds,
    pub depth: u32,
}

// A number below a limit that is not 0.
#[tactic(auto, unfolding(codec::specs::Form::read_in))]
fn read_positive(s: &[u8], limit: u32) -> Reading<'_, u32>
    ensures { Reads (counted limit) s.now result }
{
    let (value, s) = codec::read_below(s, limit)?;
    if value == 0 {
        return Err(Refusal::Model);
    }
    Ok((value, s))
}

// Clocks, locations, edges, initial location.
#[tactic(auto, unfolding(crate::specs::Models::head_form, codec::specs::Form::read_in))]
pub fn read_head(s: &[u8]) -> Reading<'_, Head>
    ensures { Reads head_form s.now result }
{
    let (clocks, s) = read_positive(s, 7)?;
    let (locations, s) = read_positive(s, 33)?;
    let (edges, s) = codec::read_below(s, 65)?;
    let (initial, s) = codec::read_below(s, locations)?;
    let head = Head {
        clocks,
        locations,
        edges,
        initial,
    };
    Ok((head, s))
}

// The invariant lists of the locations.
pub fn read_invariants(s: &[u8], n: u32, count: usize) -> Reading<'_, [Bounds; 32]>
    requires { (n ≤ 6) × (count ≤ 32) }
    ensures { Reads (invariants_form n count) s.now result }
{
    let mut invariants = [bounds::no_bounds(); 32];
    let s = codec::read_items(
        s,
        &mut invariants[..count],
        |s| bounds::reader::read_bounds(s, n),
    )?;
    Ok((invariants, s))
}

// An edge of a model with n clocks and l locations.
#[tactic(auto, using(codec::proofs::FormLaws::reading), unfolding(crate::specs::Models::edge_form))]
pub fn read_edge(s: &[u8], n: u32, l: u32) -> Reading<'_, Edge>
    requires { n ≤ 6 }
    ensures { Reads (edge_form n l) s.now result }
{
    let (source, s) = codec::read_below(s, l)?;
    let (destination, s) = codec::read_below(s, l)?;
    let (guard, s) = bounds::reader::read_bounds(s, n)?;
    let (resets, s) = codec::read_below(s, crate::reset_sets(n))?;
    let edge = Edge {
        source,
        destination,
        guard,
        resets,
    };
    Ok((edge, s))
}

// The edges.
pub fn read_edges(s: &[u8], n: u32, l: u32, count: usize) -> Reading<'_, [Edge; 64]>
    requires { (n ≤ 6) × (count ≤ 64) }
    ensures { Reads (edges_form n l count) s.now result }
{
    let mut steps = [crate::no_edge(); 64];
    let s = codec::read_items(s, &mut steps[..count], |s| read_edge(s, n, l))?;
    Ok((steps, s))
}

// Target location and list, depth.
#[tactic(auto, using(codec::proofs::FormLaws::reading), unfolding(crate::specs::Models::goal_form))]
pub fn read_goal(s: &[u8], n: u32, l: u32) -> Reading<'_, Goal>
    requires { n ≤ 6 }
    ensures { Reads (goal_form n l) s.now result }
{
    let (target, s) = codec::read_below(s, l)?;
    let (list, s) = bounds::reader::read_bounds(s, n)?;
    let (depth, s) = codec::read_below(s, 201)?;
    let goal = Goal {
        target,
        list,
        depth,
    };
    Ok((goal, s))
}
