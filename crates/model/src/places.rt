// The outline of a model's bytes: its numbers, and the places where its lists and edges stand.
ghost use Rattle.std.specs.Prelude.{◌≡◌, ◌≤◌, IfOk};
ghost use Rattle.codec.specs.Answers.{ReadsAs};
ghost use Rattle.bounds.specs.Bounds.{bounds_form};
ghost use Rattle.model.specs.Models.{edge_form};
ghost use Rattle.model.specs.Outlines.{list_at, edge_at, list_by, edge_by, ReadsOutline};

use crate::{Edge, Outline, Standing, reader};
use bounds::Bounds;
use codec::Reading;
use numbers::Refusal;

// The list of bounds that stands at a place, or the blank one.
pub fn list_at(s: &[u8], n: u32) -> Bounds
    requires { n ≤ 6 }
    ensures { result ≡ list_at n s.now }
{
    match bounds::reader::read_bounds(s, n) {
        Ok((list, _)) => list,
        Err(_) => bounds::no_bounds(),
    }
}

// The edge that stands at a place, or the blank one.
pub fn edge_at(s: &[u8], n: u32, l: u32) -> Edge
    requires { n ≤ 6 }
    ensures { result ≡ edge_at n l s.now }
{
    match reader::read_edge(s, n, l) {
        Ok((edge, _)) => edge,
        Err(_) => crate::no_edge(),
    }
}

// Reads a list of bounds: the bytes from which it is read.
fn list_place(s: &[u8], n: u32) -> Reading<'_, &[u8]>
    requires { n ≤ 6 }
    ensures { ReadsAs (list_by n) (bounds_form n) s.now result }
{
    let (_, rest) = bounds::reader::read_bounds(s, n)?;
    Ok((s, rest))
}

// Reads an edge: its source, and the bytes from which it is read.
fn edge_place(s: &[u8], n: u32, l: u32) -> Reading<'_, Standing<'_>>
    requires { n ≤ 6 }
    ensures read { ReadsAs (edge_by n l) (edge_form n l) s.now result }
    ensures from { IfOk result (λ p. p.0.source ≡ (edge_by n l p.0).source) }
{
    let (edge, rest) = reader::read_edge(s, n, l)?;
    let place = Standing {
        source: edge.source,
        bytes: s,
    };
    Ok((place, rest))
}

// Reads the outline of a model: where its parts stand, or the refusal of the first fault.
pub fn read_outline(bytes: &[u8]) -> Result<Outline<'_>, Refusal>
    ensures { ReadsOutline bytes.now result }
{
    let (head, s) = reader::read_head(bytes)?;
    let n = head.clocks;
    let l = head.locations;
    let mut invariants = [bytes; 32];
    let s = codec::read_items(s, &mut invariants[..l as usize], |s| list_place(s, n))?;
    let mut steps = [Standing { source: 0, bytes }; 64];
    let edges = head.edges as usize;
    let s = codec::read_items(s, &mut steps[..edges], |s| edge_place(s, n, l))?;
    let (_, list) = codec::read_below(s, l)?; // the goal's list stands behind its target
    let (goal, s) = reader::read_goal(s, n, l)?;
    if !s.is_empty() {
        return Err(Refusal::Bytes);
    }
    Ok(Outline {
        clocks: n,
        locations: l,
        edges: head.edges,
        initial: head.initial,
        invariants,
        steps,
        target: goal.target,
        list,
        depth: goal.depth,
    })
}
