// A model: its record, read from bytes and written as bytes.
#![tactic(auto)]

ghost use Rattle.std.specs.Prelude.{◌≡◌, ◌≤◌, ◌^◌};
ghost use Rattle.model.specs.Models.{no_edge};
ghost use Rattle.model.specs.Answers.{ReadsModel, WritesModel, written_said};

use bounds::Bounds;
use numbers::Refusal;

mod limits;
mod reader;
mod writer;
pub mod places; // places.rt: where the parts of a model stand in its bytes

// An edge. Bit i of `resets` stands for clock i.
#[derive(Clone, Copy, Debug, PartialEq, Eq)]
pub struct Edge {
    pub source: u32,
    pub destination: u32,
    pub guard: Bounds,
    pub resets: u32,
}

// A model. What is behind the first `locations` invariants and the first `edges` steps is unused, and may be what it is
// refused for.
#[derive(Clone, Copy, Debug, PartialEq, Eq)]
pub struct Model {
    pub clocks: u32,
    pub locations: u32,
    pub edges: u32,
    pub initial: u32,
    pub invariants: [Bounds; 32],
    pub steps: [Edge; 64],
    pub target: u32,
    pub list: Bounds,
    pub depth: u32,
}

// An edge's source, and the bytes that it is read from.
#[derive(Clone, Copy)]
pub struct Standing<'a> {
    pub source: u32,
    pub bytes: &'a [u8],
}

// What a walk needs of a model's bytes: its numbers, and the bytes from which its lists and edges are read.
#[derive(Clone, Copy)]
pub struct Outline<'a> {
    pub clocks: u32,
    pub locations: u32,
    pub edges: u32,
    pub initial: u32,
    pub invariants: [&'a [u8]; 32],
    pub steps: [Standing<'a>; 64],
    pub target: u32,
    pub list: &'a [u8],
    pub depth: u32,
}

// The edge that stands where there is none.
pub fn no_edge() -> Edge
    ensures { result ≡ no_edge }
{
    Edge {
        source: 0,
        destination: 0,
        guard: bounds::no_bounds(),
        resets: 0,
    }
}

// How many reset sets there are over n clocks: 2 to the power n.
fn reset_sets(n: u32) -> u32
    requires { n ≤ 6 }
    ensures { result ≡ 2 ^ n }
{
    1 << n
}

// Reads a model: the model that the bytes stand for, or the refusal of the first fault.
pub fn read(bytes: &[u8]) -> Result<Model, Refusal>
    ensures { ReadsModel bytes.now result }
{
    let (head, s) = reader::read_head(bytes)?;
    let n = head.clocks;
    let l = head.locations;
    let (invariants, s) = reader::read_invariants(s, n, l as usize)?;
    let (steps, s) = reader::read_edges(s, n, l, head.edges as usize)?;
    let (goal, s) = reader::read_goal(s, n, l)?;
    if !s.is_empty() {
        return Err(Refusal::Bytes);
    }
    Ok(Model {
        clocks: n,
        locations: l,
        edges: head.edges,
        initial: head.initial,
        invariants,
        steps,
        target: goal.target,
        list: goal.list,
        depth: goal.depth,
    })
}

// Writes a model: its bytes at the start of the area, or the refusal, and the area as it was.
pub fn write(model: &Model, out: &mut [u8]) -> Result<usize, Refusal>
    ensures { WritesModel model.now out.old out.new (written_said result) }
{
    if !limits::model_fits(model) {
        return Err(Refusal::Model);
    }
    if 33664 <= out.len() {
        return Ok(writer::write_model(out, model)); // no model is longer
    }
    let mut bytes = [0u8; 33664];
    let end = writer::write_model(&mut bytes, model);
    if out.len() < end {
        return Err(Refusal::Shape);
    }
    out[..end].copy_from_slice(&bytes[..end]);
    Ok(end)
}
