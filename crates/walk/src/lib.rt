// The walk: layer after layer over the state area, from a model's bytes to the verdict.
#![tactic(auto)]

ghost use Rattle.model.specs.Outlines.{model_by, Outlines};
ghost use Rattle.walk.specs.Walks.{WalksModel, Walks};

use bounds::Bounds;
use layers::Ground;
use model::Outline;
use numbers::Refusal;
use runs::Verdict;

mod keeping;
mod layers;

// How many states are kept, and how many candidates were formed.
#[derive(Clone, Copy, Debug, PartialEq, Eq)]
pub struct Tally {
    pub kept: usize,
    pub tried: usize,
}

// The target: its location and its list.
#[derive(Clone, Copy, Debug, PartialEq, Eq)]
pub struct Goal {
    pub location: u32,
    pub list: Bounds,
}

// A part of the walk goes on, or has met the target with the state kept last: two answers, beside which `?` passes a
// refusal on.
#[derive(Clone, Copy, Debug, PartialEq, Eq)]
pub enum Moved {
    Going(Tally),
    Met(Tally),
}

// Walks a model by its outline: SHAPE for an area under one record, then the walk; its refusal leaves every word 0.
pub fn walk_outline(outline: Outline, area: &mut [i32]) -> Result<Verdict, Refusal>
    requires { Outlines outline }
    ensures { WalksModel (model_by outline.entry) area.old result area.new }
{
    let n = outline.clocks as usize;
    if area.len() < area::size(n) {
        return Err(Refusal::Shape);
    }
    let ground = Ground {
        outline: &outline,
        room: area::room(area, n),
    };
    let walked = ground.begin(area);
    if walked.is_err() {
        area::zero(area);
    }
    walked
}

// Walks the model that the bytes stand for.
pub fn walk(bytes: &[u8], area: &mut [i32]) -> Result<Verdict, Refusal>
    ensures { Walks bytes.now area.old result area.new }
{
    let outline = model::places::read_outline(bytes)?;
    walk_outline(outline, area)
}
