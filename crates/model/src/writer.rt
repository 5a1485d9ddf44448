// A model in its limits, written as bytes.
ghost use Rattle.std.specs.Prelude.{◌≤◌};
ghost use Rattle.codec.specs.Answers.{Writes, Room};
ghost use Rattle.codec.specs.Writing.{HasRoom, Wrote};
ghost use Rattle.model.specs.Limits.{EdgeLimits, ModelLimits};
ghost use Rattle.model.specs.Written.{edge_bytes, model_bytes};

use crate::{Edge, Model};
use bounds::writer::write_bounds;
use codec::Writer;

// An edge of a model with n clocks.
#[tactic(auto, using(crate::proofs::StoreLaws::edge_stores), unfolding(crate::specs::Written::edge_bytes))]
fn write_edge(w: &mut Writer<'_>, e: &Edge, n: u32)
    requires n_bound { (n ≤ 6) × EdgeLimits n 32 e.now }
    requires room { HasRoom w.old (edge_bytes n e.now) }
    ensures { Wrote w.old (edge_bytes n e.now) w.new }
{
    w.number(e.source);
    w.number(e.destination);
    write_bounds(w, &e.guard, n);
    w.number(e.resets);
}

// A model at the start of an area, and where its bytes end.
#[tactic(auto, using(codec::proofs::WriteLaws::items), unfolding(crate::specs::Written::model_bytes))]
pub fn write_model(out: &mut [u8], m: &Model) -> usize
    requires { ModelLimits m.now × Room 0 (model_bytes m.now) out.old }
    ensures { Writes out.old 0 (model_bytes m.now) out.new result }
{
    let mut w = Writer { out, at: 0 };
    w.number(m.clocks);
    w.number(m.locations);
    w.number(m.edges);
    w.number(m.initial);
    for bs in &m.invariants[..m.locations as usize] {
        write_bounds(&mut w, bs, m.clocks);
    }
    for e in &m.steps[..m.edges as usize] {
        write_edge(&mut w, e, m.clocks);
    }
    w.number(m.target);
    write_bounds(&mut w, &m.list, m.clocks);
    w.number(m.depth);
    w.at
}
