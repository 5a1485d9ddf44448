// The candidates of a state, the states of a layer, layer after layer.
ghost use Rattle.std.specs.Prelude.{◌≡◌, ◌+◌, ◌*◌, ◌≤◌, ◌<◌, get_or};
ghost use Rattle.bounds.specs.Limits.{BoundsLimits};
ghost use Rattle.model.specs.Outlines.{model_by, past_standing};
ghost use Rattle.model.specs.Plain.{plain, bounds_of, edge_of};
ghost use Rattle.runs.specs.Rule.{expand as expandBy, layer as layerBy, layers as layersBy, keep as keepBy};
ghost use Rattle.runs.specs.Rule.{following, try_edge, nothing, zeroth, begun, walk_of};
ghost use Rattle.runs.proofs.Depths.{Layer};
ghost use Rattle.steps.specs.Steps.{Listed};
ghost use Rattle.area.specs.Records.{state_in, states_in};
ghost use Rattle.walk.specs.Control.{Ready, Does, Finds, tally, walk_in, aimed, formed_to, ended_by};
ghost use Rattle.walk.specs.Grounds.{Grounded, system_of, walk_on, keeper_of};

use crate::keeping::{Candidate, Keeper};
use crate::{Goal, Moved, Tally};
use bounds::Bounds;
use model::{Edge, Outline, places};
use numbers::Refusal;
use runs::Verdict;

// What a walk goes over: the outline of a model's bytes, and the room for states.
#[derive(Clone, Copy)]
pub struct Ground<'a> {
    pub outline: &'a Outline<'a>,
    pub room: usize,
}

// Forms the candidate over edge e from state i, and judges it.
fn form(
    keeper: &Keeper,
    edge: &Edge,
    invariant: &Bounds,
    area: &mut [i32],
    y: Tally,
    i: usize,
    e: usize,
) -> Result<Moved, Refusal>
    requires ready { Ready keeper.now.n keeper.now.room y area.old × (i < y.kept) × (e < 64)
        × (edge.now.destination < 32) }
    requires bounds_limits { BoundsLimits keeper.now.n edge.now.guard × BoundsLimits keeper.now.n invariant.now
        × BoundsLimits keeper.now.n keeper.now.goal.list }
    ensures { Does keeper.now.n keeper.now.room y.kept y.tried
        (formed_to (aimed keeper.now.n keeper.now.goal) keeper.now.room edge.now.destination i e
        (walk_in keeper.now.n y area.old)
        (following keeper.now.n (edge_of keeper.now.n edge.now) (bounds_of keeper.now.n invariant.now)
        (state_in keeper.now.n area.old i).list))
        area.old result area.new }
{
    let n = keeper.n;
    let mut out = [0; 224];
    let state = area::locate(area, n, i);
    let k = steps::candidate(n, edge, invariant, state.list, &mut out)?;
    let words = k * (n + 1);
    let candidate = Candidate {
        location: edge.destination,
        parent: i as i32,
        edge: e as i32,
        list: &out[..words],
    };
    keeper.judge(area, y, &candidate)
}

impl Ground<'_> {
    // By what its states are kept.
    fn keeper(&self) -> Keeper
        requires { self.now.outline.now.clocks ≤ 6 }
        ensures { result ≡ keeper_of self.now }
    {
        let outline = self.outline;
        let goal = Goal {
            location: outline.target,
            list: places::list_at(outline.list, outline.clocks),
        };
        Keeper {
            n: outline.clocks as usize,
            goal,
            room: self.room,
        }
    }

    // Forms the candidate over edge e, which leaves the location of state i.
    fn follow(&self, area: &mut [i32], y: Tally, i: usize, e: usize) -> Result<Moved, Refusal>
        requires grounded { Grounded self.now y area.old × (i < y.kept) × (y.tried < 4096) }
        requires e_lt_edges { (e < self.now.outline.now.edges)
            × ((get_or self.now.outline.now.steps e past_standing).source
            ≡ (state_in self.now.outline.now.clocks area.old i).location) }
        ensures { Does self.now.outline.now.clocks self.now.room y.kept (y.tried + 1)
            (try_edge (system_of self.now) self.now.room i e (walk_on self.now y area.old))
            area.old result area.new }
    {
        let outline = self.outline;
        let edge = places::edge_at(outline.steps[e].bytes, outline.clocks, outline.locations);
        let from = outline.invariants[edge.destination as usize];
        let invariant = places::list_at(from, outline.clocks);
        let tally = Tally {
            kept: y.kept,
            tried: y.tried + 1,
        };
        form(&self.keeper(), &edge, &invariant, area, tally, i, e)
    }

    // Tries each edge at state i.
    fn expand(&self, area: &mut [i32], y: Tally, i: usize) -> Result<Moved, Refusal>
        requires { Grounded self.now y area.old × (i < y.kept) × (y.tried ≤ i * 64) }
        ensures { Does self.now.outline.now.clocks self.now.room y.kept ((i + 1) * 64)
            (expandBy (system_of self.now) self.now.room i (walk_on self.now y area.old))
            area.old result area.new }
    {
        let n = self.outline.clocks as usize;
        let mut s = y;
        for e in 0..self.outline.edges as usize {
            let state = area::locate(area, n, i);
            if self.outline.steps[e].source == state.location {
                let moved = self.follow(area, s, i, e)?;
                let Moved::Going(next) = moved else {
                    return Ok(moved);
                };
                s = next;
            }
        }
        Ok(Moved::Going(s))
    }

    // Expands each state of the layer that begins with state b.
    fn layer(&self, area: &mut [i32], y: Tally, b: usize) -> Result<Moved, Refusal>
        requires { Grounded self.now y area.old × (b ≤ y.kept) × (y.tried ≤ b * 64) }
        ensures { Does self.now.outline.now.clocks self.now.room y.kept (y.kept * 64)
            (layerBy (system_of self.now) self.now.room b (walk_on self.now y area.old))
            area.old result area.new }
    {
        let mut s = y;
        for i in b..y.kept {
            let moved = self.expand(area, s, i)?;
            let Moved::Going(next) = moved else {
                return Ok(moved);
            };
            s = next;
        }
        Ok(Moved::Going(s))
    }

    // Makes layer after layer, to the depth.
    fn layers(&self, area: &mut [i32], y: Tally) -> Result<Verdict, Refusal>
        requires { Grounded self.now y area.old × (y.tried ≡ 0)
            × Layer 0 0 (states_in self.now.outline.now.clocks y.kept area.old) }
        ensures { Finds self.now.outline.now.clocks y.kept self.now.outline.now.depth
            (layersBy (system_of self.now) self.now.room self.now.outline.now.depth 0 (walk_on self.now y area.old))
            area.old result area.new }
    {
        let depth = self.outline.depth as usize;
        let mut s = y;
        let mut b = 0;
        for d in 0..depth {
            let moved = self.layer(area, s, b)?;
            let Moved::Going(next) = moved else {
                return Ok(ended(moved, d + 1));
            };
            if next.kept == s.kept {
                return Ok(ended(moved, d + 1));
            }
            b = s.kept;
            s = next;
        }
        Ok(Verdict::Open {
            depth,
            kept: s.kept,
            tried: s.tried,
        })
    }

    // Keeps state 0, and makes the layers behind it.
    fn root(&self, area: &mut [i32], list: &[i32]) -> Result<Verdict, Refusal>
        requires { Grounded self.now (tally 0 0) area.old × Listed self.now.outline.now.clocks list.now }
        ensures { Finds self.now.outline.now.clocks 0 self.now.outline.now.depth
            (begun (layersBy (system_of self.now) self.now.room self.now.outline.now.depth 0)
            (keepBy (system_of self.now) self.now.room (zeroth (system_of self.now) list.now) nothing))
            area.old result area.new }
    {
        let y = Tally { kept: 0, tried: 0 };
        let zeroth = Candidate {
            location: self.outline.initial,
            parent: -1, // words of a record, as the rules fix them
            edge: -1,
            list,
        };
        let moved = self.keeper().store(area, y, &zeroth)?;
        let Moved::Going(s) = moved else {
            return Ok(ended(moved, 0));
        };
        self.layers(area, s)
    }

    // The whole walk, but for what a refusal leaves in the area.
    pub fn begin(&self, area: &mut [i32]) -> Result<Verdict, Refusal>
        requires { Grounded self.now (tally 0 0) area.old }
        ensures { Finds self.now.outline.now.clocks 0 self.now.outline.now.depth
            (walk_of (plain (model_by self.now.outline.now)) self.now.room)
            area.old result area.new }
    {
        let n = self.outline.clocks as usize;
        let from = self.outline.invariants[self.outline.initial as usize];
        let invariant = places::list_at(from, self.outline.clocks);
        let zeros = [0; 7];
        let mut out = [0; 224];
        let k = steps::enter(n, &invariant, &zeros[..n + 1], &mut out)?;
        if k == 0 {
            return Ok(Verdict::Never { kept: 0, tried: 0 });
        }
        let words = k * (n + 1);
        self.root(area, &out[..words])
    }
}

// The verdict of a part that does not go on, after so many edges.
fn ended(r: Moved, edges: usize) -> Verdict
    ensures { result ≡ ended_by r edges }
{
    match r {
        Moved::Going(y) => Verdict::Never {
            kept: y.kept,
            tried: y.tried,
        },
        Moved::Met(y) => Verdict::Reached {
            edges,
            kept: y.kept,
            tried: y.tried,
        },
    }
}
