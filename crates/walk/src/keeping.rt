// One candidate: dropped or kept, and tested.
ghost use Rattle.std.specs.Prelude.{◌≡◌, ◌≤◌, ◌<◌};
ghost use Rattle.bounds.specs.Limits.{BoundsLimits};
ghost use Rattle.runs.specs.Rule.{keep as keepBy, judge as judgeBy};
ghost use Rattle.steps.specs.Steps.{Listed};
ghost use Rattle.walk.specs.Control.{Ready, Does, walk_in, aimed, tested_by};
ghost use Rattle.walk.specs.Grounds.{state_by};

use crate::{Goal, Moved, Tally};
use numbers::Refusal;

// By what states are kept: the clocks, the target, and the room for states.
#[derive(Clone, Copy)]
pub struct Keeper {
    pub n: usize,
    pub goal: Goal,
    pub room: usize,
}

// A state that may be kept: its location, its parent and the edge from there, and its list. State 0 has −1 for both.
#[derive(Clone, Copy)]
pub struct Candidate<'a> {
    pub location: u32,
    pub parent: i32,
    pub edge: i32,
    pub list: &'a [i32],
}

impl Keeper {
    // Tests a state that was just kept.
    fn tested(&self, s: &Candidate, y: Tally) -> Result<Moved, Refusal>
        requires { Listed self.now.n s.now.list.now × BoundsLimits self.now.n self.now.goal.list }
        ensures { result ≡ tested_by self.now.n self.now.goal s.now.location s.now.list.now y }
    {
        if s.location == self.goal.location && steps::meets(self.n, &self.goal.list, s.list)? {
            Ok(Moved::Met(y))
        } else {
            Ok(Moved::Going(y))
        }
    }

    // Keeps a state, if there is room, and tests it.
    pub fn store(&self, area: &mut [i32], y: Tally, s: &Candidate) -> Result<Moved, Refusal>
        requires { Ready self.now.n self.now.room y area.old × Listed self.now.n s.now.list.now
            × BoundsLimits self.now.n self.now.goal.list × (s.now.location < 32) }
        ensures { Does self.now.n self.now.room y.kept y.tried
            (keepBy (aimed self.now.n self.now.goal) self.now.room (state_by s.now) (walk_in self.now.n y area.old))
            area.old result area.new }
    {
        if y.kept == self.room {
            return Err(Refusal::Room);
        }
        area::keep(area, self.n, y.kept, s.location, s.parent, s.edge, s.list);
        let tally = Tally {
            kept: y.kept + 1,
            tried: y.tried,
        };
        self.tested(s, tally)
    }

    // Drops a candidate that is empty or included in a kept state of its location, and keeps any other.
    pub fn judge(&self, area: &mut [i32], y: Tally, s: &Candidate) -> Result<Moved, Refusal>
        requires { Ready self.now.n self.now.room y area.old × Listed self.now.n s.now.list.now
            × BoundsLimits self.now.n self.now.goal.list × (s.now.location < 32) }
        ensures { Does self.now.n self.now.room y.kept y.tried
            (judgeBy (aimed self.now.n self.now.goal) self.now.room (state_by s.now) (walk_in self.now.n y area.old))
            area.old result area.new }
    {
        if s.list.is_empty() || area::covered(area, self.n, y.kept, s.location, s.list) {
            return Ok(Moved::Going(y));
        }
        self.store(area, y, s)
    }
}
