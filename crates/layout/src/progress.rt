// How far a call has come, and what an action's effect adds to it. Document 01, Layout.
// Assumes nothing.
ghost use Rattle.layout.specs.Order.{Tidy};

use super::active::Active;
use super::effect::Effect;
use super::notes::Notes;
use event::Coord;

// What a call has changed, and what it has done. Its states are in order, which `judge` has asked of those it begins with.
#[derive(Drop)]
pub(crate) struct Progress {
    pub active: Active,
    pub notes: Notes,
    ghost tidy: { Tidy active },
}

impl Progress {
    ghost use Rattle.std.specs.Prelude.{◌≡◌};
    ghost use Rattle.layout.specs.Effects.{Grown};

    // An action has run: what was added stands behind the states.
    pub(crate) fn add_effect(&mut self, effect: &Effect, coord: Coord)
        requires { effect.now.held ≡ self.old.active.len }
        ensures { Grown self.old.active effect.now coord self.new }
    {
        for holds in &effect.holds[..effect.added] {
            self.active.states[self.active.len] = holds.at(coord);
            self.active.len += 1;
        }
        self.active.default_layer = effect.default_layer;
        self.active.waiting = effect.waiting;
        self.notes = effect.notes;
    }
}
