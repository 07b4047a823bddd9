// The effect of an action. It only adds states, all at the coordinates of its key, so the states are not carried
// through it: of those that it adds only the codes and layers are written down, and once it has run they are put behind the
// others. Document 01, Layout.
// Assumes nothing.
ghost use Rattle.layout.specs.Room.{HasRoom};

use super::active::{State, WaitingState};
use super::layout::Layout;
use super::notes::{Decision, Notes, Way, note_decision, note_dropped};
use super::progress::Progress;
use event::Coord;

// What a state holds, without the coordinates of its key.
#[derive(Clone, Copy, PartialEq, Eq, Debug)]
pub(crate) enum Holds {
    Code(u8),
    Layer(u16),
}

// The default layer, how many states were held before, what those that are added hold and how many they are, what waits,
// and what was done. With those held before there are at most 64.
#[derive(Drop)]
pub(crate) struct Effect {
    pub default_layer: usize,
    pub held: usize,
    pub holds: [Holds; Layout::STATES],
    pub added: usize,
    pub waiting: Option<WaitingState>,
    pub notes: Notes,
    ghost roomy: { HasRoom held added holds },
}

impl Holds {
    ghost use Rattle.std.specs.Prelude.{◌≡◌};
    ghost use Rattle.layout.specs.Effects.{state_of};

    // The state that holds this, at its coordinates.
    #[tactic(auto, unfolding(crate::specs::Effects::state_of))]
    pub(crate) fn at(self, coord: Coord) -> State
        ensures { result ≡ state_of coord self }
    {
        match self {
            Holds::Code(keycode) => State::NormalKey { keycode, coord },
            Holds::Layer(value) => State::LayerModifier { value, coord },
        }
    }
}

impl Effect {
    ghost use Rattle.std.specs.Prelude.{◌≡◌, true, cond, ltb};
    ghost use Rattle.codes.specs.Codes.{legal};
    ghost use Rattle.layout.specs.declared.active.State.{State};
    ghost use Rattle.layout.specs.Model as Model;
    ghost use Rattle.layout.specs.Model.{still, marked, with_base, with_waiting};
    ghost use Rattle.layout.specs.Packed.{waiting_of, waits_at};
    ghost use Rattle.layout.specs.Effects.{state_of, Begun, Added, Pushes, Leaves};

    // Before an action runs.
    pub(crate) fn new(begun: &Progress) -> Effect
        ensures { Begun begun.now.active begun.now.notes result }
    {
        Effect {
            default_layer: begun.active.default_layer,
            held: begun.active.len,
            holds: [Holds::Code(0); Layout::STATES],
            added: 0,
            waiting: begun.active.waiting,
            notes: begun.notes,
        }
    }

    // Adds a state where there is room, and says whether it was kept.
    fn add(&mut self, holds: Holds) -> bool
        ensures { Added self.old self.new holds result }
    {
        if Layout::STATES <= self.held + self.added {
            return false;
        }
        self.holds[self.added] = holds;
        self.added += 1;
        true
    }

    // One state more. A 65th is dropped, and counted.
    fn push(&mut self, holds: Holds)
        ensures { Pushes self.old self.new (λ c. state_of c holds) }
    {
        if !self.add(holds) {
            self.notes = note_dropped(self.notes);
        }
    }

    // A key's code held.
    #[tactic(auto, unfolding(crate::specs::Effects::state_of), using(image::proofs::Accepted::code_byte))]
    pub(crate) fn push_key(&mut self, code: u16)
        requires { legal code ≡ true }
        ensures { Pushes self.old self.new (λ c. State.NormalKey code c) }
    {
        self.push(Holds::Code(code as u8));
    }

    // A layer held.
    #[tactic(auto, unfolding(crate::specs::Effects::state_of))]
    pub(crate) fn push_layer(&mut self, value: u16)
        ensures { Pushes self.old self.new (λ c. State.LayerModifier value c) }
    {
        self.push(Holds::Layer(value));
    }

    // A hold-tap waits.
    pub(crate) fn wait_on(&mut self, coord: Coord, left: u16, number: u16)
        ensures { Leaves self.old self.new (λ img l. still (with_waiting (waiting_of img (waits_at coord left number)) l)) }
    {
        self.waiting = Some(WaitingState {
            coord,
            left,
            number,
        });
    }

    // What waits is decided: it waits no more, and the decision is noted.
    pub(crate) fn settle(&mut self, coord: Coord, way: Way)
        ensures { Leaves self.old self.new (λ img l. marked (Model.Decided coord way) (still (with_waiting Model.Idle l))) }
    {
        self.waiting = None;
        self.notes = note_decision(self.notes, Decision { coord, way });
    }

    // A DefaultLayer not below the number of layers does nothing.
    pub(crate) fn with_default(&mut self, layers: usize, value: u16)
        ensures { Leaves self.old self.new (λ img l. cond (ltb value layers) (still (with_base value l)) (still l)) }
    {
        let layer = value as usize;
        if layer < layers {
            self.default_layer = layer;
        }
    }
}
