// The part of a layout that running actions changes: the default layer, the states and what waits. The queue is not among
// it. Document 01, Layout.
// Assumes nothing.
ghost use Rattle.std.specs.Prelude.{◌≡◌, ℕ, List};
ghost use Rattle.layout.specs.Model.{with_states, with_waiting};
ghost use Rattle.layout.specs.Steps.{coord_in, release as release_of, current, held};
ghost use Rattle.layout.specs.Packed.{states_in, waiting_of};
ghost use Rattle.layout.specs.Inside.{Moves};

use super::layout::Layout;
use super::progress::Progress;
use event::Coord;

// What a key that is down does: it holds a code, or a layer.
#[derive(Clone, Copy, PartialEq, Eq, Debug)]
pub enum State {
    NormalKey { keycode: u8, coord: Coord },
    LayerModifier { value: u16, coord: Coord },
}

// A hold-tap that waits: its coordinates, ticks left, and record.
#[derive(Clone, Copy, PartialEq, Eq, Debug)]
pub struct WaitingState {
    pub coord: Coord,
    pub left: u16,
    pub number: u16,
}

// The default layer, the states held, the places past their number zero, and what waits.
// Callers hand it in as they like, and a call answers State where it is out of order (`state_good`): so no invariant.
#[derive(Clone, Copy, PartialEq, Eq, Debug)]
pub struct Active {
    pub default_layer: usize,
    pub states: [State; Layout::STATES],
    pub len: usize,
    pub waiting: Option<WaitingState>,
}

impl State {
    // What an unused place holds.
    pub(crate) const UNUSED: State = State::NormalKey {
        keycode: 0,
        coord: Coord { i: 0, j: 0 },
    };

    pub(crate) fn coord(self) -> Coord
        ensures { result ≡ coord_in self }
    {
        match self {
            State::NormalKey { coord, .. } | State::LayerModifier { coord, .. } => coord,
        }
    }
}

// Something else waits.
pub(crate) fn with_waiting(progress: &mut Progress, waiting: Option<WaitingState>)
    ensures moves { (img : List ℕ) → Moves img progress.old.active progress.new.active (with_waiting (waiting_of img waiting)) }
    ensures notes { progress.new.notes ≡ progress.old.notes }
{
    progress.active.waiting = waiting;
}

// A release drops all states of its coordinates and keeps the others' order.
pub(crate) fn release(progress: &mut Progress, coord: Coord)
    ensures moves { (img : List ℕ) → Moves img progress.old.active progress.new.active (λ l. with_states (release_of coord l.states) l) }
    ensures notes { progress.new.notes ≡ progress.old.notes }
{
    let mut states = [State::UNUSED; Layout::STATES];
    let mut len = 0;
    for state in &progress.active.states[..progress.active.len] {
        if coord != state.coord() {
            states[len] = *state;
            len += 1;
        }
    }
    progress.active.states = states;
    progress.active.len = len;
}

// The sum of the held Layer numbers, or the default layer if none is held.
pub(crate) fn current_layer(begun: &Progress) -> usize
    ensures { result ≡ current begun.now.active.default_layer (held (states_in begun.now.active)) }
{
    let mut sum = None;
    for state in &begun.active.states[..begun.active.len] {
        if let State::LayerModifier { value, .. } = *state {
            sum = Some(sum.unwrap_or(0) + value as usize);
        }
    }
    sum.unwrap_or(begun.active.default_layer)
}
