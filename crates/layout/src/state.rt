// The State check of a layout: document 01, "Refusal numbers", 13.
// Assumes nothing.
ghost use Rattle.std.specs.Prelude.{◌≡◌, map};
ghost use Rattle.lists.specs.Lists.{every};
ghost use Rattle.layout.specs.Packed.{queued_of};
ghost use Rattle.layout.specs.State.{legal_state, falling, waiting_good, unused_state, unused_stacked, state_good};

use super::accepted::Accepted;
use super::active::{State, WaitingState};
use super::layout::Layout;
use super::queue::Stacked;
use codes::KeyCode;
use image::{Action, action_at};

fn is_legal_state(state: State) -> bool
    ensures { result ≡ legal_state state }
{
    match state {
        State::NormalKey { keycode, .. } => KeyCode::is_legal(keycode as u16),
        State::LayerModifier { .. } => true,
    }
}

fn is_unused_state(state: State) -> bool
    ensures { result ≡ unused_state state }
{
    state == State::UNUSED
}

fn is_unused_event(stacked: Stacked) -> bool
    ensures { result ≡ unused_stacked stacked }
{
    stacked == Stacked::UNUSED
}

fn all_legal(states: &[State]) -> bool
    ensures { result ≡ every legal_state states.now }
{
    states.iter().all(|state| is_legal_state(*state))
}

fn all_unused(states: &[State]) -> bool
    ensures { result ≡ every unused_state states.now }
{
    states.iter().all(|state| is_unused_state(*state))
}

// No queued age is above the one in front of it.
fn ages_fall(queued: &[Stacked]) -> bool
    ensures { result ≡ falling (map queued_of queued.now) }
{
    for pair in queued.windows(2) {
        if pair[0].since < pair[1].since {
            return false;
        }
    }
    true
}

fn none_queued(stacked: &[Stacked]) -> bool
    ensures { result ≡ every unused_stacked stacked.now }
{
    stacked.iter().all(|place| is_unused_event(*place))
}

impl Accepted<'_> {
    // What waits is a HoldTap of the table, with no more ticks left than its timeout.
    fn waiting_good(&self, waiting: Option<WaitingState>) -> bool
        ensures { result ≡ waiting_good self.now.image.now waiting }
    {
        let Some(w) = waiting else {
            return true;
        };
        let Action::HoldTap(timeout, _, _) = action_at(self.image, w.number as usize) else {
            return false;
        };
        w.left <= timeout
    }

    // Whether no part of a layout breaks its rule.
    #[tactic(auto, unfolding(crate::specs::State::state_good))]
    pub(crate) fn state_good(&self, layout: &Layout) -> bool
        ensures { result ≡ state_good self.now.image.now layout.now }
    {
        let active = &layout.active;
        let queue = &layout.queue;
        if Layout::STATES < active.len || Layout::QUEUE < queue.queued {
            return false;
        }
        let (held, unused) = active.states.split_at(active.len);
        let (queued, empty) = queue.stacked.split_at(queue.queued);
        all_legal(held)
            && active.default_layer < self.layers
            && ages_fall(queued)
            && self.waiting_good(active.waiting)
            && all_unused(unused)
            && none_queued(empty)
    }
}
