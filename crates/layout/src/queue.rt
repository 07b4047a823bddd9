// The queued events with their ages, the oldest first. Document 01, Layout.
// Assumes nothing.
ghost use Rattle.std.specs.Prelude.{◌≡◌};
ghost use Rattle.layout.specs.Actions.{is_release};

use super::layout::Layout;
use event::{Coord, Event};

#[derive(Clone, Copy, PartialEq, Eq, Debug)]
pub struct Stacked {
    pub event: Event,
    pub since: u16,
}

// Callers hand it in as they like, and a call answers State where it is out of order (`state_good`): so no invariant.
#[derive(Clone, Copy, PartialEq, Eq, Debug)]
pub struct Queue {
    pub stacked: [Stacked; Layout::QUEUE],
    pub queued: usize,
}

impl Stacked {
    // What an unused place holds.
    pub(crate) const UNUSED: Stacked = Stacked {
        event: Event::Release(0, 0),
        since: 0,
    };
}

pub(crate) fn is_release(event: Event, coord: Coord) -> bool
    ensures { result ≡ is_release coord event }
{
    event == Event::Release(coord.i, coord.j)
}
