// What a call does to the queued events. Document 01, Layout.
// Assumes nothing.
ghost use Rattle.layout.specs.Order.{Lined};

use super::queue::{Queue, Stacked, is_release};
use event::{Coord, Event};

// Queued events in order, which `judge` has asked of those that a call begins with. A method that lends the array to change
// it lends a copy: it is out of order meanwhile.
#[derive(Drop)]
pub(crate) struct Line {
    pub queue: Queue,
    ghost lined: { Lined queue },
}

impl Line {
    ghost use Rattle.std.specs.Prelude.{◌≡◌, ◌<◌, drop};
    ghost use Rattle.layout.specs.Actions.{find};
    ghost use Rattle.layout.specs.Steps.{older, appended};
    ghost use Rattle.layout.specs.Packed.{list_in};

    // Every queued age grows by 1, stopping at 65,535.
    pub(crate) fn age(&mut self)
        ensures { list_in self.new.queue ≡ older (list_in self.old.queue) }
    {
        let mut stacked = self.queue.stacked;
        for waits in &mut stacked[..self.queue.queued] {
            waits.since = waits.since.saturating_add(1);
        }
        self.queue.stacked = stacked;
    }

    // The oldest leaves: the others move up, and the last place is unused.
    pub(crate) fn shift(&mut self)
        requires { 0 < self.old.queue.queued }
        ensures { list_in self.new.queue ≡ drop 1 (list_in self.old.queue) }
    {
        let mut stacked = self.queue.stacked;
        stacked[..self.queue.queued].rotate_left(1);
        self.queue.queued -= 1;
        stacked[self.queue.queued] = Stacked::UNUSED;
        self.queue.stacked = stacked;
    }

    // A new event has age 0.
    pub(crate) fn append(&mut self, event: Event)
        requires { self.old.queue.queued < 16 }
        ensures { list_in self.new.queue ≡ appended event (list_in self.old.queue) }
    {
        self.queue.stacked[self.queue.queued] = Stacked { event, since: 0 };
        self.queue.queued += 1;
    }

    // The age of the first queued release of the coordinates.
    pub(crate) fn find_release(&self, coord: Coord) -> Option<u16>
        ensures { result ≡ find coord (list_in self.now.queue) }
    {
        for stacked in &self.queue.stacked[..self.queue.queued] {
            if is_release(stacked.event, coord) {
                return Some(stacked.since);
            }
        }
        None
    }
}
