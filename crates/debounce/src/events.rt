// The events of a change, written to a lent buffer, three bytes each. Document 01, Debounce, last sentence.
// Every number here is small: a place is below 128, and 3 bytes an event come to 384.
// Assumes nothing.
ghost use Rattle.std.specs.Prelude.{◌≡◌, ◌+◌, ◌*◌, ◌≤◌, length, take, drop, ◌++◌};
ghost use Rattle.event.specs.Bytes.{bytes_of};
ghost use Rattle.debounce.specs.Inside.{events_between, events_in, WrittenTo};

use super::Step;
use super::sizes::Sizes;
use event::Event;

// An event's three bytes, at a place of the buffer.
fn put_event(out: &mut [u8], at: usize, event: Event)
    requires { at + 3 ≤ length out.old }
    ensures { out.new ≡ take at out.old ++ bytes_of event ++ drop (at + 3) out.old }
{
    out[at..at + 3].copy_from_slice(&<[u8; 3]>::from(event));
}

impl Sizes {
    // The events between two pictures, from the start of the buffer on; and how many.
    fn tell(self, before: [u8; 128], after: [u8; 128], out: &mut [u8]) -> usize
        requires { 3 * (self.rows * self.columns) ≤ length out.old }
        ensures { WrittenTo out.old (events_between self.columns (self.rows * self.columns) before after) result out.new }
    {
        let mut count = 0;
        for place in 0..self.switches() {
            let is = after[place];
            if before[place] != is {
                put_event(out, 3 * count, self.event_at(place, is));
                count += 1;
            }
        }
        count
    }

    // The events of a step, in the buffer, and how many.
    #[tactic(auto, unfolding(crate::specs::Events::written))]
    pub(crate) fn tell_step(self, step: Step, out: &mut [u8]) -> usize
        requires { 3 * (self.rows * self.columns) ≤ length out.old }
        ensures { WrittenTo out.old (events_in step self.columns (self.rows * self.columns)) result out.new }
    {
        if !step.changed {
            return 0;
        }
        self.tell(step.debouncer.new, step.debouncer.cur, out)
    }
}
