// The layout and its public calls: document 01, Layout. A call checks the image, then State, then Room.
// Assumes nothing.
ghost use Rattle.std.specs.Prelude.{◌≡◌, ◌≤◌, IfOk};
ghost use Rattle.layout.specs.Model.{fresh};
ghost use Rattle.layout.specs.Packed.{pack};
ghost use Rattle.layout.specs.Calls.{judged_of, handed, shown, event_reply, tick_reply, keycodes_reply};
ghost use Rattle.layout.specs.Order.{Ready};
ghost use Rattle.layout.specs.Inside.{verdict_of};

use super::accepted::Accepted;
use super::active::{Active, State};
use super::answer::{Answer, Answered, answer_of};
use super::line::Line;
use super::notes::no_notes;
use super::progress::Progress;
use super::queue::{Queue, Stacked};
use event::Event;
use image::check;
use refusal::{Fault, Refusal, rule};

// What running actions changes, and the queued events.
#[derive(Clone, Copy, PartialEq, Eq, Debug)]
pub struct Layout {
    pub active: Active,
    pub queue: Queue,
}

// The image's own refusals, then State, then Room; and where nothing is refused, the accepted image.
fn judge<'a>(image: &'a [u8], layout: &Layout, room: usize) -> Result<Accepted<'a>, Fault>
    ensures is { verdict_of result ≡ judged_of image.now layout.now room }
    ensures of { IfOk result (λ table. table.image.now ≡ image.now) }
    ensures ready { IfOk result (λ table. Ready layout.now.active layout.now.queue × (64 ≤ room)) }
{
    let layers = check(image)?.layers;
    let table = Accepted { image, layers };
    rule(table.state_good(layout), Refusal::State, 0)?;
    rule(Layout::STATES <= room, Refusal::Room, 0)?;
    Ok(table)
}

impl Layout {
    pub const STATES: usize = 64;

    pub const QUEUE: usize = 16;

    // A fresh layout: default layer 0, no state, nothing waiting and an empty queue.
    pub fn new() -> Layout
        ensures { result ≡ pack fresh }
    {
        Layout {
            active: Active {
                default_layer: 0,
                states: [State::UNUSED; Layout::STATES],
                len: 0,
                waiting: None,
            },
            queue: Queue {
                stacked: [Stacked::UNUSED; Layout::QUEUE],
                queued: 0,
            },
        }
    }

    // A key event. The codes go to the start of the buffer, in state order.
    // It begins as `tick` does: a refusal hands the layout back, which `?` cannot, and a closure for the rest is no plainer.
    pub fn event(self, image: &[u8], event: Event, out: &mut [u8]) -> Answered
        ensures { handed result out.new ≡ event_reply image.now event self out.old }
    {
        let table = match judge(image, &self, out.len()) {
            Ok(table) => table,
            Err(fault) => {
                return Answered {
                    answer: Err(fault),
                    layout: self,
                };
            }
        };
        let mut progress = Progress {
            active: self.active,
            notes: no_notes(),
        };
        let mut line = Line { queue: self.queue };
        table.event(&mut progress, &mut line, event);
        Answered {
            answer: Ok(answer_of(&progress, out)),
            layout: Layout {
                active: progress.active,
                queue: line.queue,
            },
        }
    }

    // One tick of the clock, a millisecond on the panel.
    pub fn tick(self, image: &[u8], out: &mut [u8]) -> Answered
        ensures { handed result out.new ≡ tick_reply image.now self out.old }
    {
        let table = match judge(image, &self, out.len()) {
            Ok(table) => table,
            Err(fault) => {
                return Answered {
                    answer: Err(fault),
                    layout: self,
                };
            }
        };
        let mut progress = Progress {
            active: self.active,
            notes: no_notes(),
        };
        let mut line = Line { queue: self.queue };
        table.tick(&mut progress, &mut line);
        Answered {
            answer: Ok(answer_of(&progress, out)),
            layout: Layout {
                active: progress.active,
                queue: line.queue,
            },
        }
    }

    // The key codes of the layout as it stands.
    pub fn keycodes(self, image: &[u8], out: &mut [u8]) -> Result<Answer, Fault>
        ensures { shown result self out.new ≡ keycodes_reply image.now self out.old }
    {
        judge(image, &self, out.len())?;
        let progress = Progress {
            active: self.active,
            notes: no_notes(),
        };
        Ok(answer_of(&progress, out))
    }
}
