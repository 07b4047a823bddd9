// Running an action and deciding a hold-tap, which call each other: document 01, Layout. The record number falls. Nothing
// here changes the queue: the first queued release of the key is looked up once, before, and handed along.
// Assumes nothing.
ghost use Rattle.std.specs.Prelude.{◌≡◌, ◌-◌, cond, leb};
ghost use Rattle.layout.specs.Effects.{Listed, CodesPushed, ActionRan, Settled};

use super::accepted::Accepted;
use super::effect::Effect;
use super::notes::Way;
use event::Coord;
use image::{Action, action_at, entry_at};

// Where and how an action runs: at the coordinates of its key, with its delay, and with the age of the first queued release
// of them.
#[derive(Clone, Copy)]
pub(crate) struct Setting {
    pub coord: Coord,
    pub delay: u16,
    pub found: Option<u16>,
}

// A queued release decides: tap if timeout >= delay - age, else hold.
fn queued_way(timeout: u16, delay: u16, since: u16) -> Way
    ensures { result ≡ cond (leb (delay - since) timeout) Way.Tap Way.Hold }
{
    if delay.saturating_sub(since) <= timeout {
        Way::Tap
    } else {
        Way::Hold
    }
}

// The codes of a MultipleKeyCodes, one after the other.
fn push_codes(image: &[u8], effect: &mut Effect, first: u16, count: u16)
    requires { Listed image.now first count }
    ensures { CodesPushed image.now first count effect.old effect.new }
{
    let start = first as usize;
    for at in start..start + count as usize {
        let Some(code) = entry_at(image, at) else {
            return;
        };
        effect.push_key(code);
    }
}

impl Accepted<'_> {
    // A hold-tap is decided: it waits no more, and its hold or its tap runs with delay 0.
    #[cycle(decide_do_action)]
    pub(crate) fn decide(&self, effect: &mut Effect, n: u16, setting: Setting, way: Way)
        ensures { Settled self.now.image.now n setting way effect.old effect.new }
    {
        effect.settle(setting.coord, way);
        let at_once = Setting {
            delay: 0,
            ..setting
        };
        let Action::HoldTap(_, hold, tap) = action_at(self.image, n as usize) else {
            return;
        };
        match way {
            Way::Tap => self.do_action(effect, tap, at_once),
            Way::Hold => self.do_action(effect, hold, at_once),
        }
    }

    // Runs record n.
    #[cycle(decide_do_action)]
    pub(crate) fn do_action(&self, effect: &mut Effect, n: u16, setting: Setting)
        ensures { ActionRan self.now.image.now n setting effect.old effect.new }
    {
        match action_at(self.image, n as usize) {
            Action::NoOp | Action::Trans => {}
            Action::KeyCode(code) => effect.push_key(code),
            Action::MultipleKeyCodes(first, count) => push_codes(self.image, effect, first, count),
            Action::MultipleActions(first, count) => {
                let start = first as usize;
                for at in start..start + count as usize {
                    let Some(k) = entry_at(self.image, at) else {
                        return;
                    };
                    self.do_action(effect, k, setting);
                }
            }
            Action::Layer(value) => effect.push_layer(value),
            Action::DefaultLayer(value) => effect.with_default(self.layers, value),
            Action::HoldTap(timeout, _, _) => match setting.found {
                None => {
                    let left = timeout.saturating_sub(setting.delay);
                    effect.wait_on(setting.coord, left, n);
                }
                Some(since) => {
                    let way = queued_way(timeout, setting.delay, since);
                    self.decide(effect, n, setting, way);
                }
            },
        }
    }
}
