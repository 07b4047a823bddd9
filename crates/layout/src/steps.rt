// The steps of a layout: an event and a tick, and what these come to, acting on a queued event and what waits becoming
// hold or tap. Each changes in place how far the call has come, since a copy of its states costs more than most steps.
// Document 01, Layout.
// Assumes nothing.
ghost use Rattle.std.specs.Prelude.{◌≡◌};
ghost use Rattle.image.specs.Table.{table_of};
ghost use Rattle.layout.specs.Steps.{released as released_of, event as event_of, tick as tick_of};
ghost use Rattle.layout.specs.Inside.{PressedTo, Steps, Goes, unstacked, overflowed, becomes as becomes_of, waited_one};

use super::accepted::Accepted;
use super::action::Setting;
use super::active::{WaitingState, current_layer, release, with_waiting};
use super::effect::Effect;
use super::layout::Layout;
use super::line::Line;
use super::notes::{Way, note_acted};
use super::progress::Progress;
use super::queue::{Stacked, is_release};
use event::{Coord, Event};
use image::{Action, action_at, cell_at};

impl Accepted<'_> {
    // The record that a press runs: Trans takes the default layer's cell. Outside the table there is none.
    fn press_as_action(&self, begun: &Progress, coord: Coord) -> Option<u16>
        ensures { PressedTo self.now.image.now begun.now.active coord result }
    {
        let i = coord.i as usize;
        let j = coord.j as usize;
        let Some(n) = cell_at(self.image, current_layer(begun), i, j) else {
            return None;
        };
        match action_at(self.image, n as usize) {
            Action::Trans => cell_at(self.image, begun.active.default_layer, i, j),
            _ => Some(n),
        }
    }

    // An event that left the queue is acted on, with its age.
    pub(crate) fn unstack(&self, progress: &mut Progress, line: &Line, stacked: Stacked)
        ensures { Steps self.now.image.now progress.old progress.new line.now.queue (unstacked self.now.image.now stacked) }
    {
        progress.notes = note_acted(progress.notes, stacked.event);
        match stacked.event {
            Event::Release(i, j) => release(progress, Coord { i, j }),
            Event::Press(i, j) => {
                let coord = Coord { i, j };
                let Some(n) = self.press_as_action(progress, coord) else {
                    return;
                };
                let setting = Setting {
                    coord,
                    delay: stacked.since,
                    found: line.find_release(coord),
                };
                let mut effect = Effect::new(progress);
                self.do_action(&mut effect, n, setting);
                progress.add_effect(&effect, coord);
            }
        }
    }

    // What waits becomes hold or tap, which is keyberon's waiting_into_hold and waiting_into_tap: with no delay, and with the
    // first queued release of its key.
    fn becomes(&self, progress: &mut Progress, line: &Line, w: WaitingState, way: Way)
        ensures { Steps self.now.image.now progress.old progress.new line.now.queue (becomes_of self.now.image.now way w) }
    {
        let setting = Setting {
            coord: w.coord,
            delay: 0,
            found: line.find_release(w.coord),
        };
        let mut effect = Effect::new(progress);
        self.decide(&mut effect, w.number, setting, way);
        progress.add_effect(&effect, w.coord);
    }

    // The oldest event left a full queue: what waits becomes hold, then that event is acted on.
    pub(crate) fn overflow(&self, progress: &mut Progress, line: &Line, oldest: Stacked)
        ensures { Steps self.now.image.now progress.old progress.new line.now.queue (overflowed self.now.image.now oldest) }
    {
        let Some(w) = progress.active.waiting else {
            self.unstack(progress, line, oldest);
            return;
        };
        self.becomes(progress, line, w, Way::Hold);
        self.unstack(progress, line, oldest);
    }

    // If the new event releases a waiting key, it becomes tap. The release stays queued.
    pub(crate) fn tap_released(&self, progress: &mut Progress, line: &Line, event: Event)
        ensures { Steps self.now.image.now progress.old progress.new line.now.queue (released_of (table_of self.now.image.now) event) }
    {
        let Some(w) = progress.active.waiting else {
            return;
        };
        if is_release(event, w.coord) {
            self.becomes(progress, line, w, Way::Tap);
        }
    }

    // A tick while a hold-tap waits: it has a tick less, and becomes hold where none is left.
    pub(crate) fn tick_waiting(&self, progress: &mut Progress, line: &Line, w: WaitingState)
        ensures { Steps self.now.image.now progress.old progress.new line.now.queue (waited_one self.now.image.now w) }
    {
        let left = w.left.saturating_sub(1);
        if 0 < left {
            with_waiting(progress, Some(WaitingState { left, ..w }));
            return;
        }
        self.becomes(progress, line, w, Way::Hold);
    }

    // A new event is queued. In a full queue the oldest makes room for it, and is acted on first; then the new one may turn
    // what waits into a tap.
    pub(crate) fn event(&self, progress: &mut Progress, line: &mut Line, event: Event)
        ensures { Goes self.now.image.now progress.old line.old progress.new line.new (event_of (table_of self.now.image.now) event) }
    {
        if line.queue.queued < Layout::QUEUE {
            line.append(event);
            self.tap_released(progress, line, event);
            return;
        }
        let oldest = line.queue.stacked[0];
        line.shift();
        line.append(event);
        self.overflow(progress, line, oldest);
        self.tap_released(progress, line, event);
    }

    // A tick: what is queued is older, and then what waits has a tick less, or else the oldest event is acted on.
    pub(crate) fn tick(&self, progress: &mut Progress, line: &mut Line)
        ensures { Goes self.now.image.now progress.old line.old progress.new line.new (tick_of (table_of self.now.image.now)) }
    {
        line.age();
        if let Some(w) = progress.active.waiting {
            self.tick_waiting(progress, line, w);
            return;
        }
        if line.queue.queued == 0 {
            return;
        }
        let oldest = line.queue.stacked[0];
        line.shift();
        self.unstack(progress, line, oldest);
    }
}
