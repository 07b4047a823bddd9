// The keyboard's calls over a record that is lent and updated by each: a call by value, and the record put back. The crate
// keyboard_c exports them, for C and Rust to link. Document 01, "Report and keyboard".
// Each is written out: one helper for the five would take two closures from each, to call and to take the answer apart.
// Assumes nothing.
ghost use Rattle.keyboard.specs.Keyboard.{reported, fetched, lit};
ghost use Rattle.keyboard.specs.Idle.{idled, clocked};
ghost use Rattle.keyboard.specs.Lent.{LentChanged, LentFetched, LentAnswered, LentClocked};

use super::{Got, Keyboard};
use codes::KbHidReport;

pub fn keyboard_set_keyboard_report(kb: &mut Keyboard, report: KbHidReport) -> bool
    ensures { LentChanged (reported kb.old report) result kb.new }
{
    let done = kb.set_keyboard_report(report);
    *kb = done.keyboard;
    done.changed
}

pub fn keyboard_get_report(kb: &mut Keyboard, kind: u8, id: u8) -> Got
    ensures { LentFetched (fetched kb.old kind id) result kb.new }
{
    let done = kb.get_report(kind, id);
    *kb = done.keyboard;
    done.got
}

pub fn keyboard_set_report(kb: &mut Keyboard, kind: u8, id: u8, bytes: &[u8]) -> u8
    ensures { LentAnswered (lit kb.old kind id bytes.now) result kb.new }
{
    let done = kb.set_report(kind, id, bytes);
    *kb = done.keyboard;
    done.number
}

pub fn keyboard_set_idle(kb: &mut Keyboard, rate: u8) -> u8
    ensures { LentAnswered (idled kb.old rate) result kb.new }
{
    let done = kb.set_idle(rate);
    *kb = done.keyboard;
    done.number
}

pub fn keyboard_clock(kb: &mut Keyboard) -> bool
    ensures { LentClocked (clocked kb.old) result kb.new }
{
    let done = kb.clock();
    *kb = done.keyboard;
    done.due
}
