// The lent calls, called with a record that is at hand: the record is put into a local, the local is lent to the call, and
// the record that the call left there is returned. Each answers as the call by value does, by way of the lent one.
// Each is written out, since each takes other arguments and answers a record of its own.
// Document 01, "Report and keyboard".
// Assumes nothing.
ghost use Rattle.std.specs.Prelude.{◌≡◌};
ghost use Rattle.keyboard.specs.Keyboard.{reported, fetched, lit};
ghost use Rattle.keyboard.specs.Idle.{idled, clocked};

use super::{Answered, Changed, Clocked, Fetched, Keyboard, lent};
use codes::KbHidReport;

pub fn set_keyboard_report(keyboard: Keyboard, report: KbHidReport) -> Changed
    ensures { result ≡ reported keyboard report }
{
    let mut kb = keyboard;
    let changed = lent::keyboard_set_keyboard_report(&mut kb, report);
    Changed {
        changed,
        keyboard: kb,
    }
}

pub fn get_report(keyboard: Keyboard, kind: u8, id: u8) -> Fetched
    ensures { result ≡ fetched keyboard kind id }
{
    let mut kb = keyboard;
    let got = lent::keyboard_get_report(&mut kb, kind, id);
    Fetched { got, keyboard: kb }
}

pub fn set_report(keyboard: Keyboard, kind: u8, id: u8, bytes: &[u8]) -> Answered
    ensures { result ≡ lit keyboard kind id bytes.now }
{
    let mut kb = keyboard;
    let number = lent::keyboard_set_report(&mut kb, kind, id, bytes);
    Answered {
        number,
        keyboard: kb,
    }
}

pub fn set_idle(keyboard: Keyboard, rate: u8) -> Answered
    ensures { result ≡ idled keyboard rate }
{
    let mut kb = keyboard;
    let number = lent::keyboard_set_idle(&mut kb, rate);
    Answered {
        number,
        keyboard: kb,
    }
}

pub fn clock(keyboard: Keyboard) -> Clocked
    ensures { result ≡ clocked keyboard }
{
    let mut kb = keyboard;
    let due = lent::keyboard_clock(&mut kb);
    Clocked { due, keyboard: kb }
}
