// The keyboard's calls, exported for C and Rust to link: each calls the function of its name in the crate keyboard (lent.rt,
// linked.rt), and promises what that one does. A crate is a library or an archive, not both, so the archive is this one.
// include/keyboard.h is its header. Document 01, "Report and keyboard".
// Assumes nothing.
#![tactic(auto)]

ghost use Rattle.std.specs.Prelude.{◌≡◌};
ghost use Rattle.keyboard.specs.Keyboard.{fresh, reported, fetched, lit};
ghost use Rattle.keyboard.specs.Idle.{idled, clocked};
ghost use Rattle.keyboard.specs.Descriptor.{subclass_number, protocol_number};
ghost use Rattle.keyboard.specs.Lent.{LentChanged, LentFetched, LentAnswered, LentClocked, LentDescribed};

use codes::KbHidReport;
use keyboard::{Got, Keyboard, lent, linked};

#[unsafe(no_mangle)]
pub extern "C" fn keyboard_new() -> Keyboard
    ensures { result ≡ fresh }
{
    linked::keyboard_new()
}

#[unsafe(no_mangle)]
pub extern "C" fn keyboard_set_keyboard_report(kb: &mut Keyboard, report: KbHidReport) -> bool
    ensures { LentChanged (reported kb.old report) result kb.new }
{
    lent::keyboard_set_keyboard_report(kb, report)
}

#[unsafe(no_mangle)]
pub extern "C" fn keyboard_get_report(kb: &mut Keyboard, kind: u8, id: u8) -> Got
    ensures { LentFetched (fetched kb.old kind id) result kb.new }
{
    lent::keyboard_get_report(kb, kind, id)
}

#[unsafe(no_mangle)]
pub extern "C" fn keyboard_set_report(kb: &mut Keyboard, kind: u8, id: u8, bytes: &[u8]) -> u8
    ensures { LentAnswered (lit kb.old kind id bytes.now) result kb.new }
{
    lent::keyboard_set_report(kb, kind, id, bytes)
}

#[unsafe(no_mangle)]
pub extern "C" fn keyboard_set_idle(kb: &mut Keyboard, rate: u8) -> u8
    ensures { LentAnswered (idled kb.old rate) result kb.new }
{
    lent::keyboard_set_idle(kb, rate)
}

#[unsafe(no_mangle)]
pub extern "C" fn keyboard_clock(kb: &mut Keyboard) -> bool
    ensures { LentClocked (clocked kb.old) result kb.new }
{
    lent::keyboard_clock(kb)
}

// The descriptor's 71 bytes at the buffer's start, and 0; or 12, and nothing written, where they do not fit.
#[unsafe(no_mangle)]
pub extern "C" fn keyboard_report_descriptor(out: &mut [u8]) -> u8
    ensures { LentDescribed out.old result out.new }
{
    linked::keyboard_report_descriptor(out)
}

#[unsafe(no_mangle)]
pub extern "C" fn keyboard_subclass() -> u8
    ensures { result ≡ subclass_number }
{
    linked::keyboard_subclass()
}

#[unsafe(no_mangle)]
pub extern "C" fn keyboard_protocol() -> u8
    ensures { result ≡ protocol_number }
{
    linked::keyboard_protocol()
}
