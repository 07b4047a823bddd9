// What C and Rust link beside the lent calls, by the crate keyboard_c: a fresh keyboard, so that nobody makes one by hand, and
// what the device says of itself. Document 01, "Report and keyboard".
// Assumes nothing.
ghost use Rattle.std.specs.Prelude.{◌≡◌};
ghost use Rattle.keyboard.specs.Keyboard.{fresh};
ghost use Rattle.keyboard.specs.Descriptor.{subclass_number, protocol_number};
ghost use Rattle.keyboard.specs.Lent.{LentDescribed};

use super::Keyboard;
use refusal::Refusal;

pub fn keyboard_new() -> Keyboard
    ensures { result ≡ fresh }
{
    Keyboard::new()
}

// The descriptor's 71 bytes at the buffer's start, and 0; or 12, and nothing written, where they do not fit.
#[tactic(auto, using(crate::proofs::Room::long))]
pub fn keyboard_report_descriptor(out: &mut [u8]) -> u8
    ensures { LentDescribed out.old result out.new }
{
    let descriptor = Keyboard::report_descriptor();
    if out.len() < descriptor.len() {
        return Refusal::Room.number();
    }
    out[..descriptor.len()].copy_from_slice(&descriptor);
    0
}

pub fn keyboard_subclass() -> u8
    ensures { result ≡ subclass_number }
{
    Keyboard::subclass()
}

pub fn keyboard_protocol() -> u8
    ensures { result ≡ protocol_number }
{
    Keyboard::protocol()
}
