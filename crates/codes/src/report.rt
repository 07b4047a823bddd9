// keyberon's `KbHidReport`: the eight bytes of the boot keyboard's input report.
// Assumes nothing.
ghost use Rattle.std.specs.Prelude.{◌≡◌, eqb, position, take, drop, ◌++◌};
ghost use Rattle.codes.specs.Report.{filled, pressed_of, report_of};

use crate::key_code::KeyCode;

#[repr(C)]
#[derive(Clone, Copy, PartialEq, Eq, Debug, Default)]
pub struct KbHidReport {
    pub bytes: [u8; 8],
}

// The place of the first zero byte.
fn free_place(six: &[u8]) -> Option<usize>
    ensures { result ≡ position (λ byte. eqb byte 0) six.now }
{
    six.iter().position(|byte| *byte == 0)
}

impl KbHidReport {
    // The code in each of the six bytes.
    #[tactic(auto, unfolding(crate::specs::Report::filled))]
    fn set_all(mut self, code: u8) -> KbHidReport
        ensures { result ≡ record { bytes = take 2 self.bytes ++ filled code (drop 2 self.bytes) } }
    {
        self.bytes[2..].fill(code);
        self
    }

    // The report with one code more. Where no byte of the six is left, they say roll-over.
    #[tactic(auto, unfolding(crate::specs::Codes::modifier, crate::specs::Report::pressed_of, crate::specs::Report::keyed, crate::specs::Report::placed, crate::specs::Report::free_place, crate::specs::Report::filled))]
    pub fn pressed(mut self, code: u8) -> KbHidReport
        ensures { result ≡ record { bytes = pressed_of self.bytes code } }
    {
        match code {
            KeyCode::No => self,
            KeyCode::ErrorRollOver..=KeyCode::ErrorUndefined => self.set_all(code),
            _ if KeyCode::is_modifier(code) => {
                self.bytes[0] |= KeyCode::as_modifier_bit(code);
                self
            }
            _ => match free_place(&self.bytes[2..]) {
                Some(at) => {
                    self.bytes[2 + at] = code;
                    self
                }
                None => self.set_all(KeyCode::ErrorRollOver),
            },
        }
    }

    // The report of the first `count` codes, or of all where there are fewer.
    pub fn from_codes(codes: &[u8], count: usize) -> KbHidReport
        ensures { result ≡ record { bytes = report_of (take count codes.now) } }
    {
        codes.iter().take(count).fold(KbHidReport::default(), |report, code| report.pressed(*code))
    }
}
