// The idle clock: the rate that the host sets, and one call a millisecond. Document 01, "Report and keyboard", its second
// paragraph.
// Assumes nothing.
ghost use Rattle.std.specs.Prelude.{◌≡◌, not, ◌&&◌, ◌+◌, ◌*◌, min, eqb, leb};
ghost use Rattle.keyboard.specs.Idle.{idled, clocked};

use super::{Answered, Clocked, Keyboard};

// The count of a clock call, which stops at the longest period.
fn counted(count: u16) -> u16
    ensures { result ≡ min (count + 1) 1020 }
{
    count.saturating_add(1).min(1020)
}

fn is_due(idle: u8, count: u16) -> bool
    ensures { result ≡ (not (eqb idle 0) && leb (4 * idle) count) }
{
    idle != 0 && 4 * u16::from(idle) <= count
}

impl Keyboard {
    // Set_Idle: the rate, in units of 4 ms; 0 repeats nothing.
    #[tactic(auto, unfolding(crate::specs::Idle::idled))]
    pub fn set_idle(self, rate: u8) -> Answered
        ensures { result ≡ idled self rate }
    {
        Answered {
            number: 0,
            keyboard: Keyboard {
                idle: rate,
                count: 0,
                ..self
            },
        }
    }

    // One millisecond: whether the report is due again.
    #[tactic(auto, unfolding(crate::specs::Idle::clocked))]
    pub fn clock(self) -> Clocked
        ensures { result ≡ clocked self }
    {
        let count = counted(self.count);
        let due = is_due(self.idle, count);
        Clocked {
            due,
            keyboard: Keyboard {
                count: if due { 0 } else { count },
                ..self
            },
        }
    }
}
