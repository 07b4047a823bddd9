// keyberon's keyboard.rs: the last report, the lights, and the requests that the USB stack hands on; idle.rt has the idle clock
// and descriptor.rt what the device says of itself. By value; lent.rt has the same calls over a record that is lent, for C and
// Rust to link by the crate keyboard_c, linked.rt what they link beside those, and through.rt calls the lent ones with a record
// that is at hand.
// Document 01, "Report and keyboard".
// Assumes nothing.
#![tactic(auto)]

mod descriptor;
mod idle;
pub mod lent;
pub mod linked;
pub mod through;

ghost use Rattle.std.specs.Prelude.{◌≡◌};
ghost use Rattle.keyboard.specs.Keyboard.{fresh, reported, fetched, lit, with_leds};

use codes::KbHidReport;
use refusal::Refusal;

// Every value of it is legal.
#[repr(C)]
#[derive(Clone, Copy)]
pub struct Keyboard {
    pub report: KbHidReport,
    pub num: bool,
    pub caps: bool,
    pub scroll: bool,
    pub compose: bool,
    pub kana: bool,
    // the idle rate, in units of 4 ms, and the clock calls of the running period
    pub idle: u8,
    pub count: u16,
}

// An answer, and the keyboard after it. There are four of these, and not one over a type: their fields are named by the calls'
// clauses (`LentChanged` and its like), and `due` and `changed` say there what `answer` would not.
#[repr(C)]
#[derive(Clone, Copy)]
pub struct Changed {
    pub changed: bool,
    pub keyboard: Keyboard,
}

// A refusal's number or 0, and the report; a refused one is zero. C links this, so a number and not a `Result`.
#[repr(C)]
#[derive(Clone, Copy)]
pub struct Got {
    pub number: u8,
    pub report: KbHidReport,
}

#[repr(C)]
#[derive(Clone, Copy)]
pub struct Fetched {
    pub got: Got,
    pub keyboard: Keyboard,
}

// A refusal's number or 0: C is answered this number, and a call by value answers alike.
#[repr(C)]
#[derive(Clone, Copy)]
pub struct Answered {
    pub number: u8,
    pub keyboard: Keyboard,
}

#[repr(C)]
#[derive(Clone, Copy)]
pub struct Clocked {
    pub due: bool,
    pub keyboard: Keyboard,
}

// Report types of a request, as HID 1.11 numbers them.
const INPUT: u8 = 1;

const OUTPUT: u8 = 2;

impl Keyboard {
    pub fn new() -> Keyboard
        ensures { result ≡ fresh }
    {
        Keyboard {
            report: KbHidReport::default(),
            num: false,
            caps: false,
            scroll: false,
            compose: false,
            kana: false,
            idle: 0,
            count: 0,
        }
    }

    // The report to send from now on; whether it differs from the last.
    #[tactic(auto, unfolding(crate::specs::Keyboard::reported))]
    pub fn set_keyboard_report(self, report: KbHidReport) -> Changed
        ensures { result ≡ reported self report }
    {
        if report == self.report {
            return Changed {
                changed: false,
                keyboard: self,
            };
        }
        Changed {
            changed: true,
            keyboard: Keyboard {
                report,
                count: 0,
                ..self
            },
        }
    }

    // Get_Report: Input has the last report, under any id.
    #[tactic(auto, unfolding(crate::specs::Keyboard::fetched))]
    pub fn get_report(self, kind: u8, id: u8) -> Fetched
        ensures { result ≡ fetched self kind id }
    {
        let got = match kind {
            INPUT => Got {
                number: 0,
                report: self.report,
            },
            _ => Got {
                number: Refusal::Request.number(),
                report: KbHidReport::default(),
            },
        };
        Fetched {
            got,
            keyboard: self,
        }
    }

    // Set_Report: Output, id 0 and one byte set the lights.
    #[tactic(auto, unfolding(crate::specs::Keyboard::lit))]
    pub fn set_report(self, kind: u8, id: u8, bytes: &[u8]) -> Answered
        ensures { result ≡ lit self kind id bytes.now }
    {
        match (kind, id, bytes) {
            (OUTPUT, 0, [leds]) => Answered {
                number: 0,
                keyboard: self.with_leds(*leds),
            },
            _ => Answered {
                number: Refusal::Request.number(),
                keyboard: self,
            },
        }
    }

    // LED bits 0 to 4.
    #[tactic(auto, unfolding(codes::specs::Hid111::bit))]
    fn with_leds(self, leds: u8) -> Keyboard
        ensures { result ≡ with_leds self leds }
    {
        Keyboard {
            num: leds % 2 == 1,
            caps: leds / 2 % 2 == 1,
            scroll: leds / 4 % 2 == 1,
            compose: leds / 8 % 2 == 1,
            kana: leds / 16 % 2 == 1,
            ..self
        }
    }
}
