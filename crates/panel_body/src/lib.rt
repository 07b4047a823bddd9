// The program `panel`: document 01, Bench cases. It reads the image from `table.img`, then lines from standard input, and
// writes the report after each, `?` for a line that it cannot read, and for a refused image the refusal alone. The report goes
// through a keyboard, as on the panel itself: it is set there, and what Get_Report answers is written; a tick runs the idle
// clock too. What is done with a line and written for it is promised (`Panel::answer`); which bytes are read or written nothing
// can say. Assumes nothing.
#![tactic(auto)]

mod table;

ghost use Rattle.std.specs.Prelude.{◌≡◌};
ghost use Rattle.layout.specs.Calls.{handed};
ghost use Rattle.panel_line.specs.Line.{line_of};
ghost use Rattle.text.specs.Text.{saying};
ghost use Rattle.panel_body.specs.Line.{Does, report_shown, printed, done_for, refusal_line};

use codes::KbHidReport;
use console::{advance, put_line};
use image::check;
use keyboard::Keyboard;
use layout::{Answered, Layout};
use panel_line::{Line, read_line};
use refusal::Fault;
use std::io;
use text::{Reading, Text, front, refused, unread};

// The longest line that can be read has nine bytes.
const LINE: usize = 16;

const INPUT: usize = 4096;

// The report type that has the keys, as Get_Report asks for it.
const INPUT_REPORT: u8 = 1;

// The panel without its switches: what keys do, and the keyboard that the terminal sees.
#[derive(Clone, Copy)]
struct Panel {
    layout: Layout,
    keyboard: Keyboard,
}

impl Panel {
    // A report is set, and what the keyboard then answers is printed.
    #[tactic(auto, unfolding(crate::specs::Line::report_shown, text::specs::Text::saying))]
    fn show_report(&mut self, report: KbHidReport) -> Text
        ensures { Does (report_shown self.old.layout self.old.keyboard report) self.new result }
    {
        let told = self.keyboard.set_keyboard_report(report).keyboard;
        let fetched = told.get_report(INPUT_REPORT, 0);
        self.keyboard = fetched.keyboard;
        Text::new().put_hex(&fetched.got.report.bytes)
    }

    // What a call answered, and the codes that it wrote. A call is not refused here: the image is accepted and the layout is one
    // that calls led to. Were it refused, that would be told, and the keyboard would keep its report.
    #[tactic(auto, unfolding(crate::specs::Line::printed))]
    fn report_after(&mut self, answered: Answered, codes: &[u8]) -> Text
        ensures { Does (printed self.old.keyboard (handed answered codes.now)) self.new result }
    {
        self.layout = answered.layout;
        match answered.answer {
            Ok(answer) => self.show_report(KbHidReport::from_codes(codes, answer.codes)),
            Err(fault) => refusal_of(fault),
        }
    }

    // What a line asks, and its answer. The clock comes before the tick, so that a report which the tick changes begins its
    // period with this millisecond.
    fn answer(&mut self, image: &[u8], line: &[u8]) -> Text
        ensures { Does (done_for image.now self.old (line_of line.now)) self.new result }
    {
        let mut codes = [0u8; Layout::STATES];
        match read_line(line) {
            Some(Line::Key(event)) => {
                let answered = self.layout.event(image, event, &mut codes);
                self.report_after(answered, &codes)
            }
            Some(Line::Tick) => {
                self.keyboard = self.keyboard.clock().keyboard;
                let answered = self.layout.tick(image, &mut codes);
                self.report_after(answered, &codes)
            }
            None => unread(),
        }
    }
}

// What is printed where something is refused.
fn refusal_of(fault: Fault) -> Text
    ensures { result ≡ saying (refusal_line fault) }
{
    refused(fault.refusal.number(), fault.place)
}

// Answers lines to the end of the input, or until one cannot be written. Nothing says that the input has an end, so the loop
// counts turns up to a number that no run comes to.
// `replay` has the same loop: for both it would be a public function over a closure, and a public function's answer is stated
// in `Unique`, which has no form for a type parameter.
fn answer_all(rt: &HostRuntime, image: &[u8]) -> io::Result<()> {
    let mut input = [0u8; INPUT];
    let mut line = [0u8; LINE];
    let mut panel = Panel {
        layout: Layout::new(),
        keyboard: Keyboard::new(),
    };
    let mut reading = Reading::start();
    for _ in 0..u64::MAX {
        reading = advance(rt.stdin(), &mut input, &mut line, reading);
        if reading.ended {
            put_line(rt.stdout(), panel.answer(image, front(&line, reading.held)))?;
            reading = reading.answered();
        }
        if reading.over {
            break;
        }
    }
    Ok(())
}

fn with_image(rt: &HostRuntime, image: &[u8]) -> io::Result<()> {
    if let Err(fault) = check(image) {
        return put_line(rt.stdout(), refusal_of(fault));
    }
    answer_all(rt, image)
}

// The whole program. Nothing can be promised of what it reads and writes: it ends, and is safe. It ends too
// where a line cannot be written: there is nobody to tell.
pub fn run(rt: &HostRuntime)
    ensures { result ≡ tt }
{
    let mut bytes = [0u8; table::ROOM];
    if let Some(n) = table::take(rt, &mut bytes) {
        let _ = with_image(rt, front(&bytes, n));
    }
}
