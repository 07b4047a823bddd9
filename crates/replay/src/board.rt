// The lines of the keyboard: `report`, `get`, `set`, `rate`, `idling`, `clock`, `descriptor`. `report`, `get`, `set` and `rate`
// go through the lent calls; the calls of `clock` go by turns, the first by value, the next through the lent call, so both are run.
// Assumes nothing.
use super::commands::Board;
use super::say;
use super::words::{ROOM, hex};
use codes::KbHidReport;
use keyboard::{Keyboard, through};
use text::Text;

// `report HEX`: the report to send from now on, eight bytes.
fn report(word: &[u8], keyboard: &mut Keyboard) -> Option<Text> {
    let mut room = [0; ROOM];
    let bytes = hex(word, &mut room)?.try_into().ok()?;
    let done = through::set_keyboard_report(*keyboard, KbHidReport { bytes });
    *keyboard = done.keyboard;
    Some(say::flags(say::text(b"changed "), &[done.changed]))
}

// `get TYPE ID`: a number and a report.
fn get(kind: u8, id: u8, keyboard: &mut Keyboard) -> Text {
    let done = through::get_report(*keyboard, kind, id);
    *keyboard = done.keyboard;
    say::number(b"", usize::from(done.got.number))
        .put(b' ')
        .put_hex(&done.got.report.bytes)
}

// `set TYPE ID HEX`: the number of an answer, and the five lights as digits.
fn set(kind: u8, id: u8, word: &[u8], keyboard: &mut Keyboard) -> Option<Text> {
    let mut room = [0; ROOM];
    let done = through::set_report(*keyboard, kind, id, hex(word, &mut room)?);
    let after = done.keyboard;
    *keyboard = after;
    Some(say::flags(
        say::number(b"", usize::from(done.number)).put_all(b" leds "),
        &[
            after.num,
            after.caps,
            after.scroll,
            after.compose,
            after.kana,
        ],
    ))
}

// `clock N`: N clock calls, how many were due, and the count after them. Every other call goes through the lent one.
fn clock(n: u16, keyboard: &mut Keyboard) -> Text {
    let mut due: usize = 0;
    for i in 0..n {
        let done = if i % 2 == 0 {
            keyboard.clock()
        } else {
            through::clock(*keyboard)
        };
        *keyboard = done.keyboard;
        due = due.saturating_add(usize::from(done.due));
    }
    say::number(b"due ", due)
        .put_all(b" count ")
        .put_number(usize::from(keyboard.count))
}

pub fn answer(asked: Board, line: &[u8], keyboard: &mut Keyboard) -> Option<Text> {
    match asked {
        Board::Report(bytes) => report(bytes, keyboard),
        Board::Get(kind, id) => Some(get(kind, id, keyboard)),
        Board::Set(kind, id, bytes) => set(kind, id, bytes, keyboard),
        Board::Rate(n) => {
            *keyboard = through::set_idle(*keyboard, n).keyboard;
            Some(say::text(b"rate"))
        }
        // the rate and the count as they stand, whatever the calls would make of them
        Board::Idling(rate, count) => {
            keyboard.idle = rate;
            keyboard.count = count;
            Some(say::text(line))
        }
        Board::Clock(n) => Some(clock(n, keyboard)),
        Board::Descriptor => {
            Some(say::text(b"descriptor ").put_hex(&Keyboard::report_descriptor()))
        }
    }
}
