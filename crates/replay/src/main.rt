// The test driver: reads a script from standard input, a command a line, and writes an answer a line, `?` for a line that
// it cannot read. docs/REPLAY.md has the lines. `oracle replay` answers the same lines from the Rust, and the two are compared.
// Assumes nothing.
#![tactic(auto)]

mod board;
mod bounce;
mod calls;
mod changes;
mod commands;
mod parts;
mod say;
mod table;
mod texts;
mod words;

use commands::{Buffer, Command, Table};
use console::{advance, put_line};
use debounce::Debouncer;
use keyboard::Keyboard;
use layout::Layout;
use std::io;
use std::io::Stdout;
use table::Image;
use text::{Reading, Text, front, unread};

// How much one read brings, and the longest line.
const INPUT: usize = 65536;

const LINE: usize = 65536;

// What the script has made so far: how many bytes the code buffer and the event buffer have; the image, the layout, the
// debouncer and the keyboard.
#[derive(Drop)]
struct Desk {
    room: usize,
    space: usize,
    image: Image,
    layout: Layout,
    debouncer: Debouncer,
    keyboard: Keyboard,
}

impl Desk {
    // Before the first line: an empty image with a fresh layout, 64 bytes for codes and 384 for events, a fresh keyboard, and
    // the debouncer that stands at first.
    fn new() -> Desk {
        Desk {
            room: 64,
            space: 384,
            image: Image {
                bytes: [0; words::ROOM],
                len: 0,
            },
            layout: Layout::new(),
            debouncer: bounce::start(),
            keyboard: Keyboard::new(),
        }
    }

    // An image goes with a fresh layout.
    fn on_table(&mut self, asked: Table) -> Option<Text> {
        match asked {
            Table::Codes(word) => table::codes(word),
            Table::Image(word) => {
                let text = self.image.set(word)?;
                self.layout = Layout::new();
                Some(text)
            }
            Table::Areas(operator, built_in) => table::areas(operator, built_in),
        }
    }

    // `room N`, `space N`
    fn on_buffer(&mut self, asked: Buffer, n: u16) {
        match asked {
            Buffer::Room => self.room = usize::from(n),
            Buffer::Space => self.space = usize::from(n),
        }
    }

    // A line's answer, or the end of one whose beginning is written (texts.rt); nothing, where it cannot be read.
    fn answer(&mut self, stdout: Stdout, line: &[u8]) -> Option<Text> {
        match commands::read(line)? {
            Command::Table(asked) => self.on_table(asked),
            Command::Texts(asked, word, n) => texts::answer(stdout, asked, word, n),
            Command::Compare(first, second, n) => changes::answer(stdout, first, second, n),
            Command::Buffer(asked, n) => {
                self.on_buffer(asked, n);
                Some(say::text(line))
            }
            Command::Call(call) => {
                let image = self.image.stretch();
                Some(calls::answer(call, image, self.room, &mut self.layout))
            }
            Command::Part(part) => {
                parts::set(part, &mut self.layout);
                Some(say::text(line))
            }
            Command::Bounce(asked) => bounce::answer(asked, line, self.space, &mut self.debouncer),
            Command::Board(asked) => board::answer(asked, line, &mut self.keyboard),
        }
    }
}

// Answers lines to the end of the input, or until one cannot be written. Nothing says that the input has an end, so the loop
// counts turns up to a number that no run comes to.
// `panel_body` has the same loop, and its line says why.
fn run(rt: &HostRuntime) -> io::Result<()> {
    let mut input = [0; INPUT];
    let mut line = [0; LINE];
    let mut desk = Desk::new();
    let mut reading = Reading::start();
    for _ in 0..u64::MAX {
        reading = advance(rt.stdin(), &mut input, &mut line, reading);
        if reading.ended {
            let text = desk.answer(rt.stdout(), front(&line, reading.held));
            put_line(rt.stdout(), text.unwrap_or(unread()))?;
            reading = reading.answered();
        }
        if reading.over {
            break;
        }
    }
    Ok(())
}

fn main(rt: HostRuntime) {
    let _ = run(&rt); // where a line cannot be written there is nobody to tell
}
