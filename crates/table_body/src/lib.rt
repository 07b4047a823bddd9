// The programs `table_write` and `table_print`: document 02, W-201, for the layout clerk. Each reads standard input to its end
// and writes what `table_text` makes of it, an image or a text, and nothing else; or the one line that says why nothing is
// made: `refused N P`, `too long`, `unreadable`. An image begins with the byte 1 and a text with a digit, so that the three
// are told apart. Which bytes are read or written nothing can say; the line of a refusal is promised. Assumes nothing.
#![tactic(auto)]

mod digits;

ghost use Rattle.std.specs.Prelude.{◌≡◌, length};
ghost use Rattle.refusal.specs.Number.{number_of};
ghost use Rattle.table_body.specs.Line.{Refuses};

use console::{read_whole, write_all, write_line};
use digits::decimal;
use refusal::Fault;
use std::io::{Stdin, Stdout};
use text::{Text, front};

// One byte more than a text may have here, 1,048,576. A text that fills it is too long.
const TEXT: usize = 1048577;

// One byte more than the largest image has, 16 + 2 * 8 * 8 * 16 + 8 * 256 + 2 * 1024. The check looks at the header and then
// at the length, so it refuses bytes that fill this as it would the whole.
const IMAGE: usize = 6161;

// Room for the text of every image that is accepted: 14,352 bytes at most.
const PRINTED: usize = 16384;

// Zeros, by a call: the checker would count them out one by one where they are lent.
fn text_room() -> [u8; TEXT]
    ensures { length result ≡ 1048577 }
{
    [0; TEXT]
}

// A refusal's number and its place. The place may be a line's number, which can have more than five digits.
fn refusal_line(fault: Fault) -> Text
    ensures { Refuses (number_of fault.refusal) fault.place result }
{
    let mut digits = [0u8; 20];
    let n = decimal(fault.place, &mut digits);
    Text::new()
        .put_all(b"refused ")
        .put_number(fault.refusal.number() as usize)
        .put(b' ')
        .put_all(&digits[..n])
}

// What was made, from the buffer's start; or the refusal.
fn hand_over(stdout: Stdout, made: Result<usize, Fault>, out: &[u8]) {
    match made {
        Ok(n) => {
            let _ = write_all(stdout, front(out, n));
        }
        Err(fault) => write_line(stdout, refusal_line(fault)),
    }
}

fn say(stdout: Stdout, words: &[u8]) {
    write_line(stdout, Text::new().put_all(words));
}

fn write_image(stdout: Stdout, text: &[u8]) {
    if text.len() == TEXT {
        say(stdout, b"too long");
        return;
    }
    let mut image = [0u8; IMAGE];
    let made = table_text::write(text, &mut image);
    hand_over(stdout, made, &image);
}

fn print_text(stdout: Stdout, image: &[u8]) {
    let mut text = [0u8; PRINTED];
    let made = table_text::print(image, &mut text);
    hand_over(stdout, made, &text);
}

// Answers the whole input, or says that it cannot be read.
fn answer<Make: FnOnce(Stdout, &[u8])>(
    mut stdin: Stdin,
    stdout: Stdout,
    room: &mut [u8],
    make: Make,
)
    requires { Make.IsAlwaysCallable make }
{
    match read_whole(&mut stdin, room) {
        Ok(n) => make(stdout, front(room, n)),
        Err(_) => say(stdout, b"unreadable"),
    }
}

// The whole of `table_write`. Nothing can be promised of what it reads and writes: it ends, and is safe.
pub fn write(stdin: Stdin, stdout: Stdout)
    ensures { result ≡ tt }
{
    let mut bytes = text_room();
    answer(stdin, stdout, &mut bytes, write_image);
}

// The whole of `table_print`, likewise.
pub fn print(stdin: Stdin, stdout: Stdout)
    ensures { result ≡ tt }
{
    let mut bytes = [0u8; IMAGE];
    answer(stdin, stdout, &mut bytes, print_text);
}
