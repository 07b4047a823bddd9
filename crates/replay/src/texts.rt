// The lines of a table's text: `write`, `print`; and the answer to a call that makes bytes, which `compare` gives too. It may be
// longer than a `Text`, so all but its last piece is written here. Assumes nothing.
use super::commands::Texts;
use super::say;
use super::say::FILL;
use super::words::{ROOM, hex};
use console::write_all;
use refusal::Fault;
use std::io::Stdout;
use table_text::{print, write};
use text::{Text, front};

// So many bytes of a piece fit into a text, with the word before them.
const PIECE: usize = 500;

// Writes a piece of a line, with no newline behind it.
fn write_piece(stdout: Stdout, text: Text) {
    let _ = write_all(stdout, front(&text.bytes, text.len)); // the rest of the line fails too, and that is told
}

// Bytes in hex, `-` for none, behind the answer's first word. Every piece but the last is written, and that one handed
// back: it goes out with its newline in one write, whose failure ends the program.
fn put_long(stdout: Stdout, said: Text, bytes: &[u8]) -> Text {
    let (pieces, last) = bytes.split_at(bytes.len().saturating_sub(1) / PIECE * PIECE);
    let mut text = said;
    for piece in pieces.chunks(PIECE) {
        write_piece(stdout, text.put_hex(piece));
        text = Text::new();
    }
    say::hex(text, last)
}

// The result in hex, the bytes that a call says that it made; `spilt` where one past them was written. `Text::put_number` puts
// five digits; no place has more: a line of 65,536 bytes holds a text of at most 32,764, whose first line at fault is at most
// the 32,765th.
pub fn told(stdout: Stdout, said: &[u8], made: Result<usize, Fault>, out: &[u8]) -> Text {
    if !say::is_filled(out, made.unwrap_or(0)) {
        return say::text(b"spilt");
    }
    match made {
        Ok(count) => put_long(stdout, say::text(said), front(out, count)),
        Err(fault) => say::refused(fault),
    }
}

// `write HEX ROOM`, `print HEX ROOM`: a call into a buffer of as many bytes as there is room, and its answer.
pub fn answer(stdout: Stdout, asked: Texts, word: &[u8], n: u16) -> Option<Text> {
    let mut room = [0; ROOM];
    let bytes = hex(word, &mut room)?;
    let mut buffer = [FILL; 65535];
    let out = &mut buffer[..usize::from(n)];
    Some(match asked {
        Texts::Write => told(stdout, b"image ", write(bytes, out), out),
        Texts::Print => told(stdout, b"text ", print(bytes, out), out),
    })
}
