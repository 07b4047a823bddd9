// The line of two tables that are compared: `compare`. Assumes nothing.
use super::say::FILL;
use super::texts::told;
use super::words::{ROOM, hex};
use std::io::Stdout;
use table_changes::compare;
use text::Text;

// `compare HEX HEX ROOM`: a call into a buffer of as many bytes as there is room, and its answer. A cell has three bytes.
pub fn answer(stdout: Stdout, first: &[u8], second: &[u8], n: u16) -> Option<Text> {
    let mut one = [0; ROOM];
    let mut other = [0; ROOM];
    let first = hex(first, &mut one)?;
    let second = hex(second, &mut other)?;
    let mut buffer = [FILL; 65535];
    let out = &mut buffer[..usize::from(n)];
    let made = compare(first, second, out).map(|count| count.saturating_mul(3));
    Some(told(stdout, b"cells ", made, out))
}
