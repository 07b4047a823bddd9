// Answers that more than one line gives, and what a lent buffer is filled with before a call, so that a byte which the call
// must not write shows. Assumes nothing.
use refusal::Fault;
use text::Text;

pub const FILL: u8 = 0xEE;

pub fn text(said: &[u8]) -> Text {
    Text::new().put_all(said)
}

// A digit for each of some flags.
pub fn flags(so_far: Text, all: &[bool]) -> Text {
    all.iter()
        .fold(so_far, |text, yes| text.put_number(usize::from(*yes)))
}

pub fn number(said: &[u8], n: usize) -> Text {
    text(said).put_number(n)
}

pub fn refused(fault: Fault) -> Text {
    text::refused(fault.refusal.number(), fault.place)
}

// Bytes in hex, `-` for none.
pub fn hex(so_far: Text, bytes: &[u8]) -> Text {
    if bytes.is_empty() {
        return so_far.put(b'-');
    }
    so_far.put_hex(bytes)
}

// Whether each byte from n on is as it was filled.
pub fn is_filled(bytes: &[u8], n: usize) -> bool {
    bytes.iter().skip(n).all(|byte| *byte == FILL)
}
