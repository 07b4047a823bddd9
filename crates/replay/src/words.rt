// The words of a script's line, parted by single spaces, and what they say: numbers, bytes in hex, a picture.
// Everything is read strictly (docs/LINES.md). Assumes nothing.
ghost use Rattle.std.specs.Prelude.{◌<◌, IfSome};

use number::decimal_within;

// A line has fewer bytes in hex than fit here. It may have a longer picture, of which the first digits are read: that is
// refused as the whole one is, for its length.
pub const ROOM: usize = 32768;

// How a word says that there is no byte, or no place.
const NO_BYTE: &[u8] = b"-";

pub fn number(word: &[u8]) -> Option<u16> {
    decimal_within(word, 5, u16::MAX)
}

// A number of at most so much.
pub fn at_most(word: &[u8], largest: u16) -> Option<usize> {
    Some(usize::from(decimal_within(word, 5, largest)?))
}

pub fn byte(word: &[u8]) -> Option<u8> {
    u8::try_from(decimal_within(word, 3, 255)?).ok()
}

// The value of a hex digit.
fn digit(c: u8) -> Option<u8>
    ensures { IfSome result (λ d. d < 16) }
{
    match c {
        b'0'..=b'9' => Some(c - b'0'),
        b'a'..=b'f' => Some(c - b'a' + 10),
        _ => None,
    }
}

// The byte that two hex digits spell.
fn spelt(high: u8, low: u8) -> Option<u8> {
    Some(16 * digit(high)? + digit(low)?)
}

// Bytes of two hex digits each.
pub fn hex<'a>(word: &[u8], room: &'a mut [u8; ROOM]) -> Option<&'a [u8]> {
    if word == NO_BYTE {
        return Some(&[]);
    }
    if word.is_empty() || word.len() % 2 != 0 {
        return None;
    }
    let bytes = room.get_mut(..word.len() / 2)?;
    for (byte, pair) in bytes.iter_mut().zip(word.chunks_exact(2)) {
        *byte = spelt(pair[0], pair[1])?;
    }
    Some(bytes)
}

// A decimal digit a place.
pub fn picture<'a>(word: &[u8], room: &'a mut [u8; ROOM]) -> Option<&'a [u8]> {
    if word == NO_BYTE {
        return Some(&[]);
    }
    if word.is_empty() || !word.iter().all(u8::is_ascii_digit) {
        return None;
    }
    let places = room.get_mut(..word.len().min(ROOM))?;
    for (place, c) in places.iter_mut().zip(word) {
        *place = digit(*c)?;
    }
    Some(places)
}
