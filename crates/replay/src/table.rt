// The lines of codes and of the table image: `codes`, `image`, `areas`. Assumes nothing.
use super::say;
use super::words::{ROOM, hex};
use codes::KbHidReport;
use image::{Source, check, in_use, refusal_in_use, source_of};
use text::{Text, front};

// The image that stands, legal or not, and so many bytes of it: there is no heap. A line has room for fewer.
#[derive(Drop)]
pub struct Image {
    pub bytes: [u8; ROOM],
    pub len: usize,
}

impl Image {
    pub fn stretch(&self) -> &[u8] {
        front(&self.bytes, self.len)
    }

    // `image HEX`: the image that later lines are given, and whether it is accepted.
    pub fn set(&mut self, word: &[u8]) -> Option<Text> {
        let mut room = [0; ROOM];
        let bytes = hex(word, &mut room)?;
        self.len = bytes.len();
        self.bytes.get_mut(..bytes.len())?.copy_from_slice(bytes);
        Some(match check(bytes) {
            Ok(_) => say::text(b"accepted"),
            Err(fault) => say::refused(fault),
        })
    }
}

// `codes HEX`: the report of these codes.
pub fn codes(word: &[u8]) -> Option<Text> {
    let mut room = [0; ROOM];
    let codes = hex(word, &mut room)?;
    let report = KbHidReport::from_codes(codes, codes.len());
    Some(Text::new().put_hex(&report.bytes))
}

// `areas HEX HEX`: which area, the operator's or the built-in one, holds the table in use, and how long its stretch is; or the
// refusal that is told beside an empty stretch.
pub fn areas(operator: &[u8], built_in: &[u8]) -> Option<Text> {
    let mut one = [0; ROOM];
    let mut other = [0; ROOM];
    let operator = hex(operator, &mut one)?;
    let built_in = hex(built_in, &mut other)?;
    let length = in_use(operator, built_in).len();
    Some(match source_of(operator, built_in) {
        Ok(Source::Operator(_)) => say::number(b"operator ", length),
        Ok(Source::BuiltIn(_)) => say::number(b"built-in ", length),
        Err(_) => say::refused(refusal_in_use(operator, built_in)?),
    })
}
