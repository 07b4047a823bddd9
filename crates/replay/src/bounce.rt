// The lines of the debouncer: `debounce`, `debouncer`, `scan`, `update`, `picture`. Assumes nothing.
use super::commands::{Bounce, Size};
use super::say;
use super::say::FILL;
use super::words::{ROOM, picture};
use debounce::Debouncer;
use refusal::Fault;
use text::{Text, front};

// Before the first line: all up, 1 by 1, which is what a refused making gives.
pub fn start() -> Debouncer {
    Debouncer::new(0, 0, 0, b"").debouncer
}

fn refused(fault: Fault) -> Text {
    say::number(b"refused ", usize::from(fault.refusal.number()))
}

// `debounce R C NB PICTURE`
fn make(size: Size, word: &[u8], debouncer: &mut Debouncer) -> Option<Text> {
    let mut room = [0; ROOM];
    let start = picture(word, &mut room)?;
    let made = Debouncer::new(size.rows, size.columns, size.nb_bounce, start);
    *debouncer = made.debouncer;
    let number = made.answer.err().map_or(0, |fault| fault.refusal.number());
    Some(say::number(b"made ", usize::from(number)))
}

// What a picture of at most 128 places says, and zeros.
fn places(word: &[u8]) -> Option<[u8; 128]> {
    let mut room = [0; ROOM];
    let said = picture(word, &mut room)?;
    let mut all = [0; 128];
    all.get_mut(..said.len())?.copy_from_slice(said);
    Some(all)
}

// `debouncer R C NB SINCE CUR NEW`: the debouncer as it stands, legal or not.
fn set(size: Size, since: u16, cur: &[u8], new: &[u8]) -> Option<Debouncer> {
    Some(Debouncer {
        cur: places(cur)?,
        new: places(new)?,
        since,
        nb_bounce: size.nb_bounce,
        rows: size.rows,
        columns: size.columns,
    })
}

// `update PICTURE`: whether the accepted picture changed.
fn update(word: &[u8], debouncer: &mut Debouncer) -> Option<Text> {
    let mut room = [0; ROOM];
    let done = debouncer.update(picture(word, &mut room)?);
    *debouncer = done.debouncer;
    Some(match done.answer {
        Ok(changed) => say::flags(say::text(b"changed "), &[changed]),
        Err(fault) => refused(fault),
    })
}

// `picture`: the 128 places of the accepted picture, a digit a place.
fn shown(debouncer: &Debouncer) -> Text {
    let got = debouncer.get();
    match got.answer {
        Ok(()) => got
            .picture
            .iter()
            .fold(say::text(b"picture "), |text, place| {
                text.put_number(usize::from(*place))
            }),
        Err(fault) => refused(fault),
    }
}

// The bytes of so many events in hex, three an event; `spilt` where a byte past them was written.
fn told(answer: Result<usize, Fault>, events: &[u8]) -> Text {
    let written = answer.map_or(0, |count| count.saturating_mul(3));
    if !say::is_filled(events, written) {
        return say::text(b"spilt");
    }
    match answer {
        Ok(_) => say::hex(say::text(b"events "), front(events, written)),
        Err(fault) => refused(fault),
    }
}

// `scan PICTURE`: the events, in a buffer of as many bytes as there is space. More than 1,024 is as good as 1,024: no picture has
// so many events.
fn scan(word: &[u8], space: usize, debouncer: &mut Debouncer) -> Option<Text> {
    let mut room = [0; ROOM];
    let mut buffer = [FILL; 1024];
    let events = &mut buffer[..space.min(1024)];
    let done = debouncer.events(picture(word, &mut room)?, events);
    *debouncer = done.debouncer;
    Some(told(done.answer, events))
}

pub fn answer(asked: Bounce, line: &[u8], space: usize, debouncer: &mut Debouncer) -> Option<Text> {
    match asked {
        Bounce::Make(size, start) => make(size, start, debouncer),
        Bounce::Set(size, since, cur, new) => {
            *debouncer = set(size, since, cur, new)?;
            Some(say::text(line))
        }
        Bounce::Scan(picture) => scan(picture, space, debouncer),
        Bounce::Update(picture) => update(picture, debouncer),
        Bounce::Picture => Some(shown(debouncer)),
    }
}
