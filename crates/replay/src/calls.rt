// The lines of the layout's calls: `p`, `r`, `t`, `k`. Assumes nothing.
use super::commands::Call;
use super::say;
use super::say::FILL;
use event::{Coord, Event};
use layout::{Answer, Answered, Decision, Layout, Notes, Way};
use refusal::Fault;
use text::{Text, front};

// Coordinates, with a space before each.
fn put_at(text: Text, i: u8, j: u8) -> Text {
    text.put(b' ')
        .put_number(usize::from(i))
        .put(b' ')
        .put_number(usize::from(j))
}

fn put_acted(text: Text, acted: Option<Event>) -> Text {
    match acted {
        Some(Event::Release(i, j)) => put_at(text.put(b'r'), i, j),
        Some(Event::Press(i, j)) => put_at(text.put(b'p'), i, j),
        None => text.put(b'-'),
    }
}

fn put_decision(text: Text, made: Decision) -> Text {
    let way: &[u8] = match made.way {
        Way::Tap => b"tap",
        Way::Hold => b"hold",
    };
    let Coord { i, j } = made.coord;
    put_at(text.put_all(way), i, j)
}

fn put_decided(text: Text, first: Option<Decision>, second: Option<Decision>) -> Text {
    match (first, second) {
        (Some(one), Some(other)) => put_decision(put_decision(text, one).put_all(b", "), other),
        (Some(one), None) => put_decision(text, one),
        (None, _) => text.put(b'-'),
    }
}

fn put_notes(text: Text, notes: Notes) -> Text {
    let acted = put_acted(text.put_all(b" | acted "), notes.acted);
    put_decided(acted.put_all(b" | decided "), notes.first, notes.second)
        .put_all(b" | dropped ")
        .put_number(usize::from(notes.dropped))
}

// The answer, `spilt` where a byte past the codes was written.
fn told(answer: Result<Answer, Fault>, buffer: &[u8]) -> Text {
    let count = answer.map_or(0, |answer| answer.codes);
    if !say::is_filled(buffer, count) {
        return say::text(b"spilt");
    }
    match answer {
        Ok(answer) => put_notes(
            say::hex(say::text(b"codes "), front(buffer, count)),
            answer.notes,
        ),
        Err(fault) => say::refused(fault),
    }
}

fn called(call: Call, image: &[u8], layout: Layout, codes: &mut [u8]) -> Answered {
    match call {
        Call::Event(event) => layout.event(image, event, codes),
        Call::Tick => layout.tick(image, codes),
        Call::Keycodes => Answered {
            answer: layout.keycodes(image, codes),
            layout,
        },
    }
}

// `p I J`, `r I J`, `t`, `k`: a call into a buffer of as many bytes as there is room, and its answer. More than 128 is as good
// as 128: no layout has so many codes.
pub fn answer(call: Call, image: &[u8], room: usize, layout: &mut Layout) -> Text {
    let mut buffer = [FILL; 128];
    let codes = &mut buffer[..room.min(128)];
    let answered = called(call, image, *layout, codes);
    *layout = answered.layout;
    told(answered.answer, codes)
}
