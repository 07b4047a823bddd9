// What a call did, noted for its answer: the event acted on, if any, the decisions made, each at its position, and how many
// states were dropped. Document 01, Layout, the last paragraph; document 02, W-202.
// Assumes nothing.
ghost use Rattle.std.specs.Prelude.{◌≡◌};
ghost use Rattle.layout.specs.Notes.{no_notes as none, note_acted, note_decision, note_dropped};

use event::{Coord, Event};

// How a hold-tap is decided.
#[derive(Clone, Copy, PartialEq, Eq, Debug)]
pub enum Way {
    Tap,
    Hold,
}

// A hold-tap that was decided: the coordinates of its key, and how.
#[derive(Clone, Copy, PartialEq, Eq, Debug)]
pub struct Decision {
    pub coord: Coord,
    pub way: Way,
}

// The event acted on, if any, how many decisions were made, the decisions in their order, and how many states were dropped.
// `made` is a count, which demand 3 adds up, and no mark of which decisions are there: those are options.
#[derive(Clone, Copy, PartialEq, Eq, Debug)]
pub struct Notes {
    pub acted: Option<Event>,
    pub made: u8,
    pub first: Option<Decision>,
    pub second: Option<Decision>,
    pub dropped: u16,
}

// No event acted on, no decision, no state dropped.
pub(crate) fn no_notes() -> Notes
    ensures { result ≡ none }
{
    Notes {
        acted: None,
        made: 0,
        first: None,
        second: None,
        dropped: 0,
    }
}

// An event is acted on.
pub(crate) fn note_acted(notes: Notes, event: Event) -> Notes
    ensures { result ≡ note_acted notes event }
{
    Notes {
        acted: Some(event),
        ..notes
    }
}

// A decision, at the position behind those made before it. There is room for two.
pub(crate) fn note_decision(notes: Notes, decision: Decision) -> Notes
    ensures { result ≡ note_decision notes decision.coord decision.way }
{
    match notes.made {
        0 => Notes {
            made: 1,
            first: Some(decision),
            ..notes
        },
        1 => Notes {
            made: 2,
            second: Some(decision),
            ..notes
        },
        _ => notes,
    }
}

// One state more was dropped. The count stops at 65,535, which no call comes near.
pub(crate) fn note_dropped(notes: Notes) -> Notes
    ensures { result ≡ note_dropped notes 1 }
{
    Notes {
        dropped: notes.dropped.saturating_add(1),
        ..notes
    }
}
