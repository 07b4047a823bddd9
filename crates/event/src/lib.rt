// An event of the key matrix: a key at row i, column j goes down or comes up. It stands below debounce, which makes
// events, and layout, which takes them. `Release` is first, since it has the number 0 in the event's bytes.
// Assumes nothing.
#![tactic(auto)]

ghost use Rattle.std.specs.Prelude.{◌≡◌};
ghost use Rattle.event.specs.Bytes.{coord_of, bytes_of, read_of};

#[derive(Clone, Copy, PartialEq, Eq, Debug)]
pub enum Event {
    Release(u8, u8),
    Press(u8, u8),
}

#[derive(Clone, Copy, PartialEq, Eq, Debug)]
pub struct Coord {
    pub i: u8,
    pub j: u8,
}

// A first byte that is neither 0 nor 1.
#[derive(Clone, Copy, PartialEq, Eq, Debug)]
pub struct UnknownKind {
    pub kind: u8,
}

impl Event {
    // The row and column of the key.
    pub fn coord(self) -> Coord
        ensures { result ≡ coord_of self }
    {
        match self {
            Event::Release(i, j) | Event::Press(i, j) => Coord { i, j },
        }
    }
}

// The event's three bytes.
impl From<Event> for [u8; 3] {
    ghost from_gives = { λ event r. r ≡ bytes_of event };

    fn from(event: Event) -> [u8; 3] {
        match event {
            Event::Release(i, j) => [0, i, j],
            Event::Press(i, j) => [1, i, j],
        }
    }
}

// The event that three bytes are of.
impl TryFrom<[u8; 3]> for Event {
    type Error = UnknownKind;

    ghost try_from_gives = { λ bytes r. r ≡ read_of bytes };

    fn try_from(bytes: [u8; 3]) -> Result<Event, UnknownKind> {
        match bytes {
            [0, i, j] => Ok(Event::Release(i, j)),
            [1, i, j] => Ok(Event::Press(i, j)),
            [kind, _, _] => Err(UnknownKind { kind }),
        }
    }
}
