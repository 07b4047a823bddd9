// What a line asks: its command, with what its words say. Assumes nothing.
use super::words::{at_most, byte, number};
use event::{Coord, Event};
use layout::{Stacked, State, WaitingState};

#[derive(Clone, Copy)]
pub enum Command<'a> {
    Table(Table<'a>),
    Texts(Texts, &'a [u8], u16),
    Compare(&'a [u8], &'a [u8], u16),
    Buffer(Buffer, u16),
    Call(Call),
    Part(Part),
    Bounce(Bounce<'a>),
    Board(Board<'a>),
}

// The lines of codes and tables, whose words are hex.
#[derive(Clone, Copy)]
pub enum Table<'a> {
    Codes(&'a [u8]),
    Image(&'a [u8]),
    Areas(&'a [u8], &'a [u8]),
}

// A table's text into its image, and back.
#[derive(Clone, Copy)]
pub enum Texts {
    Write,
    Print,
}

// The lengths of the lent buffers.
#[derive(Clone, Copy)]
pub enum Buffer {
    Room,
    Space,
}

// The layout's calls.
#[derive(Clone, Copy)]
pub enum Call {
    Event(Event),
    Tick,
    Keycodes,
}

// What sets a part of the layout.
#[derive(Clone, Copy)]
pub enum Part {
    Default(u16),
    Counts(u16, u16),
    State(usize, State),
    Queued(usize, Stacked),
    Waiting(Option<WaitingState>),
}

// The size of a debouncer, and how many scans it waits.
#[derive(Clone, Copy)]
pub struct Size {
    pub rows: usize,
    pub columns: usize,
    pub nb_bounce: u16,
}

// The debouncer's, with its pictures.
#[derive(Clone, Copy)]
pub enum Bounce<'a> {
    Make(Size, &'a [u8]),
    Set(Size, u16, &'a [u8], &'a [u8]),
    Scan(&'a [u8]),
    Update(&'a [u8]),
    Picture,
}

// The keyboard's.
#[derive(Clone, Copy)]
pub enum Board<'a> {
    Report(&'a [u8]),
    Get(u8, u8),
    Set(u8, u8, &'a [u8]),
    Rate(u8),
    Idling(u8, u16),
    Clock(u16),
    Descriptor,
}

// One word more than any command has.
const WORDS: usize = 8;

fn coord(i: &[u8], j: &[u8]) -> Option<Coord> {
    Some(Coord {
        i: byte(i)?,
        j: byte(j)?,
    })
}

fn press(i: &[u8], j: &[u8]) -> Option<Event> {
    coord(i, j).map(|c| Event::Press(c.i, c.j))
}

fn release(i: &[u8], j: &[u8]) -> Option<Event> {
    coord(i, j).map(|c| Event::Release(c.i, c.j))
}

fn table_of<'a>(words: &[&'a [u8]]) -> Option<Command<'a>> {
    Some(match words {
        [b"codes", bytes] => Command::Table(Table::Codes(bytes)),
        [b"image", bytes] => Command::Table(Table::Image(bytes)),
        [b"areas", operator, built_in] => Command::Table(Table::Areas(operator, built_in)),
        [b"write", bytes, n] => Command::Texts(Texts::Write, bytes, number(n)?),
        [b"print", bytes, n] => Command::Texts(Texts::Print, bytes, number(n)?),
        [b"compare", first, second, n] => Command::Compare(first, second, number(n)?),
        [b"room", n] => Command::Buffer(Buffer::Room, number(n)?),
        [b"space", n] => Command::Buffer(Buffer::Space, number(n)?),
        _ => return None,
    })
}

fn call_of<'a>(words: &[&'a [u8]]) -> Option<Command<'a>> {
    Some(Command::Call(match words {
        [b"p", i, j] => Call::Event(press(i, j)?),
        [b"r", i, j] => Call::Event(release(i, j)?),
        [b"t"] => Call::Tick,
        [b"k"] => Call::Keycodes,
        _ => return None,
    }))
}

fn state_of(words: &[&[u8]]) -> Option<State> {
    Some(match words {
        [b"key", code, i, j] => State::NormalKey {
            keycode: byte(code)?,
            coord: coord(i, j)?,
        },
        [b"layer", n, i, j] => State::LayerModifier {
            value: number(n)?,
            coord: coord(i, j)?,
        },
        _ => return None,
    })
}

fn queued_of(words: &[&[u8]]) -> Option<Stacked> {
    let [way, i, j, age] = words else {
        return None;
    };
    let event = match *way {
        b"p" => press(i, j)?,
        b"r" => release(i, j)?,
        _ => return None,
    };
    Some(Stacked {
        event,
        since: number(age)?,
    })
}

fn part_of<'a>(words: &[&'a [u8]]) -> Option<Command<'a>> {
    Some(Command::Part(match words {
        [b"default", n] => Part::Default(number(n)?),
        [b"counts", states, queued] => Part::Counts(number(states)?, number(queued)?),
        [b"state", k, rest @ ..] => Part::State(at_most(k, 63)?, state_of(rest)?),
        [b"queue", k, rest @ ..] => Part::Queued(at_most(k, 15)?, queued_of(rest)?),
        [b"wait", i, j, left, record] => Part::Waiting(Some(WaitingState {
            coord: coord(i, j)?,
            left: number(left)?,
            number: number(record)?,
        })),
        [b"idle"] => Part::Waiting(None),
        _ => return None,
    }))
}

fn size_of(rows: &[u8], columns: &[u8], nb_bounce: &[u8]) -> Option<Size> {
    Some(Size {
        rows: usize::from(number(rows)?),
        columns: usize::from(number(columns)?),
        nb_bounce: number(nb_bounce)?,
    })
}

fn bounce_of<'a>(words: &[&'a [u8]]) -> Option<Command<'a>> {
    Some(Command::Bounce(match words {
        [b"debounce", r, c, nb, start] => Bounce::Make(size_of(r, c, nb)?, start),
        [b"debouncer", r, c, nb, since, cur, new] => {
            Bounce::Set(size_of(r, c, nb)?, number(since)?, cur, new)
        }
        [b"scan", picture] => Bounce::Scan(picture),
        [b"update", picture] => Bounce::Update(picture),
        [b"picture"] => Bounce::Picture,
        _ => return None,
    }))
}

fn board_of<'a>(words: &[&'a [u8]]) -> Option<Command<'a>> {
    Some(Command::Board(match words {
        [b"report", bytes] => Board::Report(bytes),
        [b"get", kind, id] => Board::Get(byte(kind)?, byte(id)?),
        [b"set", kind, id, bytes] => Board::Set(byte(kind)?, byte(id)?, bytes),
        [b"rate", n] => Board::Rate(byte(n)?),
        [b"idling", rate, count] => Board::Idling(byte(rate)?, number(count)?),
        [b"clock", n] => Board::Clock(number(n)?),
        [b"descriptor"] => Board::Descriptor,
        _ => return None,
    }))
}

// The command that a line's words are, if they are one.
fn command_of<'a>(words: &[&'a [u8]]) -> Option<Command<'a>> {
    table_of(words)
        .or_else(|| call_of(words))
        .or_else(|| part_of(words))
        .or_else(|| bounce_of(words))
        .or_else(|| board_of(words))
}

pub fn read(line: &[u8]) -> Option<Command> {
    let mut words: [&[u8]; WORDS] = [&[]; WORDS];
    let mut n = 0;
    for word in line.split(|c| *c == b' ') {
        *words.get_mut(n)? = word;
        n += 1;
    }
    command_of(words.get(..n)?)
}
