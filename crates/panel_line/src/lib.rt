// What a line of `panel` says: document 01, Bench cases. `t` is a tick; `p I J` is a press at row I, column J, and `r I J` a
// release, I and J decimal numbers up to 255 of one to three digits, words parted by one space.
// Assumes nothing.
#![tactic(auto)]

ghost use Rattle.std.specs.Prelude.{◌≡◌, ◌==◌, position};
ghost use Rattle.panel_line.specs.Line.{coords_of, line_of};

use event::{Coord, Event};
use number::decimal_within;

#[derive(Clone, Copy)]
pub enum Line {
    Key(Event),
    Tick,
}

// The place of the first space, if there is one. A function for its clause: written where it is asked, the search leaves it.
fn space(bytes: &[u8]) -> Option<usize>
    ensures { result ≡ position (λ c. c == 32) bytes.now }
{
    bytes.iter().position(|c| *c == b' ')
}

// A row and a column: two numbers with one space between them. Where there is no space the second is missing.
#[tactic(auto, unfolding(crate::specs::Line::coords_of), using(number::proofs::Read::within_fits))]
fn coords_in(bytes: &[u8]) -> Option<Coord>
    ensures { result ≡ coords_of bytes.now }
{
    let n = space(bytes)?;
    let i = decimal_within(&bytes[..n], 3, 255)?;
    let j = decimal_within(&bytes[n + 1..], 3, 255)?;
    Some(Coord {
        i: i as u8,
        j: j as u8,
    })
}

// What a line says, without its newline.
#[tactic(auto, unfolding(crate::specs::Line::line_of, crate::specs::Line::starts_with))]
pub fn read_line(line: &[u8]) -> Option<Line>
    ensures { result ≡ line_of line.now }
{
    match line {
        [b't'] => Some(Line::Tick),
        [b'p', b' ', at @ ..] => coords_in(at).map(|c| Line::Key(Event::Press(c.i, c.j))),
        [b'r', b' ', at @ ..] => coords_in(at).map(|c| Line::Key(Event::Release(c.i, c.j))),
        _ => None,
    }
}
