// The table in use: document 01, "The table in use". Two areas of flash are lent, the operator's and the built-in, each
// of which may be longer than its image.
// Assumes nothing.
ghost use Rattle.std.specs.Prelude.{◌≡◌};
ghost use Rattle.image.specs.Words.{size_of};
ghost use Rattle.image.specs.Use.{area_of, source_of, source_said, in_use, refusal_in_use};

use super::header::head_rules;
use super::rules::check;
use super::words::{Shape, shape_of, word_or_zero};
use refusal::{Fault, Refusal, rule};

// Which area holds the table in use, with the length of its image.
#[derive(Clone, Copy, PartialEq, Eq, Debug)]
pub enum Source {
    Operator(usize),
    BuiltIn(usize),
}

// The length of the image that an area's header tells of.
fn size_of(area: &[u8]) -> usize
    ensures { result ≡ size_of area.now }
{
    (word_or_zero(area, 14) as usize) + 2 * (word_or_zero(area, 10) as usize)
}

// The check of an area: of the stretch that holds its image.
fn check_area(area: &[u8]) -> Result<Shape, Fault>
    ensures { result ≡ area_of area.now }
{
    rule(16 <= area.len(), Refusal::Short, 0)?;
    let s = shape_of(area);
    let size = s.list_at + 2 * s.entries;
    head_rules(area, s, size <= area.len())?;
    check(&area[..size])
}

// Where the table in use lies, or the operator's refusal where neither area is accepted.
pub fn source_of(operator: &[u8], built_in: &[u8]) -> Result<Source, Fault>
    ensures { source_said result ≡ source_said (source_of operator.now built_in.now) }
{
    match check_area(operator) {
        Ok(_) => Ok(Source::Operator(size_of(operator))),
        Err(fault) => match check_area(built_in) {
            Ok(_) => Ok(Source::BuiltIn(size_of(built_in))),
            Err(_) => Err(fault),
        },
    }
}

// The table in use: the part of the area that holds it, or an empty part.
pub fn in_use<'a>(operator: &'a [u8], built_in: &'a [u8]) -> &'a [u8]
    ensures { result.now ≡ in_use operator.now built_in.now }
{
    let Ok(source) = source_of(operator, built_in) else {
        return &operator[..0];
    };
    match source {
        Source::Operator(n) => &operator[..n],
        Source::BuiltIn(n) => &built_in[..n],
    }
}

// The refusal of the table in use: the operator's, where neither area is accepted.
pub fn refusal_in_use(operator: &[u8], built_in: &[u8]) -> Option<Fault>
    ensures { result ≡ refusal_in_use operator.now built_in.now }
{
    source_of(operator, built_in).err()
}
