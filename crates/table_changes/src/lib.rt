// Which keys change between two tables: document 02, W-203. `compare` answers every pair of images: how many cells do another
// action in the second, whose layers, rows and columns stand in the lent buffer, or the first refusal, with the buffer as it was.
// Assumes nothing.
#![tactic(auto)]

mod cells;
mod meaning;
mod pair;

ghost use Rattle.std.specs.Prelude.{◌≡◌};
ghost use Rattle.table_changes.specs.Changes.{compare_reply, Replies};
ghost use Rattle.table_changes.specs.Inside.{equal_sizes};

use image::{Shape, check};
use pair::Pair;
use refusal::{Fault, Refusal, rule};

// As many layers, rows and columns.
#[tactic(auto, unfolding(crate::specs::Inside::equal_sizes))]
fn equal_sizes(s: Shape, t: Shape) -> bool
    ensures { result ≡ equal_sizes s t }
{
    s.layers == t.layers && s.rows == t.rows && s.columns == t.columns
}

// The cells whose action differs, by layer, row and column, a byte each, and how many there are.
pub fn compare(first: &[u8], second: &[u8], out: &mut [u8]) -> Result<usize, Fault>
    ensures { Replies (compare_reply first.now second.now out.old) result out.new }
{
    let shape = check(first)?;
    let other = check(second)?;
    rule(equal_sizes(shape, other), Refusal::Shape, 0)?;
    let pair = Pair {
        first,
        second,
        shape,
    };
    rule(3 * pair.cells() <= out.len(), Refusal::Room, 0)?;
    Ok(pair.list_changes(out))
}
