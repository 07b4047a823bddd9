// A table as a text, and back: document 02, W-201. `write` makes the image of a text and checks it; `print` makes the text of an
// image. Both answer every input: how many bytes were made, which stand in the lent buffer, or the first refusal, with the
// buffer as it was. A `usize` has 64 bits here, as on the clerk's machine: counts as they stand, up to 65,535 each, make offsets
// past 32.
// Assumes nothing.
#![tactic(auto)]

mod lay;
mod lines;
mod read;
mod scan;

ghost use Rattle.std.specs.Prelude.{◌≡◌, ◌+◌, ◌*◌};
ghost use Rattle.table_text.specs.Made.{Replies};
ghost use Rattle.table_text.specs.Write.{write_reply};
ghost use Rattle.table_text.specs.Print.{print_reply};
ghost use Rattle.table_text.specs.Inside.{Small, checked_reply, headed_of};

use image::{Shape, check, counts_good};
use lay::lay_text;
use lines::{LARGEST, put_word};
use read::read_text;
use refusal::{Fault, Refusal, rule};

// An image that is built is checked, and handed over where it is accepted and there is room.
#[tactic(auto, using(refusal::proofs::Verdicts::rule_kept))]
fn hand_over(image: &[u8], out: &mut [u8]) -> Result<usize, Fault>
    ensures { Replies (checked_reply image.now out.old) result out.new }
{
    check(image)?;
    rule(image.len() <= out.len(), Refusal::Room, 0)?;
    out[..image.len()].copy_from_slice(image);
    Ok(image.len())
}

// An image that is built gets its version and its offsets. How long it is.
#[tactic(auto, unfolding(crate::specs::Inside::headed_of))]
fn put_header(image: &mut [u8; LARGEST], s: Shape) -> usize
    requires { Small s }
    ensures { (result ≡ s.list_at + 2 * s.entries) × (image.new ≡ headed_of s image.old) }
{
    put_word(image, 0, 1);
    put_word(image, 6, s.records_at as u16);
    put_word(image, 7, s.list_at as u16);
    s.list_at + 2 * s.entries
}

// The image of a text, built aside, so that a refused call writes nothing.
pub fn write(text: &[u8], out: &mut [u8]) -> Result<usize, Fault>
    ensures { Replies (write_reply text.now out.old) result out.new }
{
    let mut image = [0u8; LARGEST];
    let s = read_text(text, &mut image)?;
    rule(counts_good(1, s), Refusal::Header, 0)?;
    let size = put_header(&mut image, s);
    hand_over(&image[..size], out)
}

// The text of an image. It is measured first, by laying it into no room, so that a refused call writes nothing.
pub fn print(image: &[u8], out: &mut [u8]) -> Result<usize, Fault>
    ensures { Replies (print_reply image.now out.old) result out.new }
{
    let s = check(image)?;
    let size = lay_text(image, s, &mut []);
    rule(size <= out.len(), Refusal::Room, 0)?;
    Ok(lay_text(image, s, out))
}
