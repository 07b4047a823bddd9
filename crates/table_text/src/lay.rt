// The text of an image, laid into a buffer: document 02, W-201. Each function lays bytes from a place on and answers where they end;
// what is past the buffer's end is left out, so that an empty buffer tells how long the text is. The buffer and the place stay two
// parameters: of a struct that held the `&mut`, each contract would have to say that it is still the same one.
// Assumes nothing.
ghost use Rattle.std.specs.Prelude.{◌≡◌, cond, [], ◌∷◌, ◌++◌, ◌+◌, ◌<◌, ◌≤◌, eqb, set};
ghost use Rattle.image.specs.Words.{words_from};
ghost use Rattle.text.specs.Text.{place_of, decimal_of};
ghost use Rattle.table_text.specs.Print.{line_of, text_from, rows_from, text_of};
ghost use Rattle.table_text.specs.Inside.{Lays, Headed};

use image::{Shape, word_or_zero};

fn put(out: &mut [u8], at: usize, byte: u8)
    ensures { out.new ≡ set out.old at byte }
{
    if at < out.len() {
        out[at] = byte;
    }
}

// The digit of n that counts so many, unless it is a zero in front. `Text` has such digits too, in 1,024 bytes of its own: here
// they go into the lent buffer.
#[tactic(auto, unfolding(text::specs::Text::place_of))]
fn lay_place(n: usize, unit: usize, out: &mut [u8], at: usize) -> usize
    requires { (0 < unit) × (at < 1000000) }
    ensures { Lays (place_of n unit) at out.old result out.new }
{
    if n < unit {
        return at;
    }
    put(out, at, b'0' + ((n / unit) % 10) as u8);
    at + 1
}

// A number in decimal, and a byte behind it.
#[tactic(auto, using(crate::proofs::Decimal::place_short))]
fn lay_number(n: usize, mark: u8, out: &mut [u8], at: usize) -> usize
    requires { at < 900000 }
    ensures { Lays (decimal_of n ++ (mark ∷ [])) at out.old result out.new }
{
    let thousands = lay_place(n, 10000, out, at);
    let hundreds = lay_place(n, 1000, out, thousands);
    let tens = lay_place(n, 100, out, hundreds);
    let ones = lay_place(n, 10, out, tens);
    put(out, ones, b'0' + (n % 10) as u8);
    put(out, ones + 1, mark);
    ones + 2
}

// What stands behind number i of so many: a space, and a newline behind the last.
fn mark_behind(i: usize, width: usize) -> u8
    requires { i < width }
    ensures { result ≡ cond (eqb (i + 1) width) 10 32 }
{
    if i + 1 == width { b'\n' } else { b' ' }
}

// So many words of an image, from a byte offset on, as a line.
fn lay_line(image: &[u8], from: usize, width: usize, out: &mut [u8], at: usize) -> usize
    requires { (1 ≤ width) × (width ≤ 16) × (from < 1000000) × (at < 800000) }
    ensures { Lays (line_of (words_from image.now from width)) at out.old result out.new }
{
    let mut to = at;
    for i in 0..width {
        let n = word_or_zero(image, (from + 2 * i) as u64) as usize;
        to = lay_number(n, mark_behind(i, width), out, to);
    }
    to
}

// So many lines of so many words each.
fn lay_lines(
    image: &[u8],
    from: usize,
    count: usize,
    width: usize,
    out: &mut [u8],
    at: usize,
) -> usize
    requires { (1 ≤ width) × (width ≤ 16) × (count ≤ 1024) × (from < 65536) × (at < 400000) }
    ensures { Lays (text_from (rows_from image.now from count width)) at out.old result out.new }
{
    let mut to = at;
    for i in 0..count {
        to = lay_line(image, from + 2 * width * i, width, out, to);
    }
    to
}

// The whole text, from the buffer's start.
#[tactic(auto, using(crate::proofs::Printed::few, crate::proofs::Printed::line_short, crate::proofs::Printed::lines_short))]
pub(crate) fn lay_text(image: &[u8], s: Shape, out: &mut [u8]) -> usize
    requires { Headed image.now s }
    ensures { Lays (text_of image.now) 0 out.old result out.new }
{
    let rows_at = lay_line(image, 2, 5, out, 0);
    let records_at = lay_lines(image, 16, s.layers * s.rows, s.columns, out, rows_at);
    let list_at = lay_lines(image, s.records_at, s.records, 4, out, records_at);
    lay_lines(image, s.list_at, s.entries, 1, out, list_at)
}
