// A text, judged line by line: document 02, W-201. Its numbers go into the image that is built as they are read. A line is looked
// at where the text has one, so that the time grows with the text, not with the counts.
// Assumes nothing.
ghost use Rattle.std.specs.Prelude.{◌≡◌, ◌≤◌, length, drop};
ghost use Rattle.image.specs.Words.{words_from};
ghost use Rattle.refusal.specs.Verdict.{fault_at};
ghost use Rattle.refusal.specs.declared.Refusal.TheVariants.{Text};
ghost use Rattle.image.specs.declared.words.Shape.{Shape};
ghost use Rattle.table_text.specs.Write.{shape_from, asks};
ghost use Rattle.table_text.specs.Inside.{Words, asked_by, ReadsLines, ReadsText};

use super::lines::{LARGEST, read_line};
use super::scan::find;
use image::{Shape, word_or_zero};
use refusal::{Fault, Refusal, rule};

// The five counts, which stand behind the version, and the offsets that they make. `image::check` reads the offsets, which are
// not there yet, from the image.
#[tactic(auto, unfolding(crate::specs::Write::shape_from, image::specs::Words::words_from))]
fn shape_in(image: &[u8]) -> Shape
    ensures { (result ≡ shape_from (words_from image.now 2 5)) × Words result }
{
    let layers = word_or_zero(image, 2) as usize;
    let rows = word_or_zero(image, 4) as usize;
    let columns = word_or_zero(image, 6) as usize;
    let records = word_or_zero(image, 8) as usize;
    let entries = word_or_zero(image, 10) as usize;
    let records_at = 16 + 2 * (layers * rows * columns);
    Shape {
        layers,
        rows,
        columns,
        records,
        entries,
        records_at,
        list_at: records_at + 8 * records,
    }
}

// Which lines the counts ask for: from the second on rows of so many cells, up to one line; records, up to another; then list entries,
// up to the last.
#[derive(Clone, Copy)]
struct Asked {
    columns: usize,
    rows_end: usize,
    records_end: usize,
    last: usize,
}

impl Asked {
    fn by(s: Shape) -> Asked
        requires { Words s }
        ensures { result ≡ asked_by s }
    {
        let rows_end = 1 + s.layers * s.rows;
        let records_end = rows_end + s.records;
        Asked {
            columns: s.columns,
            rows_end,
            records_end,
            last: records_end + s.entries,
        }
    }

    // Line i, counted from 1, is asked for with n numbers.
    #[tactic(auto, unfolding(crate::specs::Write::asks))]
    fn asks(self, i: usize, n: usize) -> bool
        ensures { (s : Shape) → self ≡ asked_by s → result ≡ asks s i n }
    {
        if i <= 1 {
            return n == 5;
        }
        if i <= self.rows_end {
            return n == self.columns;
        }
        if i <= self.records_end {
            return n == 4;
        }
        i <= self.last && n == 1
    }
}

// A line that does not fit: one of its words is no number.
fn unfit(line: usize) -> Fault
    ensures { result ≡ fault_at Text line }
{
    Fault {
        refusal: Refusal::Text,
        place: line,
    }
}

// The lines behind the first, which begin at a place of the text. A `for` over `split` would take what is behind the last newline for
// a line, and one over `split_inclusive` has the newline in each, to be looked for and taken off again.
fn read_lines(text: &[u8], image: &mut [u8; LARGEST], s: Shape, from: usize) -> Result<Shape, Fault>
    requires { (1 ≤ from) × (from ≤ length text.now) × Words s }
    ensures { ReadsLines (drop from text.now) s image.old result image.new }
{
    let asked = Asked::by(s);
    let mut at = from;
    let mut line = 2;
    let mut k = 8;
    while at < text.len() {
        let end = find(text, at, b'\n');
        rule(end < text.len(), Refusal::Text, line)?;
        let n = read_line(&text[at..end], image, k).ok_or(unfit(line))?;
        rule(asked.asks(line, n), Refusal::Text, line)?;
        k += n;
        line += 1;
        at = end + 1;
    }
    rule(asked.last < line, Refusal::Text, line)?;
    Ok(s)
}

// The whole text: the counts of one that has the lines that they ask for; or the first line that does not fit, is missing or is left
// over.
pub(crate) fn read_text(text: &[u8], image: &mut [u8; LARGEST]) -> Result<Shape, Fault>
    ensures { ReadsText text.now image.old result image.new }
{
    let end = find(text, 0, b'\n');
    rule(end < text.len(), Refusal::Text, 1)?;
    let n = read_line(&text[..end], image, 1).ok_or(unfit(1))?;
    rule(n == 5, Refusal::Text, 1)?;
    let s = shape_in(image);
    read_lines(text, image, s, end + 1)
}
