// The check of a table image: document 01, "Refusal numbers" 1 to 9. Short; the header (header.rt); the cells; the records
// (records.rt).
// Assumes nothing.
ghost use Rattle.std.specs.Prelude.{◌≡◌, ◌<◌, ◌≤◌, length};
ghost use Rattle.refusal.specs.Verdict.{first_fault};
ghost use Rattle.refusal.specs.Said.{said};
ghost use Rattle.image.specs.Words.{shape_of, cells_of};
ghost use Rattle.image.specs.Check.{cell_fault, body_fault, fault_of, check_of, no_shape};

use super::body::Body;
use super::header::head_rules;
use super::words::{Shape, shape_of, word};
use refusal::{Fault, Refusal, rule};

impl Body<'_> {
    // Each cell names a record.
    fn cells_rules(&self) -> Result<(), Fault>
        ensures { result ≡ first_fault (cell_fault self.now.image.now) 0 (cells_of self.now.image.now) }
    {
        let s = self.shape;
        for i in 0..s.layers * s.rows * s.columns {
            let named = word(self.image, 16 + 2 * i) as usize;
            rule(named < s.records, Refusal::Cell, i)?;
        }
        Ok(())
    }

    // Cells, then records.
    fn rules(&self) -> Result<(), Fault>
        ensures { result ≡ body_fault self.now.image.now }
    {
        self.cells_rules()?;
        self.records_rules()
    }
}

// Past Short: Header, Length, cells, records.
fn image_rules(image: &[u8], s: Shape) -> Result<(), Fault>
    requires { (16 ≤ length image.now) × (s ≡ shape_of image.now) × (s.entries < 65536) × (s.list_at < 65536) }
    ensures { result ≡ fault_of image.now }
{
    let size = s.list_at + 2 * s.entries;
    head_rules(image, s, image.len() == size)?;
    Body { image, shape: s }.rules()
}

// The check: the header's numbers, or the first fault and its place.
pub fn check(image: &[u8]) -> Result<Shape, Fault>
    ensures { said no_shape result ≡ said no_shape (check_of image.now) }
{
    rule(16 <= image.len(), Refusal::Short, 0)?;
    let s = shape_of(image);
    image_rules(image, s)?;
    Ok(s)
}
