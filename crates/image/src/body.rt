// What the check knows once the header keeps its rules. Document 01, "The table image".
// Assumes nothing.
ghost use Rattle.std.specs.Prelude.{◌≡◌, ◌<◌, ◌≤◌};
ghost use Rattle.image.specs.Words.{shape_of, records_of, entries_of, field_of, entry_of};
ghost use Rattle.image.specs.Sound.{Framed};

use super::words::{Shape, word};

// An image whose header keeps its rules, with the header's numbers, read once: its words cost no test.
#[derive(Drop)]
pub(crate) struct Body<'a> {
    pub image: &'a [u8],
    pub shape: Shape,
    ghost framed: { Framed image.now },
    ghost told: { shape ≡ shape_of image.now },
}

impl Body<'_> {
    // A word of record n: 0 its kind, 2 a, 4 b, 6 c.
    pub(crate) fn field(&self, n: usize, at: usize) -> u16
        requires { (at ≤ 6) × (n < records_of self.now.image.now) }
        ensures { result ≡ field_of self.now.image.now n at }
    {
        word(self.image, self.shape.records_at + 8 * n + at)
    }

    // Entry e of the list.
    pub(crate) fn entry(&self, e: usize) -> u16
        requires { e < entries_of self.now.image.now }
        ensures { result ≡ entry_of self.now.image.now e }
    {
        word(self.image, self.shape.list_at + 2 * e)
    }
}
