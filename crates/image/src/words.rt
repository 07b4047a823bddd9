// The words of a table image: 16 bits, low byte first. Document 01, "The table image".
// Assumes nothing.
ghost use Rattle.std.specs.Prelude.{◌≡◌, ◌+◌, ◌<◌, ◌≤◌, get_or, length};
ghost use Rattle.image.specs.Words.{word_at, shape_of};

// The header's numbers but for the version.
#[derive(Clone, Copy, PartialEq, Eq, Debug)]
pub struct Shape {
    pub layers: usize,
    pub rows: usize,
    pub columns: usize,
    pub records: usize,
    pub entries: usize,
    pub records_at: usize,
    pub list_at: usize,
}

// The word at a place that the image has: it costs no test.
#[tactic(auto, unfolding(crate::specs::Words::word_at))]
pub(crate) fn word(image: &[u8], at: usize) -> u16
    requires { at + 1 < length image.now }
    ensures { result ≡ word_at image.now at }
{
    u16::from_le_bytes([image[at], image[at + 1]])
}

// The byte at a place, and 0 past the end. Places are of 64 bits here: an image that was not accepted names some that no
// `usize` of 32 bits holds.
fn byte_or_zero(image: &[u8], at: u64) -> u8
    ensures { result ≡ get_or image.now at 0 }
{
    if at < (image.len() as u64) {
        image[at as usize]
    } else {
        0
    }
}

// The word at any place, and 0 past the end: for the lookups, and for those above, which know nothing of their image.
#[tactic(auto, unfolding(crate::specs::Words::word_at), using(std::proofs::lemmas::List::get_or_past))]
pub fn word_or_zero(image: &[u8], at: u64) -> u16
    ensures { result ≡ word_at image.now at }
{
    if (image.len() as u64) <= at {
        return 0;
    }
    u16::from_le_bytes([byte_or_zero(image, at), byte_or_zero(image, at + 1)])
}

// The header, read once: the numbers are handed on from here.
pub(crate) fn shape_of(image: &[u8]) -> Shape
    requires { 16 ≤ length image.now }
    ensures { (result ≡ shape_of image.now) × (result.entries < 65536) × (result.list_at < 65536) }
{
    Shape {
        layers: word(image, 2) as usize,
        rows: word(image, 4) as usize,
        columns: word(image, 6) as usize,
        records: word(image, 8) as usize,
        entries: word(image, 10) as usize,
        records_at: word(image, 12) as usize,
        list_at: word(image, 14) as usize,
    }
}
