// The numbers of a line, read: document 02, W-201. They go into the image that is built as words, one behind the other.
// Assumes nothing.
ghost use Rattle.std.specs.Prelude.{◌≡◌, [], ◌∷◌, ◌+◌, ◌*◌, ◌<◌, ◌≤◌, ◌^◌, length};
ghost use Rattle.std.proofs.lemmas.List.Edits.{sets};
ghost use Rattle.table_text.specs.Write.{bytes_of};
ghost use Rattle.table_text.specs.Inside.{PassesSpaces, ReadsLine};

use super::scan::find;
use number::decimal;

// The largest image whose header keeps its rules: 16 + 2 * 8 * 8 * 16 + 8 * 256 + 2 * 1024 bytes.
pub(crate) const LARGEST: usize = 6160;

// Its words.
const WORDS: usize = 3080;

// Word k of the image that is built. What is past the largest image's end is left out: counts that ask for so much are illegal.
#[tactic(auto, using(crate::proofs::WordBytes::word_out))]
pub(crate) fn put_word(image: &mut [u8; LARGEST], k: usize, n: u16)
    ensures { image.new ≡ sets image.old (2 * k) (bytes_of (n ∷ [])) }
{
    if k < WORDS {
        image[2 * k..2 * k + 2].copy_from_slice(&n.to_le_bytes());
    }
}

// The first place from `at` on that has no space.
fn past_spaces(line: &[u8], at: usize) -> usize
    requires { at ≤ length line.now }
    ensures { PassesSpaces line.now at result }
{
    let rest = &line[at..];
    at + rest.iter().position(|b| *b != b' ').unwrap_or(rest.len())
}

// The numbers of a line without its newline, as words from word k on: how many it has, or nothing where a word is no number.
// A `for` over `split` would take each space of a run for the end of an empty word; with the empty ones left out it would take
// a line that begins or ends with a space.
pub(crate) fn read_line(line: &[u8], image: &mut [u8; LARGEST], k: usize) -> Option<usize>
    requires { k + length line.now < 2 ^ 64 }
    ensures { ReadsLine line.now k image.old result image.new }
{
    if line.is_empty() {
        return Some(0);
    }
    let mut i = 0;
    let mut n = 0;
    while i < line.len() {
        let end = find(line, i, b' ');
        let value = decimal(&line[i..end])?;
        put_word(image, k + n, value);
        n += 1;
        if end == line.len() {
            return Some(n);
        }
        i = past_spaces(line, end + 1);
    }
    None
}
