// The header of a table image: document 01, "Refusal numbers" 2 and 3. Its words are read once and handed on as numbers.
// Assumes nothing.
ghost use Rattle.std.specs.Prelude.{◌≡◌, ◌≤◌, true, length};
ghost use Rattle.image.specs.Words.{shape_of};
ghost use Rattle.image.specs.Inside.{Counts};
ghost use Rattle.image.specs.Check.{counts_good, offsets_good, header_good, head_fault};

use super::words::{Shape, word};
use refusal::{Fault, Refusal, rule};

// The version and the five counts keep their rules.
#[tactic(auto, unfolding(crate::specs::Check::counts_good, crate::specs::Check::within))]
pub fn counts_good(version: usize, s: Shape) -> bool
    ensures { result ≡ counts_good version s }
{
    version == 1
        && (1..=8).contains(&s.layers)
        && (1..=8).contains(&s.rows)
        && (1..=16).contains(&s.columns)
        && (1..=256).contains(&s.records)
        && s.entries <= 1024
}

// The two offsets keep their rules, where the counts do.
#[tactic(auto, unfolding(crate::specs::Check::offsets_good), using(crate::proofs::HeaderRules::few_cells))]
fn offsets_good(s: Shape) -> bool
    requires { Counts s }
    ensures { result ≡ offsets_good s }
{
    let records_at = 16 + 2 * (s.layers * s.rows * s.columns);
    s.records_at == records_at && s.list_at == records_at + 8 * s.records
}

#[tactic(auto, unfolding(crate::specs::Check::header_good), using(crate::proofs::HeaderRules::counts))]
fn header_good(version: usize, s: Shape) -> bool
    ensures { result ≡ header_good version s }
{
    counts_good(version, s) && offsets_good(s)
}

// Header, then Length.
#[tactic(auto, unfolding(crate::specs::Check::head_fault, refusal::specs::Verdict::rule))]
pub(crate) fn head_rules(image: &[u8], s: Shape, long: bool) -> Result<(), Fault>
    requires { (16 ≤ length image.now) × (s ≡ shape_of image.now) }
    ensures { result ≡ head_fault image.now long }
{
    rule(header_good(word(image, 0) as usize, s), Refusal::Header, 0)?;
    rule(long, Refusal::Length, 0)
}
