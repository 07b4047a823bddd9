// Whether two records mean the same action: document 02, W-203. Codes are compared as words, and the records that a record names
// by what they mean. The record number falls.
// Assumes nothing.
ghost use Rattle.std.specs.Prelude.{◌≡◌, ◌+◌, ◌*◌, ◌<◌};
ghost use Rattle.lists.specs.Lists.{alike};
ghost use Rattle.image.specs.Tree.{tree};
ghost use Rattle.image.specs.Words.{list_start, words_from};
ghost use Rattle.table_changes.specs.Same as Same;

use super::pair::Pair;
use image::{Action, action_at, word_or_zero};

// Where entry e of the list stands.
fn entry_place(image: &[u8], e: u16) -> u64
    ensures { (result ≡ list_start image.now + 2 * e) × (result < 1048576) }
{
    u64::from(word_or_zero(image, 14)) + 2 * u64::from(e)
}

impl Pair<'_> {
    // So many words of each are the same. `same` has such a loop too, which calls `same` again: a closure for it would be in
    // the cycle of calls, with three measures more.
    fn same_words(&self, at: u64, other: u64, count: u16) -> bool
        requires { (at < 1048576) × (other < 1048576) }
        ensures { result ≡ alike (words_from self.now.first.now at count) (words_from self.now.second.now other count) }
    {
        for i in 0..count {
            let skip = 2 * u64::from(i);
            if word_or_zero(self.first, at + skip) != word_or_zero(self.second, other + skip) {
                return false;
            }
        }
        true
    }

    // Record m of the first and record n of the second mean the same.
    pub(crate) fn same(&self, m: u16, n: u16) -> bool
        ensures { result ≡ Same.same (tree self.now.first.now m) (tree self.now.second.now n) }
    {
        let one = action_at(self.first, usize::from(m));
        let other = action_at(self.second, usize::from(n));
        match (one, other) {
            (Action::MultipleKeyCodes(e, count), Action::MultipleKeyCodes(f, others)) => {
                let at = entry_place(self.first, e);
                count == others && self.same_words(at, entry_place(self.second, f), count)
            }
            (Action::MultipleActions(e, count), Action::MultipleActions(f, others)) => {
                if count != others {
                    return false;
                }
                let at = entry_place(self.first, e);
                let there = entry_place(self.second, f);
                for i in 0..count {
                    let skip = 2 * u64::from(i);
                    let k = word_or_zero(self.first, at + skip);
                    if !self.same(k, word_or_zero(self.second, there + skip)) {
                        return false;
                    }
                }
                true
            }
            (Action::HoldTap(timeout, hold, tap), Action::HoldTap(time, held, tapped)) => {
                timeout == time && self.same(hold, held) && self.same(tap, tapped)
            }
            _ => one == other,
        }
    }
}
