// The rules of a record: document 01, "Refusal numbers" 5 to 9. Its words are read once, and its kind says which of the rules it
// can break.
// Assumes nothing.
ghost use Rattle.std.specs.Prelude.{◌≡◌, ℕ, ◌+◌, ◌<◌, ◌≤◌};
ghost use Rattle.lists.specs.Lists.{every};
ghost use Rattle.codes.specs.Codes.{legal};
ghost use Rattle.refusal.specs.Verdict.{first_fault};
ghost use Rattle.image.specs.Words.{records_of, entries_of, field_of, entries};
ghost use Rattle.image.specs.Check.{form, record_fault};
ghost use Rattle.image.specs.Record.{action_at};
ghost use Rattle.image.specs.Sound.{Good};
ghost use Rattle.image.specs.Inside.{Formed};
ghost use Rattle.image.specs.declared.record.Action.TheVariants.{MultipleKeyCodes, MultipleActions};

use super::body::Body;
use codes::KeyCode;
use refusal::{Fault, Refusal, rule};

// The form of a record's words, where the list has so many entries. The kind is the image's word: a form that is not good has no
// action.
#[tactic(auto, unfolding(crate::specs::Check::form))]
fn form_good(listed: usize, kind: u16, a: u16, b: u16, c: u16) -> bool
    ensures { result ≡ form listed kind a b c }
{
    let a = a as usize;
    let b = b as usize;
    let c = c as usize;
    match kind {
        0 | 1 => a + b + c == 0,
        2 | 5 | 6 => b + c == 0,
        3 | 4 => a + b <= listed && c == 0,
        _ => kind == 7,
    }
}

impl Body<'_> {
    // Every one of so many entries from `first` on is a legal code.
    fn codes_legal(&self, first: usize, count: usize) -> bool
        requires { first + count ≤ entries_of self.now.image.now }
        ensures { result ≡ every legal (entries self.now.image.now first count) }
    {
        for at in first..first + count {
            if !KeyCode::is_legal(self.entry(at)) {
                return false;
            }
        }
        true
    }

    // A MultipleKeyCodes: Code, Weight.
    fn codes_rules(&self, n: usize, first: usize, count: usize) -> Result<(), Fault>
        requires { Formed self.now.image.now n × (action_at self.now.image.now n ≡ MultipleKeyCodes first count) }
        ensures { result ≡ record_fault self.now.image.now n }
    {
        rule(self.codes_legal(first, count), Refusal::Code, n)?;
        rule(1 + count <= 64, Refusal::Weight, n)
    }

    // A MultipleActions: Child, Nested, Weight.
    fn actions_rules(&self, n: usize, first: usize, count: usize) -> Result<(), Fault>
        requires { Formed self.now.image.now n × (action_at self.now.image.now n ≡ MultipleActions first count) }
        ensures { result ≡ record_fault self.now.image.now n }
    {
        if count == 0 {
            return Ok(());
        }
        let at = self.shape.list_at + 2 * first;
        let most = self.weigh_lower(n, at, count - 1)?;
        let last = self.weigh_lower(n, at + 2 * (count - 1), 1)?;
        rule(!most.opens, Refusal::Nested, n)?;
        rule(1 + (most.weight + last.weight) <= 64, Refusal::Weight, n)
    }

    // A HoldTap: Child, Nested, Weight.
    fn hold_tap_rules(&self, n: usize) -> Result<(), Fault>
        requires { Formed self.now.image.now n × (field_of self.now.image.now n 0 ≡ 7) }
        ensures { result ≡ record_fault self.now.image.now n }
    {
        let at = self.shape.records_at + 8 * n + 4;
        let sum = self.weigh_lower(n, at, 2)?;
        rule(!sum.opens, Refusal::Nested, n)?;
        rule(1 + sum.weight <= 64, Refusal::Weight, n)
    }

    // The rules of record n, where every lower record is good: its form, then those that its kind can break. The kind stays the
    // image's word: an action would be made of it to be taken apart in the next line.
    fn record_rules(&self, n: usize) -> Result<(), Fault>
        requires { (n < records_of self.now.image.now) × ((k : ℕ) → k < n → Good self.now.image.now k) }
        ensures { result ≡ record_fault self.now.image.now n }
    {
        let kind = self.field(n, 0);
        let a = self.field(n, 2);
        let b = self.field(n, 4);
        let c = self.field(n, 6);
        rule(
            form_good(self.shape.entries, kind, a, b, c),
            Refusal::Record,
            n,
        )?;
        match kind {
            2 => rule(KeyCode::is_legal(a), Refusal::Code, n),
            3 => self.codes_rules(n, a as usize, b as usize),
            4 => self.actions_rules(n, a as usize, b as usize),
            7 => self.hold_tap_rules(n),
            _ => Ok(()),
        }
    }

    // The rules of the records, the first before the next.
    pub(crate) fn records_rules(&self) -> Result<(), Fault>
        ensures { result ≡ first_fault (record_fault self.now.image.now) 0 (records_of self.now.image.now) }
    {
        for n in 0..self.shape.records {
            self.record_rules(n)?;
        }
        Ok(())
    }
}
