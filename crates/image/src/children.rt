// The children of a record, which are the records that it names: whether they are lower, what they weigh, and which is open.
// Document 01, "The table image".
// Assumes nothing.
ghost use Rattle.std.specs.Prelude.{◌≡◌, ◌+◌, ◌*◌, ◌<◌, ◌≤◌, length, false};
ghost use Rattle.image.specs.Inside.{Formed, ChildWords, WithChild, children_at, weighed_of, lower_weighed, Parts};
ghost use Rattle.image.specs.Sound.{Good};

use super::body::Body;
use super::words::word;
use refusal::{Fault, Refusal, rule};

// A record as the one that names it meets it: what it weighs more than 1 without its children, whether it is open by
// itself, and the words that number its own children: so many, from a byte offset. Its own weight is its word b in a record
// without children, which counts the codes of a MultipleKeyCodes and is 0 in any other, and is 0 in one with children.
#[derive(Drop)]
pub(crate) struct Child {
    pub own: usize,
    pub opens: bool,
    pub at: usize,
    pub count: usize,
}

// Children of one record, with all that they name: what they weigh, and whether one is open.
#[derive(Drop)]
pub(crate) struct Weighed {
    pub weight: usize,
    pub opens: bool,
}

impl Weighed {
    // So many children, each counted as 1, and nothing more known of them.
    pub(crate) fn of(count: usize) -> Weighed
        ensures { result ≡ record { weight = count; opens = false } }
    {
        Weighed {
            weight: count,
            opens: false,
        }
    }
}

impl Body<'_> {
    // Record n, which is good, each word that it takes read once. The children of a MultipleActions are its entries, and those
    // of a HoldTap its own last two words, hold and tap. An action of it would have all its words read, and no kind needs all.
    fn child(&self, n: usize) -> Child
        requires { Formed self.now.image.now n × Good self.now.image.now n }
        ensures { Parts self.now.image.now n result }
    {
        let kind = self.field(n, 0);
        let b = self.field(n, 4) as usize;
        if kind == 4 {
            let first = self.field(n, 2) as usize;
            return Child {
                own: 0,
                opens: false,
                at: self.shape.list_at + 2 * first,
                count: b,
            };
        }
        if kind < 7 {
            return Child {
                own: b,
                opens: false,
                at: 0,
                count: 0,
            };
        }
        Child {
            own: 0,
            opens: true,
            at: self.shape.records_at + 8 * n + 4,
            count: 2,
        }
    }

    // What is known of children once record k, which record n names, is among them. It is counted as 1 before, and adds
    // what it weighs more: by recursion over its own children. One that has none is no call, and this is none either: a
    // turn of a loop.
    #[inline(always)]
    #[cycle(weigh)]
    pub(crate) fn with_child(&self, n: usize, k: usize, before: Weighed) -> Weighed
        requires { Formed self.now.image.now n × (k < n) × (before.weight ≤ 65536) }
        ensures { WithChild self.now.image.now k before result }
    {
        let it = self.child(k);
        let weight = before.weight + it.own;
        let opens = before.opens | it.opens;
        if it.count == 0 {
            return Weighed { weight, opens };
        }
        let under = self.weigh(k, it.at, it.count);
        Weighed {
            weight: weight + under.weight,
            opens: opens | under.opens,
        }
    }

    // What the children of record n weigh, which so many words from a byte offset number, all lower, and whether one is open.
    // That a record is formed is a clause and no type: it is about one record of the image, and this goes from record to record.
    #[cycle(weigh)]
    pub(crate) fn weigh(&self, n: usize, at: usize, count: usize) -> Weighed
        requires { Formed self.now.image.now n × ChildWords self.now.image.now n at count }
        ensures { result ≡ weighed_of (children_at self.now.image.now at count) }
    {
        let mut sum = Weighed::of(count);
        for i in 0..count {
            let k = word(self.image, at + 2 * i) as usize;
            sum = self.with_child(n, k, sum);
        }
        sum
    }

    // The same of words that are asked whether each numbers a record lower than n, in the same pass; where one is not, Child.
    pub(crate) fn weigh_lower(&self, n: usize, at: usize, count: usize) -> Result<Weighed, Fault>
        requires { Formed self.now.image.now n × (at + 2 * count ≤ length self.now.image.now) × (count ≤ 1024) }
        ensures { result ≡ lower_weighed self.now.image.now n at count }
    {
        let mut sum = Weighed::of(count);
        for i in 0..count {
            let k = word(self.image, at + 2 * i) as usize;
            rule(k < n, Refusal::Child, n)?;
            sum = self.with_child(n, k, sum);
        }
        Ok(sum)
    }
}
