// How many rows and columns a debouncer has, and what hangs on these alone. Assumes nothing.
ghost use Rattle.std.specs.Prelude.{◌≡◌, ◌*◌, ◌<◌, ◌≤◌, IfOk, true};
ghost use Rattle.debounce.specs.Calls.{bounce_good};

use event::Event;
use refusal::{Fault, Refusal, rule};

// Legal sizes. Their product is at most 128, on a machine of any width.
#[derive(Clone, Copy)]
pub(crate) struct Sizes {
    pub rows: usize,
    pub columns: usize,
    ghost few_rows: { rows ≤ 8 },
    ghost some_columns: { 0 < columns },
    ghost few_columns: { columns ≤ 16 },
}

// Whether sizes and nb_bounce are legal. Three numbers, as `new` takes them by document 01: `Sizes` is made where they are good.
#[tactic(auto, unfolding(crate::specs::Calls::bounce_good, crate::specs::Calls::sizes_good))]
fn are_good(rows: usize, columns: usize, nb_bounce: u16) -> bool
    ensures is { result ≡ bounce_good rows columns nb_bounce }
    ensures bounds { result ≡ true → (rows ≤ 8) × (0 < columns) × (columns ≤ 16) × (nb_bounce < 65535) }
{
    (1..=8).contains(&rows) && (1..=16).contains(&columns) && nb_bounce < u16::MAX
}

impl Sizes {
    ghost use Rattle.refusal.specs.Verdict.{kept_or};
    ghost use Rattle.debounce.specs.Events.{event_at};
    ghost use Rattle.debounce.specs.Inside.{verdict_of};

    // The sizes, where they and nb_bounce are legal, and else the refusal.
    #[tactic(auto, unfolding(refusal::specs::Verdict::rule))]
    pub(crate) fn of(
        rows: usize,
        columns: usize,
        nb_bounce: u16,
        refusal: Refusal,
    ) -> Result<Sizes, Fault>
        ensures verdict { verdict_of result ≡ kept_or (bounce_good rows columns nb_bounce) refusal 0 }
        ensures sizes { IfOk result (λ s. (s.rows ≡ rows) × (s.columns ≡ columns)) }
        ensures count { IfOk result (λ s. nb_bounce < 65535) }
    {
        rule(are_good(rows, columns, nb_bounce), refusal, 0)?;
        Ok(Sizes { rows, columns })
    }

    pub(crate) fn switches(self) -> usize
        ensures count { result ≡ self.rows * self.columns }
        ensures few { result ≤ 128 }
    {
        self.rows * self.columns
    }

    // The event of the switch at a place, which now is so.
    #[tactic(auto, unfolding(crate::specs::Events::event_at))]
    pub(crate) fn event_at(self, place: usize, is: u8) -> Event
        requires { place < 128 }
        ensures { result ≡ event_at self.columns place is }
    {
        let i = (place / self.columns) as u8;
        let j = (place % self.columns) as u8;
        if is == 0 {
            Event::Release(i, j)
        } else {
            Event::Press(i, j)
        }
    }
}
