// Whether a call is refused: document 01, "Refusal numbers", 10 to 13.
// Assumes nothing.
ghost use Rattle.std.specs.Prelude.{◌≡◌, ◌*◌, ◌≤◌, IfOk};
ghost use Rattle.debounce.specs.Picture.{padded};
ghost use Rattle.debounce.specs.Calls.{making_verdict, get_verdict, update_verdict, events_verdict};
ghost use Rattle.debounce.specs.Inside.{verdict_of, is_kept, IsLegal};

use super::Debouncer;
use super::picture::Scan;
use super::sizes::Sizes;
use refusal::{Fault, Refusal, rule};

// Takes three numbers, as `new` does by document 01: `Sizes` is made of them where they are good.
#[tactic(auto, unfolding(refusal::specs::Verdict::rule, crate::specs::Calls::making_verdict))]
pub(crate) fn making(rows: usize, columns: usize, nb_bounce: u16, start: &Scan) -> Result<(), Fault>
    ensures verdict { result ≡ making_verdict rows columns nb_bounce start.now.bytes.now }
    ensures whole { IfOk result (λ u. start.now.places ≡ padded start.now.bytes.now) }
{
    let sizes = Sizes::of(rows, columns, nb_bounce, Refusal::Bounce)?;
    rule(sizes.is_scan(start), Refusal::Scan, 0)
}

// The answers have the sizes alone, since the caller has the debouncer and the scan: so what is known of these is a clause,
// `IsLegal`, and that the scan's places hold all of it.
impl Debouncer {
    // Whether since and the pictures of a debouncer of these sizes break no rule.
    fn is_kept(self, sizes: Sizes) -> bool
        ensures { result ≡ is_kept self (sizes.rows * sizes.columns) }
    {
        self.since <= self.nb_bounce && sizes.is_picture(self.cur) && sizes.is_picture(self.new)
    }

    // The sizes of a debouncer, where no part of its state breaks its rule.
    #[tactic(auto, unfolding(refusal::specs::Verdict::rule, crate::specs::Calls::get_verdict, crate::specs::Calls::state_good))]
    pub(crate) fn legal(self) -> Result<Sizes, Fault>
        ensures verdict { verdict_of result ≡ get_verdict self }
        ensures sizes { IfOk result (λ s. IsLegal self s) }
    {
        let sizes = Sizes::of(self.rows, self.columns, self.nb_bounce, Refusal::State)?;
        rule(self.is_kept(sizes), Refusal::State, 0)?;
        Ok(sizes)
    }

    // The same, where a scan fits it.
    #[tactic(auto, unfolding(refusal::specs::Verdict::rule, crate::specs::Calls::get_verdict, crate::specs::Calls::update_verdict))]
    pub(crate) fn taken(self, scan: &Scan) -> Result<Sizes, Fault>
        ensures verdict { verdict_of result ≡ update_verdict self scan.now.bytes.now }
        ensures sizes { IfOk result (λ s. IsLegal self s) }
        ensures whole { IfOk result (λ s. scan.now.places ≡ padded scan.now.bytes.now) }
    {
        let sizes = self.legal()?;
        rule(sizes.is_scan(scan), Refusal::Scan, 0)?;
        Ok(sizes)
    }

    // The same, where a buffer has room for an event of each switch.
    #[tactic(auto, unfolding(refusal::specs::Verdict::rule, crate::specs::Calls::events_verdict, crate::specs::Calls::update_verdict))]
    pub(crate) fn taken_with_room(self, scan: &Scan, room: usize) -> Result<Sizes, Fault>
        ensures verdict { verdict_of result ≡ events_verdict self scan.now.bytes.now room }
        ensures sizes { IfOk result (λ s. IsLegal self s) }
        ensures whole { IfOk result (λ s. scan.now.places ≡ padded scan.now.bytes.now) }
        ensures room { IfOk result (λ s. 3 * (s.rows * s.columns) ≤ room) }
    {
        let sizes = self.taken(scan)?;
        rule(3 * sizes.switches() <= room, Refusal::Room, 0)?;
        Ok(sizes)
    }
}
