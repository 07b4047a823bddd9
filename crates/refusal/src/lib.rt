// The refusals of documents 01 and 02, each under the name that the paper gives it; a fault, which is a refusal and its place;
// and a rule, which is kept or refused. `specs/Number.antt` has the numbers, `specs/Verdict.antt` the order in which rules are
// asked for, and `specs/Said.antt` what the paper says of an answer.
// Assumes nothing.
#![tactic(auto)]

ghost use Rattle.std.specs.Prelude.{◌≡◌};
ghost use Rattle.refusal.specs.Number.{number_of};
ghost use Rattle.refusal.specs.Verdict.{kept_or};

// Each has the paper's number.
#[derive(Clone, Copy, PartialEq, Eq, Debug)]
pub enum Refusal {
    Short = 1,
    Header,
    Length,
    Cell,
    Record,
    Code,
    Child,
    Nested,
    Weight,
    Scan,
    Bounce,
    Room,
    State,
    Request,
    Text,
    Shape,
}

impl Refusal {
    // The paper's number of the refusal, for programs that print it.
    pub fn number(self) -> u8
        ensures { result ≡ number_of self }
    {
        self as u8
    }
}

// What an answer that is refused says: the first refusal, and its place.
#[derive(Clone, Copy, PartialEq, Eq, Debug)]
pub struct Fault {
    pub refusal: Refusal,
    pub place: usize,
}

// A rule: nothing where it is kept, and else its refusal at a place.
#[tactic(auto, unfolding(crate::specs::Verdict::rule))]
pub fn rule(kept: bool, refusal: Refusal, place: usize) -> Result<(), Fault>
    ensures { result ≡ kept_or kept refusal place }
{
    if kept {
        Ok(())
    } else {
        Err(Fault { refusal, place })
    }
}
