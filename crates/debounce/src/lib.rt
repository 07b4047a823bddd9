// keyberon's debounce.rs: filters the bounces of switches. A change is taken once it has stood for more than `nb_bounce`
// scans, and is told as events. Here the debouncer, its answers and its calls; sizes.rt has what hangs on the sizes alone,
// picture.rt has pictures and scans, verdicts.rt says what is refused, events.rt writes the events. Document 01, Debounce.
// Assumes nothing.
#![tactic(auto)]

mod events;
mod picture;
mod sizes;
mod verdicts;

ghost use Rattle.std.specs.Prelude.{◌≡◌, ◌<◌};
ghost use Rattle.lists.specs.Lists.{alike};
ghost use Rattle.debounce.specs.Step as filter;
ghost use Rattle.debounce.specs.Calls.{pictures_of, with_pictures, made_said, got_said, updated_said, handed};
ghost use Rattle.debounce.specs.Calls.{new_reply, get_reply, update_reply, events_reply};
ghost use Rattle.debounce.specs.Inside.{step_out};

use picture::{Scan, are_alike};
use refusal::Fault;
use std::mem;
use verdicts::making;

// The accepted picture, the candidate, for how many scans the candidate has stood, and the size. A switch that is down is
// 1, one that is up 0, row by row; places past the last switch are 0.
// Callers hand it in as they like, and a call answers State where it is out of order (`state_good`): so no invariant.
#[derive(Clone, Copy, PartialEq, Eq)]
pub struct Debouncer {
    pub cur: [u8; 128],
    pub new: [u8; 128],
    pub since: u16,
    pub nb_bounce: u16,
    pub rows: usize,
    pub columns: usize,
}

// An answer, and the debouncer after it. A refused making gives a debouncer too, by document 01: so both, and not one `Result`.
#[derive(Clone, Copy, PartialEq, Eq)]
pub struct Handed<T> {
    pub answer: Result<T, Fault>,
    pub debouncer: Debouncer,
}

// Of a making.
pub type Made = Handed<()>;

// Whether the accepted picture changed.
pub type Updated = Handed<bool>;

// How many events were written, three bytes each.
pub type Answered = Handed<usize>;

// An answer, and the accepted picture; where it is refused, one that is all up.
#[derive(Clone, Copy, PartialEq, Eq)]
pub struct Got {
    pub answer: Result<(), Fault>,
    pub picture: [u8; 128],
}

// What one scan leaves, and whether the accepted picture changed.
#[derive(Clone, Copy)]
pub(crate) struct Step {
    pub changed: bool,
    pub debouncer: Debouncer,
}

// A step changes the debouncer in place: with a new one by `..self` a change that is taken costs 128 instructions more.
impl Debouncer {
    // A scan that differs from the accepted picture: it becomes the candidate, or has stood for one scan more.
    #[tactic(auto, unfolding(crate::specs::Step::grown))]
    fn grown(mut self, scan: [u8; 128]) -> Debouncer
        requires { self.since < 65535 }
        ensures { result ≡ with_pictures self (filter.grown alike self.nb_bounce (pictures_of self) scan) }
    {
        if are_alike(&self.new, &scan) {
            self.since += 1;
            return self;
        }
        self.new = scan;
        self.since = 1;
        self
    }

    // Once since passes nb_bounce the two pictures change places.
    #[tactic(auto, unfolding(crate::specs::Step::passed))]
    fn passed(mut self) -> Step
        ensures { result ≡ step_out self (filter.passed alike self.nb_bounce (pictures_of self)) }
    {
        if self.since <= self.nb_bounce {
            return Step {
                changed: false,
                debouncer: self,
            };
        }
        mem::swap(&mut self.cur, &mut self.new);
        self.since = 0;
        Step {
            changed: true,
            debouncer: self,
        }
    }

    // One scan.
    #[tactic(auto, unfolding(crate::specs::Step::step))]
    fn step(mut self, scan: [u8; 128]) -> Step
        requires { self.since < 65535 }
        ensures { result ≡ step_out self (filter.step alike self.nb_bounce (pictures_of self) scan) }
    {
        if are_alike(&self.cur, &scan) {
            self.since = 0;
            return Step {
                changed: false,
                debouncer: self,
            };
        }
        self.grown(scan).passed()
    }

    // A debouncer whose start picture is accepted and candidate. Where it is refused: all up, 1 by 1, nb_bounce 0.
    pub fn new(rows: usize, columns: usize, nb_bounce: u16, start: &[u8]) -> Made
        ensures { made_said result ≡ new_reply rows columns nb_bounce start.now }
    {
        let start = Scan::new(start);
        match making(rows, columns, nb_bounce, &start) {
            Ok(()) => {
                let places = start.places;
                Made {
                    answer: Ok(()),
                    debouncer: Debouncer {
                        cur: places,
                        new: places,
                        since: 0,
                        nb_bounce,
                        rows,
                        columns,
                    },
                }
            }
            Err(fault) => Made {
                answer: Err(fault),
                debouncer: Debouncer {
                    cur: [0; 128],
                    new: [0; 128],
                    since: 0,
                    nb_bounce: 0,
                    rows: 1,
                    columns: 1,
                },
            },
        }
    }

    // The accepted picture.
    pub fn get(self) -> Got
        ensures { got_said result ≡ get_reply self }
    {
        match self.legal() {
            Ok(_) => {
                let picture = self.cur;
                Got {
                    answer: Ok(()),
                    picture,
                }
            }
            Err(fault) => Got {
                answer: Err(fault),
                picture: [0; 128],
            },
        }
    }

    // Takes a scan, and answers whether the accepted picture changed.
    // Here and in `events` the arm of Err is alike: a refusal hands the debouncer back, which `?` cannot.
    pub fn update(self, scan: &[u8]) -> Updated
        ensures { updated_said result ≡ update_reply self scan.now }
    {
        let scan = Scan::new(scan);
        match self.taken(&scan) {
            Ok(_) => {
                let Step { changed, debouncer } = self.step(scan.places);
                Updated {
                    answer: Ok(changed),
                    debouncer,
                }
            }
            Err(fault) => Updated {
                answer: Err(fault),
                debouncer: self,
            },
        }
    }

    // Takes a scan, and writes the events of the change, if there is one, to the start of the buffer.
    #[tactic(auto, unfolding(crate::specs::Calls::if_fine, crate::specs::Calls::events_of))]
    pub fn events(self, scan: &[u8], out: &mut [u8]) -> Answered
        ensures { handed result out.new ≡ events_reply self scan.now out.old }
    {
        let scan = Scan::new(scan);
        match self.taken_with_room(&scan, out.len()) {
            Ok(sizes) => {
                let step = self.step(scan.places);
                let Step { debouncer, .. } = step;
                Answered {
                    answer: Ok(sizes.tell_step(step, out)),
                    debouncer,
                }
            }
            Err(fault) => Answered {
                answer: Err(fault),
                debouncer: self,
            },
        }
    }
}
