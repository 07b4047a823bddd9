// What a call hands back: document 01, Layout, the last paragraph, and "Refusal numbers".
// Assumes nothing.
ghost use Rattle.std.specs.Prelude.{◌≡◌, ◌≤◌, length};
ghost use Rattle.layout.specs.Inside.{Answers};

use super::active::State;
use super::layout::Layout;
use super::notes::Notes;
use super::progress::Progress;
use refusal::Fault;

// How many codes were written, and what was done.
#[derive(Clone, Copy, PartialEq, Eq, Debug)]
pub struct Answer {
    pub codes: usize,
    pub notes: Notes,
}

#[derive(Clone, Copy, PartialEq, Eq, Debug)]
pub struct Answered {
    pub answer: Result<Answer, Fault>,
    pub layout: Layout,
}

// The answer of a call that was not refused: the key codes in state order go to the start of the buffer.
pub(crate) fn answer_of(end: &Progress, out: &mut [u8]) -> Answer
    requires { 64 ≤ length out.old }
    ensures { Answers end.now result out.old out.new }
{
    let mut codes = 0;
    for state in &end.active.states[..end.active.len] {
        if let State::NormalKey { keycode, .. } = *state {
            out[codes] = keycode;
            codes += 1;
        }
    }
    Answer {
        codes,
        notes: end.notes,
    }
}
