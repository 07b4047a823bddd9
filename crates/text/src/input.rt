// Lines of any length, taken from a lent buffer and gathered in another. A line longer than its buffer says nothing, so
// of it only that it is too long is kept. Assumes nothing.
ghost use Rattle.std.specs.Prelude.{◌≤◌, false, ◌≡◌, ◌==◌, length, position};
ghost use Rattle.text.specs.Input.{line_length, front_of, filled_of, answered_of, Gathers};
ghost use Rattle.text.specs.Inside.{Appends};

// Where reading stands: the input's buffer is taken up to `at` and filled up to `end`; `held` bytes of the line are here,
// one more than its buffer has where it does not fit. Whether the line has ended, and the input.
#[derive(Clone, Copy, Default)]
pub struct Reading {
    pub at: usize,
    pub end: usize,
    pub held: usize,
    pub ended: bool,
    pub over: bool,
}

impl Reading {
    // Before the first read.
    pub fn start() -> Reading
        ensures { result ≡ record { at = 0; end = 0; held = 0; ended = false; over = false } }
    {
        Reading::default()
    }

    // A read brought so many bytes. None is the end of the input, and of a last line without newline, if there is one.
    #[tactic(auto, unfolding(crate::specs::Input::filled_of))]
    pub fn filled(self, n: usize) -> Reading
        ensures { result ≡ filled_of self n }
    {
        let over = n == 0;
        Reading {
            at: 0,
            end: n,
            ended: over && 0 < self.held,
            over,
            ..self
        }
    }

    // The line was answered, and the next begins.
    #[tactic(auto, unfolding(crate::specs::Input::answered_of))]
    pub fn answered(self) -> Reading
        ensures { result ≡ answered_of self }
    {
        Reading {
            held: 0,
            ended: false,
            ..self
        }
    }
}

// The first n bytes; none where there are fewer.
#[tactic(auto, unfolding(crate::specs::Input::front_of))]
pub fn front(bytes: &[u8], n: usize) -> &[u8]
    ensures { result.now ≡ front_of bytes.now n }
{
    bytes.get(..n).unwrap_or(&[])
}

// The place of the first newline, if there is one. A function for its clause: written where it is asked, the search leaves it.
fn newline(bytes: &[u8]) -> Option<usize>
    ensures { result ≡ position (λ c. c == 10) bytes.now }
{
    bytes.iter().position(|c| *c == b'\n')
}

// How far the first line of these bytes goes: to its newline, or to their end.
#[tactic(auto, using(crate::proofs::Laws::line_is, crate::proofs::Laws::line_short))]
fn line_length(bytes: &[u8]) -> usize
    ensures value { result ≡ line_length bytes.now }
    ensures short { result ≤ length bytes.now }
{
    newline(bytes).unwrap_or(bytes.len())
}

// More bytes behind the n that are there, and how many there are now. Where they do not fit nothing is written, and the
// answer is one more than fits: `held_after` says so, and `front` gives no bytes for it.
#[tactic(auto, unfolding(crate::specs::Input::held_after, crate::specs::Input::joined))]
fn append(bytes: &[u8], into: &mut [u8], n: usize) -> usize
    ensures { Appends bytes.now n into.old result into.new }
{
    if into.len() < n || into.len() - n < bytes.len() {
        return into.len() + 1;
    }
    let end = n + bytes.len();
    into[n..end].copy_from_slice(bytes);
    end
}

// The rest of a line, or what is here of it. A reading that does not lie in these bytes stays as it is.
#[tactic(auto, unfolding(crate::specs::Input::gathered_reading, crate::specs::Input::gathered_line, crate::specs::Input::in_input))]
pub fn gather(input: &[u8], line: &mut [u8], reading: Reading) -> Reading
    ensures { Gathers input.now reading line.old result line.new }
{
    let Some(bytes) = input.get(reading.at..reading.end) else {
        return reading;
    };
    let n = line_length(bytes);
    let held = append(&bytes[..n], line, reading.held);
    Reading {
        at: reading.at + n + 1,
        held,
        ended: n < bytes.len(),
        ..reading
    }
}
