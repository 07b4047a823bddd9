// An answer while it is made: so many bytes, by value. Each function takes a text and hands it back with more behind it.
// Assumes nothing.
ghost use Rattle.std.specs.Prelude.{◌≡◌, ◌<◌, replicate};
ghost use Rattle.text.specs.Text.{put, put_all, glyph_of, hex_of, place_of, decimal_of};

// Bytes with a length beside them, since there is no heap; and no `fmt::Write`, since `write!` gives all digits of a number past
// 99,999, of which `put_number` promises the last five.
#[derive(Clone, Copy)]
pub struct Text {
    pub len: usize,
    pub bytes: [u8; 1024],
}

// The last hex digit of n.
#[tactic(auto, unfolding(crate::specs::Text::glyph_of))]
fn glyph(n: u8) -> u8
    ensures { result ≡ glyph_of n }
{
    let d = n % 16;
    if d < 10 { b'0' + d } else { b'a' + (d - 10) }
}

impl Text {
    pub fn new() -> Text
        ensures { result ≡ record { len = 0; bytes = replicate 1024 0 } }
    {
        Text {
            len: 0,
            bytes: [0; 1024],
        }
    }

    // One byte more. A text that is full stays as it is.
    #[tactic(auto, unfolding(crate::specs::Text::put))]
    pub fn put(mut self, byte: u8) -> Text
        ensures { result ≡ put self byte }
    {
        if self.len < 1024 {
            self.bytes[self.len] = byte;
            self.len += 1;
        }
        self
    }

    #[tactic(auto, unfolding(crate::specs::Text::put_all))]
    pub fn put_all(self, bytes: &[u8]) -> Text
        ensures { result ≡ put_all self bytes.now }
    {
        bytes.iter().fold(self, |text, byte| text.put(*byte))
    }

    // Two hex digits a byte.
    #[tactic(auto, using(crate::proofs::Laws::hex_none, crate::proofs::Laws::hex_more))]
    pub fn put_hex(self, bytes: &[u8]) -> Text
        ensures { result ≡ put_all self (hex_of bytes.now) }
    {
        let mut out = self;
        for byte in bytes {
            out = out.put(glyph(byte / 16)).put(glyph(*byte));
        }
        out
    }

    // The digit of n that counts so many, unless it is a zero in front.
    #[tactic(auto, unfolding(crate::specs::Text::place_of, crate::specs::Text::put_all))]
    fn put_place(self, n: usize, unit: usize) -> Text
        requires { 0 < unit }
        ensures { result ≡ put_all self (place_of n unit) }
    {
        if n < unit {
            return self;
        }
        self.put(b'0' + ((n / unit) % 10) as u8)
    }

    // A number in decimal, of at most five digits: of a larger one the last five.
    #[tactic(auto, using(crate::proofs::Laws::number_is))]
    pub fn put_number(self, n: usize) -> Text
        ensures { result ≡ put_all self (decimal_of n) }
    {
        self.put_place(n, 10000)
            .put_place(n, 1000)
            .put_place(n, 100)
            .put_place(n, 10)
            .put(b'0' + (n % 10) as u8)
    }
}
