// Numbers written in decimal, read. Assumes nothing.
#![tactic(auto)]

ghost use Rattle.std.specs.Prelude.{◌≡◌};
ghost use Rattle.number.specs.Number.{read_decimal, read_within};

// A word of one or more decimal digits, as many as there are and with zeros in front or not, of value at most 65,535.
#[tactic(auto, using(crate::proofs::Read::reading))]
pub fn decimal(word: &[u8]) -> Option<u16>
    ensures { result ≡ read_decimal word.now }
{
    if word.is_empty() {
        return None;
    }
    let mut n: u16 = 0;
    for c in word {
        if !c.is_ascii_digit() {
            return None;
        }
        n = n.checked_mul(10)?.checked_add((*c - b'0') as u16)?;
    }
    Some(n)
}

// The same of at most so many digits, and of value at most so much.
#[tactic(auto, unfolding(crate::specs::Number::read_within))]
pub fn decimal_within(word: &[u8], digits: usize, largest: u16) -> Option<u16>
    ensures { result ≡ read_within digits largest word.now }
{
    if digits < word.len() {
        return None;
    }
    decimal(word).filter(|n| *n <= largest)
}
