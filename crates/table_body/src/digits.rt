// A number in decimal, whatever its length: the texts of `text` have five digits at most, and `write!` promises its bytes only where
// it succeeds, and never that it does. Assumes nothing.
ghost use Rattle.std.specs.Prelude.{◌≡◌, ◌<◌, ◌≤◌, length, take};
ghost use Rattle.table_body.specs.Digits.{last_digits, IsDigitCount};

// Puts n's digits at the start of out, and returns how many there are.
pub(crate) fn decimal(n: usize, out: &mut [u8; 20]) -> usize
    ensures within { result ≤ 20 }
    ensures fewest { IsDigitCount 10 1 n result }
    ensures digits { take result out.new ≡ last_digits 10 result n }
{
    let k = digit_count(n);
    write_digits(n, k, out);
    k
}

// How many digits n takes, one at least.
fn digit_count(n: usize) -> usize
    ensures { IsDigitCount 10 1 n result }
{
    n.checked_ilog10().map_or(1, |k| k as usize + 1)
}

// Puts the last k digits of n at the start of out.
fn write_digits(n: usize, k: usize, out: &mut [u8])
    requires { k ≤ length out.old }
    ensures { take k out.new ≡ last_digits 10 k n }
{
    let mut rest = n;
    for i in (0..k).rev() {
        out[i] = b'0' + (rest % 10) as u8;
        rest /= 10;
    }
}
