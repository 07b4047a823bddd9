// Where a byte comes first. Assumes nothing.
ghost use Rattle.std.specs.Prelude.{◌≡◌, ◌+◌, ◌≤◌, length, drop};
ghost use Rattle.table_text.specs.Inside.{index_of};

// The first place of a byte from `from` on, or the length where there is none.
pub(crate) fn find(bytes: &[u8], from: usize, byte: u8) -> usize
    requires { from ≤ length bytes.now }
    ensures { (result ≡ from + index_of byte (drop from bytes.now)) × (result ≤ length bytes.now) }
{
    let rest = &bytes[from..];
    from + rest.iter().position(|b| *b == byte).unwrap_or(rest.len())
}
