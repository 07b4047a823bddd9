// Standard input and output, for the programs that answer lines. Which bytes a read brings no contract can say: all else of a step
// of reading is promised, and of writing that it returns. Assumes nothing.
#![tactic(auto)]

ghost use Rattle.std.specs.Prelude.{◌≡◌, ◌≤◌, length, IfOk};
ghost use Rattle.console.specs.Reading.{Advances};

use std::io;
use std::io::{Read, Stdin, Stdout, Write};
use text::{Reading, Text, front, gather};

// How many bytes a read brings; none where it fails, which is the end of the input.
fn read_some(mut stdin: Stdin, input: &mut [u8]) -> usize
    ensures { result ≤ length input.old }
{
    stdin.read(input).unwrap_or(0)
}

// A part of a line, up to its end if that is here; or a read, where all that was here is taken. A read that fails is the end of
// the input.
#[tactic(auto, unfolding(crate::specs::Reading::advanced_reading, crate::specs::Reading::advanced_line, text::specs::Input::filled_of))]
pub fn advance(stdin: Stdin, input: &mut [u8], line: &mut [u8], reading: Reading) -> Reading
    ensures { Advances input.old reading line.old result input.new line.new }
{
    if reading.end <= reading.at {
        return reading.filled(read_some(stdin, input));
    }
    gather(input, line, reading)
}

// Reads to the end of what is read from, or to the buffer's, and says how many bytes came; or why a read failed. The library's
// `read_to_end` fills a `Vec`, and its `read_exact` does not say how many came.
pub fn read_whole(from: &mut dyn Read, bytes: &mut [u8]) -> io::Result<usize>
    ensures { IfOk result (λ n. n ≤ length bytes.old) }
{
    let mut n = 0;
    while n < bytes.len() {
        let count = from.read(&mut bytes[n..])?;
        if count == 0 {
            return Ok(n);
        }
        n += count;
    }
    Ok(n)
}

// Writes bytes, or says why they could not all be written. Nothing can be promised of it but that it returns: its clause says
// no more, since () is one value.
pub fn write_all(mut stdout: Stdout, bytes: &[u8]) -> io::Result<()>
    ensures { IfOk result (λ v. v ≡ tt) }
{
    stdout.write_all(bytes)
}

// Writes a line, likewise.
pub fn put_line(stdout: Stdout, text: Text) -> io::Result<()>
    ensures { IfOk result (λ v. v ≡ tt) }
{
    let whole = text.put(b'\n');
    write_all(stdout, front(&whole.bytes, whole.len))
}

// Writes a line. Nothing can be promised of it but that it returns; where it fails there is nobody to tell.
pub fn write_line(stdout: Stdout, text: Text)
    ensures { result ≡ tt }
{
    let _ = put_line(stdout, text);
}
