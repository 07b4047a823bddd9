// The public calls driven by bytes, so that they can be counted: oracle/speed. The first byte of standard input says what is
// driven, the rest is its script. It writes the buffer that the calls wrote to.
// Assumes nothing.
#![tactic(auto)]

mod keys;
mod reports;
mod scans;

ghost use Rattle.std.specs.Prelude.{◌≤◌, length};

use std::io::{Read, Stdin, Write};

// What each script is stands in the file that runs it.
fn drive(input: &[u8], out: &mut [u8]) {
    match input {
        [0, script @ ..] => keys::drive(script, out),
        [1, script @ ..] => scans::run(script, out),
        [2, script @ ..] => reports::codes(script, out),
        [3, script @ ..] => reports::run(script, out),
        _ => {}
    }
}

// Reads until the buffer is full, the input ends or a read fails, and says how many bytes came. `console::read_whole` tells of
// the failure instead, and not how many came before it.
fn read_full(mut stdin: Stdin, bytes: &mut [u8]) -> usize
    ensures { result ≤ length bytes.old }
{
    let mut n = 0;
    while n < bytes.len() {
        let count = stdin.read(&mut bytes[n..]).unwrap_or(0);
        if count == 0 {
            return n;
        }
        n += count;
    }
    n
}

fn main(rt: HostRuntime) {
    let mut input = [0u8; 65536];
    let n = read_full(rt.stdin(), &mut input);
    let mut out = [0u8; 384];
    drive(&input[..n], &mut out);
    let mut to = rt.stdout();
    let _ = to.write_all(&out); // where it fails there is nobody to tell
}
