// A debouncer of 8 by 16 switches, all up, that takes the sixth scan: the script is scans of 128 bytes. Assumes nothing.
use debounce::Debouncer;

// The same scan twice. No script of oracle/speed asks for it: with a second caller the compiler keeps `events` a function.
fn twice(debouncer: Debouncer, scan: &[u8], out: &mut [u8]) -> Debouncer {
    let once = debouncer.events(scan, out).debouncer;
    once.events(scan, out).debouncer
}

fn step(debouncer: Debouncer, scan: &[u8], out: &mut [u8]) -> Debouncer {
    match scan {
        [2..=u8::MAX, ..] => twice(debouncer, scan, out),
        _ => debouncer.events(scan, out).debouncer,
    }
}

pub fn run(script: &[u8], out: &mut [u8]) {
    let mut debouncer = Debouncer::new(8, 16, 5, &[0; 128]).debouncer;
    for scan in script.chunks_exact(128) {
        debouncer = step(debouncer, scan, out);
    }
}
