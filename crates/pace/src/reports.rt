// Reports. For `codes` the script is the codes of one report; for `run`, which gives reports to a keyboard, eight codes a
// report, and each answer has its place in the buffer, so that none is left out. Assumes nothing.
use codes::KbHidReport;
use keyboard::Keyboard;

// The report of codes: kept a function, so that it can be counted by its name.
#[inline(never)]
fn report_of(codes: &[u8]) -> KbHidReport {
    KbHidReport::from_codes(codes, codes.len())
}

pub fn codes(script: &[u8], out: &mut [u8]) {
    let report = report_of(script);
    if let Some(front) = out.get_mut(..8) {
        front.copy_from_slice(&report.bytes);
    }
}

pub fn run(script: &[u8], out: &mut [u8]) {
    let mut keyboard = Keyboard::new();
    for (at, eight) in script.chunks_exact(8).enumerate() {
        let done = keyboard.set_keyboard_report(report_of(eight));
        keyboard = done.keyboard;
        if let Some(place) = out.get_mut(at) {
            *place = u8::from(done.changed);
        }
    }
}
