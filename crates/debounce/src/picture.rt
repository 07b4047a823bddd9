// Pictures and scans: a byte a switch in 128 places, and the tests on them. Document 01, Debounce.
// Assumes nothing.
ghost use Rattle.std.specs.Prelude.{◌≡◌, ◌*◌, ◌≤◌, length, take, true};
ghost use Rattle.lists.specs.Lists.{alike, every};
ghost use Rattle.debounce.specs.Picture.{padded, is_picture, is_scan};
ghost use Rattle.debounce.specs.Inside.{at_most};

use super::sizes::Sizes;

// Whether each place is at most so much. The loop goes to the end whatever it finds, so that the compiler can take many places
// at once: with `all`, which stops, a scan takes six times the instructions.
fn are_at_most(places: &[u8], most: u8) -> bool
    ensures { result ≡ every (at_most most) places.now }
{
    let mut good = true;
    for place in places {
        good &= *place <= most;
    }
    good
}

// Whether two pictures are equal, in the same way. `==` is a call, for which the debouncer is copied: with it a scan takes
// four times the instructions.
#[tactic(auto, using(crate::proofs::Laws::alike_more))]
pub(crate) fn are_alike(a: &[u8], b: &[u8]) -> bool
    requires { length a.now ≡ length b.now }
    ensures { result ≡ alike a.now b.now }
{
    let mut same = true;
    for (u, v) in a.iter().zip(b) {
        same &= *u == *v;
    }
    same
}

// A scan in its 128 places; what is past them is left out. One that fills them is copied whole: that spares 37 instructions.
#[tactic(auto, using(crate::proofs::Laws::pad_long, crate::proofs::Laws::pad_short))]
pub(crate) fn pad(scan: &[u8]) -> [u8; 128]
    ensures { result ≡ padded (take 128 scan.now) }
{
    if let Some(places) = scan.first_chunk() {
        return *places;
    }
    let mut places = [0; 128];
    places[..scan.len()].copy_from_slice(scan);
    places
}

// A scan as it came, and in its places, so that it is put there once.
#[derive(Drop)]
pub(crate) struct Scan<'a> {
    pub bytes: &'a [u8],
    pub places: [u8; 128],
    ghost padded: { places ≡ padded (take 128 bytes.now) },
}

impl<'a> Scan<'a> {
    pub(crate) fn new(bytes: &'a [u8]) -> Scan<'a>
        ensures { result.bytes.now ≡ bytes.now }
    {
        let places = pad(bytes);
        Scan { bytes, places }
    }
}

impl Sizes {
    // Once the places past the switches are 0, all 128 tell of the switches. A fixed number of places takes fewer steps than so
    // many as there are switches.
    #[tactic(auto, using(crate::proofs::Laws::picture_then, crate::proofs::Laws::picture_else, crate::proofs::Laws::unused_past))]
    pub(crate) fn is_picture(self, places: [u8; 128]) -> bool
        ensures { result ≡ is_picture (self.rows * self.columns) places }
    {
        are_at_most(&places[self.switches()..], 0) && are_at_most(&places, 1)
    }

    // Told by the scan's places, for the same reason.
    #[tactic(auto, unfolding(crate::specs::Picture::is_scan), using(crate::proofs::Laws::pad_fits, crate::proofs::Laws::scan_then))]
    pub(crate) fn is_scan(self, scan: &Scan) -> bool
        ensures is { result ≡ is_scan (self.rows * self.columns) scan.now.bytes.now }
        ensures whole { result ≡ true → scan.now.places ≡ padded scan.now.bytes.now }
    {
        scan.bytes.len() == self.switches() && are_at_most(&scan.places, 1)
    }
}
