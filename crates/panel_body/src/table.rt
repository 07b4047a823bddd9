// The bytes of `table.img`, read into a lent buffer. Assumes nothing.
use console::read_whole;
use std::{fs, io};

// One byte more than the largest image has, 16 + 2 * 8 * 8 * 16 + 8 * 256 + 2 * 1024. A file that fills it is too long: the
// check looks at the header and then at the length, so it refuses these bytes as it would the whole file.
pub(crate) const ROOM: usize = 6161;

// Reads to the file's end, or to the buffer's: how many bytes there are. The file is closed again.
fn read_file(rt: &HostRuntime, bytes: &mut [u8]) -> io::Result<usize> {
    let mut file = fs::open(rt, "table.img")?;
    read_whole(&mut file, bytes)
}

// How many bytes the file has, at most as many as there is room for. Where it cannot be opened or read, standard error says why;
// where that cannot be written there is nobody to tell.
pub(crate) fn take(rt: &HostRuntime, bytes: &mut [u8]) -> Option<usize> {
    match read_file(rt, bytes) {
        Ok(n) => Some(n),
        Err(e) => {
            let _ = eprintln!(rt; "table.img: {e}");
            None
        }
    }
}
