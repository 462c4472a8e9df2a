// Prints the sheet of the circuits on standard input, one a line: |R| |C| |X| and the entry counts of A, B, C.
#![tactic(auto)]

use figures::{LONGEST_TEXT, SHEET_BYTES};
use std::io::{self, Read};

// One byte more than a text may have.
const READ_BYTES: usize = LONGEST_TEXT + 1;

fn main(rt: HostRuntime) -> io::Result<()> {
    let mut input = [0u8; READ_BYTES];
    let mut out = [0u8; SHEET_BYTES];
    let mut n = 0;
    // A read may give fewer bytes than there is room for; it gives none at the end. A call that reads to the end would fill a Vec, which is
    // on the heap. `prove` has the same loop: a crate for it would be no plainer.
    while n < READ_BYTES {
        let got = rt.stdin().read(&mut input[n..])?;
        if got == 0 {
            break;
        }
        n += got;
    }
    let end = figures::text(&input[..n], &mut out);
    rt.write_all(&out[..end])
}
