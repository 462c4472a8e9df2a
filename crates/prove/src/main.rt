// Reads a job from standard input and prints its proof and verdict, its refusal, or that it is too long or too short.
#![tactic(auto)]

use job::TEXT_BYTES;
use std::io::{self, Read};

// One byte more than a job may have.
const READ_BYTES: usize = 4097;

fn main(rt: HostRuntime) -> io::Result<()> {
    let mut bytes = [0u8; READ_BYTES];
    let mut out = [0u8; TEXT_BYTES];
    let mut n = 0;
    // A read may give fewer bytes than there is room for; it gives none at the end. A call that reads to the end would fill a Vec, which is
    // on the heap. `sheet` has the same loop: a crate for it would be no plainer.
    while n < READ_BYTES {
        let got = rt.stdin().read(&mut bytes[n..])?;
        if got == 0 {
            break;
        }
        n += got;
    }
    let k = job::text(&bytes[..n], &mut out);
    rt.write_all(&out[..k])
}
