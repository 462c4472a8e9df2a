// The six sizes of a proof: their tests, and the largest of the three |K_M|.
ghost use Rattle.std.specs.Prelude.{◌≡◌, ◌&&◌, ◌<◌, ◌^◌, max, leb};
ghost use Rattle.domain.specs.Size.{is_size};
ghost use Rattle.protocol.specs.Circuit as circuit;
ghost use Rattle.protocol.specs.Refusals.{refuse, six_size_tests};
ghost use Rattle.shared.specs.Meanings.{row_number, refusal_in, three, sizes};

use crate::scans::first_failed;
use crate::{Refusal, Row, Sizes, Triple};

pub fn larger(m: u32, n: u32) -> u32
    ensures { result ≡ max m n }
{
    if m <= n { n } else { m }
}

// |K|, the largest |K_M|.
pub fn largest(k: Triple) -> u32
    ensures { result ≡ circuit.largest (three k) }
{
    larger(k.a, larger(k.b, k.c))
}

// |X| is a size and at most |C|.
pub fn is_public_size(x: u32, c: u32) -> bool
    ensures { result ≡ (is_size x && leb x c) }
{
    if domain::is_size(x) { x <= c } else { false }
}

// A size not allowed, or |X| above |C|: by the given row of the table, with its position counted from the one given.
pub fn judge_sizes(row: Row, position: usize, s: Sizes) -> Result<(), Refusal>
    requires { position < 2 ^ 32 }
    ensures { refusal_in result ≡ refuse (row_number row) position (six_size_tests (sizes s)) }
{
    let k = s.k;
    let tests = [
        domain::is_size(s.r),
        domain::is_size(s.c),
        is_public_size(s.x, s.c),
        domain::is_size(k.a),
        domain::is_size(k.b),
        domain::is_size(k.c),
    ];
    first_failed(row, position, &tests)
}
