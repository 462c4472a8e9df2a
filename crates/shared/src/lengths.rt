// The column "Length" of document 01's table of messages, for any six sizes: the one place of the code where it stands.
ghost use Rattle.std.specs.Prelude.{◌≡◌};
ghost use Rattle.protocol.specs.Messages.{lengths};
ghost use Rattle.shared.specs.Meanings.{sizes, message_lengths};

use crate::six_sizes::largest;
use crate::{Sizes, Three};

// The lengths of ŵ, m, h0, g1, h1, the g_M and h2. (The σ and ω are one word each.)
#[derive(Clone, Copy)]
pub struct Lengths {
    pub witness: usize,
    pub mask: usize,
    pub row_quotient: usize,
    pub line_remainder: usize,
    pub line_quotient: usize,
    pub matrix_remainders: Three<usize>,
    pub joined_quotient: usize,
}

pub fn message_lengths(s: Sizes) -> Lengths
    ensures { message_lengths result ≡ lengths (sizes s) }
{
    let k = s.k;
    let columns = s.c as usize;
    Lengths {
        witness: s.c.saturating_sub(s.x) as usize + 1,
        mask: 2 * columns,
        row_quotient: s.r.saturating_sub(1) as usize,
        line_remainder: s.c.saturating_sub(1) as usize,
        line_quotient: columns,
        matrix_remainders: Three {
            a: k.a.saturating_sub(1) as usize,
            b: k.b.saturating_sub(1) as usize,
            c: k.c.saturating_sub(1) as usize,
        },
        joined_quotient: largest(k).saturating_sub(1) as usize,
    }
}
