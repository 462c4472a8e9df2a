// The layout of a record that the sizes give: the lengths of its sections and the places where they begin.
ghost use Rattle.std.specs.Prelude.{◌≡◌};
ghost use Rattle.protocol.specs.Record.{section_lengths};
ghost use Rattle.shared.specs.Meanings.{sizes as sizesMeaning};
ghost use Rattle.record.specs.Layout.{Allowed, bounds};

use shared::Sizes;
use shared::lengths::message_lengths;

pub const WORD_BYTES: usize = 4;

pub const SECTIONS: usize = 11;

pub const TRAILER_WORDS: usize = 18;

pub const TRAILER_BYTES: usize = WORD_BYTES * TRAILER_WORDS;

// The sums and the values have a word for each matrix.
const MATRICES: usize = 3;

// The lengths of the sections in words, by the table of messages.
pub fn section_lengths(s: Sizes) -> [usize; SECTIONS]
    ensures { result ≡ section_lengths (sizesMeaning s) }
{
    let l = message_lengths(s);
    let remainders = l.matrix_remainders;
    [
        l.witness,
        l.mask,
        l.row_quotient,
        MATRICES,
        l.line_remainder,
        l.line_quotient,
        MATRICES,
        remainders.a,
        remainders.b,
        remainders.c,
        l.joined_quotient,
    ]
}

// The byte starts of the sections, and last that of the trailer.
pub fn section_bounds(s: Sizes) -> [u32; SECTIONS + 1]
    requires { Allowed (sizesMeaning s) }
    ensures { result ≡ bounds (section_lengths (sizesMeaning s)) }
{
    let lengths = section_lengths(s);
    let mut starts = [0u32; SECTIONS + 1];
    let mut at: u32 = 0;
    for (k, length) in lengths.iter().enumerate() {
        at += (WORD_BYTES * *length) as u32;
        starts[k + 1] = at;
    }
    starts
}
