// The arrays that an exported function is given, as the values that the public calls take.
ghost use Rattle.std.specs.Prelude.{◌≡◌};
ghost use Rattle.shared.specs.Meanings.{three, sizes as sizesMeaning};
ghost use Rattle.verifier.specs.Session.{three_at};
ghost use Rattle.c_numbers.specs.Inputs.{sizes_in, messages_in, indexes_in};

use varuna::answers::{Opened, Sizes, Triple};

// The three words of an array.
pub fn triple(words: &[u32; 3]) -> Triple
    ensures { three result ≡ three_at words.now 0 }
{
    Triple {
        a: words[0],
        b: words[1],
        c: words[2],
    }
}

// Six sizes in trailer order.
pub fn sizes_in(words: &[u32; 6]) -> Sizes
    ensures { sizesMeaning result ≡ sizes_in words.now }
{
    Sizes {
        r: words[0],
        c: words[1],
        x: words[2],
        k: Triple {
            a: words[3],
            b: words[4],
            c: words[5],
        },
    }
}

// The openings of the messages, the first nine of 21.
pub fn messages_in(o: &[u32; 21]) -> Opened
    ensures { result ≡ messages_in o.now }
{
    Opened {
        witness: o[0],
        mask: o[1],
        line_remainder: o[2],
        line_quotient: o[3],
        row_quotient: o[4],
        joined_quotient: o[5],
        matrix_remainders: Triple {
            a: o[6],
            b: o[7],
            c: o[8],
        },
    }
}

// The openings of the index polynomials, the last twelve of 21.
pub fn indexes_in(o: &[u32; 21]) -> [[u32; 4]; 3]
    ensures { result ≡ indexes_in o.now }
{
    [
        [o[9], o[10], o[11], o[12]],
        [o[13], o[14], o[15], o[16]],
        [o[17], o[18], o[19], o[20]],
    ]
}
