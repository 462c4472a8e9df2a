// What is read off entry lists: |K_M|, |K|, a circuit's six sizes and its messages' lengths, and the sums M·z of the rows.
ghost use Rattle.std.specs.Prelude.{◌≡◌, map, ◌<◌, length};
ghost use Rattle.algebra.specs.Lists.{tabulate};
ghost use Rattle.algebra.specs.Counting.{All};
ghost use Rattle.field.specs.Prime.{Prime};
ghost use Rattle.field.specs.Element.{of, words};
ghost use Rattle.domain.specs.Size.{size_for};
ghost use Rattle.protocol.specs.Three.{MatrixName, at, map_three};
ghost use Rattle.protocol.specs.Circuit.{Circuit, sizes_of, largest, row_sum};
ghost use Rattle.protocol.specs.Calls.{entries_of, circuit_of};
ghost use Rattle.protocol.specs.Messages.{lengths};
ghost use Rattle.shared.specs.Meanings.{three, sizes as sizesMeaning, message_lengths};
ghost use Rattle.circuit.specs.Given.{circuit_words, lists_in, Within};

use crate::given::CircuitWords;
use shared::lengths::{Lengths, message_lengths};
use shared::six_sizes::largest;
use shared::{Sizes, Three, Triple};

// |K_M|: the smallest size not below the entry count, and the largest size where no size is.
pub fn size_of(entries: &[u32]) -> u32
    ensures { result ≡ size_for (length (entries_of entries.now)) }
{
    let count = entries.len() / 3;
    if count > domain::MAX_SIZE as usize {
        return domain::MAX_SIZE;
    }
    domain::size_for(count as u32)
}

// The three |K_M|.
fn matrix_sizes(circuit: &CircuitWords) -> Triple
    ensures { three result ≡ map_three (λ l. size_for (length l)) (lists_in circuit.now) }
{
    let Three { a, b, c } = circuit.matrices;
    Three {
        a: size_of(a),
        b: size_of(b),
        c: size_of(c),
    }
}

// |R|, |C|, |X| and the three |K_M| of a circuit, and the lengths that the table of messages gives for them.
pub fn sizes_of(circuit: &CircuitWords) -> Sizes
    ensures { sizesMeaning result ≡ sizes_of (circuit_of (circuit_words circuit.now)) }
{
    Sizes {
        r: circuit.r,
        c: circuit.c,
        x: circuit.x,
        k: matrix_sizes(circuit),
    }
}

pub fn lengths_of(circuit: &CircuitWords) -> Lengths
    ensures { message_lengths result ≡ lengths (sizes_of (circuit_of (circuit_words circuit.now))) }
{
    message_lengths(sizes_of(circuit))
}

// K: the largest |K_M|.
pub fn largest_size(circuit: &CircuitWords) -> u32
    ensures { (k : Circuit) → k.matrices ≡ lists_in circuit.now → result ≡ largest (sizes_of k).|K| }
{
    largest(matrix_sizes(circuit))
}

// The sum of a matrix's values in each row, each times z at its column, into the slice: one pass over the entries.
pub fn row_sums(p: u32, entries: &[u32], z: &[u32], out: &mut [u32])
    requires p_nonzero { 0 < p }
    requires all { All (Within (length out.old) (length z.now)) (entries_of entries.now) }
    ensures { (q : Prime) → q.p ≡ p → (k : Circuit) (M : MatrixName) → at k.matrices M ≡ entries_of entries.now
        → out.new ≡ words (tabulate (length out.old) (row_sum {q = q} k M (map of z.now))) }
{
    poly::clear(out);
    for i in 0..entries.len() / 3 {
        let row = entries[3 * i] as usize;
        let column = entries[3 * i + 1] as usize;
        out[row] = field::multiply_add(p, entries[3 * i + 2], z[column], out[row]);
    }
}
