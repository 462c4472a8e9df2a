// The blinded entry lists and the blinded assignment, of a call that is let through.
ghost use Rattle.std.specs.Prelude.{◌≡◌, [], ◌∷◌, ◌++◌, ◌+◌, ◌<◌, length, set};
ghost use Rattle.protocol.specs.Blinded.{blinded_words};
ghost use Rattle.shared.specs.Meanings.{three};
ghost use Rattle.circuit.specs.Given.{circuit_words};
ghost use Rattle.blinding.specs.Given.{FittingCircuit};

use crate::columns;
use circuit::given::CircuitWords;
use shared::{Three, Triple};

// The entries, and one more after them.
fn entries_into(entries: &[u32], row: u32, column: u32, value: u32, out: &mut [u32])
    requires { length out.old ≡ length entries.now + 3 }
    ensures { out.new ≡ entries.now ++ (row ∷ column ∷ value ∷ []) }
{
    poly::copy_front(entries, out);
    let n = entries.len();
    out[n] = row;
    out[n + 1] = column;
    out[n + 2] = value;
}

// z, with the blinding values at their columns.
fn assignment_into(z: &[u32], columns: Triple, rho: Triple, out: &mut [u32])
    requires out_len { length out.old ≡ length z.now }
    requires a_in_bounds { (columns.a < length z.now) × ((columns.b < length z.now) × (columns.c < length z.now)) }
    ensures { out.new
        ≡ set (set (set z.now columns.a rho.a) columns.b rho.b) columns.c rho.c }
{
    poly::copy_front(z, out);
    out[columns.a as usize] = rho.a;
    out[columns.b as usize] = rho.b;
    out[columns.c as usize] = rho.c;
}

// All four.
pub fn blind_into(
    circuit: &CircuitWords,
    z: &[u32],
    rho: Triple,
    blinded_a: &mut [u32],
    blinded_b: &mut [u32],
    blinded_c: &mut [u32],
    blinded_z: &mut [u32],
)
    requires { FittingCircuit circuit.now z.now blinded_a.old blinded_b.old blinded_c.old blinded_z.old }
    ensures { (record { a = blinded_a.new; b = blinded_b.new; c = blinded_c.new }, blinded_z.new)
        ≡ blinded_words (circuit_words circuit.now) z.now (three rho) }
{
    let columns = columns::reserved_columns(circuit.c, circuit.x);
    let last = circuit.r - 1;
    let Three { a, b, c } = circuit.matrices;
    entries_into(a, last, columns.a, 1, blinded_a);
    entries_into(b, last, columns.b, 1, blinded_b);
    entries_into(c, last, columns.c, 1, blinded_c);
    assignment_into(z, columns, rho, blinded_z);
}
