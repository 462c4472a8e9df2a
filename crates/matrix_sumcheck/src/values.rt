// Round 4: ω_A, ω_B, ω_C, and g_A, g_B, g_C.
ghost use Rattle.std.specs.Prelude.{◌≡◌, ℕ, ◌+◌, ◌<◌, length};
ghost use Rattle.field.specs.Prime.{Prime};
ghost use Rattle.protocol.specs.Three.{MatrixName, at};
ghost use Rattle.protocol.specs.Circuit.{Circuit};
ghost use Rattle.shared.specs.Meanings.{three};
ghost use Rattle.circuit.specs.Given.{ShapedCircuit, ListsWithin};
ghost use Rattle.matrix_sumcheck.specs.MatrixGiven.{Given, Challenged, CircuitWithin, LagrangeLists, ValuesMade, word_lists, size_of};

use crate::matrix::{Factors, value_into};
use circuit::given::CircuitWords;
use shared::{Three, Triple};

// From the Lagrange values of the rows and of the columns.
fn values_by_lists(
    p: u32,
    circuit: &CircuitWords,
    lagrange: &Factors,
    ga: &mut [u32],
    gb: &mut [u32],
    gc: &mut [u32],
) -> Triple
    requires lt_p { 1 < p }
    requires three_within { CircuitWithin (length lagrange.now.rows.now) (length lagrange.now.columns.now) circuit.now }
    requires ga_len { length ga.old + 1 ≡ size_of circuit.now.matrices.a.now }
    requires gb_len { length gb.old + 1 ≡ size_of circuit.now.matrices.b.now }
    requires gc_len { length gc.old + 1 ≡ size_of circuit.now.matrices.c.now }
    ensures { (q : Prime) (k : Circuit) (r c alpha beta : ℕ)
        → ((M : MatrixName) → Given q p r c (at (word_lists circuit.now) M) k M)
        → Challenged q p k alpha beta → LagrangeLists q r c alpha beta lagrange.now.rows.now lagrange.now.columns.now
        → ValuesMade q k alpha beta ga.new gb.new gc.new (three result) }
{
    let Three { a, b, c } = circuit.matrices;
    Three {
        a: value_into(p, lagrange, a, ga),
        b: value_into(p, lagrange, b, gb),
        c: value_into(p, lagrange, c, gc),
    }
}

// The Lagrange values of R at α and of C at β are made once for the three matrices.
pub fn values_into(
    p: u32,
    circuit: &CircuitWords,
    alpha: u32,
    beta: u32,
    ga: &mut [u32],
    gb: &mut [u32],
    gc: &mut [u32],
) -> Triple
    requires lt_p { 1 < p }
    requires circuit_shaped { ShapedCircuit circuit.now }
    requires each_within { ListsWithin circuit.now.r circuit.now.c circuit.now }
    requires ga_len { length ga.old + 1 ≡ size_of circuit.now.matrices.a.now }
    requires gb_len { length gb.old + 1 ≡ size_of circuit.now.matrices.b.now }
    requires gc_len { length gc.old + 1 ≡ size_of circuit.now.matrices.c.now }
    ensures { (q : Prime) (k : Circuit)
        → ((M : MatrixName) → Given q p circuit.now.r circuit.now.c (at (word_lists circuit.now) M) k M)
        → Challenged q p k alpha beta
        → ValuesMade q k alpha beta ga.new gb.new gc.new (three result) }
{
    let n = circuit.r as usize;
    let l = circuit.c as usize;
    let mut rows = [0u32; 1024];
    let mut columns = [0u32; 1024];
    domain::lagrange_values_into(p, alpha, &mut rows[..n]);
    domain::lagrange_values_into(p, beta, &mut columns[..l]);
    let lagrange = Factors {
        rows: &rows[..n],
        columns: &columns[..l],
    };
    values_by_lists(p, circuit, &lagrange, ga, gb, gc)
}
