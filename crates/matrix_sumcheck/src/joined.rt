// Round 5: h2 = Σ δ_M (|K_M|/|K|) h_M, the matrices' quotients joined.
ghost use Rattle.std.specs.Prelude.{◌≡◌, true, map, ℕ, ◌+◌, ◌≤◌, length};
ghost use Rattle.field.specs.Prime.{Prime};
ghost use Rattle.field.specs.Element.{of, words, ◌⊗◌};
ghost use Rattle.field.specs.Power.{◌⊘◌};
ghost use Rattle.domain.specs.Size.{is_size};
ghost use Rattle.domain.specs.Known.{Known, Modulus};
ghost use Rattle.domain.specs.Polynomial.{◌⊞◌, ◌·◌, ◌⊠◌, quotient};
ghost use Rattle.protocol.specs.Three.{MatrixName, map_three, at};
ghost use Rattle.protocol.specs.Circuit.{Circuit, largest};
ghost use Rattle.protocol.specs.Messages.{denominator, ratio, matrix_quotient, joined_quotient};
ghost use Rattle.shared.specs.Meanings.{three};
ghost use Rattle.circuit.specs.Given.{ShapedCircuit, ListsWithin};
ghost use Rattle.matrix_sumcheck.specs.MatrixGiven.{Given, Challenged, EntriesWithin, CircuitWithin, LagrangeLists, DistanceLists};
ghost use Rattle.matrix_sumcheck.specs.MatrixGiven.{distances, word_lists, size_of};

use crate::matrix::{self, Factors};
use circuit::given::CircuitWords;
use shared::{Three, Triple};

// n(y - a) for each element a of the domain of size n, which is the slice's length.
fn distances_into(p: u32, y: u32, out: &mut [u32])
    requires modulus { Modulus p }
    requires out_value { is_size (length out.old) ≡ true }
    ensures { (q : Prime) → Known q p → out.new ≡ words (distances {q = q} (length out.old) (of y)) }
{
    let n = out.len() as u32;
    let g = domain::root_of(p, n);
    let mut power: u32 = 1;
    for word in out.iter_mut() {
        *word = field::multiply(p, n, field::subtract(p, y, power));
        power = field::multiply(p, power, g);
    }
}

// The quotient of b_M·(a_M/b_M) by v_{K_M}, from the values of the two on K_M. It is -h_M: a_M has length |K_M| and no part in it.
fn product_quotient_into(
    p: u32,
    lagrange: &Factors,
    distances: &Factors,
    entries: &[u32],
    out: &mut [u32],
)
    requires modulus { Modulus p }
    requires entries_within { EntriesWithin (length lagrange.now.rows.now) (length lagrange.now.columns.now) entries.now }
    requires entries_within_2 { EntriesWithin (length distances.now.rows.now) (length distances.now.columns.now) entries.now }
    requires out_len { length out.old + 1 ≡ size_of entries.now }
    ensures { (q : Prime) (k : Circuit) (M : MatrixName) (r c alpha beta : ℕ)
        → Given q p r c entries.now k M → Challenged q p k alpha beta
        → LagrangeLists q r c alpha beta lagrange.now.rows.now lagrange.now.columns.now
        → DistanceLists q r c alpha beta distances.now.rows.now distances.now.columns.now
        → out.new
        ≡ words (quotient (length out.old + 1)
        (denominator {q = q} k (of alpha) (of beta) M ⊠ ratio k (of alpha) (of beta) M)) }
{
    let n = out.len() + 1;
    let mut below = [0u32; 1024];
    let mut terms = [0u32; 1024];
    matrix::products_into(p, distances, entries, &mut below[..n]);
    matrix::terms_into(p, lagrange, entries, &mut terms[..n]);
    let mut factor = [0u32; 1024];
    let mut rest = [0u32; 1024];
    transform::product::divide_product_into(
        p,
        &below[..n],
        &terms[..n],
        &mut factor[..n],
        &mut rest[..n],
        out,
    );
}

// δ_M (|K_M|/|K|) h_M added to the slice, whose length is |K| - 1.
fn add_matrix(
    p: u32,
    lagrange: &Factors,
    distances: &Factors,
    entries: &[u32],
    delta: u32,
    out: &mut [u32],
)
    requires modulus { Modulus p }
    requires entries_within { EntriesWithin (length lagrange.now.rows.now) (length lagrange.now.columns.now) entries.now }
    requires entries_within_2 { EntriesWithin (length distances.now.rows.now) (length distances.now.columns.now) entries.now }
    requires entries_in_bounds { (size_of entries.now ≤ length out.old + 1) × (is_size (length out.old + 1) ≡ true) }
    ensures { (q : Prime) (k : Circuit) (M : MatrixName) (r c alpha beta : ℕ)
        → Given q p r c entries.now k M → Challenged q p k alpha beta
        → LagrangeLists q r c alpha beta lagrange.now.rows.now lagrange.now.columns.now
        → DistanceLists q r c alpha beta distances.now.rows.now distances.now.columns.now
        → out.new
        ≡ words (map of out.old
        ⊞ of {q = q} delta ⊗ (of (size_of entries.now) ⊘ of (length out.old + 1))
        · matrix_quotient k (of alpha) (of beta) M) }
{
    let size = circuit::matrices::size_of(entries);
    let inverse = domain::size_inverse(p, (out.len() + 1) as u32);
    let share = field::multiply(p, size, inverse);
    let n = (size - 1) as usize;
    let mut quotient = [0u32; 1024];
    product_quotient_into(p, lagrange, distances, entries, &mut quotient[..n]);
    let factor = field::multiply(p, delta, share);
    poly::add_scaled(p, out, field::subtract(p, 0, factor), &quotient[..n]);
}

// h2 from the Lagrange values of the rows and of the columns, and from their distances.
fn joined_by_lists(
    p: u32,
    circuit: &CircuitWords,
    lagrange: &Factors,
    distances: &Factors,
    delta: Triple,
    out: &mut [u32],
)
    requires modulus { Modulus p }
    requires three_within { CircuitWithin (length lagrange.now.rows.now) (length lagrange.now.columns.now) circuit.now }
    requires three_within_2 { CircuitWithin (length distances.now.rows.now) (length distances.now.columns.now) circuit.now }
    requires out_len { length out.old + 1 ≡ largest (map_three size_of (word_lists circuit.now)) }
    ensures { (q : Prime) (k : Circuit) (r c alpha beta : ℕ)
        → ((M : MatrixName) → Given q p r c (at (word_lists circuit.now) M) k M)
        → Challenged q p k alpha beta
        → LagrangeLists q r c alpha beta lagrange.now.rows.now lagrange.now.columns.now
        → DistanceLists q r c alpha beta distances.now.rows.now distances.now.columns.now
        → out.new ≡ words (joined_quotient {q = q} k (of alpha) (of beta) (map_three of (three delta))) }
{
    poly::clear(out);
    let Three { a, b, c } = circuit.matrices;
    add_matrix(p, lagrange, distances, a, delta.a, out);
    add_matrix(p, lagrange, distances, b, delta.b, out);
    add_matrix(p, lagrange, distances, c, delta.c, out);
}

// h2, of length |K| - 1. The lists of the rows and of the columns are made once for the three matrices.
pub fn joined_quotient_into(
    p: u32,
    circuit: &CircuitWords,
    alpha: u32,
    beta: u32,
    delta: Triple,
    out: &mut [u32],
)
    requires modulus { Modulus p }
    requires circuit_shaped { ShapedCircuit circuit.now }
    requires each_within { ListsWithin circuit.now.r circuit.now.c circuit.now }
    requires out_len { length out.old + 1 ≡ largest (map_three size_of (word_lists circuit.now)) }
    ensures { (q : Prime) (k : Circuit)
        → ((M : MatrixName) → Given q p circuit.now.r circuit.now.c (at (word_lists circuit.now) M) k M)
        → Challenged q p k alpha beta
        → out.new ≡ words (joined_quotient {q = q} k (of alpha) (of beta) (map_three of (three delta))) }
{
    let n = circuit.r as usize;
    let l = circuit.c as usize;
    let mut rows = [0u32; 1024];
    let mut columns = [0u32; 1024];
    let mut row_distances = [0u32; 1024];
    let mut column_distances = [0u32; 1024];
    domain::lagrange_values_into(p, alpha, &mut rows[..n]);
    domain::lagrange_values_into(p, beta, &mut columns[..l]);
    distances_into(p, alpha, &mut row_distances[..n]);
    distances_into(p, beta, &mut column_distances[..l]);
    let lagrange = Factors {
        rows: &rows[..n],
        columns: &columns[..l],
    };
    let distances = Factors {
        rows: &row_distances[..n],
        columns: &column_distances[..l],
    };
    joined_by_lists(p, circuit, &lagrange, &distances, delta, out);
}
