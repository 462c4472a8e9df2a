// g1 and h1: the quotient and the remainder by v_C of the line m + W(Y) ẑ(Y), where W is Σ η_M M̂(α,Y). With ẑ = z(Y) + mask·v_C they
// come from those of W(Y) z(Y), which is the only product. A matrix comes as its list of entries, three words to an entry.
ghost use Rattle.std.specs.Prelude.{◌≡◌, true, ◌+◌, ◌-◌, ◌*◌, ◌≤◌, ◌<◌, length, get_or};
ghost use mathlib.Core.List.{map, tail};
ghost use Rattle.algebra.specs.Counting.{All};
ghost use Rattle.algebra.specs.Lists.{tabulate};
ghost use Rattle.field.specs.Prime.{Prime};
ghost use Rattle.field.specs.Element.{Elem, of, words, ◌⊕◌, ◌⊗◌};
ghost use Rattle.domain.specs.Size.{is_size};
ghost use Rattle.domain.specs.Domain.{element, lagrange};
ghost use Rattle.domain.specs.Polynomial.{◌⊞◌, ◌·◌, quotient, remainder};
ghost use Rattle.domain.specs.Qualifies.{Qualifies};
ghost use Rattle.domain.specs.Known.{Known, Modulus};
ghost use Rattle.protocol.specs.Three.{each, map_three};
ghost use Rattle.protocol.specs.Circuit.{Circuit};
ghost use Rattle.protocol.specs.Checks.{weighted};
ghost use Rattle.protocol.specs.Calls.{entries_of};
ghost use Rattle.shared.specs.Meanings.{three};
ghost use Rattle.protocol.proofs.ProverForms.{column_sum};
ghost use Rattle.circuit.specs.Given.{input_words, lists_in, FitsInput, Within, ListsWithin};
ghost use Rattle.prover.specs.EntrySums.{column_total};
ghost use Rattle.prover.specs.CallGiven.{line_remainder_in, line_quotient_in};

use circuit::given::{CircuitWords, ProverInput};
use shared::{Three, Triple};
use transform::product;

// Adds, for each entry, eta × its value × its row's value to its column.
fn add_column_sums(p: u32, eta: u32, entries: &[u32], rows: &[u32], out: &mut [u32])
    requires p_nonzero { 0 < p }
    requires all { All (Within (length rows.now) (length out.old)) (entries_of entries.now) }
    ensures { (q : Prime) → q.p ≡ p
        → map (of {q = q}) out.new
        ≡ tabulate (length out.old)
        (λ j. of (get_or out.old j 0) ⊕ of eta ⊗ column_total (map of rows.now) (entries_of entries.now) j) }
{
    for i in 0..entries.len() / 3 {
        let row = entries[3 * i] as usize;
        let column = entries[3 * i + 1] as usize;
        let product = field::multiply(p, entries[3 * i + 2], rows[row]);
        out[column] = field::multiply_add(p, eta, product, out[column]);
    }
}

// Adds the columns' sums of A, B, C, each times its eta.
fn add_weights(p: u32, circuit: &CircuitWords, rows: &[u32], eta: Triple, out: &mut [u32])
    requires p_nonzero { 0 < p }
    requires each_within { ListsWithin (length rows.now) (length out.old) circuit.now }
    ensures { (q : Prime) → q.p ≡ p
        → map (of {q = q}) out.new
        ≡ tabulate (length out.old)
        (λ j. of (get_or out.old j 0)
        ⊕ weighted (map_three of (three eta))
        (map_three (λ es. column_total (map of rows.now) es j) (lists_in circuit.now))) }
{
    let Three { a, b, c } = circuit.matrices;
    add_column_sums(p, eta.a, a, rows, out);
    add_column_sums(p, eta.b, b, rows, out);
    add_column_sums(p, eta.c, c, rows, out);
}

// The values of Σ η_M M̂(α,Y) on C, where the rows have their Lagrange values at α: the weighted columns' sums.
pub fn weights_from(p: u32, circuit: &CircuitWords, rows: &[u32], eta: Triple, out: &mut [u32])
    requires p_nonzero { 0 < p }
    requires each_within { ListsWithin (length rows.now) (length out.old) circuit.now }
    ensures { (q : Prime) → q.p ≡ p → (k : Circuit) → k.|R| ≡ length rows.now
        → k.matrices ≡ lists_in circuit.now → (α : Elem q)
        → map of rows.now
        ≡ tabulate (length rows.now) (λ i. lagrange (length rows.now) (element (length rows.now) i) α)
        → map of out.new
        ≡ tabulate (length out.old) (λ j. weighted (map_three of (three eta)) (each (λ M. column_sum {q = q} k M α j))) }
{
    poly::clear(out);
    add_weights(p, circuit, rows, eta, out);
}

// The same from α: the rows' Lagrange values are made first.
fn column_weights_into(p: u32, circuit: &CircuitWords, alpha: u32, eta: Triple, out: &mut [u32])
    requires lt_p { 1 < p }
    requires r_value { is_size circuit.now.r ≡ true }
    requires each_within { ListsWithin circuit.now.r (length out.old) circuit.now }
    ensures { (q : Prime) → Known q p → (k : Circuit) → k.|R| ≡ circuit.now.r
        → k.matrices ≡ lists_in circuit.now
        → map of out.new
        ≡ tabulate (length out.old)
        (λ j. weighted (map_three of (three eta)) (each (λ M. column_sum {q = q} k M (of alpha) j))) }
{
    let n = circuit.r as usize;
    let mut rows = [0u32; 1024];
    domain::lagrange_values_into(p, alpha, &mut rows[..n]);
    weights_from(p, circuit, &rows[..n], eta, out);
}

// g1 from the remainder of a product by v_C: the remainder of m is added, and the constant left out.
fn remainder_from(p: u32, rest: &[u32], m: &[u32], out: &mut [u32])
    requires p_nonzero { 0 < p }
    requires rest_len { (length rest.now ≡ length out.old + 1) × (length m.now ≡ 2 * length rest.now) }
    ensures { (q : Prime) → q.p ≡ p
        → out.new
        ≡ words (tail (remainder (length rest.now) (map (of {q = q}) m.now) ⊞ map of rest.now)) }
{
    let n = rest.len();
    for (i, word) in out.iter_mut().enumerate() {
        let j = i + 1;
        *word = field::add(p, field::add(p, m[j], m[n + j]), rest[j]);
    }
}

// h1 from the quotient of W·z(Y) by v_C: the quotient of m is added, and mask·W, since ẑ is z(Y) + mask·v_C.
fn quotient_from(p: u32, mask: u32, weights: &[u32], high: &[u32], m: &[u32], out: &mut [u32])
    requires p_nonzero { 0 < p }
    requires out_nonzero { (0 < length out.old) × (length weights.now ≡ length out.old) × (length high.now ≤ length out.old) }
    requires m_len { length m.now ≡ 2 * length out.old }
    ensures { (q : Prime) → q.p ≡ p
        → out.new
        ≡ words (quotient (length out.old) (map (of {q = q}) m.now)
        ⊞ (of mask · map of weights.now ⊞ map of high.now)) }
{
    let n = out.len();
    for (i, word) in out.iter_mut().enumerate() {
        let masked = field::multiply_add(p, mask, weights[i], poly::word_or_zero(high, i));
        *word = field::add(p, m[n + i], masked);
    }
}

// g1 and h1, of lengths |C| - 1 and |C|: the remainder of the line by v_C without its constant, and the quotient.
pub fn line_into(
    p: u32,
    input: &ProverInput,
    alpha: u32,
    eta: Triple,
    remainder: &mut [u32],
    quotient: &mut [u32],
)
    requires modulus { Modulus p }
    requires fits { FitsInput p input.now }
    requires remainder_len { (length remainder.old ≡ input.now.circuit.c - 1) × (length quotient.old ≡ input.now.circuit.c) }
    ensures { (q : Prime) → Known q p → Qualifies q
        → (remainder.new ≡ words (line_remainder_in q (input_words input.now) alpha (three eta)))
        × (quotient.new ≡ words (line_quotient_in q (input_words input.now) alpha (three eta))) }
{
    let n = input.circuit.c as usize;
    let l = n - 1;
    let mut values = [0u32; 1024];
    column_weights_into(p, &input.circuit, alpha, eta, &mut values[..n]);
    let mut weights = [0u32; 1024];
    let mut rest = [0u32; 1024];
    let mut high = [0u32; 1024];
    product::divide_product_into(
        p,
        &values[..n],
        input.z,
        &mut weights[..n],
        &mut rest[..n],
        &mut high[..l],
    );
    remainder_from(p, &rest[..n], input.m, remainder);
    quotient_from(p, input.mask, &weights[..n], &high[..l], input.m, quotient);
}
