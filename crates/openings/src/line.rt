// m, g1, h1 and ŵ at β: from the columns' Lagrange values there, the weights of the columns, z and m.
ghost use Rattle.std.specs.Prelude.{◌≡◌, true, map, ◌<◌, ◌≤◌, length, get_or};
ghost use Rattle.algebra.specs.Lists.{tabulate};
ghost use Rattle.field.specs.Prime.{Prime};
ghost use Rattle.field.specs.Element.{Elem, of, words, ◌⊗◌};
ghost use Rattle.domain.specs.Size.{is_size};
ghost use Rattle.domain.specs.Polynomial.{Poly, eval, ◌⊞◌, remainder, interpolate};
ghost use Rattle.domain.specs.Known.{Known, OutsideDomain};
ghost use Rattle.protocol.specs.Three.{Three};
ghost use Rattle.protocol.specs.Circuit.{Circuit};
ghost use Rattle.protocol.specs.Messages.{witness as witnessPoly};
ghost use Rattle.protocol.proofs.AdmissionLaws.{WellFormed};
ghost use Rattle.matrix_sumcheck.specs.MatrixGiven.{lagrange_values};
ghost use Rattle.openings.specs.LineGiven.{assignment_of, Assigned, Weighed, LineIs};

use crate::values;
use circuit::given::ProverInput;
use prover::witness;

// m, g1 and h1 at one point.
#[derive(Clone, Copy)]
pub struct LineOpened {
    pub mask: u32,
    pub remainder: u32,
    pub quotient: u32,
}

// ẑ(β) = z(β) + mask·v_C(β)
pub fn assignment_at(p: u32, input: &ProverInput, columns: &[u32], beta: u32) -> u32
    requires lt_p { 1 < p }
    requires c_value { is_size input.now.circuit.c ≡ true }
    requires columns_len { (length columns.now ≡ input.now.circuit.c) × (length input.now.z.now ≡ input.now.circuit.c) }
    ensures { (q : Prime) → Known q p → columns.now ≡ words (lagrange_values input.now.circuit.c (of {q = q} beta))
        → (k : Circuit) → WellFormed p k → k.|C| ≡ input.now.circuit.c
        → result ≡ (eval (assignment_of k (map of input.now.z.now) (of input.now.mask)) (of {q = q} beta)).word }
{
    let value = domain::interpolated_at(p, columns, input.z);
    let vanishing = domain::vanishing_value(p, input.circuit.c, beta);
    field::multiply_add(p, input.mask, vanishing, value)
}

// ŵ(β), from ẑ(β).
pub fn witness_at(p: u32, input: &ProverInput, assignment: u32, beta: u32) -> u32
    requires lt_p { 1 < p }
    requires c_value { (is_size input.now.circuit.c ≡ true) × (is_size input.now.circuit.x ≡ true)
        × (input.now.circuit.x ≤ input.now.circuit.c) }
    requires z_len { length input.now.z.now ≡ input.now.circuit.c }
    requires outside_domain { OutsideDomain p input.now.circuit.x beta }
    ensures { (q : Prime) → Known q p → (k : Circuit) → WellFormed p k
        → k.|C| ≡ input.now.circuit.c → k.|X| ≡ input.now.circuit.x → (r : Elem q)
        → assignment ≡ (eval (assignment_of k (map of input.now.z.now) r) (of beta)).word
        → result ≡ (eval (witnessPoly k (map of input.now.z.now) r) (of beta)).word }
{
    let c = input.circuit.c;
    let x = input.circuit.x;
    let n = x as usize;
    let mut lagrange = [0u32; 1024];
    domain::lagrange_values_into(p, beta, &mut lagrange[..n]);
    let mut public = [0u32; 1024];
    witness::public_words_into((c / x) as usize, input.z, &mut public[..n]);
    let known = domain::interpolated_at(p, &lagrange[..n], &public[..n]);
    values::over_vanishing(p, x, beta, field::subtract(p, assignment, known))
}

// The line's remainder by v_C: that of m, and the polynomial with the weights times z as its values on C.
fn rest_into(p: u32, weights: &[u32], z: &[u32], m: &[u32], out: &mut [u32])
    requires lt_p { 1 < p }
    requires out_value { is_size (length out.old) ≡ true }
    requires weights_len { (length weights.now ≡ length out.old) × (length z.now ≡ length out.old) }
    ensures { (q : Prime) → Known q p
        → out.new
        ≡ words (remainder (length out.old) (map of m.now)
        ⊞ interpolate (length out.old)
        (tabulate (length out.old) (λ j. of {q = q} (get_or weights.now j 0) ⊗ of (get_or z.now j 0)))) }
{
    let n = out.len();
    let mut products = [0u32; 1024];
    transform::product::products_into(p, weights, z, &mut products[..n]);
    let mut product = [0u32; 1024];
    transform::interpolate_into(
        p,
        domain::root_of(p, n as u32),
        &products[..n],
        &mut product[..n],
    );
    poly::remainder_into(p, m, out);
    poly::add_scaled(p, out, 1, &product[..n]);
}

// m(β), g1(β) and h1(β), for every ẑ whose values on C are z, from ẑ(β).
pub fn line_at(
    p: u32,
    input: &ProverInput,
    columns: &[u32],
    weights: &[u32],
    assignment: u32,
    beta: u32,
) -> LineOpened
    requires lt_p { 1 < p }
    requires c_value { (is_size input.now.circuit.c ≡ true) × OutsideDomain p input.now.circuit.c beta }
    requires columns_len { (length columns.now ≡ input.now.circuit.c) × (length weights.now ≡ input.now.circuit.c)
        × (length input.now.z.now ≡ input.now.circuit.c) }
    ensures { (q : Prime) → Known q p → columns.now ≡ words (lagrange_values input.now.circuit.c (of {q = q} beta))
        → (k : Circuit) → WellFormed p k → k.|C| ≡ input.now.circuit.c → (α : Elem q) (η : Three (Elem q))
        → Weighed k α η weights.now
        → (ẑ : Poly q) → Assigned k ẑ (of beta) input.now.z.now assignment
        → LineIs k (map of input.now.m.now) ẑ α η (of beta) result }
{
    let c = input.circuit.c;
    let n = c as usize;
    let mut rest = [0u32; 1024];
    rest_into(p, weights, input.z, input.m, &mut rest[..n]);
    let parts = values::parted_at(p, &rest[..n], beta);
    let mask = poly::evaluate(p, input.m, beta);
    let line = field::multiply_add(
        p,
        domain::interpolated_at(p, columns, weights),
        assignment,
        mask,
    );
    LineOpened {
        mask,
        remainder: parts.rest,
        quotient: values::over_vanishing(p, c, beta, field::subtract(p, line, parts.whole)),
    }
}
