// h0(α) from the rows' sums.
ghost use Rattle.std.specs.Prelude.{◌≡◌, true, map, ◌<◌, length, get_or};
ghost use Rattle.algebra.specs.Counting.{All};
ghost use Rattle.algebra.specs.Lists.{tabulate};
ghost use Rattle.field.specs.Prime.{Prime};
ghost use Rattle.field.specs.Element.{Elem, of, words, ◌⊗◌, ◌⊖◌};
ghost use Rattle.domain.specs.Size.{is_size};
ghost use Rattle.domain.specs.Domain.{vanishing};
ghost use Rattle.domain.specs.Polynomial.{Poly, eval, interpolate, values_on};
ghost use Rattle.domain.specs.Known.{Known, OutsideDomain};
ghost use Rattle.protocol.specs.Circuit.{Circuit};
ghost use Rattle.protocol.specs.Messages.{row_quotient};
ghost use Rattle.protocol.specs.Calls.{entries_of};
ghost use Rattle.protocol.proofs.AdmissionLaws.{WellFormed};
ghost use Rattle.circuit.specs.Given.{Within};
ghost use Rattle.matrix_sumcheck.specs.MatrixGiven.{lagrange_values};

use crate::values;
use circuit::given::ProverInput;
use circuit::matrices;

// (f g - h)/v_D at y, where f and g have the values left and right on D, and h the products of these.
fn product_quotient_at(p: u32, n: u32, y: u32, lagrange: &[u32], left: &[u32], right: &[u32]) -> u32
    requires lt_p { 1 < p }
    requires n_value { (is_size n ≡ true) × OutsideDomain p n y }
    requires lagrange_len { (length lagrange.now ≡ n) × (length left.now ≡ n) × (length right.now ≡ n) }
    ensures { (q : Prime) → Known q p → lagrange.now ≡ words (lagrange_values n (of {q = q} y)) → (h : Elem q)
        → eval (interpolate n (map of left.now)) (of y) ⊗ eval (interpolate n (map of right.now)) (of y)
        ⊖ eval (interpolate n (tabulate n (λ i. of (get_or left.now i 0) ⊗ of (get_or right.now i 0)))) (of y)
        ≡ h ⊗ vanishing n (of y)
        → result ≡ h.word }
{
    let k = n as usize;
    let mut products = [0u32; 1024];
    transform::product::products_into(p, left, right, &mut products[..k]);
    let first = domain::interpolated_at(p, lagrange, left);
    let second = domain::interpolated_at(p, lagrange, right);
    let both = domain::interpolated_at(p, lagrange, &products[..k]);
    values::over_vanishing(
        p,
        n,
        y,
        field::subtract(p, field::multiply(p, first, second), both),
    )
}

// h0(α), for every ẑ whose values on C are z. The rows have their Lagrange values at α.
pub fn row_quotient_at(p: u32, input: &ProverInput, rows: &[u32], alpha: u32) -> u32
    requires lt_p { 1 < p }
    requires r_value { (is_size input.now.circuit.r ≡ true) × OutsideDomain p input.now.circuit.r alpha }
    requires rows_len { length rows.now ≡ input.now.circuit.r }
    requires all { All (Within input.now.circuit.r (length input.now.z.now)) (entries_of input.now.circuit.matrices.a.now)
        × All (Within input.now.circuit.r (length input.now.z.now)) (entries_of input.now.circuit.matrices.b.now) }
    ensures { (q : Prime) → Known q p → rows.now ≡ words (lagrange_values input.now.circuit.r (of {q = q} alpha))
        → (k : Circuit) → WellFormed p k → k.|R| ≡ input.now.circuit.r
        → k.matrices.a ≡ entries_of input.now.circuit.matrices.a.now → k.matrices.b ≡ entries_of input.now.circuit.matrices.b.now
        → (ẑ : Poly q) → values_on k.|C| ẑ ≡ map of input.now.z.now → result ≡ (eval (row_quotient k ẑ) (of alpha)).word }
{
    let r = input.circuit.r;
    let n = r as usize;
    let mut left = [0u32; 1024];
    matrices::row_sums(p, input.circuit.matrices.a, input.z, &mut left[..n]);
    let mut right = [0u32; 1024];
    matrices::row_sums(p, input.circuit.matrices.b, input.z, &mut right[..n]);
    product_quotient_at(p, r, alpha, rows, &left[..n], &right[..n])
}
