// h0 and the σ from the entries and z. A matrix comes as its list of entries, three words to an entry.
ghost use Rattle.std.specs.Prelude.{◌≡◌, true, map, ◌-◌, ◌<◌, length};
ghost use Rattle.algebra.specs.Counting.{All};
ghost use Rattle.field.specs.Prime.{Prime};
ghost use Rattle.field.specs.Element.{of, word_of, words};
ghost use Rattle.domain.specs.Size.{is_size};
ghost use Rattle.domain.specs.Polynomial.{Poly, values_on};
ghost use Rattle.domain.specs.Qualifies.{Qualifies};
ghost use Rattle.domain.specs.Known.{Known, Modulus};
ghost use Rattle.protocol.specs.Three.{map_three};
ghost use Rattle.protocol.specs.Circuit.{Circuit};
ghost use Rattle.protocol.specs.Calls.{entries_of};
ghost use Rattle.protocol.specs.Messages.{row_quotient, sums};
ghost use Rattle.protocol.proofs.AdmissionLaws.{WellFormed};
ghost use Rattle.shared.specs.Meanings.{three};
ghost use Rattle.circuit.specs.Given.{Within, ListsWithin, lists_in};
ghost use Rattle.prover.specs.EntrySums.{entry_total};

use circuit::given::ProverInput;
use circuit::matrices;
use shared::{Three, Triple};
use transform::product;

// h0, of length |R| - 1, for every ẑ whose values on C are z: the quotient of ẑ_A·ẑ_B by v_R, which ẑ_C, of length |R|, does not change.
pub fn row_quotient_into(p: u32, input: &ProverInput, out: &mut [u32])
    requires modulus { Modulus p }
    requires r_value { is_size input.now.circuit.r ≡ true }
    requires out_len { length out.old ≡ input.now.circuit.r - 1 }
    requires all { All (Within input.now.circuit.r (length input.now.z.now)) (entries_of input.now.circuit.matrices.a.now)
        × All (Within input.now.circuit.r (length input.now.z.now)) (entries_of input.now.circuit.matrices.b.now) }
    ensures { (q : Prime) → Known q p → Qualifies q → (k : Circuit) → WellFormed p k → k.|R| ≡ input.now.circuit.r
        → k.matrices.a ≡ entries_of input.now.circuit.matrices.a.now → k.matrices.b ≡ entries_of input.now.circuit.matrices.b.now
        → (ẑ : Poly q) → values_on k.|C| ẑ ≡ map of input.now.z.now → out.new ≡ words (row_quotient k ẑ) }
{
    let n = input.circuit.r as usize;
    let mut left = [0u32; 1024];
    matrices::row_sums(p, input.circuit.matrices.a, input.z, &mut left[..n]);
    let mut right = [0u32; 1024];
    matrices::row_sums(p, input.circuit.matrices.b, input.z, &mut right[..n]);
    let mut factor = [0u32; 1024];
    let mut rest = [0u32; 1024];
    product::divide_product_into(
        p,
        &left[..n],
        &right[..n],
        &mut factor[..n],
        &mut rest[..n],
        out,
    );
}

// The sum over the entries of value × the row's value × z at the column.
fn entries_sum(p: u32, entries: &[u32], rows: &[u32], z: &[u32]) -> u32
    requires p_nonzero { 0 < p }
    requires all { All (Within (length rows.now) (length z.now)) (entries_of entries.now) }
    ensures { (q : Prime) → q.p ≡ p
        → result ≡ (entry_total (map (of {q = q}) rows.now) (map of z.now) (entries_of entries.now)).word }
{
    let mut sum: u32 = 0;
    for i in 0..entries.len() / 3 {
        let row = entries[3 * i] as usize;
        let column = entries[3 * i + 1] as usize;
        let product = field::multiply(p, entries[3 * i + 2], rows[row]);
        sum = field::multiply_add(p, product, z[column], sum);
    }
    sum
}

// The three σ_M = ẑ_M(α), for every ẑ whose values on C are z: L of each row at α is computed once.
pub fn sums_at(p: u32, input: &ProverInput, alpha: u32) -> Triple
    requires lt_p { 1 < p }
    requires r_value { is_size input.now.circuit.r ≡ true }
    requires each_within { ListsWithin input.now.circuit.r (length input.now.z.now) input.now.circuit }
    ensures { (q : Prime) → Known q p → Qualifies q → (k : Circuit) → WellFormed p k → k.|R| ≡ input.now.circuit.r
        → k.matrices ≡ lists_in input.now.circuit
        → (ẑ : Poly q) → values_on k.|C| ẑ ≡ map of input.now.z.now
        → three result ≡ map_three word_of (sums k ẑ (of alpha)) }
{
    let n = input.circuit.r as usize;
    let mut rows = [0u32; 1024];
    domain::lagrange_values_into(p, alpha, &mut rows[..n]);
    let Three { a, b, c } = input.circuit.matrices;
    Triple {
        a: entries_sum(p, a, &rows[..n], input.z),
        b: entries_sum(p, b, &rows[..n], input.z),
        c: entries_sum(p, c, &rows[..n], input.z),
    }
}
