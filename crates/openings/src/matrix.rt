// One matrix at γ: its index polynomials, g_M and h_M, from the Lagrange values of K_M there; and h2, which joins the three h_M.
ghost use Rattle.std.specs.Prelude.{◌≡◌, true, ◌<◌, length};
ghost use Rattle.field.specs.Prime.{Prime};
ghost use Rattle.field.specs.Element.{Elem, of, words, ◌⊗◌, ◌⊖◌};
ghost use Rattle.domain.specs.Size.{is_size, size_for};
ghost use Rattle.domain.specs.Domain.{vanishing};
ghost use Rattle.domain.specs.Polynomial.{eval};
ghost use Rattle.domain.specs.Known.{Known, OutsideDomain};
ghost use Rattle.protocol.specs.Three.{MatrixName, C, at, map_three};
ghost use Rattle.protocol.specs.Circuit.{Circuit, Sizes};
ghost use Rattle.protocol.specs.Checks.{denominator_value, numerator_value};
ghost use Rattle.protocol.specs.Index.{index as index_of, index_at, list_index, map_index};
ghost use Rattle.protocol.specs.Messages.{matrix_quotient, joined_quotient};
ghost use Rattle.shared.specs.Meanings.{three};
ghost use Rattle.protocol.specs.Calls.{entries_of};
ghost use Rattle.circuit.specs.Given.{EntryWords, lists_in};
ghost use Rattle.matrix_sumcheck.specs.MatrixGiven.{Given, Challenged, EntriesWithin, lagrange_values, LagrangeLists};
ghost use Rattle.openings.specs.OpeningsGiven.{index_list, index_meaning};
ghost use Rattle.openings.specs.MatrixValues.{MatrixIs};

use crate::{IndexOpened, values};
use circuit::given::{Challenges, CircuitWords};
use circuit::matrices;
use matrix_sumcheck::matrix::{Factors, ratio_into};
use shared::{Three, Triple};

// The index polynomials of one matrix, g_M and h_M at one point.
#[derive(Clone, Copy)]
pub struct MatrixOpened {
    pub index: IndexOpened,
    pub remainder: u32,
    pub quotient: u32,
}

// The four index polynomials of a matrix, where the places of K_M have their Lagrange values at a point.
fn index_at(p: u32, r: u32, c: u32, entries: &[u32], places: &[u32]) -> IndexOpened
    requires lt_p { 1 < p }
    requires r_value { (is_size r ≡ true) × (is_size c ≡ true) }
    requires entry_words { EntryWords entries.now }
    requires places_len { length places.now ≡ size_for (length (entries_of entries.now)) }
    ensures { (q : Prime) → Known q p → (k : Circuit) (M : MatrixName) → k.|R| ≡ r → k.|C| ≡ c
        → at k.matrices M ≡ entries_of entries.now → (y : Elem q)
        → places.now ≡ words (lagrange_values (length places.now) y)
        → index_list result ≡ words (list_index (index_at (index_of {q = q} k M) y)) }
{
    let n = places.len();
    let mut row = [0u32; 1024];
    let mut col = [0u32; 1024];
    let mut rowcol = [0u32; 1024];
    let mut rowcolval = [0u32; 1024];
    index::index_values_into(
        p,
        r,
        c,
        entries,
        &mut row[..n],
        &mut col[..n],
        &mut rowcol[..n],
        &mut rowcolval[..n],
    );
    IndexOpened {
        row: domain::interpolated_at(p, places, &row[..n]),
        col: domain::interpolated_at(p, places, &col[..n]),
        rowcol: domain::interpolated_at(p, places, &rowcol[..n]),
        rowcolval: domain::interpolated_at(p, places, &rowcolval[..n]),
    }
}

// b_M = |R||C|(αβ - α col_M - β row_M + rowcol_M), from the index polynomials' values.
fn denominator_at(p: u32, circuit: &CircuitWords, challenges: &Challenges, i: IndexOpened) -> u32
    requires { 1 < p }
    ensures { (q : Prime) → q.p ≡ p → (s : Sizes) → s.|R| ≡ circuit.now.r → s.|C| ≡ circuit.now.c
        → result
        ≡ (denominator_value s (of {q = q} challenges.now.alpha) (of challenges.now.beta) (map_index of (index_meaning i))).word }
{
    let corner = field::multiply(p, challenges.alpha, challenges.beta);
    let first = field::subtract(p, corner, field::multiply(p, challenges.alpha, i.col));
    let second = field::subtract(p, first, field::multiply(p, challenges.beta, i.row));
    let both = field::add(p, second, i.rowcol);
    field::multiply(p, field::multiply(p, circuit.r, circuit.c), both)
}

// a_M - b_M·ratio, where a_M = scale·rowcolval_M and the scale is v_R(α) v_C(β).
fn difference_at(
    p: u32,
    circuit: &CircuitWords,
    challenges: &Challenges,
    scale: u32,
    i: IndexOpened,
    ratio: u32,
) -> u32
    requires { 1 < p }
    ensures { (q : Prime) → q.p ≡ p → (s : Sizes) → s.|R| ≡ circuit.now.r → s.|C| ≡ circuit.now.c
        → scale ≡ (vanishing circuit.now.r (of {q = q} challenges.now.alpha) ⊗ vanishing circuit.now.c (of challenges.now.beta)).word
        → of {q = q} result
        ≡ numerator_value s (of challenges.now.alpha) (of challenges.now.beta) (map_index of (index_meaning i))
        ⊖ denominator_value s (of challenges.now.alpha) (of challenges.now.beta) (map_index of (index_meaning i)) ⊗ of ratio }
{
    let numerator = field::multiply(p, scale, i.rowcolval);
    let denominator = denominator_at(p, circuit, challenges, i);
    field::subtract(p, numerator, field::multiply(p, denominator, ratio))
}

// The index polynomials, g_M and h_M at γ. Rows and columns have their Lagrange values at α and β, and the scale is v_R(α) v_C(β).
pub fn matrix_at(
    p: u32,
    circuit: &CircuitWords,
    challenges: &Challenges,
    lagrange: &Factors,
    scale: u32,
    entries: &[u32],
) -> MatrixOpened
    requires lt_p { 1 < p }
    requires r_value { (is_size circuit.now.r ≡ true) × (is_size circuit.now.c ≡ true) }
    requires entries_within { EntriesWithin (length lagrange.now.rows.now) (length lagrange.now.columns.now) entries.now }
    requires outside_domain { OutsideDomain p (size_for (length (entries_of entries.now))) challenges.now.gamma }
    ensures { (q : Prime) (k : Circuit) (M : MatrixName) → Given q p circuit.now.r circuit.now.c entries.now k M
        → Challenged q p k challenges.now.alpha challenges.now.beta
        → LagrangeLists q circuit.now.r circuit.now.c challenges.now.alpha challenges.now.beta
        lagrange.now.rows.now lagrange.now.columns.now
        → scale ≡ (vanishing circuit.now.r (of {q = q} challenges.now.alpha) ⊗ vanishing circuit.now.c (of challenges.now.beta)).word
        → MatrixIs {q = q} k (of challenges.now.alpha) (of challenges.now.beta) M (of challenges.now.gamma) result }
{
    let size = matrices::size_of(entries);
    let n = size as usize;
    let mut places = [0u32; 1024];
    domain::lagrange_values_into(p, challenges.gamma, &mut places[..n]);
    let opened = index_at(p, circuit.r, circuit.c, entries, &places[..n]);
    let mut ratio = [0u32; 1024];
    ratio_into(p, lagrange, entries, &mut ratio[..n]);
    let parts = values::parted_at(p, &ratio[..n], challenges.gamma);
    let difference = difference_at(p, circuit, challenges, scale, opened, parts.whole);
    MatrixOpened {
        index: opened,
        remainder: parts.rest,
        quotient: values::over_vanishing(p, size, challenges.gamma, difference),
    }
}

// δ_M |K_M| h_M(γ)
fn share_of(p: u32, delta: u32, entries: &[u32], quotient: u32) -> u32
    requires { 0 < p }
    ensures { (q : Prime) → q.p ≡ p
        → result ≡ (of {q = q} delta ⊗ of (size_for (length (entries_of entries.now))) ⊗ of quotient).word }
{
    field::multiply(
        p,
        field::multiply(p, delta, matrices::size_of(entries)),
        quotient,
    )
}

// h2(γ) = Σ δ_M (|K_M|/|K|) h_M(γ)
pub fn joined_at(p: u32, circuit: &CircuitWords, delta: Triple, quotients: Triple) -> u32
    requires { 1 < p }
    ensures { (q : Prime) → Known q p → (k : Circuit)
        → k.matrices ≡ lists_in circuit.now → (α β γ : Elem q)
        → ((M : MatrixName) → at (three quotients) M ≡ (eval (matrix_quotient k α β M) γ).word)
        → result ≡ (eval (joined_quotient k α β (map_three of (three delta))) γ).word }
{
    let Three { a, b, c } = circuit.matrices;
    let of_a = share_of(p, delta.a, a, quotients.a);
    let of_b = share_of(p, delta.b, b, quotients.b);
    let of_c = share_of(p, delta.c, c, quotients.c);
    let all = field::add(p, field::add(p, of_a, of_b), of_c);
    let inverse = domain::size_inverse(p, matrices::largest_size(circuit));
    field::multiply(p, all, inverse)
}
