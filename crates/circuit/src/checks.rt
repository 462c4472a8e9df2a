// The rows 4 to 10 of document 01's table of refusals, a function for each and one for each part of a row that is made by itself. (13 is
// `shared::constant`, since the session's opening has it too.)
ghost use Rattle.std.specs.Prelude.{◌≡◌, true, not, ◌&&◌, [], ◌∷◌, ◌++◌, map, ℕ, ◌*◌, ◌%◌, ◌<◌, ◌≤◌, eqb, ltb, leb, length, get_or};
ghost use Rattle.algebra.specs.Lists.{tabulate};
ghost use Rattle.field.specs.Prime.{Prime};
ghost use Rattle.field.specs.Element.{Elem, of, words, equal, ◌⊗◌};
ghost use Rattle.domain.specs.Size.{is_size, max_size};
ghost use Rattle.domain.specs.Qualifies.{Qualifies};
ghost use Rattle.protocol.specs.Circuit.{Entry, Circuit};
ghost use Rattle.shared.specs.Meanings.{refusal_in};
ghost use Rattle.protocol.specs.Refusals.{refuse, pairs, size_tests, rises, entry_tests};
ghost use Rattle.protocol.specs.Refusals.{size_refusal, list_refusal, word_refusal, entry_refusal, mask_refusal, assignment_refusal, challenge_refusal};
ghost use Rattle.protocol.specs.Calls.{entries_of};
ghost use Rattle.protocol.specs.Admission.{entry_values};
ghost use Rattle.circuit.specs.Given.{entry_lists, lists_in, EachWithin, WholeLists};
ghost use Rattle.circuit.specs.Judgement.{whole_and_few};

use crate::given::{CircuitWords, ProverInput};
use crate::matrices;
use shared::scans::{first_failed, judge_words};
use shared::six_sizes::is_public_size;
use shared::{Refusal, Row, Three};

// The most words of an entry list: three for each of 1,024 entries.
pub const MAX_ENTRY_WORDS: usize = 3072;

// 4: |R|, |C|, |X| are sizes, and |X| is not above |C|.
pub fn check_sizes(r: u32, c: u32, x: u32) -> Result<(), Refusal>
    ensures { refusal_in result ≡ size_refusal (size_tests r c x []) }
{
    let tests = [domain::is_size(r), domain::is_size(c), is_public_size(x, c)];
    first_failed(Row::Size, 0, &tests)
}

// 5, by the counts of entries.
pub fn check_counts(a: u32, b: u32, c: u32) -> Result<(), Refusal>
    ensures { refusal_in result ≡ list_refusal (leb a max_size ∷ leb b max_size ∷ leb c max_size ∷ []) }
{
    let tests = [
        a <= domain::MAX_SIZE,
        b <= domain::MAX_SIZE,
        c <= domain::MAX_SIZE,
    ];
    first_failed(Row::List, 0, &tests)
}

// 5: whole entries, and not over 1,024 of them.
fn entry_list_fits(len: usize) -> bool
    ensures { result ≡ (eqb (len % 3) 0 && leb len (3 * max_size)) }
{
    len % 3 == 0 && len <= MAX_ENTRY_WORDS
}

// 5: the entry lists of A, B, C hold whole entries, and not over 1,024.
pub fn check_entry_lists(ea: usize, eb: usize, ec: usize) -> Result<(), Refusal>
    ensures { refusal_in result ≡ refuse 5 0 (whole_and_few ea ∷ whole_and_few eb ∷ whole_and_few ec ∷ []) }
{
    let tests = [
        entry_list_fits(ea),
        entry_list_fits(eb),
        entry_list_fits(ec),
    ];
    first_failed(Row::List, 0, &tests)
}

// 5: z has |C| words and m 2|C|; they are lists 3 and 4 of a prover call.
pub fn check_assignment_lists(c: u32, z: usize, m: usize) -> Result<(), Refusal>
    ensures { refusal_in result ≡ refuse 5 3 (eqb z c ∷ eqb m (2 * c) ∷ []) }
{
    let n = c as usize;
    if z != n {
        return Err(Refusal(Row::List, 3));
    }
    if m == 2 * n {
        Ok(())
    } else {
        Err(Refusal(Row::List, 4))
    }
}

// 5: each lent slice has its length; the first of them is list `start` of the call.
pub fn check_lent(start: usize, lent: &[usize], due: &[usize]) -> Result<(), Refusal>
    requires start_bound { start < 4294967296 }
    requires due_len { length due.now ≡ length lent.now }
    ensures { refusal_in result ≡ refuse 5 start (pairs eqb lent.now due.now) }
{
    for (i, length) in lent.iter().enumerate() {
        if *length != due[i] {
            return Err(Refusal(Row::List, start + i));
        }
    }
    Ok(())
}

// 6: the entries' values are below p; the first of them is word `start` of the call.
fn check_values(p: u32, start: usize, entries: &[u32]) -> Result<(), Refusal>
    requires { start < 4294967296 }
    ensures { refusal_in result
        ≡ refuse 6 start (map (λ w. ltb w p) (map (λ (e : Entry). e.value) (entries_of entries.now))) }
{
    for i in 0..entries.len() / 3 {
        if entries[3 * i + 2] >= p {
            return Err(Refusal(Row::Word, start + i));
        }
    }
    Ok(())
}

// 6: the values of A, then B, then C.
pub fn check_three_values(p: u32, circuit: &CircuitWords) -> Result<(), Refusal>
    requires { WholeLists circuit.now }
    ensures { (k : Circuit) → k.matrices ≡ lists_in circuit.now
        → refusal_in result ≡ refuse 6 0 (map (λ w. ltb w p) (entry_values k)) }
{
    let Three { a, b, c } = circuit.matrices;
    check_values(p, 0, a)?;
    let second = a.len() / 3;
    check_values(p, second, b)?;
    check_values(p, second + b.len() / 3, c)
}

// 6: z, the mask word, m and the challenges; the first of them is word `start` of the call.
fn check_prover_words(
    p: u32,
    start: usize,
    z: &[u32],
    mask: u32,
    m: &[u32],
    challenges: &[u32],
) -> Result<(), Refusal>
    requires { (start ≤ 4096) × ((length z.now ≤ 4096) × (length m.now ≤ 4096)) }
    ensures { refusal_in result
        ≡ refuse 6 start (map (λ w. ltb w p) (z.now ++ (mask ∷ (m.now ++ challenges.now)))) }
{
    judge_words(p, start, z)?;
    let place = start + z.len();
    if mask >= p {
        return Err(Refusal(Row::Word, place));
    }
    judge_words(p, place + 1, m)?;
    judge_words(p, place + 1 + m.len(), challenges)
}

// 6 of a prover call: the circuit's values, z, the mask word, m and the challenges.
pub fn check_call_words(p: u32, input: &ProverInput, challenges: &[u32]) -> Result<(), Refusal>
    requires three_lists { WholeLists input.now.circuit }
    requires z_len_bound { (length input.now.z.now ≤ 4096) × (length input.now.m.now ≤ 4096) }
    ensures { (q : Prime) → q.p ≡ p → (k : Circuit)
        → k.matrices ≡ lists_in input.now.circuit
        → refusal_in result
        ≡ word_refusal q (entry_values k ++ (input.now.z.now ++ (input.now.mask ∷ (input.now.m.now ++ challenges.now)))) }
{
    check_three_values(p, &input.circuit)?;
    let Three { a, b, c } = input.circuit.matrices;
    let start = a.len() / 3 + (b.len() / 3 + c.len() / 3);
    check_prover_words(p, start, input.z, input.mask, input.m, challenges)
}

// Row and column are within r rows and c columns, and the value is not 0.
pub fn entry_fits(r: u32, c: u32, row: u32, column: u32, value: u32) -> bool
    ensures { result ≡ (ltb row r && ltb column c && not (eqb value 0)) }
{
    row < r && column < c && value != 0
}

// The first place stands before the second: by row, and in one row by column. With `&&` for the `if` a list takes a third longer to judge.
fn stands_before(row: u32, column: u32, row2: u32, column2: u32) -> bool
    ensures { result ≡ rises (record { row = row; column = column; value = 0 }) (record { row = row2; column = column2; value = 0 }) }
{
    row < row2 || if row == row2 { column < column2 } else { false }
}

// Entry i fits, and stands after the one before it.
fn entry_passes(r: u32, c: u32, entries: &[u32], i: usize) -> bool
    requires { i < length (entries_of entries.now) }
    ensures { (k : Circuit) → k.|R| ≡ r → k.|C| ≡ c → result ≡ get_or (entry_tests k (entries_of entries.now)) i true }
{
    let at = 3 * i;
    let row = entries[at];
    let column = entries[at + 1];
    if !entry_fits(r, c, row, column, entries[at + 2]) {
        return false;
    }
    if i == 0 {
        return true;
    }
    stands_before(entries[at - 3], entries[at - 2], row, column)
}

// 7: each entry fits, and they rise by row and then column; the first of them is entry `start` of the call.
fn check_entries(r: u32, c: u32, start: usize, entries: &[u32]) -> Result<(), Refusal>
    requires { start < 4294967296 }
    ensures { (k : Circuit) → k.|R| ≡ r → k.|C| ≡ c
        → refusal_in result ≡ refuse 7 start (entry_tests k (entries_of entries.now)) }
{
    for i in 0..entries.len() / 3 {
        if !entry_passes(r, c, entries, i) {
            return Err(Refusal(Row::Entry, start + i));
        }
    }
    Ok(())
}

// 7: the entries of A, then B, then C.
pub fn check_three_entries(circuit: &CircuitWords) -> Result<(), Refusal>
    requires { WholeLists circuit.now }
    ensures { (k : Circuit) → k.|R| ≡ circuit.now.r → k.|C| ≡ circuit.now.c → k.matrices ≡ lists_in circuit.now
        → refusal_in result ≡ entry_refusal k }
{
    let Three { a, b, c } = circuit.matrices;
    check_entries(circuit.r, circuit.c, 0, a)?;
    let second = a.len() / 3;
    check_entries(circuit.r, circuit.c, second, b)?;
    check_entries(circuit.r, circuit.c, second + b.len() / 3, c)
}

// 8: m, of length 2c, adds to 0 over the domain of size c. Its sum there is c·(m_0 + m_c).
pub fn check_mask(p: u32, c: u32, m: &[u32]) -> Result<(), Refusal>
    requires p_nonzero { 0 < p }
    requires c_value { (is_size c ≡ true) × (length m.now ≡ 2 * c) }
    ensures { (q : Prime) → Qualifies q → q.p ≡ p → (k : Circuit) → k.|C| ≡ c
        → refusal_in result ≡ mask_refusal {q = q} k (map of m.now) }
{
    let half = c as usize;
    if field::add(p, m[0], m[half]) == 0 {
        Ok(())
    } else {
        Err(Refusal(Row::Mask, 0))
    }
}

// left·right = product in each row.
fn check_rows(p: u32, left: &[u32], right: &[u32], product: &[u32]) -> Result<(), Refusal>
    requires p_nonzero { 0 < p }
    requires right_len { (length right.now ≡ length left.now) × (length product.now ≡ length left.now) }
    ensures { (q : Prime) → q.p ≡ p → (n : ℕ) (s t u : ℕ → Elem q)
        → left.now ≡ words (tabulate n s) → right.now ≡ words (tabulate n t)
        → product.now ≡ words (tabulate n u) → refusal_in result ≡ refuse 9 0 (tabulate n (λ i. equal (s i ⊗ t i) (u i))) }
{
    for i in 0..left.len() {
        if field::multiply(p, left[i], right[i]) != product[i] {
            return Err(Refusal(Row::Assignment, i));
        }
    }
    Ok(())
}

// The same for the row sums of three matrices, which are made in the lent slices.
fn check_sums(
    p: u32,
    matrices: Three<&[u32]>,
    z: &[u32],
    left: &mut [u32],
    right: &mut [u32],
    product: &mut [u32],
) -> Result<(), Refusal>
    requires p_nonzero { 0 < p }
    requires right_len { (length right.old ≡ length left.old) × (length product.old ≡ length left.old) }
    requires each_within { EachWithin (length left.old) (length z.now) matrices.a.now matrices.b.now matrices.c.now }
    ensures { (q : Prime) → q.p ≡ p → (k : Circuit) → k.|R| ≡ length left.old
        → k.matrices ≡ entry_lists matrices.entry.a.now matrices.entry.b.now matrices.entry.c.now
        → refusal_in result ≡ assignment_refusal {q = q} k (map of z.now) }
{
    matrices::row_sums(p, matrices.a, z, left);
    matrices::row_sums(p, matrices.b, z, right);
    matrices::row_sums(p, matrices.c, z, product);
    check_rows(p, left, right, product)
}

// 9: z satisfies every row of the matrices.
pub fn check_assignment(p: u32, circuit: &CircuitWords, z: &[u32]) -> Result<(), Refusal>
    requires p_nonzero { 0 < p }
    requires r_le_max_size { circuit.now.r ≤ max_size }
    requires each_within { EachWithin circuit.now.r (length z.now)
        circuit.now.matrices.a.now circuit.now.matrices.b.now circuit.now.matrices.c.now }
    ensures { (q : Prime) → q.p ≡ p → (k : Circuit) → k.|R| ≡ circuit.now.r → k.matrices ≡ lists_in circuit.now
        → refusal_in result ≡ assignment_refusal {q = q} k (map of z.now) }
{
    let n = circuit.r as usize;
    let mut left = [0u32; 1024];
    let mut right = [0u32; 1024];
    let mut product = [0u32; 1024];
    check_sums(
        p,
        circuit.matrices,
        z,
        &mut left[..n],
        &mut right[..n],
        &mut product[..n],
    )
}

// 10: the points given, of α, β, γ in order, are outside R, C, K.
pub fn check_points(p: u32, r: u32, c: u32, k: u32, points: &[u32]) -> Result<(), Refusal>
    requires lt_p { 1 < p }
    requires r_value { (is_size r ≡ true) × ((is_size c ≡ true) × (is_size k ≡ true)) }
    requires points_len_bound { length points.now ≤ 3 }
    ensures { (q : Prime) → Qualifies q → q.p ≡ p
        → refusal_in result ≡ challenge_refusal {q = q} 0 (r ∷ c ∷ k ∷ []) (map of points.now) }
{
    let sizes = [r, c, k];
    for (i, point) in points.iter().enumerate() {
        if domain::is_inside(p, sizes[i], *point) {
            return Err(Refusal(Row::Challenge, i));
        }
    }
    Ok(())
}
