// One matrix in rounds 4 and 5: a_M/b_M on K_M, with ω_M and g_M from it, and the values of b_M. Entries are slices with three words to
// an entry: row, column, value. The words of the rows and of the columns are made once for the three matrices. The slices for
// results have the lengths of document 01's table, which give |K_M|.
ghost use Rattle.std.specs.Prelude.{◌≡◌, ℕ, ◌+◌, ◌<◌, length};
ghost use Rattle.algebra.specs.Lists.{tabulate};
ghost use Rattle.field.specs.Prime.{Prime};
ghost use Rattle.field.specs.Element.{of, words};
ghost use Rattle.domain.specs.Size.{max_size, size_for};
ghost use Rattle.protocol.specs.Three.{MatrixName};
ghost use Rattle.protocol.specs.Circuit.{Circuit};
ghost use Rattle.protocol.specs.Messages.{ratio};
ghost use Rattle.protocol.specs.Calls.{entries_of};
ghost use Rattle.circuit.specs.Given.{entry_words};
ghost use Rattle.matrix_sumcheck.specs.MatrixGiven.{Given, Challenged, EntriesWithin, LagrangeLists, ValueMade};
ghost use Rattle.matrix_sumcheck.specs.MatrixGiven.{product_of, terms, padded};

// A word for each row and one for each column: the factors of an entry's product.
#[derive(Clone, Copy)]
pub struct Factors<'a> {
    pub rows: &'a [u32],
    pub columns: &'a [u32],
}

// The word of entry i's row times that of its column; past the last entry those of row 0 and column 0.
fn product_at(p: u32, factors: &Factors, entries: &[u32], i: usize) -> u32
    requires p_nonzero { 0 < p }
    requires entries_within { EntriesWithin (length factors.now.rows.now) (length factors.now.columns.now) entries.now }
    requires i_lt_max_size { i < max_size }
    ensures { (q : Prime) → q.p ≡ p
        → result ≡ (product_of {q = q} factors.now.rows.now factors.now.columns.now (entry_words entries.now i)).word }
{
    let row = poly::word_or_zero(entries, 3 * i) as usize;
    let column = poly::word_or_zero(entries, 3 * i + 1) as usize;
    field::multiply(p, factors.rows[row], factors.columns[column])
}

// The entries' products in order, then those of row 0 and column 0.
pub fn products_into(p: u32, factors: &Factors, entries: &[u32], out: &mut [u32])
    requires p_nonzero { 0 < p }
    requires entries_within { EntriesWithin (length factors.now.rows.now) (length factors.now.columns.now) entries.now }
    requires out_len { length out.old ≡ size_for (length (entries_of entries.now)) }
    ensures { (q : Prime) → q.p ≡ p
        → out.new
        ≡ words (tabulate (length out.old)
        (λ i. product_of {q = q} factors.now.rows.now factors.now.columns.now (entry_words entries.now i))) }
{
    for (i, word) in out.iter_mut().enumerate() {
        *word = product_at(p, factors, entries, i);
    }
}

// The terms of the entries in order, each value × L_row(α) × L_col(β), then zeros: the values of a_M/b_M on K_M.
pub fn terms_into(p: u32, factors: &Factors, entries: &[u32], out: &mut [u32])
    requires p_nonzero { 0 < p }
    requires entries_within { EntriesWithin (length factors.now.rows.now) (length factors.now.columns.now) entries.now }
    requires out_len { length out.old ≡ size_for (length (entries_of entries.now)) }
    ensures { (q : Prime) → q.p ≡ p → (r c alpha beta : ℕ)
        → LagrangeLists q r c alpha beta factors.now.rows.now factors.now.columns.now
        → out.new
        ≡ words (padded {q = q} (length out.old) (terms r c (of alpha) (of beta) entries.now)) }
{
    for (i, word) in out.iter_mut().enumerate() {
        let value = poly::word_or_zero(entries, 3 * i + 2);
        *word = field::multiply(p, value, product_at(p, factors, entries, i));
    }
}

// a_M/b_M on K_M, as a polynomial: the terms interpolated.
pub fn ratio_into(p: u32, factors: &Factors, entries: &[u32], out: &mut [u32])
    requires lt_p { 1 < p }
    requires entries_within { EntriesWithin (length factors.now.rows.now) (length factors.now.columns.now) entries.now }
    requires out_len { length out.old ≡ size_for (length (entries_of entries.now)) }
    ensures { (q : Prime) (k : Circuit) (M : MatrixName) (r c alpha beta : ℕ)
        → Given q p r c entries.now k M → Challenged q p k alpha beta
        → LagrangeLists q r c alpha beta factors.now.rows.now factors.now.columns.now
        → out.new ≡ words (ratio {q = q} k (of alpha) (of beta) M) }
{
    let n = out.len();
    let mut values = [0u32; 1024];
    terms_into(p, factors, entries, &mut values[..n]);
    let root = domain::root_of(p, n as u32);
    transform::interpolate_into(p, root, &values[..n], out);
}

// ω_M, and g_M into the slice: the ratio is ω_M/|K_M| + Y·g_M.
pub fn value_into(p: u32, factors: &Factors, entries: &[u32], out: &mut [u32]) -> u32
    requires lt_p { 1 < p }
    requires entries_within { EntriesWithin (length factors.now.rows.now) (length factors.now.columns.now) entries.now }
    requires out_len { length out.old + 1 ≡ size_for (length (entries_of entries.now)) }
    ensures { (q : Prime) (k : Circuit) (M : MatrixName) (r c alpha beta : ℕ)
        → Given q p r c entries.now k M → Challenged q p k alpha beta
        → LagrangeLists q r c alpha beta factors.now.rows.now factors.now.columns.now
        → ValueMade q k M alpha beta out.new result }
{
    let n = out.len() + 1;
    let mut ratio = [0u32; 1024];
    ratio_into(p, factors, entries, &mut ratio[..n]);
    poly::copy_tail(&ratio[..n], out);
    let size = n as u32;
    field::multiply(p, size, ratio[0])
}
