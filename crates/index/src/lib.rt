// The indexer: the four index polynomials of a matrix. Working memory is arrays of the largest size, of which a part is used: there is no
// heap.
#![tactic(auto)]

ghost use Rattle.std.specs.Prelude.{◌≡◌, true, map, ◌≤◌, ◌<◌, length};
ghost use Rattle.field.specs.Prime.{Prime};
ghost use Rattle.field.specs.Element.{of, words};
ghost use Rattle.domain.specs.Size.{is_size, size_for};
ghost use Rattle.domain.specs.Polynomial.{interpolate};
ghost use Rattle.domain.specs.Qualifies.{Qualifies};
ghost use Rattle.domain.specs.Known.{Known};
ghost use Rattle.transform.specs.Reading.{CoefficientTables};
ghost use Rattle.protocol.specs.Three.{MatrixName, at};
ghost use Rattle.protocol.specs.Circuit.{Circuit};
ghost use Rattle.protocol.specs.Index.{map_index, index};
ghost use Rattle.protocol.specs.Calls.{entries_of};
ghost use Rattle.circuit.specs.Given.{EntryWords, ShapedCircuit, lists_in};
ghost use Rattle.circuit.specs.IndexLists.{index_lists, IndexLengths};
ghost use Rattle.index.specs.IndexValues.{index_values, Listed, ThreeIndexed};

use circuit::given::CircuitWords;
use shared::Three;

// The values of the four index polynomials on K_M into the slices, from lists of the elements of R and C. Past the last entry row,
// column and value are taken as 0: g^0 is 1 and the weighted value 0, as document 01 has it.
fn fill_index_values(
    p: u32,
    rows: &[u32],
    columns: &[u32],
    entries: &[u32],
    row: &mut [u32],
    col: &mut [u32],
    rowcol: &mut [u32],
    rowcolval: &mut [u32],
)
    requires p_nonzero { 0 < p }
    requires rows_nonzero { (0 < length rows.now) × (0 < length columns.now) }
    requires index_lengths { IndexLengths (length row.old) row.old col.old rowcol.old rowcolval.old }
    ensures { (q : Prime) → Qualifies q → q.p ≡ p → (k : Circuit) → Listed q k rows.now columns.now
        → index_lists row.new col.new rowcol.new rowcolval.new
        ≡ map_index words (index_values {q = q} k entries.now (length row.old)) }
{
    for i in 0..row.len() {
        let place = 3 * i;
        let by_row = domain::listed_element(rows, poly::word_or_zero(entries, place));
        let by_column = domain::listed_element(columns, poly::word_or_zero(entries, place + 1));
        let product = field::multiply(p, by_row, by_column);
        row[i] = by_row;
        col[i] = by_column;
        rowcol[i] = product;
        rowcolval[i] = field::multiply(p, product, poly::word_or_zero(entries, place + 2));
    }
}

// The same from |R| and |C|: the list of the elements of each is made once.
pub fn index_values_into(
    p: u32,
    r: u32,
    c: u32,
    entries: &[u32],
    row: &mut [u32],
    col: &mut [u32],
    rowcol: &mut [u32],
    rowcolval: &mut [u32],
)
    requires lt_p { 1 < p }
    requires r_value { (is_size r ≡ true) × (is_size c ≡ true) }
    requires index_lengths { IndexLengths (length row.old) row.old col.old rowcol.old rowcolval.old }
    ensures { (q : Prime) → Known q p → (k : Circuit) → k.|R| ≡ r → k.|C| ≡ c
        → index_lists row.new col.new rowcol.new rowcolval.new
        ≡ map_index words (index_values {q = q} k entries.now (length row.old)) }
{
    let row_count = r as usize;
    let column_count = c as usize;
    let mut rows = [0u32; 1024];
    let mut columns = [0u32; 1024];
    domain::fill_powers(p, domain::root_of(p, r), &mut rows[..row_count]);
    domain::fill_powers(p, domain::root_of(p, c), &mut columns[..column_count]);
    fill_index_values(
        p,
        &rows[..row_count],
        &columns[..column_count],
        entries,
        row,
        col,
        rowcol,
        rowcolval,
    );
}

// Values on the domain of size n, in a slice of n words, replaced by the coefficients of their polynomial, with the tables of 1/g_n.
fn interpolate_in_place(p: u32, powers: &[u32], quotients: &[u32], out: &mut [u32])
    requires lt_p { 1 < p }
    requires out_value { is_size (length out.old) ≡ true }
    requires out_in_bounds { (length out.old ≤ length powers.now) × (length out.old ≤ length quotients.now) }
    ensures { (q : Prime) → Known q p
        → CoefficientTables q (length out.old) powers.now quotients.now
        → out.new ≡ words (interpolate (length out.old) (map (of {q = q}) out.old)) }
{
    let n = out.len();
    let mut values = [0u32; 1024];
    poly::copy_front(out, &mut values);
    transform::interpolate_with(p, powers, quotients, &values[..n], out);
}

// The same for the four lists of values, all with these tables.
fn interpolate_four(
    p: u32,
    powers: &[u32],
    quotients: &[u32],
    row: &mut [u32],
    col: &mut [u32],
    rowcol: &mut [u32],
    rowcolval: &mut [u32],
)
    requires lt_p { 1 < p }
    requires row_value { is_size (length row.old) ≡ true }
    requires row_in_bounds { (length row.old ≤ length powers.now) × (length row.old ≤ length quotients.now) }
    requires index_lengths { IndexLengths (length row.old) row.old col.old rowcol.old rowcolval.old }
    ensures { (q : Prime) → Known q p
        → CoefficientTables q (length row.old) powers.now quotients.now
        → (row.new ≡ words (interpolate (length row.old) (map (of {q = q}) row.old)))
        × (col.new ≡ words (interpolate (length col.old) (map (of {q = q}) col.old)))
        × (rowcol.new ≡ words (interpolate (length rowcol.old) (map (of {q = q}) rowcol.old)))
        × (rowcolval.new ≡ words (interpolate (length rowcolval.old) (map (of {q = q}) rowcolval.old))) }
{
    interpolate_in_place(p, powers, quotients, row);
    interpolate_in_place(p, powers, quotients, col);
    interpolate_in_place(p, powers, quotients, rowcol);
    interpolate_in_place(p, powers, quotients, rowcolval);
}

// The four index polynomials of a matrix into slices of length |K_M|, from lists of the elements of R and C.
fn index_matrix_into(
    p: u32,
    rows: &[u32],
    columns: &[u32],
    entries: &[u32],
    row: &mut [u32],
    col: &mut [u32],
    rowcol: &mut [u32],
    rowcolval: &mut [u32],
)
    requires lt_p { 1 < p }
    requires rows_nonzero { (0 < length rows.now) × ((0 < length columns.now) × EntryWords entries.now) }
    requires index_lengths { IndexLengths (size_for (length (entries_of entries.now))) row.old col.old rowcol.old rowcolval.old }
    ensures { (q : Prime) → Known q p → (k : Circuit) (M : MatrixName) → Listed q k rows.now columns.now
        → at k.matrices M ≡ entries_of entries.now
        → index_lists row.new col.new rowcol.new rowcolval.new
        ≡ map_index words (index {q = q} k M) }
{
    fill_index_values(p, rows, columns, entries, row, col, rowcol, rowcolval);
    let n = row.len();
    let root = domain::root_of(p, n as u32);
    let mut powers = [0u32; 1024];
    let mut quotients = [0u32; 1024];
    transform::fill_inverse_tables(p, root, &mut powers[..n], &mut quotients[..n]);
    interpolate_four(
        p,
        &powers[..n],
        &quotients[..n],
        row,
        col,
        rowcol,
        rowcolval,
    );
}

// The indexer: the four index polynomials of A, B and C into slices of length |K_M|. The elements of R and C are listed once. The slices
// come one by one and not in a struct: of slices that a struct lends, a caller's proof does not know what they hold in the end, so that its
// goal `returns` does not close.
pub fn index_into(
    p: u32,
    circuit: &CircuitWords,
    row_a: &mut [u32],
    col_a: &mut [u32],
    rowcol_a: &mut [u32],
    rowcolval_a: &mut [u32],
    row_b: &mut [u32],
    col_b: &mut [u32],
    rowcol_b: &mut [u32],
    rowcolval_b: &mut [u32],
    row_c: &mut [u32],
    col_c: &mut [u32],
    rowcol_c: &mut [u32],
    rowcolval_c: &mut [u32],
)
    requires lt_p { 1 < p }
    requires circuit_shaped { ShapedCircuit circuit.now }
    requires index_lengths { IndexLengths (size_for (length (entries_of circuit.now.matrices.a.now))) row_a.old col_a.old rowcol_a.old rowcolval_a.old }
    requires index_lengths_2 { IndexLengths (size_for (length (entries_of circuit.now.matrices.b.now))) row_b.old col_b.old rowcol_b.old rowcolval_b.old }
    requires index_lengths_3 { IndexLengths (size_for (length (entries_of circuit.now.matrices.c.now))) row_c.old col_c.old rowcol_c.old rowcolval_c.old }
    ensures { (q : Prime) → Known q p → (k : Circuit) → k.|R| ≡ circuit.now.r → k.|C| ≡ circuit.now.c
        → k.matrices ≡ lists_in circuit.now
        → ThreeIndexed q k
        (index_lists row_a.new col_a.new rowcol_a.new rowcolval_a.new)
        (index_lists row_b.new col_b.new rowcol_b.new rowcolval_b.new)
        (index_lists row_c.new col_c.new rowcol_c.new rowcolval_c.new) }
{
    let n = circuit.r as usize;
    let l = circuit.c as usize;
    let mut rows = [0u32; 1024];
    let mut columns = [0u32; 1024];
    domain::fill_powers(p, domain::root_of(p, circuit.r), &mut rows[..n]);
    domain::fill_powers(p, domain::root_of(p, circuit.c), &mut columns[..l]);
    let u = &rows[..n];
    let v = &columns[..l];
    let Three { a, b, c } = circuit.matrices;
    index_matrix_into(p, u, v, a, row_a, col_a, rowcol_a, rowcolval_a);
    index_matrix_into(p, u, v, b, row_b, col_b, rowcol_b, rowcolval_b);
    index_matrix_into(p, u, v, c, row_c, col_c, rowcol_c, rowcolval_c);
}
