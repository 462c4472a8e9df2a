// Where things stand in a circuit's words: the parts of a matrix, the entries of a row, and the place of a column in a row. No entry
// of another row is looked at.
ghost use Rattle.std.specs.Prelude.{◌≡◌, ◌&&◌, suc, ◌+◌, ◌-◌, ◌<◌, ◌≤◌, min, eqb, ltb, length};
ghost use Rattle.domain.specs.Size.{max_size};
ghost use Rattle.protocol.specs.Grown.{grown_words, total_place, entries_place, total, row_start, column_at, first_not_below};

// The words of a circuit, and of a matrix in it.
pub const CIRCUIT_WORDS: usize = 12294;

const MATRIX_WORDS: usize = 4097;

// The matrices, and the rows that a matrix may have.
pub const MATRICES: u32 = 3;

pub const MAX_ROWS: u32 = 1024;

// The entries of a row: from the first up to the end.
#[derive(Clone, Copy)]
pub struct Span {
    pub start: usize,
    pub end: usize,
}

// The word of a matrix's total; its counts follow.
pub fn total_place(matrix: u32) -> usize
    requires { matrix < 3 }
    ensures { result ≡ total_place matrix }
{
    3 + MATRIX_WORDS * (matrix as usize)
}

// The word of a matrix's first entry.
pub fn entries_place(matrix: u32) -> usize
    requires { matrix < 3 }
    ensures { result ≡ entries_place matrix }
{
    total_place(matrix) + 1 + domain::MAX_SIZE as usize
}

// How many entries a matrix has, over 1,024 in no case.
pub fn total_of(circuit: &[u32], matrix: u32) -> usize
    requires circuit_len { length circuit.now ≡ grown_words }
    requires matrix_bound { matrix < 3 }
    ensures { result ≡ total circuit.now matrix }
{
    circuit[total_place(matrix)].min(domain::MAX_SIZE) as usize
}

// Where a row ends that begins at `start` and has so many entries; the matrix has `total`. With `min`
// finding a row takes a quarter longer and more.
fn row_end(start: usize, count: u32, total: usize) -> usize
    requires { start ≤ max_size }
    ensures { result ≡ min (start + count) total }
{
    let end = start + count as usize;
    if end < total { end } else { total }
}

// The entries of a row: one pass over the counts of the rows up to it.
pub fn find_row(circuit: &[u32], matrix: u32, row: u32) -> Span
    requires circuit_len { length circuit.now ≡ grown_words }
    requires matrix_bound { (matrix < 3) × (row < max_size) }
    ensures { (result.start ≡ row_start circuit.now matrix row) × (result.end ≡ row_start circuit.now matrix (suc row)) }
{
    let total = total_of(circuit, matrix);
    let counts = total_place(matrix) + 1;
    let rows = row as usize;
    let mut start = 0;
    for count in &circuit[counts..counts + rows] {
        start = row_end(start, *count, total);
    }
    Span {
        start,
        end: row_end(start, circuit[counts + rows], total),
    }
}

// The place of a column in the row from `start` up to `end`: each turn halves the entries that are left.
pub fn find_place(circuit: &[u32], matrix: u32, column: u32, start: usize, end: usize) -> usize
    requires circuit_len { length circuit.now ≡ grown_words }
    requires matrix_bound { (matrix < 3) × ((start ≤ end) × (end ≤ max_size)) }
    ensures { result ≡ first_not_below (column_at circuit.now matrix) column (end - start) start (end - start) }
{
    let entries = entries_place(matrix);
    let mut from = start;
    let mut count = end - start;
    while 0 < count {
        let half = count / 2;
        let middle = from + half;
        if circuit[entries + 3 * middle + 1] < column {
            from = middle + 1;
            count = count - half - 1;
        } else {
            count = half;
        }
    }
    from
}

// The entry at a place, in a row that goes up to `end`, has this column.
pub fn is_taken(circuit: &[u32], matrix: u32, column: u32, end: usize, place: usize) -> bool
    requires circuit_len { length circuit.now ≡ grown_words }
    requires matrix_bound { (matrix < 3) × (end ≤ max_size) }
    ensures { result ≡ (ltb place end && eqb (column_at circuit.now matrix place) column) }
{
    place < end && circuit[entries_place(matrix) + 3 * place + 1] == column
}
