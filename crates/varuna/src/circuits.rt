// Circuits that grow by the entry. A circuit is CIRCUIT_WORDS words that the caller lends; docs/CALLS.md says what they mean. A matrix is
// named by its number: 0 for A, 1 for B, 2 for C; a higher number names a matrix without room, rows or entries.
ghost use Rattle.std.specs.Prelude.{◌≡◌, List, ℕ, length};
ghost use Rattle.domain.specs.BabyBear.{baby_bear};
ghost use Rattle.protocol.specs.Three.{Three as PerMatrix, map_three};
ghost use Rattle.protocol.specs.Index.{Index, map_index};
ghost use Rattle.protocol.specs.Grown.{begin_call, begin_from_call, add_entry_call, remove_entry_call, find_row_call, row_call, grown_index_call};
ghost use Rattle.shared.specs.Meanings.{outcome};
ghost use Rattle.shared.specs.Answers.{place};
ghost use Rattle.circuit.specs.Given.{circuit_words};
ghost use Rattle.varuna.specs.Answers.{filled_meaning, filling, fills};
ghost use Rattle.varuna.specs.Inputs.{twelve};

use crate::indexer;
use circuit::given::CircuitWords;
use field::MODULE_PRIME;
use grown::{beginnings, changes};
pub use grown_words::places::CIRCUIT_WORDS;
use grown_words::rows;
use shared::{Place, Refusal, Three};

// A circuit without entries. Refusal: 4 for a size.
pub fn begin(circuit: &mut [u32; CIRCUIT_WORDS], r: u32, c: u32, x: u32) -> Result<(), Refusal>
    ensures { filling (filled_meaning result) circuit.new ≡ fills (begin_call r c x) circuit.old }
{
    beginnings::begin(circuit, r, c, x)
}

// A circuit from its entry lists. Refusals: 4 for a size, 5 for a list, 6 for a value, 7 for an entry.
pub fn begin_from(circuit: &mut [u32; CIRCUIT_WORDS], given: &CircuitWords) -> Result<(), Refusal>
    ensures { filling (filled_meaning result) circuit.new
        ≡ fills (begin_from_call baby_bear (circuit_words given.now)) circuit.old }
{
    beginnings::begin_from(MODULE_PRIME, circuit, given)
}

// Adds an entry. Refusals: 5 for a full matrix, 6 for the value, 7 for the entry, 14 for a place that is taken.
pub fn add_entry(
    circuit: &mut [u32; CIRCUIT_WORDS],
    matrix: u32,
    row: u32,
    column: u32,
    value: u32,
) -> Result<(), Refusal>
    ensures { filling (filled_meaning result) circuit.new
        ≡ fills (add_entry_call baby_bear circuit.old matrix (record { row = row; column = column; value = value }))
        circuit.old }
{
    changes::add_entry(MODULE_PRIME, circuit, matrix, row, column, value)
}

// Removes the entry at a row and column. Refusal: 14 where there is none.
pub fn remove_entry(
    circuit: &mut [u32; CIRCUIT_WORDS],
    matrix: u32,
    row: u32,
    column: u32,
) -> Result<(), Refusal>
    ensures { filling (filled_meaning result) circuit.new
        ≡ fills (remove_entry_call circuit.old matrix row column) circuit.old }
{
    changes::remove_entry(circuit, matrix, row, column)
}

// Where a row's entries stand in the circuit's words: the first and their number. Refusal: 7 for a row past its domain.
pub fn find_row(circuit: &[u32; CIRCUIT_WORDS], matrix: u32, row: u32) -> Result<Place, Refusal>
    ensures { outcome place result ≡ find_row_call circuit.now matrix row }
{
    rows::find_row_entries(circuit, matrix, row)
}

// A row's entries as that part of the circuit's words: empty for a row past its domain.
pub fn row_entries<'a>(circuit: &'a [u32; CIRCUIT_WORDS], matrix: u32, row: u32) -> &'a [u32]
    ensures { result.now ≡ row_call circuit.now matrix row }
{
    rows::row_entries(circuit, matrix, row)
}

// The twelve index polynomials of the circuit, as `indexer::index` has them for its entry lists; the slices come one by one, too.
pub fn index_circuit(
    circuit: &[u32; CIRCUIT_WORDS],
    row_a: &mut [u32],
    col_a: &mut [u32],
    rowcol_a: &mut [u32],
    rowcolval_a: &mut [u32],
    row_b: &mut [u32],
    col_b: &mut [u32],
    rowcol_b: &mut [u32],
    rowcolval_b: &mut [u32],
    row_c: &mut [u32],
    col_c: &mut [u32],
    rowcol_c: &mut [u32],
    rowcolval_c: &mut [u32],
) -> Result<(), Refusal>
    ensures { (let before : PerMatrix (Index (List ℕ)) =
        twelve row_a.old col_a.old rowcol_a.old rowcolval_a.old
        row_b.old col_b.old rowcol_b.old rowcolval_b.old
        row_c.old col_c.old rowcol_c.old rowcolval_c.old in
        filling (filled_meaning result)
        (twelve row_a.new col_a.new rowcol_a.new rowcolval_a.new
        row_b.new col_b.new rowcol_b.new rowcolval_b.new
        row_c.new col_c.new rowcol_c.new rowcolval_c.new)
        ≡ fills (grown_index_call baby_bear circuit.now (map_three (map_index length) before)) before) }
{
    let given = CircuitWords {
        r: circuit[0],
        c: circuit[1],
        x: circuit[2],
        matrices: Three {
            a: rows::matrix_entries(circuit, 0),
            b: rows::matrix_entries(circuit, 1),
            c: rows::matrix_entries(circuit, 2),
        },
    };
    indexer::index(
        &given,
        row_a,
        col_a,
        rowcol_a,
        rowcolval_a,
        row_b,
        col_b,
        rowcol_b,
        rowcolval_b,
        row_c,
        col_c,
        rowcol_c,
        rowcolval_c,
    )
}
