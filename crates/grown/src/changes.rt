// An entry added to a circuit, and one removed.
ghost use Rattle.std.specs.Prelude.{◌≡◌, OnOk, ◌&&◌, ◌<◌, ◌≤◌, ltb, length, get_or};
ghost use Rattle.field.specs.Prime.{Prime};
ghost use Rattle.domain.specs.Size.{max_size};
ghost use Rattle.protocol.specs.Refusals.{first, fits};
ghost use Rattle.protocol.specs.Grown.{grown_words, total_place, total, row_length, place_of, occupied, put_at, taken_at};
ghost use Rattle.protocol.specs.Grown.{grown_circuit, entry_rows, add_entry_call, remove_entry_call};
ghost use Rattle.shared.specs.Meanings.{refusal_in};
ghost use Rattle.shared.specs.Answers.{LentAnswer};
ghost use Rattle.grown.specs.Meanings.{entry_meaning};

use circuit::checks;
use grown_words::moves;
use grown_words::places::{
    MATRICES, MAX_ROWS, Span, entries_place, find_place, find_row, is_taken, total_of, total_place,
};
use shared::{Refusal, Row};

// An entry: its row and column in the matrix, and its value.
#[derive(Clone, Copy)]
struct Entry {
    row: u32,
    column: u32,
    value: u32,
}

// What stands at a row and column: whether there is an entry, the place where it stands or would stand, and how many entries the row has.
// The place says something in both cases, so it stands beside the answer.
#[derive(Clone, Copy)]
struct Found {
    taken: bool,
    place: usize,
    length: usize,
}

fn find_entry(circuit: &[u32], matrix: u32, row: u32, column: u32) -> Found
    requires circuit_len { length circuit.now ≡ grown_words }
    requires matrix_bound { (matrix < 3) × (row < max_size) }
    ensures { (result.taken ≡ occupied circuit.now matrix row column)
        × ((result.place ≡ place_of circuit.now matrix row column) × (result.length ≡ row_length circuit.now matrix row)) }
{
    let Span { start, end } = find_row(circuit, matrix, row);
    let place = find_place(circuit, matrix, column, start, end);
    Found {
        taken: is_taken(circuit, matrix, column, end, place),
        place,
        length: end - start,
    }
}

// 5: the matrix is there, and not full.
fn has_room(circuit: &[u32], matrix: u32) -> bool
    requires { length circuit.now ≡ grown_words }
    ensures { result ≡ (ltb matrix 3 && ltb (get_or circuit.now (total_place matrix) 0) max_size) }
{
    matrix < MATRICES && circuit[total_place(matrix)] < domain::MAX_SIZE
}

// 7: the entry is within the matrix, and its value not 0.
fn fits_circuit(circuit: &[u32], entry: Entry) -> bool
    requires { length circuit.now ≡ grown_words }
    ensures { result ≡ (ltb entry.row max_size && fits (grown_circuit circuit.now) (entry_meaning entry)) }
{
    entry.row < MAX_ROWS
        && checks::entry_fits(circuit[0], circuit[1], entry.row, entry.column, entry.value)
}

// 5, 6 and 7 of an addition. Where nothing is refused, the matrix is there and has room, and the row is below 1,024, whatever p is.
fn judge_entry(p: u32, circuit: &[u32], matrix: u32, entry: Entry) -> Result<(), Refusal>
    requires { length circuit.now ≡ grown_words }
    ensures result_value { (q : Prime) → q.p ≡ p
        → refusal_in result ≡ first (entry_rows q circuit.now matrix (entry_meaning entry)) }
    ensures matrix_bound { OnOk result
        ((matrix < 3) × ((get_or circuit.now (total_place matrix) 0 < max_size) × (entry.row < max_size))) }
{
    if !has_room(circuit, matrix) {
        return Err(Refusal(Row::List, 0));
    }
    if entry.value >= p {
        return Err(Refusal(Row::Word, 0));
    }
    if !fits_circuit(circuit, entry) {
        return Err(Refusal(Row::Entry, 0));
    }
    Ok(())
}

// An entry put in at its place; its row had `before` entries.
fn put_entry(circuit: &mut [u32], matrix: u32, place: usize, before: usize, entry: Entry)
    requires circuit_len { length circuit.old ≡ grown_words }
    requires matrix_bound { (matrix < 3) × ((total circuit.old matrix < max_size) × (place ≤ total circuit.old matrix)) }
    requires before_le_max_size { (before ≤ max_size) × (entry.row < max_size) }
    ensures { circuit.new ≡ put_at circuit.old matrix place before (entry_meaning entry) }
{
    let total = total_of(circuit, matrix);
    let entries = entries_place(matrix);
    moves::insert_entry(
        circuit,
        entries + 3 * place,
        entries + 3 * total,
        entry.row,
        entry.column,
        entry.value,
    );
    let at = total_place(matrix);
    circuit[at] = (total + 1) as u32;
    circuit[at + 1 + entry.row as usize] = (before + 1) as u32;
}

// The entry at a place taken out; its row had `before` entries.
fn take_entry(circuit: &mut [u32], matrix: u32, place: usize, before: usize, row: u32)
    requires circuit_len { length circuit.old ≡ grown_words }
    requires matrix_bound { (matrix < 3) × (place < total circuit.old matrix) }
    requires before_nonzero { (0 < before) × ((before ≤ max_size) × (row < max_size)) }
    ensures { circuit.new ≡ taken_at circuit.old matrix place before row }
{
    let total = total_of(circuit, matrix);
    let entries = entries_place(matrix);
    moves::remove_entry(circuit, entries + 3 * place, entries + 3 * total);
    let at = total_place(matrix);
    circuit[at] = (total - 1) as u32;
    circuit[at + 1 + row as usize] = (before - 1) as u32;
}

// Adds an entry. Refusals: 5 for a full matrix, 6 for the value, 7 for the entry, 14 for a place that is taken.
pub fn add_entry(
    p: u32,
    circuit: &mut [u32],
    matrix: u32,
    row: u32,
    column: u32,
    value: u32,
) -> Result<(), Refusal>
    requires { length circuit.old ≡ grown_words }
    ensures { (q : Prime) → q.p ≡ p
        → LentAnswer (add_entry_call q circuit.old matrix (record { row = row; column = column; value = value })) (refusal_in result)
        circuit.old circuit.new }
{
    let entry = Entry { row, column, value };
    judge_entry(p, circuit, matrix, entry)?;
    let Found {
        taken,
        place,
        length,
    } = find_entry(circuit, matrix, row, column);
    if taken {
        return Err(Refusal(Row::Taken, 0));
    }
    put_entry(circuit, matrix, place, length, entry);
    Ok(())
}

// Removes the entry at a row and column. Refusal: 14 where there is none.
pub fn remove_entry(circuit: &mut [u32], matrix: u32, row: u32, column: u32) -> Result<(), Refusal>
    requires { length circuit.old ≡ grown_words }
    ensures { LentAnswer (remove_entry_call circuit.old matrix row column) (refusal_in result)
        circuit.old circuit.new }
{
    if matrix >= MATRICES || row >= MAX_ROWS {
        return Err(Refusal(Row::Taken, 0));
    }
    let Found {
        taken,
        place,
        length,
    } = find_entry(circuit, matrix, row, column);
    if !taken {
        return Err(Refusal(Row::Taken, 0));
    }
    take_entry(circuit, matrix, place, length, row);
    Ok(())
}
