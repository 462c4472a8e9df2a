// Circuits that grow by the entry, kept by the caller as 12,294 words.
ghost use Rattle.std.specs.Prelude.{◌≡◌, length};
ghost use Rattle.domain.specs.BabyBear.{baby_bear};
ghost use Rattle.protocol.specs.Three.{map_three};
ghost use Rattle.protocol.specs.Index.{map_index};
ghost use Rattle.protocol.specs.Grown.{begin_call, begin_from_call, add_entry_call, remove_entry_call, find_row_call, grown_index_call};
ghost use Rattle.circuit.specs.Given.{given};
ghost use Rattle.varuna.specs.Inputs.{twelve};
ghost use Rattle.c_numbers.specs.Answers.{told, answered};

use c_numbers::answers::{give_filled, give_place};
use varuna::answers::{CircuitWords, Three};
use varuna::circuits::CIRCUIT_WORDS;

// A circuit without entries. Refusal 4.
#[unsafe(no_mangle)]
pub extern "C" fn varuna_circuit_begin(
    circuit: &mut [u32; CIRCUIT_WORDS],
    r: u32,
    c: u32,
    x: u32,
    position: &mut usize,
) -> u32
    ensures { told result position.new circuit.new ≡ answered (begin_call r c x) circuit.old }
{
    let answer = varuna::circuits::begin(circuit, r, c, x);
    give_filled(answer, position)
}

// A circuit from its entry lists. Refusals 4 to 7.
#[unsafe(no_mangle)]
pub extern "C" fn varuna_circuit_begin_from(
    circuit: &mut [u32; CIRCUIT_WORDS],
    r: u32,
    c: u32,
    x: u32,
    ea: &[u32],
    eb: &[u32],
    ec: &[u32],
    position: &mut usize,
) -> u32
    ensures { told result position.new circuit.new
        ≡ answered (begin_from_call baby_bear (given r c x ea.now eb.now ec.now)) circuit.old }
{
    let matrices = Three {
        a: ea,
        b: eb,
        c: ec,
    };
    let given = CircuitWords { r, c, x, matrices };
    let answer = varuna::circuits::begin_from(circuit, &given);
    give_filled(answer, position)
}

// Adds an entry. Refusals 5, 6, 7, 14.
#[unsafe(no_mangle)]
pub extern "C" fn varuna_circuit_add(
    circuit: &mut [u32; CIRCUIT_WORDS],
    matrix: u32,
    row: u32,
    column: u32,
    value: u32,
    position: &mut usize,
) -> u32
    ensures { told result position.new circuit.new
        ≡ answered (add_entry_call baby_bear circuit.old matrix (record { row = row; column = column; value = value }))
        circuit.old }
{
    let answer = varuna::circuits::add_entry(circuit, matrix, row, column, value);
    give_filled(answer, position)
}

// Removes the entry at a row and column. Refusal 14.
#[unsafe(no_mangle)]
pub extern "C" fn varuna_circuit_remove(
    circuit: &mut [u32; CIRCUIT_WORDS],
    matrix: u32,
    row: u32,
    column: u32,
    position: &mut usize,
) -> u32
    ensures { told result position.new circuit.new
        ≡ answered (remove_entry_call circuit.old matrix row column) circuit.old }
{
    let answer = varuna::circuits::remove_entry(circuit, matrix, row, column);
    give_filled(answer, position)
}

// Where a row's entries stand in the circuit's words: the first and their number. Refusal 7.
#[unsafe(no_mangle)]
pub extern "C" fn varuna_circuit_row(
    circuit: &[u32; CIRCUIT_WORDS],
    matrix: u32,
    row: u32,
    start: &mut usize,
    length: &mut usize,
    position: &mut usize,
) -> u32
    ensures { told result position.new (start.new, length.new)
        ≡ answered (find_row_call circuit.now matrix row) (start.old, length.old) }
{
    give_place(
        varuna::circuits::find_row(circuit, matrix, row),
        start,
        length,
        position,
    )
}

// The twelve index polynomials of the circuit. Refusals 4 to 7.
#[unsafe(no_mangle)]
pub extern "C" fn varuna_circuit_index(
    circuit: &[u32; CIRCUIT_WORDS],
    row_a: &mut [u32],
    col_a: &mut [u32],
    rowcol_a: &mut [u32],
    rowcolval_a: &mut [u32],
    row_b: &mut [u32],
    col_b: &mut [u32],
    rowcol_b: &mut [u32],
    rowcolval_b: &mut [u32],
    row_c: &mut [u32],
    col_c: &mut [u32],
    rowcol_c: &mut [u32],
    rowcolval_c: &mut [u32],
    position: &mut usize,
) -> u32
    ensures { told result position.new
        (twelve row_a.new col_a.new rowcol_a.new rowcolval_a.new
        row_b.new col_b.new rowcol_b.new rowcolval_b.new
        row_c.new col_c.new rowcol_c.new rowcolval_c.new)
        ≡ answered (grown_index_call baby_bear circuit.now
        (map_three (map_index length)
        (twelve row_a.old col_a.old rowcol_a.old rowcolval_a.old
        row_b.old col_b.old rowcol_b.old rowcolval_b.old
        row_c.old col_c.old rowcol_c.old rowcolval_c.old)))
        (twelve row_a.old col_a.old rowcol_a.old rowcolval_a.old
        row_b.old col_b.old rowcol_b.old rowcolval_b.old
        row_c.old col_c.old rowcol_c.old rowcolval_c.old) }
{
    let answer = varuna::circuits::index_circuit(
        circuit,
        row_a,
        col_a,
        rowcol_a,
        rowcolval_a,
        row_b,
        col_b,
        rowcol_b,
        rowcolval_b,
        row_c,
        col_c,
        rowcol_c,
        rowcolval_c,
    );
    give_filled(answer, position)
}
