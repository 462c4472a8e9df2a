// The indexer.
ghost use Rattle.std.specs.Prelude.{◌≡◌, List, ℕ, length};
ghost use Rattle.domain.specs.BabyBear.{baby_bear};
ghost use Rattle.protocol.specs.Three.{Three, map_three};
ghost use Rattle.protocol.specs.Index.{Index, map_index};
ghost use Rattle.protocol.specs.Calls.{index_call};
ghost use Rattle.circuit.specs.Given.{circuit_words};
ghost use Rattle.varuna.specs.Answers.{filled_meaning, filling, fills};
ghost use Rattle.varuna.specs.Inputs.{twelve};

use call_refusals::judge_index;
use circuit::given::CircuitWords;
use field::MODULE_PRIME;
use index::index_into;
use shared::Refusal;

// The twelve index polynomials of a circuit, each into a slice of |K_M| words: row, col, rowcol and rowcolval of A, then B, then C.
// Refusals: 4 for a size, 5 for an entry list or a slice, 6 for a value, 7 for an entry. The slices come one by one, as
// `index::index_into` takes them.
pub fn index(
    circuit: &CircuitWords,
    row_a: &mut [u32],
    col_a: &mut [u32],
    rowcol_a: &mut [u32],
    rowcolval_a: &mut [u32],
    row_b: &mut [u32],
    col_b: &mut [u32],
    rowcol_b: &mut [u32],
    rowcolval_b: &mut [u32],
    row_c: &mut [u32],
    col_c: &mut [u32],
    rowcol_c: &mut [u32],
    rowcolval_c: &mut [u32],
) -> Result<(), Refusal>
    ensures { (let before : Three (Index (List ℕ)) =
        twelve row_a.old col_a.old rowcol_a.old rowcolval_a.old
        row_b.old col_b.old rowcol_b.old rowcolval_b.old
        row_c.old col_c.old rowcol_c.old rowcolval_c.old in
        filling (filled_meaning result)
        (twelve row_a.new col_a.new rowcol_a.new rowcolval_a.new
        row_b.new col_b.new rowcol_b.new rowcolval_b.new
        row_c.new col_c.new rowcol_c.new rowcolval_c.new)
        ≡ fills
        (index_call baby_bear (circuit_words circuit.now)
        (map_three (map_index length) before)) before) }
{
    let lent = [
        row_a.len(),
        col_a.len(),
        rowcol_a.len(),
        rowcolval_a.len(),
        row_b.len(),
        col_b.len(),
        rowcol_b.len(),
        rowcolval_b.len(),
        row_c.len(),
        col_c.len(),
        rowcol_c.len(),
        rowcolval_c.len(),
    ];
    judge_index(MODULE_PRIME, circuit, lent)?;
    index_into(
        MODULE_PRIME,
        circuit,
        row_a,
        col_a,
        rowcol_a,
        rowcolval_a,
        row_b,
        col_b,
        rowcol_b,
        rowcolval_b,
        row_c,
        col_c,
        rowcol_c,
        rowcolval_c,
    );
    Ok(())
}
