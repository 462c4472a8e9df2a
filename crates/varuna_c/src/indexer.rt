// The indexer.
ghost use Rattle.std.specs.Prelude.{◌≡◌, length};
ghost use Rattle.domain.specs.BabyBear.{baby_bear};
ghost use Rattle.protocol.specs.Three.{map_three};
ghost use Rattle.protocol.specs.Index.{map_index};
ghost use Rattle.protocol.specs.Calls.{index_call};
ghost use Rattle.circuit.specs.Given.{given};
ghost use Rattle.varuna.specs.Inputs.{twelve};
ghost use Rattle.c_numbers.specs.Answers.{told, answered};

use c_numbers::answers::give_filled;
use varuna::answers::{CircuitWords, Three};

// The twelve index polynomials of a circuit. Refusals 4 to 7.
#[unsafe(no_mangle)]
pub extern "C" fn varuna_index(
    r: u32,
    c: u32,
    x: u32,
    ea: &[u32],
    eb: &[u32],
    ec: &[u32],
    row_a: &mut [u32],
    col_a: &mut [u32],
    rowcol_a: &mut [u32],
    rowcolval_a: &mut [u32],
    row_b: &mut [u32],
    col_b: &mut [u32],
    rowcol_b: &mut [u32],
    rowcolval_b: &mut [u32],
    row_c: &mut [u32],
    col_c: &mut [u32],
    rowcol_c: &mut [u32],
    rowcolval_c: &mut [u32],
    position: &mut usize,
) -> u32
    ensures { told result position.new
        (twelve row_a.new col_a.new rowcol_a.new rowcolval_a.new
        row_b.new col_b.new rowcol_b.new rowcolval_b.new
        row_c.new col_c.new rowcol_c.new rowcolval_c.new)
        ≡ answered (index_call baby_bear (given r c x ea.now eb.now ec.now)
        (map_three (map_index length)
        (twelve row_a.old col_a.old rowcol_a.old rowcolval_a.old
        row_b.old col_b.old rowcol_b.old rowcolval_b.old
        row_c.old col_c.old rowcol_c.old rowcolval_c.old)))
        (twelve row_a.old col_a.old rowcol_a.old rowcolval_a.old
        row_b.old col_b.old rowcol_b.old rowcolval_b.old
        row_c.old col_c.old rowcol_c.old rowcolval_c.old) }
{
    let matrices = Three {
        a: ea,
        b: eb,
        c: ec,
    };
    let circuit = CircuitWords { r, c, x, matrices };
    let answer = varuna::indexer::index(
        &circuit,
        row_a,
        col_a,
        rowcol_a,
        rowcolval_a,
        row_b,
        col_b,
        rowcol_b,
        rowcolval_b,
        row_c,
        col_c,
        rowcol_c,
        rowcolval_c,
    );
    give_filled(answer, position)
}
