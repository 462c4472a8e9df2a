// The rows on whole conversations: those with a prover that has no witness, the honest prover's masks, and repeated conversations.
ghost use Rattle.std.specs.Prelude.{◌≡◌, map, ◌+◌, ◌≤◌, ◌<◌, length};
ghost use Rattle.domain.specs.BabyBear.{baby_bear};
ghost use Rattle.text.specs.Decimal.{decimal};
ghost use Rattle.sheet_lines.specs.Meanings.{given};
ghost use Rattle.figures.specs.Figures.{Figure, mask_figures};
ghost use Rattle.figures.specs.Placed.{tuple_rows, mask_rows, repeat_rows, conversation_rows, conversation_at, Within, number_room};

use crate::repeats::{REPEATS, repeats};
use crate::tuples::{TUPLES, put_tuples};
use sheet_lines::numbers::Request;
use text::put_decimal;

// How many rows there are on masks, and on whole conversations in all.
const MASKS: usize = 2;

pub const CONVERSATIONS: usize = TUPLES + MASKS + REPEATS;

// The openings that the masks make any words: of ŵ, g1 and h1 at β.
const FREED: usize = 3;

// The exponents of p for all masks, and for those that lead to the same three openings.
fn mask_numbers(g: Request) -> [usize; MASKS]
    ensures { result ≡ map (λ (f : Figure). f.number (given g)) mask_figures }
{
    let all = 2 * (g.c as usize);
    [all, all.saturating_sub(FREED)]
}

// The number of a row after those that count tuples.
fn small_number(row: usize, request: Request) -> usize
    requires { row < mask_rows + repeat_rows }
    ensures { result ≡ (conversation_at baby_bear (tuple_rows + row)).number (given request) }
{
    if row < MASKS {
        let numbers = mask_numbers(request);
        return numbers[row];
    }
    repeats(row - MASKS, request)
}

// The number of a row on whole conversations for a circuit.
pub fn put_conversations(row: usize, request: Request, out: &mut [u8], at: usize) -> usize
    requires row_lt_conversation_rows { row < conversation_rows }
    requires number_room_in_bounds { at + number_room ≤ length out.old }
    ensures { Within number_room out.old at (decimal ((conversation_at baby_bear row).number (given request))) result out.new }
{
    if row < TUPLES {
        return put_tuples(row, request, out, at);
    }
    put_decimal(small_number(row - TUPLES, request), out, at)
}
