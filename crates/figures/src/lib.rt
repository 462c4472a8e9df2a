// The planner's sheet: the figures of the circuits of a text, as a table. Text goes into a lent buffer from a place on, since there is
// no heap and the clauses state each byte.
#![tactic(auto)]

mod column;
mod conversations;
mod messages;
mod nth_line;
mod repeats;
mod table;
mod tuples;

ghost use Rattle.std.specs.Prelude.{map, ◌≤◌, length};
ghost use Rattle.domain.specs.BabyBear.{baby_bear};
ghost use Rattle.text.specs.Written.{Written};
ghost use Rattle.sheet_lines.specs.Meanings.{given};
ghost use Rattle.figures.specs.Placed.{sheet_room};
ghost use Rattle.figures.specs.Sheet.{most_circuits, table_text, sheet_text};

use messages::put_wrong;
use sheet_lines::circuits::{collect_all, first_wrong};
use sheet_lines::numbers::Request;
use table::{ROW_BYTES, ROWS, put_table};
use text::put_bytes;

// The longest text that is read.
pub const LONGEST_TEXT: usize = 2048;

// Room for every sheet.
pub const SHEET_BYTES: usize = ROW_BYTES * ROWS;

// The table, where there are circuits.
fn put_circuits(requests: &[Request], out: &mut [u8]) -> usize
    requires count_le_most_circuits { length requests.now ≤ most_circuits }
    requires sheet_room_in_bounds { sheet_room ≤ length out.old }
    ensures { Written out.old 0 (table_text baby_bear (map given requests.now)) result out.new }
{
    if requests.is_empty() {
        return put_bytes(
            b"sheet reads one circuit a line: |R| |C| |X| and the entry counts of A, B, C\n",
            out,
            0,
        );
    }
    put_table(requests, out)
}

fn put_sheet(input: &[u8], out: &mut [u8]) -> usize
    requires { sheet_room ≤ length out.old }
    ensures { Written out.old 0 (sheet_text baby_bear input.now) result out.new }
{
    if LONGEST_TEXT < input.len() {
        return put_bytes(b"sheet reads at most 2048 bytes\n", out, 0);
    }
    if let Some(wrong) = first_wrong(input) {
        return put_wrong(wrong, out);
    }
    match collect_all(input) {
        Some(circuits) => put_circuits(&circuits.array[..circuits.count], out),
        None => put_bytes(b"sheet takes at most 16 circuits\n", out, 0),
    }
}

// The sheet for a text, from the start of the buffer: the table of its circuits, or a message.
// The result is the sheet's length.
pub fn text(input: &[u8], out: &mut [u8; SHEET_BYTES]) -> usize
    ensures { Written out.old 0 (sheet_text baby_bear input.now) result out.new }
{
    put_sheet(input, out)
}
