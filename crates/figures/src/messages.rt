// The message for a wrong line.
ghost use Rattle.std.specs.Prelude.{◌++◌, ◌+◌, ◌≤◌, length};
ghost use Rattle.text.specs.Decimal.{decimal};
ghost use Rattle.text.specs.Written.{Written};
ghost use Rattle.shared.specs.Meanings.{refusal as refusalMeaning};
ghost use Rattle.sheet_lines.specs.Lines.{refused_text, wrong_text};
ghost use Rattle.sheet_lines.specs.Meanings.{message_of};
ghost use Rattle.figures.specs.Placed.{Within, sheet_room};

use shared::Refusal;
use sheet_lines::circuits::WrongLine;
use sheet_lines::numbers::Wrong;
use text::{put_byte, put_bytes, put_decimal};

// A number with what stands before it.
fn put_labelled(label: &[u8], n: usize, out: &mut [u8], at: usize) -> usize
    requires { at + length label.now + 20 ≤ length out.old }
    ensures { Within (length label.now + 20) out.old at (label.now ++ decimal n) result out.new }
{
    let place = put_bytes(label, out, at);
    put_decimal(n, out, place)
}

fn put_refused(refusal: Refusal, out: &mut [u8], at: usize) -> usize
    requires { at + 50 ≤ length out.old }
    ensures { Written out.old at (refused_text (refusalMeaning refusal)) result out.new }
{
    let Refusal(row, position) = refusal;
    let place = put_labelled(b"refused ", row.number() as usize, out, at);
    let place = put_labelled(b" ", position, out, place);
    put_byte(b'\n', out, place)
}

// The message for what is wrong with a line.
fn put_message(wrong: Wrong, out: &mut [u8], at: usize) -> usize
    requires { at + 80 ≤ length out.old }
    ensures { Written out.old at (message_of wrong) result out.new }
{
    match wrong {
        Wrong::NotSix => put_bytes(
            b"six numbers are |R| |C| |X| and the entry counts of A, B, C\n",
            out,
            at,
        ),
        Wrong::Refused(refusal) => put_refused(refusal, out, at),
    }
}

// What is wrong with a line, after the line's number.
pub fn put_wrong(wrong: WrongLine, out: &mut [u8]) -> usize
    requires { sheet_room ≤ length out.old }
    ensures { Written out.old 0 (wrong_text wrong.line (message_of wrong.wrong)) result out.new }
{
    let place = put_labelled(b"line ", wrong.line, out, 0);
    let place = put_bytes(b": ", out, place);
    put_message(wrong.wrong, out, place)
}
