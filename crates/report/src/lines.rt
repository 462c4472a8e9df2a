// Lines of text: a name, then words in decimal, each after a space. Each function puts its text from a place on and gives the place
// after it.
ghost use Rattle.std.specs.Prelude.{◌≡◌, ◌+◌, ◌*◌, ◌≤◌, length};
ghost use Rattle.protocol.specs.Three.{listed};
ghost use Rattle.shared.specs.Meanings.{three, refusal as refusalMeaning, verdict_meaning};
ghost use Rattle.protocol.specs.Session.{Judged};
ghost use Rattle.verifier.specs.Session.{openings_answer_meaning};
ghost use Rattle.text.specs.Written.{Written};
ghost use Rattle.text.specs.Decimal.{decimal};
ghost use Rattle.report.specs.ProofText.{line, refused_text, answer_text};
ghost use Rattle.report.specs.Printed.{Printed, number as numberText, numbers};

use shared::{Check, Refusal, Triple, Verdict};
use text::{put_byte, put_bytes, put_decimal};

// A space, then the number.
fn put_number(n: usize, out: &mut [u8], at: usize) -> usize
    requires { at + (1 + length (decimal n)) ≤ length out.old }
    ensures { Written out.old at (numberText n) result out.new }
{
    let next = put_byte(b' ', out, at);
    put_decimal(n, out, next)
}

// A space and the word, for each word.
fn put_numbers(words: &[u32], out: &mut [u8], at: usize) -> usize
    requires { at + 11 * length words.now ≤ length out.old }
    ensures { Printed out.old at (numbers words.now) (11 * length words.now) result out.new }
{
    let mut next = at;
    for word in words {
        next = put_number(*word as usize, out, next);
    }
    next
}

pub fn put_line(name: &[u8], words: &[u32], out: &mut [u8], at: usize) -> usize
    requires { at + (length name.now + 11 * length words.now + 1) ≤ length out.old }
    ensures { Printed out.old at (line name.now words.now)
        (length name.now + 11 * length words.now + 1) result out.new }
{
    let named = put_bytes(name, out, at);
    let next = put_numbers(words, out, named);
    put_byte(b'\n', out, next)
}

// A line with one word for each matrix.
pub fn put_three(name: &[u8], t: Triple, out: &mut [u8], at: usize) -> usize
    requires { at + (length name.now + 34) ≤ length out.old }
    ensures { Printed out.old at (line name.now (listed (three t))) (length name.now + 34) result
        out.new }
{
    let words = [t.a, t.b, t.c];
    put_line(name, &words, out, at)
}

pub fn put_refused(refusal: Refusal, out: &mut [u8], at: usize) -> usize
    requires { at + 40 ≤ length out.old }
    ensures { Printed out.old at (refused_text (refusalMeaning refusal)) 40 result
        out.new }
{
    let Refusal(row, position) = refusal;
    let named = put_bytes(b"refused", out, at);
    let numbered = put_number(row.number() as usize, out, named);
    let placed = put_number(position, out, numbered);
    put_byte(b'\n', out, placed)
}

fn put_verdict(verdict: Verdict, out: &mut [u8], at: usize) -> usize
    requires { at + 40 ≤ length out.old }
    ensures { Printed out.old at (answer_text (Judged (verdict_meaning verdict))) 40 result out.new }
{
    match verdict {
        Verdict::Accept => put_bytes(b"verdict accept\n", out, at),
        Verdict::Fails(check) => match check {
            Check::Row => put_bytes(b"verdict fails row\n", out, at),
            Check::Line => put_bytes(b"verdict fails line\n", out, at),
            Check::Matrix => put_bytes(b"verdict fails matrix\n", out, at),
        },
    }
}

// The last line: the verdict, or the refusal of the openings.
pub fn put_answer(answer: Result<Verdict, Refusal>, out: &mut [u8], at: usize) -> usize
    requires { at + 40 ≤ length out.old }
    ensures { Printed out.old at (answer_text (openings_answer_meaning answer)) 40 result out.new }
{
    match answer {
        Ok(verdict) => put_verdict(verdict, out, at),
        Err(refusal) => put_refused(refusal, out, at),
    }
}
