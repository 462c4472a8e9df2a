// Rounds 1 and 3: the sections w, m, h0, g1, h1.
ghost use Rattle.std.specs.Prelude.{[], ◌∷◌, ◌+◌, ◌*◌, ◌≤◌, length};
ghost use Rattle.protocol.specs.Three.{listed};
ghost use Rattle.shared.specs.Meanings.{three};
ghost use Rattle.circuit.specs.Given.{input_words};
ghost use Rattle.report.specs.Printed.{Printed};
ghost use Rattle.report.specs.Stages.{Free, first_lines, first_text, third_lines, third_text, most_line};

use crate::lines::put_line;
use circuit::given::ProverInput;
use circuit::matrices::lengths_of;
use shared::Triple;
use varuna::rounds;

// w, m, h0.
fn put_first_lines(witness: &[u32], m: &[u32], quotient: &[u32], out: &mut [u8], at: usize) -> usize
    requires witness_len_bound { (length witness.now ≤ 1024) × (length m.now ≤ 2048) × (length quotient.now ≤ 1024) }
    requires most_line_in_bounds { at + 4 * most_line ≤ length out.old }
    ensures { Printed out.old at (first_lines witness.now m.now quotient.now)
        (4 * most_line) result out.new }
{
    let first = put_line(b"w", witness, out, at);
    let second = put_line(b"m", m, out, first);
    put_line(b"h0", quotient, out, second)
}

// Round 1.
pub fn put_first(input: &ProverInput, out: &mut [u8], at: usize) -> usize
    requires free { Free (input_words input.now) [] [] }
    requires most_line_in_bounds { at + 4 * most_line ≤ length out.old }
    ensures { Printed out.old at
        (first_text (input_words input.now))
        (4 * most_line) result out.new }
{
    let due = lengths_of(&input.circuit);
    let mut witness_words = [0; 1024];
    let mut quotient_words = [0; 1024];
    let witness = &mut witness_words[..due.witness];
    let quotient = &mut quotient_words[..due.row_quotient];
    // Never refused: see `free`.
    let _ = rounds::first_round(input, witness, quotient);
    put_first_lines(witness, input.m, quotient, out, at)
}

// g1, h1.
fn put_third_lines(remainder: &[u32], quotient: &[u32], out: &mut [u8], at: usize) -> usize
    requires remainder_len_bound { (length remainder.now ≤ 1024) × (length quotient.now ≤ 1024) }
    requires most_line_in_bounds { at + 2 * most_line ≤ length out.old }
    ensures { Printed out.old at (third_lines remainder.now quotient.now)
        (2 * most_line) result out.new }
{
    let first = put_line(b"g1", remainder, out, at);
    put_line(b"h1", quotient, out, first)
}

// Round 3.
pub fn put_third(input: &ProverInput, alpha: u32, eta: Triple, out: &mut [u8], at: usize) -> usize
    requires free { Free (input_words input.now) (alpha ∷ listed (three eta)) (alpha ∷ []) }
    requires most_line_in_bounds { at + 2 * most_line ≤ length out.old }
    ensures { Printed out.old at
        (third_text (input_words input.now)
        alpha (three eta))
        (2 * most_line) result out.new }
{
    let due = lengths_of(&input.circuit);
    let mut remainder_words = [0; 1024];
    let mut quotient_words = [0; 1024];
    let remainder = &mut remainder_words[..due.line_remainder];
    let quotient = &mut quotient_words[..due.line_quotient];
    // Never refused: see `free`.
    let _ = rounds::third_round(input, alpha, eta, remainder, quotient);
    put_third_lines(remainder, quotient, out, at)
}
