// Rounds 4 and 5: the sections o, ga, gb, gc, h2.
ghost use Rattle.std.specs.Prelude.{◌≡◌, [], ◌∷◌, ◌++◌, ◌+◌, ◌≤◌, length};
ghost use Rattle.protocol.specs.Three.{listed};
ghost use Rattle.shared.specs.Meanings.{three};
ghost use Rattle.circuit.specs.Given.{input_words};
ghost use Rattle.varuna.specs.Inputs.{three_of};
ghost use Rattle.report.specs.Printed.{Printed};
ghost use Rattle.report.specs.Stages.{Free, value_words, fourth_lines, fourth_text, fifth_text, most_line, most_fourth};

use crate::lines::{put_line, put_three};
use crate::messages::words_or_zeros;
use circuit::given::ProverInput;
use circuit::matrices::lengths_of;
use shared::Triple;
use varuna::rounds;

// o, ga, gb, gc.
fn put_fourth_lines(
    values: Triple,
    ga: &[u32],
    gb: &[u32],
    gc: &[u32],
    out: &mut [u8],
    at: usize,
) -> usize
    requires ga_len_bound { (length ga.now ≤ 1024) × (length gb.now ≤ 1024) × (length gc.now ≤ 1024) }
    requires most_fourth_in_bounds { at + most_fourth ≤ length out.old }
    ensures { Printed out.old at
        (fourth_lines (three values) (three_of ga.now gb.now gc.now)) most_fourth result out.new }
{
    let first = put_three(b"o", values, out, at);
    let second = put_line(b"ga", ga, out, first);
    let third = put_line(b"gb", gb, out, second);
    put_line(b"gc", gc, out, third)
}

// The ω, and the place after the sections of round 4.
#[derive(Clone, Copy)]
pub struct FourthRound {
    pub values: Triple,
    pub place: usize,
}

// Round 4.
pub fn put_fourth(
    input: &ProverInput,
    alpha: u32,
    eta: Triple,
    beta: u32,
    out: &mut [u8],
    at: usize,
) -> FourthRound
    requires free { Free (input_words input.now)
        (alpha ∷ (listed (three eta) ++ (beta ∷ []))) (alpha ∷ beta ∷ []) }
    requires most_fourth_in_bounds { at + most_fourth ≤ length out.old }
    ensures values_value { three result.values
        ≡ value_words (input_words input.now)
        alpha beta }
    ensures printed { Printed out.old at
        (fourth_text (input_words input.now)
        alpha beta)
        most_fourth result.place out.new }
{
    let due = lengths_of(&input.circuit).matrix_remainders;
    let mut words_a = [0; 1024];
    let mut words_b = [0; 1024];
    let mut words_c = [0; 1024];
    let ga = &mut words_a[..due.a];
    let gb = &mut words_b[..due.b];
    let gc = &mut words_c[..due.c];
    let answer = rounds::fourth_round(input, alpha, eta, beta, ga, gb, gc);
    let values = words_or_zeros(answer);
    let place = put_fourth_lines(values, ga, gb, gc, out, at);
    FourthRound { values, place }
}

// Round 5: h2.
pub fn put_fifth(
    input: &ProverInput,
    alpha: u32,
    eta: Triple,
    beta: u32,
    delta: Triple,
    out: &mut [u8],
    at: usize,
) -> usize
    requires free { Free (input_words input.now)
        (alpha ∷ (listed (three eta) ++ (beta ∷ listed (three delta)))) (alpha ∷ beta ∷ []) }
    requires most_line_in_bounds { at + most_line ≤ length out.old }
    ensures { Printed out.old at
        (fifth_text (input_words input.now)
        alpha beta (three delta))
        most_line result out.new }
{
    let due = lengths_of(&input.circuit).joined_quotient;
    let mut words = [0; 1024];
    let quotient = &mut words[..due];
    // Never refused: see `free`.
    let _ = rounds::fifth_round(input, alpha, eta, beta, delta, quotient);
    put_line(b"h2", quotient, out, at)
}
