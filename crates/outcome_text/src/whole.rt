// The eleven sections and the verdict of a job, or its refusal. Where openings are given, nothing is refused in any round.
ghost use Rattle.std.specs.Prelude.{◌≡◌, ◌+◌, ◌≤◌, length, true};
ghost use Rattle.domain.specs.Size.{is_size};
ghost use Rattle.domain.specs.BabyBear.{baby_bear};
ghost use Rattle.protocol.specs.Admission.{count_tests};
ghost use Rattle.protocol.specs.Calls.{circuit_of, entry_list_tests};
ghost use Rattle.shared.specs.Meanings.{three, sizes};
ghost use Rattle.circuit.specs.Given.{circuit_words, input_words};
ghost use Rattle.text.specs.Written.{Written};
ghost use Rattle.report.specs.ProofText.{outcome_text};
ghost use Rattle.report.specs.Printed.{Printed};
ghost use Rattle.report.specs.Stages.{FreeJob, job_drawn, opened_meaning, last_text, rest_text, stages_text};
ghost use Rattle.report.specs.Stages.{most_last, most_rest, most_proof};

use crate::conversation::last_answer;
use circuit::given::{Challenges, ProverInput};
use openings::AllOpened;
use report::first_rounds::{put_first, put_third};
use report::lines::{put_answer, put_refused, put_three};
use report::matrix_rounds::{put_fifth, put_fourth};
use report::messages;
use shared::{Sizes, Triple};
use varuna::answers::index_arrays;
use varuna::rounds;

// The last line.
fn put_last(
    s: Sizes,
    z: &[u32],
    drawn: Challenges,
    sums: Triple,
    values: Triple,
    opened: AllOpened,
    out: &mut [u8],
    at: usize,
) -> usize
    requires c_value { (is_size s.c ≡ true) × (is_size s.x ≡ true) × (s.x ≤ s.c) × (length z.now ≡ s.c) }
    requires most_last_in_bounds { at + most_last ≤ length out.old }
    ensures { Printed out.old at
        (last_text (sizes s) z.now drawn (three sums) (three values) (opened_meaning opened.messages opened.index))
        most_last result out.new }
{
    let mut words = [0; 1024];
    let x = &mut words[..s.x as usize];
    prover::witness::public_words_into((s.c / s.x) as usize, z, x);
    let answer = last_answer(
        s,
        x,
        drawn,
        sums,
        values,
        opened.messages,
        index_arrays(opened.index),
    );
    put_answer(answer, out, at)
}

// o, ga, gb, gc, h2 and the last line.
fn put_rest(
    input: &ProverInput,
    drawn: Challenges,
    sums: Triple,
    opened: AllOpened,
    out: &mut [u8],
    at: usize,
) -> usize
    requires free_job { FreeJob (input_words input.now) drawn }
    requires most_rest_in_bounds { at + most_rest ≤ length out.old }
    ensures { Printed out.old at
        (rest_text (input_words input.now)
        drawn (three sums) (opened_meaning opened.messages opened.index))
        most_rest result out.new }
{
    let fourth = put_fourth(input, drawn.alpha, drawn.eta, drawn.beta, out, at);
    let last = put_fifth(
        input,
        drawn.alpha,
        drawn.eta,
        drawn.beta,
        drawn.delta,
        out,
        fourth.place,
    );
    let s = circuit::matrices::sizes_of(&input.circuit);
    put_last(s, input.z, drawn, sums, fourth.values, opened, out, last)
}

// A job that is not refused, with its openings.
fn put_proof(
    input: &ProverInput,
    drawn: Challenges,
    opened: AllOpened,
    out: &mut [u8],
    at: usize,
) -> usize
    requires free_job { FreeJob (input_words input.now) drawn }
    requires most_proof_in_bounds { at + most_proof ≤ length out.old }
    ensures { Printed out.old at
        (stages_text (input_words input.now)
        drawn (opened_meaning opened.messages opened.index))
        most_proof result out.new }
{
    let first = put_first(input, out, at);
    let sums = messages::sums(input, drawn.alpha);
    let second = put_three(b"s", sums, out, first);
    let third = put_third(input, drawn.alpha, drawn.eta, out, second);
    put_rest(input, drawn, sums, opened, out, third)
}

// A whole job: its refusal, or its proof and verdict.
pub fn put_job(input: &ProverInput, drawn: Challenges, out: &mut [u8]) -> usize
    requires ec_value { entry_list_tests (circuit_words input.now.circuit)
        ≡ count_tests (circuit_of (circuit_words input.now.circuit)) }
    requires most_proof_in_bounds { most_proof ≤ length out.old }
    ensures { Written out.old 0 (outcome_text baby_bear
        (job_drawn (input_words input.now) drawn))
        result out.new }
{
    match rounds::openings(input, &drawn) {
        Err(refusal) => put_refused(refusal, out, 0),
        Ok(opened) => put_proof(input, drawn, opened, out, 0),
    }
}
