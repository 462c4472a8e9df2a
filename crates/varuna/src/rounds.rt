// The prover's rounds. Each call begins with the sizes |R|, |C|, |X|, the entry lists of A, B, C, the assignment z, the mask word and
// the mask polynomial m. Refusals: 4 for a size, 5 for a list or a lent slice, 6 for a word, 7 for an entry, 8 for m, 13 for z's first
// word, 9 for a row, 10 for a challenge.
ghost use Rattle.std.specs.Prelude.{◌≡◌, length};
ghost use Rattle.domain.specs.BabyBear.{baby_bear};
ghost use Rattle.shared.specs.Meanings.{three};
ghost use Rattle.protocol.specs.Calls.{first_round_call, second_round_call, third_round_call, fourth_round_call, fifth_round_call, openings_call};
ghost use Rattle.varuna.specs.Answers.{three_meaning, filled_meaning, filling, fills, fills_three, openings_meaning};
ghost use Rattle.circuit.specs.Given.{input_words};
ghost use Rattle.varuna.specs.Inputs.{three_of};

use call_refusals::judge_round;
use circuit::given::{Challenges, ProverInput};
use circuit::matrices;
use field::MODULE_PRIME;
use matrix_sumcheck::joined::joined_quotient_into;
use matrix_sumcheck::values::values_into;
use openings::{AllOpened, open_all};
use prover::line::line_into;
use shared::{Refusal, Triple};

// Round 1: ŵ, of |C| - |X| + 1 words, and h0, of |R| - 1, into slices.
pub fn first_round(
    input: &ProverInput,
    witness: &mut [u32],
    row_quotient: &mut [u32],
) -> Result<(), Refusal>
    ensures { filling (filled_meaning result) (witness.new, row_quotient.new)
        ≡ fills (first_round_call baby_bear (input_words input.now)
        (length witness.old) (length row_quotient.old)) (witness.old, row_quotient.old) }
{
    let p = MODULE_PRIME;
    let due = matrices::lengths_of(&input.circuit);
    let lent = [witness.len(), row_quotient.len()];
    let lengths = [due.witness, due.row_quotient];
    judge_round(p, input, &lent, &lengths, &[], &[])?;
    prover::witness::witness_into(p, input, witness);
    prover::rows::row_quotient_into(p, input, row_quotient);
    Ok(())
}

// Round 2: σ_A, σ_B, σ_C.
pub fn second_round(input: &ProverInput, alpha: u32) -> Result<Triple, Refusal>
    ensures { three_meaning result ≡ second_round_call baby_bear (input_words input.now) alpha }
{
    let p = MODULE_PRIME;
    let at = [alpha];
    judge_round(p, input, &[], &[], &at, &at)?;
    Ok(prover::rows::sums_at(p, input, alpha))
}

// Round 3: g1, of |C| - 1 words, and h1, of |C|, into slices.
pub fn third_round(
    input: &ProverInput,
    alpha: u32,
    eta: Triple,
    remainder: &mut [u32],
    quotient: &mut [u32],
) -> Result<(), Refusal>
    ensures { filling (filled_meaning result) (remainder.new, quotient.new)
        ≡ fills (third_round_call baby_bear (input_words input.now)
        alpha (three eta) (length remainder.old) (length quotient.old))
        (remainder.old, quotient.old) }
{
    let p = MODULE_PRIME;
    let due = matrices::lengths_of(&input.circuit);
    let lent = [remainder.len(), quotient.len()];
    let lengths = [due.line_remainder, due.line_quotient];
    let words = [alpha, eta.a, eta.b, eta.c];
    judge_round(p, input, &lent, &lengths, &words, &[alpha])?;
    line_into(p, input, alpha, eta, remainder, quotient);
    Ok(())
}

// Round 4: ω_A, ω_B, ω_C, and g_A, g_B, g_C, each of |K_M| - 1 words, into slices.
pub fn fourth_round(
    input: &ProverInput,
    alpha: u32,
    eta: Triple,
    beta: u32,
    ga: &mut [u32],
    gb: &mut [u32],
    gc: &mut [u32],
) -> Result<Triple, Refusal>
    ensures { filling (three_meaning result) (three_of ga.new gb.new gc.new)
        ≡ fills_three (fourth_round_call baby_bear (input_words input.now)
        alpha (three eta) beta (three_of (length ga.old) (length gb.old) (length gc.old)))
        (three_of ga.old gb.old gc.old) }
{
    let p = MODULE_PRIME;
    let due = matrices::lengths_of(&input.circuit).matrix_remainders;
    let lent = [ga.len(), gb.len(), gc.len()];
    let lengths = [due.a, due.b, due.c];
    let words = [alpha, eta.a, eta.b, eta.c, beta];
    judge_round(p, input, &lent, &lengths, &words, &[alpha, beta])?;
    Ok(values_into(p, &input.circuit, alpha, beta, ga, gb, gc))
}

// Round 5: h2, of |K| - 1 words, into a slice.
pub fn fifth_round(
    input: &ProverInput,
    alpha: u32,
    eta: Triple,
    beta: u32,
    delta: Triple,
    out: &mut [u32],
) -> Result<(), Refusal>
    ensures { filling (filled_meaning result) out.new
        ≡ fills (fifth_round_call baby_bear (input_words input.now)
        alpha (three eta) beta (three delta) (length out.old)) out.old }
{
    let p = MODULE_PRIME;
    let lent = [out.len()];
    let lengths = [matrices::lengths_of(&input.circuit).joined_quotient];
    let words = [alpha, eta.a, eta.b, eta.c, beta, delta.a, delta.b, delta.c];
    judge_round(p, input, &lent, &lengths, &words, &[alpha, beta])?;
    joined_quotient_into(p, &input.circuit, alpha, beta, delta, out);
    Ok(())
}

// The 21 openings.
pub fn openings(input: &ProverInput, challenges: &Challenges) -> Result<AllOpened, Refusal>
    ensures { (let c = challenges.now in openings_meaning result
        ≡ openings_call baby_bear (input_words input.now) c.alpha (three c.eta) c.beta (three c.delta) c.gamma) }
{
    let p = MODULE_PRIME;
    let Challenges {
        alpha,
        eta,
        beta,
        delta,
        gamma,
    } = *challenges;
    let words = [
        alpha, eta.a, eta.b, eta.c, beta, delta.a, delta.b, delta.c, gamma,
    ];
    judge_round(p, input, &[], &[], &words, &[alpha, beta, gamma])?;
    Ok(open_all(p, input, challenges))
}
