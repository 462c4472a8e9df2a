// The prover's rounds.
ghost use Rattle.std.specs.Prelude.{◌≡◌, length};
ghost use Rattle.domain.specs.BabyBear.{baby_bear};
ghost use Rattle.protocol.specs.Calls.{first_round_call, second_round_call, third_round_call, fourth_round_call, fifth_round_call, openings_call};
ghost use Rattle.circuit.specs.Given.{prover_input};
ghost use Rattle.varuna.specs.Inputs.{three_of};
ghost use Rattle.verifier.specs.Session.{three_at};
ghost use Rattle.c_numbers.specs.Answers.{told, answered, three_listed, three_listed_with};

use c_numbers::answers::{give_filled, give_openings, give_three};
use c_numbers::inputs::triple;
use varuna::answers::{Challenges, CircuitWords, ProverInput, Three};

// Round 1: ŵ and h0. Refusals 4 to 8, 13, 9.
#[unsafe(no_mangle)]
pub extern "C" fn varuna_first_round(
    r: u32,
    c: u32,
    x: u32,
    ea: &[u32],
    eb: &[u32],
    ec: &[u32],
    z: &[u32],
    mask: u32,
    m: &[u32],
    witness: &mut [u32],
    row_quotient: &mut [u32],
    position: &mut usize,
) -> u32
    ensures { told result position.new (witness.new, row_quotient.new)
        ≡ answered (first_round_call baby_bear
        (prover_input r c x ea.now eb.now ec.now z.now mask m.now)
        (length witness.old) (length row_quotient.old)) (witness.old, row_quotient.old) }
{
    let matrices = Three {
        a: ea,
        b: eb,
        c: ec,
    };
    let circuit = CircuitWords { r, c, x, matrices };
    let input = ProverInput {
        circuit,
        z,
        mask,
        m,
    };
    let answer = varuna::rounds::first_round(&input, witness, row_quotient);
    give_filled(answer, position)
}

// Round 2: σ_A, σ_B, σ_C. Refusals 4 to 8, 13, 9, 10.
#[unsafe(no_mangle)]
pub extern "C" fn varuna_second_round(
    r: u32,
    c: u32,
    x: u32,
    ea: &[u32],
    eb: &[u32],
    ec: &[u32],
    z: &[u32],
    mask: u32,
    m: &[u32],
    alpha: u32,
    sums: &mut [u32; 3],
    position: &mut usize,
) -> u32
    ensures { told result position.new sums.new
        ≡ answered (three_listed (second_round_call baby_bear
        (prover_input r c x ea.now eb.now ec.now z.now mask m.now)
        alpha)) sums.old }
{
    let matrices = Three {
        a: ea,
        b: eb,
        c: ec,
    };
    let circuit = CircuitWords { r, c, x, matrices };
    let input = ProverInput {
        circuit,
        z,
        mask,
        m,
    };
    let answer = varuna::rounds::second_round(&input, alpha);
    give_three(answer, sums, position)
}

// Round 3: g1 and h1. Refusals 4 to 8, 13, 9, 10.
#[unsafe(no_mangle)]
pub extern "C" fn varuna_third_round(
    r: u32,
    c: u32,
    x: u32,
    ea: &[u32],
    eb: &[u32],
    ec: &[u32],
    z: &[u32],
    mask: u32,
    m: &[u32],
    alpha: u32,
    eta: &[u32; 3],
    remainder: &mut [u32],
    quotient: &mut [u32],
    position: &mut usize,
) -> u32
    ensures { told result position.new (remainder.new, quotient.new)
        ≡ answered (third_round_call baby_bear
        (prover_input r c x ea.now eb.now ec.now z.now mask m.now)
        alpha (three_at eta.now 0) (length remainder.old) (length quotient.old))
        (remainder.old, quotient.old) }
{
    let matrices = Three {
        a: ea,
        b: eb,
        c: ec,
    };
    let circuit = CircuitWords { r, c, x, matrices };
    let input = ProverInput {
        circuit,
        z,
        mask,
        m,
    };
    let answer = varuna::rounds::third_round(&input, alpha, triple(eta), remainder, quotient);
    give_filled(answer, position)
}

// Round 4: ω_A, ω_B, ω_C, and g_A, g_B, g_C. Refusals 4 to 8, 13, 9, 10.
#[unsafe(no_mangle)]
pub extern "C" fn varuna_fourth_round(
    r: u32,
    c: u32,
    x: u32,
    ea: &[u32],
    eb: &[u32],
    ec: &[u32],
    z: &[u32],
    mask: u32,
    m: &[u32],
    alpha: u32,
    eta: &[u32; 3],
    beta: u32,
    ga: &mut [u32],
    gb: &mut [u32],
    gc: &mut [u32],
    values: &mut [u32; 3],
    position: &mut usize,
) -> u32
    ensures { told result position.new
        (values.new, three_of ga.new gb.new gc.new)
        ≡ answered (three_listed_with (fourth_round_call baby_bear
        (prover_input r c x ea.now eb.now ec.now z.now mask m.now)
        alpha (three_at eta.now 0) beta
        (three_of (length ga.old) (length gb.old) (length gc.old))))
        (values.old, three_of ga.old gb.old gc.old) }
{
    let matrices = Three {
        a: ea,
        b: eb,
        c: ec,
    };
    let circuit = CircuitWords { r, c, x, matrices };
    let input = ProverInput {
        circuit,
        z,
        mask,
        m,
    };
    let answer = varuna::rounds::fourth_round(&input, alpha, triple(eta), beta, ga, gb, gc);
    give_three(answer, values, position)
}

// Round 5: h2. Refusals 4 to 8, 13, 9, 10.
#[unsafe(no_mangle)]
pub extern "C" fn varuna_fifth_round(
    r: u32,
    c: u32,
    x: u32,
    ea: &[u32],
    eb: &[u32],
    ec: &[u32],
    z: &[u32],
    mask: u32,
    m: &[u32],
    alpha: u32,
    eta: &[u32; 3],
    beta: u32,
    delta: &[u32; 3],
    quotient: &mut [u32],
    position: &mut usize,
) -> u32
    ensures { told result position.new quotient.new
        ≡ answered (fifth_round_call baby_bear
        (prover_input r c x ea.now eb.now ec.now z.now mask m.now)
        alpha (three_at eta.now 0) beta (three_at delta.now 0) (length quotient.old))
        quotient.old }
{
    let matrices = Three {
        a: ea,
        b: eb,
        c: ec,
    };
    let circuit = CircuitWords { r, c, x, matrices };
    let input = ProverInput {
        circuit,
        z,
        mask,
        m,
    };
    let answer = varuna::rounds::fifth_round(
        &input,
        alpha,
        triple(eta),
        beta,
        triple(delta),
        quotient,
    );
    give_filled(answer, position)
}

// The 21 openings. Refusals 4 to 8, 13, 9, 10.
#[unsafe(no_mangle)]
pub extern "C" fn varuna_openings(
    r: u32,
    c: u32,
    x: u32,
    ea: &[u32],
    eb: &[u32],
    ec: &[u32],
    z: &[u32],
    mask: u32,
    m: &[u32],
    alpha: u32,
    eta: &[u32; 3],
    beta: u32,
    delta: &[u32; 3],
    gamma: u32,
    openings: &mut [u32; 21],
    position: &mut usize,
) -> u32
    ensures { told result position.new openings.new
        ≡ answered (openings_call baby_bear
        (prover_input r c x ea.now eb.now ec.now z.now mask m.now)
        alpha (three_at eta.now 0) beta (three_at delta.now 0) gamma) openings.old }
{
    let matrices = Three {
        a: ea,
        b: eb,
        c: ec,
    };
    let circuit = CircuitWords { r, c, x, matrices };
    let input = ProverInput {
        circuit,
        z,
        mask,
        m,
    };
    let challenges = Challenges {
        alpha,
        eta: triple(eta),
        beta,
        delta: triple(delta),
        gamma,
    };
    let answer = varuna::rounds::openings(&input, &challenges);
    give_openings(answer, openings, position)
}
