// What refuses each step of the session, in the order of the table. A step stops at its first refusal, and none is in turn unless the
// sizes are allowed.
ghost use Rattle.std.specs.Prelude.{◌≡◌, true, map, ◌<◌, ltb, length};
ghost use Rattle.field.specs.Prime.{Prime};
ghost use Rattle.domain.specs.Size.{is_size, max_size};
ghost use Rattle.domain.specs.Qualifies.{Qualifies};
ghost use Rattle.protocol.specs.Index.{list_index};
ghost use Rattle.protocol.specs.Checks.{list_openings};
ghost use Rattle.protocol.specs.Refusals.{refuse, turn_refusal, word_refusal, length_refusal};
ghost use Rattle.protocol.proofs.AllowedSizes.{Allowed};
ghost use Rattle.protocol.specs.Session.{in_turn, open_refusal, alpha_refusal, eta_refusal, beta_refusal, delta_refusal, gamma_refusal, openings_refusal};
ghost use Rattle.shared.specs.Meanings.{refusal_in, three, sizes, transcript, index_words, openings};
ghost use Rattle.step_refusals.specs.ChallengeStep.{challenge_step};

use crate::holdings::left_by_steps;
use shared::constant::judge_constant;
use shared::lengths::message_lengths;
use shared::scans::judge_words;
use shared::six_sizes::{judge_sizes, largest};
use shared::{Opened, Refusal, Row, Sizes, Transcript, Triple};

// The step after the first n is in turn.
fn in_turn(n: u32, stage: u32, s: Sizes) -> bool
    ensures { result ≡ in_turn n stage (sizes s) }
{
    stage == n && judge_sizes(Row::Size, 0, s).is_ok()
}

// 1: the step after the first n is out of turn.
fn judge_turn(n: u32, stage: u32, s: Sizes) -> Result<(), Refusal>
    ensures { refusal_in result ≡ turn_refusal (in_turn n stage (sizes s)) }
{
    if in_turn(n, stage, s) {
        Ok(())
    } else {
        Err(Refusal(Row::Turn, 0))
    }
}

// 11: a declared length is above the table's.
fn judge_lengths(declared: &[u32], most: &[usize]) -> Result<(), Refusal>
    requires { length most.now ≡ length declared.now }
    ensures { refusal_in result ≡ length_refusal declared.now most.now }
{
    for (i, length) in declared.iter().enumerate() {
        if most[i] < *length as usize {
            return Err(Refusal(Row::Length, i));
        }
    }
    Ok(())
}

// 1, 6, 10 and 11 of a step with a challenge, the one after the first `taken`: it is out of turn; y is no field word, or lies in the domain
// of size n; a declared length is above the table's.
fn judge_challenge(
    p: u32,
    taken: u32,
    stage: u32,
    s: Sizes,
    position: usize,
    n: u32,
    y: u32,
    declared: &[u32],
    most: &[usize],
) -> Result<(), Refusal>
    requires lt_p { 1 < p }
    requires n_value { Allowed (sizes s) → is_size n ≡ true }
    requires most_len { length most.now ≡ length declared.now }
    ensures { (q : Prime) → Qualifies q → q.p ≡ p
        → refusal_in result ≡ challenge_step q taken stage (sizes s) position n y declared.now most.now }
{
    judge_turn(taken, stage, s)?;
    if p <= y {
        return Err(Refusal(Row::Word, 0));
    }
    if domain::is_inside(p, n, y) {
        return Err(Refusal(Row::Challenge, position));
    }
    judge_lengths(declared, most)
}

pub fn judge_open(p: u32, s: Sizes, x: &[u32]) -> Result<(), Refusal>
    ensures { (q : Prime) → q.p ≡ p → refusal_in result ≡ open_refusal q (sizes s) x.now }
{
    judge_sizes(Row::Size, 0, s)?;
    if x.len() != s.x as usize {
        return Err(Refusal(Row::List, 0));
    }
    judge_words(p, 0, x)?;
    judge_constant(x)
}

pub fn judge_alpha(
    p: u32,
    stage: u32,
    s: Sizes,
    witness: u32,
    mask: u32,
    quotient: u32,
    alpha: u32,
) -> Result<(), Refusal>
    requires { 1 < p }
    ensures { (q : Prime) → Qualifies q → q.p ≡ p → refusal_in result ≡ alpha_refusal q stage (sizes s) witness mask quotient alpha }
{
    let table = message_lengths(s);
    let declared = [witness, mask, quotient];
    let most = [table.witness, table.mask, table.row_quotient];
    judge_challenge(p, 1, stage, s, 0, s.r, alpha, &declared, &most)
}

pub fn judge_eta(p: u32, stage: u32, s: Sizes, sums: Triple, eta: Triple) -> Result<(), Refusal>
    ensures { (q : Prime) → q.p ≡ p → refusal_in result ≡ eta_refusal q stage (sizes s) (three sums) (three eta) }
{
    judge_turn(2, stage, s)?;
    let words = [sums.a, sums.b, sums.c, eta.a, eta.b, eta.c];
    judge_words(p, 0, &words)
}

pub fn judge_beta(
    p: u32,
    stage: u32,
    s: Sizes,
    remainder: u32,
    quotient: u32,
    beta: u32,
) -> Result<(), Refusal>
    requires { 1 < p }
    ensures { (q : Prime) → Qualifies q → q.p ≡ p → refusal_in result ≡ beta_refusal q stage (sizes s) remainder quotient beta }
{
    let table = message_lengths(s);
    let declared = [remainder, quotient];
    let most = [table.line_remainder, table.line_quotient];
    judge_challenge(p, 3, stage, s, 1, s.c, beta, &declared, &most)
}

pub fn judge_delta(
    p: u32,
    stage: u32,
    s: Sizes,
    values: Triple,
    remainders: Triple,
    delta: Triple,
) -> Result<(), Refusal>
    ensures { (q : Prime) → q.p ≡ p → refusal_in result ≡ delta_refusal q stage (sizes s) (three values) (three remainders) (three delta) }
{
    judge_turn(4, stage, s)?;
    let words = [values.a, values.b, values.c, delta.a, delta.b, delta.c];
    judge_words(p, 0, &words)?;
    let table = message_lengths(s).matrix_remainders;
    let declared = [remainders.a, remainders.b, remainders.c];
    let most = [table.a, table.b, table.c];
    judge_lengths(&declared, &most)
}

pub fn judge_gamma(p: u32, stage: u32, s: Sizes, quotient: u32, gamma: u32) -> Result<(), Refusal>
    requires { 1 < p }
    ensures { (q : Prime) → Qualifies q → q.p ≡ p → refusal_in result ≡ gamma_refusal q stage (sizes s) quotient gamma }
{
    let declared = [quotient];
    let most = [message_lengths(s).joined_quotient];
    judge_challenge(p, 5, stage, s, 2, largest(s.k), gamma, &declared, &most)
}

// 6, for the four openings of one matrix's index polynomials.
fn judge_index(p: u32, position: usize, index: [u32; 4]) -> Result<(), Refusal>
    requires { position < 32 }
    ensures { refusal_in result ≡ refuse 6 position (map (λ w. ltb w p) (list_index (index_words index))) }
{
    judge_words(p, position, &index)
}

// 6, for the 21 openings.
fn judge_opened(p: u32, o: Opened, index: [[u32; 4]; 3]) -> Result<(), Refusal>
    ensures { (q : Prime) → q.p ≡ p → refusal_in result ≡ word_refusal q (list_openings (openings o index)) }
{
    let g = o.matrix_remainders;
    let words = [
        o.witness,
        o.mask,
        o.line_remainder,
        o.line_quotient,
        o.row_quotient,
        o.joined_quotient,
        g.a,
        g.b,
        g.c,
    ];
    judge_words(p, 0, &words)?;
    judge_index(p, 9, index[0])?;
    judge_index(p, 13, index[1])?;
    judge_index(p, 17, index[2])
}

// The verdict is given only on what steps leave: x is the session's, and t its transcript.
pub fn judge_openings(
    p: u32,
    stage: u32,
    s: Sizes,
    x: &[u32],
    t: Transcript,
    o: Opened,
    index: [[u32; 4]; 3],
) -> Result<(), Refusal>
    requires lt_p { 1 < p }
    requires x_len { length x.now ≡ max_size }
    ensures { (q : Prime) → Qualifies q → q.p ≡ p
        → refusal_in result
        ≡ openings_refusal q (record { stage = stage; sizes = sizes s; x = x.now; transcript = transcript t }) (openings o index) }
{
    judge_turn(6, stage, s)?;
    if !left_by_steps(p, s, x, t) {
        return Err(Refusal(Row::Turn, 0));
    }
    judge_opened(p, o, index)
}
