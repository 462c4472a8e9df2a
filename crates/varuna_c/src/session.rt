// The verifier's session, kept by the caller as 1,046 words.
ghost use Rattle.std.specs.Prelude.{◌≡◌};
ghost use Rattle.domain.specs.BabyBear.{baby_bear};
ghost use Rattle.protocol.specs.Session.{unopened, open_step, alpha_step, eta_step, beta_step, delta_step, gamma_step, ask_step, commit_step};
ghost use Rattle.verifier.specs.Session.{three_at, session_of, session_words};
ghost use Rattle.c_numbers.specs.Answers.{told, step_answered, verdict_answered, commit_answered};
ghost use Rattle.c_numbers.specs.Inputs.{sizes_in, openings_in};

use c_numbers::answers::{give_commit, give_step, give_verdict};
use c_numbers::inputs::{indexes_in, messages_in, sizes_in, triple};
use varuna::session::{SESSION_WORDS, Session};

// A session before it is opened.
#[unsafe(no_mangle)]
pub extern "C" fn varuna_session_new(session: &mut [u32; SESSION_WORDS])
    ensures { session.new ≡ session_words unopened }
{
    let s = Session::new();
    s.into_words(session);
}

// Opens a session with six sizes and x. Refusals 4, 5, 6, 13.
#[unsafe(no_mangle)]
pub extern "C" fn varuna_session_open(
    session: &mut [u32; SESSION_WORDS],
    sizes: &[u32; 6],
    x: &[u32],
    position: &mut usize,
) -> u32
    ensures { told result position.new session.new
        ≡ step_answered (open_step baby_bear (session_of session.old)
        (sizes_in sizes.now) x.now) session.old }
{
    let s = Session::from_words(session);
    let next = s.open(sizes_in(sizes), x);
    give_step(next.session, next.answer, session, position)
}

// Declared lengths of ŵ, m, h0, then α. Refusals 1, 6, 10, 11.
#[unsafe(no_mangle)]
pub extern "C" fn varuna_session_alpha(
    session: &mut [u32; SESSION_WORDS],
    witness: u32,
    mask: u32,
    row_quotient: u32,
    alpha: u32,
    position: &mut usize,
) -> u32
    ensures { told result position.new session.new
        ≡ step_answered (alpha_step baby_bear (session_of session.old) witness mask row_quotient alpha) session.old }
{
    let s = Session::from_words(session);
    let next = s.alpha(witness, mask, row_quotient, alpha);
    give_step(next.session, next.answer, session, position)
}

// The three σ, then the three η. Refusals 1, 6.
#[unsafe(no_mangle)]
pub extern "C" fn varuna_session_eta(
    session: &mut [u32; SESSION_WORDS],
    sums: &[u32; 3],
    eta: &[u32; 3],
    position: &mut usize,
) -> u32
    ensures { told result position.new session.new
        ≡ step_answered (eta_step baby_bear (session_of session.old)
        (three_at sums.now 0) (three_at eta.now 0)) session.old }
{
    let s = Session::from_words(session);
    let next = s.eta(triple(sums), triple(eta));
    give_step(next.session, next.answer, session, position)
}

// Declared lengths of g1, h1, then β. Refusals 1, 6, 10, 11.
#[unsafe(no_mangle)]
pub extern "C" fn varuna_session_beta(
    session: &mut [u32; SESSION_WORDS],
    remainder: u32,
    quotient: u32,
    beta: u32,
    position: &mut usize,
) -> u32
    ensures { told result position.new session.new
        ≡ step_answered (beta_step baby_bear (session_of session.old) remainder quotient beta) session.old }
{
    let s = Session::from_words(session);
    let next = s.beta(remainder, quotient, beta);
    give_step(next.session, next.answer, session, position)
}

// The three ω and declared lengths of the g_M, then the three δ. Refusals 1, 6, 11.
#[unsafe(no_mangle)]
pub extern "C" fn varuna_session_delta(
    session: &mut [u32; SESSION_WORDS],
    values: &[u32; 3],
    remainders: &[u32; 3],
    delta: &[u32; 3],
    position: &mut usize,
) -> u32
    ensures { told result position.new session.new
        ≡ step_answered (delta_step baby_bear (session_of session.old)
        (three_at values.now 0) (three_at remainders.now 0) (three_at delta.now 0)) session.old }
{
    let s = Session::from_words(session);
    let next = s.delta(triple(values), triple(remainders), triple(delta));
    give_step(next.session, next.answer, session, position)
}

// Declared length of h2, then γ. Refusals 1, 6, 10, 11.
#[unsafe(no_mangle)]
pub extern "C" fn varuna_session_gamma(
    session: &mut [u32; SESSION_WORDS],
    quotient: u32,
    gamma: u32,
    position: &mut usize,
) -> u32
    ensures { told result position.new session.new
        ≡ step_answered (gamma_step baby_bear (session_of session.old) quotient gamma) session.old }
{
    let s = Session::from_words(session);
    let next = s.gamma(quotient, gamma);
    give_step(next.session, next.answer, session, position)
}

// Asks for the verdict on the 21 openings, which is 0 where they are refused, and leaves the session. Refusals 1, 6.
#[unsafe(no_mangle)]
pub extern "C" fn varuna_session_ask(
    session: &[u32; SESSION_WORDS],
    openings: &[u32; 21],
    verdict: &mut u32,
    position: &mut usize,
) -> u32
    ensures { told result position.new verdict.new
        ≡ verdict_answered (ask_step baby_bear (session_of session.now) (openings_in openings.now)).answer }
{
    let s = Session::from_words(session);
    let answer = s.ask(messages_in(openings), indexes_in(openings)).answer;
    give_verdict(answer, verdict, position)
}

// Commits the 21 openings: the verdict that asking gives for them, and the session closed. Refusals 1, 6.
#[unsafe(no_mangle)]
pub extern "C" fn varuna_session_commit(
    session: &mut [u32; SESSION_WORDS],
    openings: &[u32; 21],
    verdict: &mut u32,
    position: &mut usize,
) -> u32
    ensures { told result position.new (session.new, verdict.new)
        ≡ commit_answered (commit_step baby_bear (session_of session.old) (openings_in openings.now))
        session.old }
{
    let s = Session::from_words(session);
    let next = s.commit(messages_in(openings), indexes_in(openings));
    give_commit(next.session, next.answer, session, verdict, position)
}
