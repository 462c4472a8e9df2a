// The verifier's session on messages of the lengths of the table.
ghost use Rattle.std.specs.Prelude.{◌≡◌, ◌≤◌};
ghost use Rattle.domain.specs.Size.{max_size};
ghost use Rattle.protocol.specs.Messages.{lengths};
ghost use Rattle.shared.specs.Meanings.{three, sizes};
ghost use Rattle.shared.specs.Meanings as meanings;
ghost use Rattle.verifier.specs.Session.{session_meaning, openings_answer_meaning};
ghost use Rattle.report.specs.Stages.{after_sums, after_values, answer_after, last_answer};

use circuit::given::Challenges;
use shared::lengths::message_lengths;
use shared::{Opened, Refusal, Sizes, Triple, Verdict};
use varuna::session::Session;

// The session after the σ and η.
fn after_sums(s: Sizes, x: &[u32], alpha: u32, sums: Triple, eta: Triple) -> Session
    requires { s.c ≤ max_size }
    ensures { session_meaning result
        ≡ after_sums (sizes s) (lengths (sizes s)) x.now alpha (three sums) (three eta) }
{
    let due = message_lengths(s);
    let opened = Session::new().open(s, x).session;
    let first = opened
        .alpha(
            due.witness as u32,
            due.mask as u32,
            due.row_quotient as u32,
            alpha,
        )
        .session;
    first.eta(sums, eta).session
}

// The session after the ω and δ.
fn after_values(before: Session, s: Sizes, beta: u32, values: Triple, delta: Triple) -> Session
    ensures { session_meaning result ≡ after_values (session_meaning before) (lengths (sizes s)) beta (three values) (three delta) }
{
    let due = message_lengths(s);
    let third = before
        .beta(due.line_remainder as u32, due.line_quotient as u32, beta)
        .session;
    let g = due.matrix_remainders;
    let remainders = Triple {
        a: g.a as u32,
        b: g.b as u32,
        c: g.c as u32,
    };
    third.delta(values, remainders, delta).session
}

// The answer to the openings, which are asked about and then committed.
fn answer_after(
    before: Session,
    s: Sizes,
    gamma: u32,
    o: Opened,
    index: [[u32; 4]; 3],
) -> Result<Verdict, Refusal>
    ensures { openings_answer_meaning result ≡ answer_after (session_meaning before) (lengths (sizes s)) gamma (meanings.openings o index) }
{
    let due = message_lengths(s);
    let heard = before.gamma(due.joined_quotient as u32, gamma).session;
    let asked = heard.ask(o, index).session;
    asked.commit(o, index).answer
}

// The last of the answers.
pub fn last_answer(
    s: Sizes,
    x: &[u32],
    drawn: Challenges,
    sums: Triple,
    values: Triple,
    o: Opened,
    index: [[u32; 4]; 3],
) -> Result<Verdict, Refusal>
    requires { s.c ≤ max_size }
    ensures { openings_answer_meaning result
        ≡ last_answer (sizes s) (lengths (sizes s)) x.now drawn (three sums) (three values) (meanings.openings o index) }
{
    let summed = after_sums(s, x, drawn.alpha, sums, drawn.eta);
    let valued = after_values(summed, s, drawn.beta, values, drawn.delta);
    answer_after(valued, s, drawn.gamma, o, index)
}
