// The answers of the public calls, handed over in numbers: what is returned, the position, and the results. A call that is done returns 0
// and has the position 0; one that is refused leaves the results as they were, but for a verdict.
ghost use Rattle.std.specs.Prelude.{◌≡◌};
ghost use Rattle.algebra.specs.Polynomial.{running};
ghost use Rattle.shared.specs.Answers.{place};
ghost use Rattle.shared.specs.Meanings.{outcome_by, three, verdict_meaning, sizes as sizesMeaning};
ghost use Rattle.poly.specs.Meanings.{under_way};
ghost use Rattle.openings.specs.OpeningsGiven.{opened_list};
ghost use Rattle.verifier.specs.Session.{session_meaning, answer_by, openings_answer_by};
ghost use Rattle.c_numbers.specs.Answers.{told, answered, three_listed, sizes_listed, step_answered, verdict_answered, commit_answered, verdict_number};

use crate::refusals::Numbered;
use varuna::answers::{AllOpened, Check, Place, Running, Sizes, Three, Triple, Verdict};
use varuna::session::{SESSION_WORDS, Session};

// The number that is returned, and the position: 0 and 0 where the call is done, and otherwise the refusal's.
fn give_number<T: Copy, E: Numbered>(answer: Result<T, E>, position: &mut usize) -> u32
    ensures { told result position.new (tt {0}) ≡ answered (outcome_by E.refusal (λ t. tt) answer) tt }
{
    match answer {
        Ok(_) => {
            *position = 0;
            0
        }
        Err(refusal) => {
            let (number, at) = refusal.numbers();
            *position = at;
            number
        }
    }
}

// One word.
pub fn give_word<E: Numbered>(answer: Result<u32, E>, res: &mut u32, position: &mut usize) -> u32
    ensures { told result position.new res.new ≡ answered (outcome_by E.refusal (λ w. w) answer) res.old }
{
    if let Ok(word) = answer {
        *res = word;
    }
    give_number(answer, position)
}

// The next sum and the next power of an evaluation under way.
pub fn give_evaluated<E: Numbered>(
    answer: Result<Running, E>,
    sum: &mut u32,
    power: &mut u32,
    position: &mut usize,
) -> u32
    ensures { told result position.new (running sum.new power.new)
        ≡ answered (outcome_by E.refusal under_way answer) (running sum.old power.old) }
{
    if let Ok(r) = answer {
        *sum = r.sum;
        *power = r.power;
    }
    give_number(answer, position)
}

// One word for each matrix.
pub fn give_three<E: Numbered>(
    answer: Result<Triple, E>,
    res: &mut [u32; 3],
    position: &mut usize,
) -> u32
    ensures { told result position.new res.new
        ≡ answered (three_listed (outcome_by E.refusal three answer)) res.old }
{
    if let Ok(t) = answer {
        *res = [t.a, t.b, t.c];
    }
    give_number(answer, position)
}

// Slices that were filled already, or left as they were.
pub fn give_filled<E: Numbered>(answer: Result<(), E>, position: &mut usize) -> u32
    ensures { told result position.new tt ≡ answered (outcome_by E.refusal (λ u. u) answer) tt }
{
    give_number(answer, position)
}

// The 21 openings.
pub fn give_openings<E: Numbered>(
    answer: Result<AllOpened, E>,
    res: &mut [u32; 21],
    position: &mut usize,
) -> u32
    ensures { told result position.new res.new ≡ answered (outcome_by E.refusal opened_list answer) res.old }
{
    if let Ok(opened) = answer {
        let o = opened.messages;
        let g = o.matrix_remainders;
        let Three { a, b, c } = opened.index;
        *res = [
            o.witness,
            o.mask,
            o.line_remainder,
            o.line_quotient,
            o.row_quotient,
            o.joined_quotient,
            g.a,
            g.b,
            g.c,
            a.row,
            a.col,
            a.rowcol,
            a.rowcolval,
            b.row,
            b.col,
            b.rowcol,
            b.rowcolval,
            c.row,
            c.col,
            c.rowcol,
            c.rowcolval,
        ];
    }
    give_number(answer, position)
}

// The words of the next session, where the step is taken.
pub fn give_step<E: Numbered>(
    next: Session,
    answer: Result<(), E>,
    session: &mut [u32; SESSION_WORDS],
    position: &mut usize,
) -> u32
    ensures { told result position.new session.new
        ≡ step_answered (record { session = session_meaning next; answer = answer_by E.refusal answer }) session.old }
{
    if let Ok(()) = answer {
        next.into_words(session);
    }
    give_number(answer, position)
}

// What stands for a verdict where there is none.
const NO_VERDICT: u32 = 0;

// The number of a verdict: 1 Accept, 2 Fails Row, 3 Fails Line, 4 Fails Matrix.
fn verdict_number(verdict: Verdict) -> u32
    ensures { result ≡ verdict_number (verdict_meaning verdict) }
{
    match verdict {
        Verdict::Accept => 1,
        Verdict::Fails(Check::Row) => 2,
        Verdict::Fails(Check::Line) => 3,
        Verdict::Fails(Check::Matrix) => 4,
    }
}

// The verdict. Refused openings have none, and this is said over whatever the caller's variable held.
pub fn give_verdict<E: Numbered>(
    answer: Result<Verdict, E>,
    verdict: &mut u32,
    position: &mut usize,
) -> u32
    ensures { told result position.new verdict.new ≡ verdict_answered (openings_answer_by E.refusal answer) }
{
    *verdict = match answer {
        Ok(v) => verdict_number(v),
        Err(_) => NO_VERDICT,
    };
    give_number(answer, position)
}

// The words of the closed session, where the openings are not refused, and the verdict.
pub fn give_commit<E: Numbered>(
    next: Session,
    answer: Result<Verdict, E>,
    session: &mut [u32; SESSION_WORDS],
    verdict: &mut u32,
    position: &mut usize,
) -> u32
    ensures { told result position.new (session.new, verdict.new)
        ≡ commit_answered (record { session = session_meaning next; answer = openings_answer_by E.refusal answer }) session.old }
{
    if let Ok(_) = answer {
        next.into_words(session);
    }
    give_verdict(answer, verdict, position)
}

// The six sizes of a record.
pub fn give_sizes<E: Numbered>(
    answer: Result<Sizes, E>,
    sizes: &mut [u32; 6],
    position: &mut usize,
) -> u32
    ensures { told result position.new sizes.new
        ≡ answered (sizes_listed (outcome_by E.refusal sizesMeaning answer)) sizes.old }
{
    if let Ok(s) = answer {
        let k = s.k;
        *sizes = [s.r, s.c, s.x, k.a, k.b, k.c];
    }
    give_number(answer, position)
}

// Where a section of a record stands.
pub fn give_place<E: Numbered>(
    answer: Result<Place, E>,
    start: &mut usize,
    length: &mut usize,
    position: &mut usize,
) -> u32
    ensures { told result position.new (start.new, length.new)
        ≡ answered (outcome_by E.refusal place answer) (start.old, length.old) }
{
    if let Ok(found) = answer {
        *start = found.start;
        *length = found.length;
    }
    give_number(answer, position)
}
