// Public calls on domains and polynomials. Refusals 4 for a size, 5 for a length, 6 for a word of p or more.
ghost use Rattle.std.specs.Prelude.{◌≡◌, [], ◌∷◌, ◌++◌, length};
ghost use Rattle.domain.specs.BabyBear.{baby_bear};
ghost use Rattle.poly.specs.Meanings.{under_way};
ghost use Rattle.protocol.specs.Calls.{domain_call, evaluation_refusal, evaluate_call, evaluate_part_call};
ghost use Rattle.protocol.specs.Calls.{transform_refusal, interpolate_call, evaluate_on_domain_call};
ghost use Rattle.shared.specs.Meanings.{refusal_in};
ghost use Rattle.varuna.specs.Answers.{word_meaning, evaluated_meaning, filled_meaning, filling, fills};

use field::MODULE_PRIME;
use poly::Running;
use shared::scans::judge_words;
use shared::{Refusal, Row};

// The most words to evaluate.
const MAX_WORDS: usize = 2048;

// The n elements of a domain in order into a slice of n words. Refusals: 4 for n, 5 for the slice.
pub fn list_domain(n: u32, out: &mut [u32]) -> Result<(), Refusal>
    ensures { filling (filled_meaning result) out.new ≡ fills (domain_call baby_bear n (length out.old)) out.old }
{
    if !domain::is_size(n) {
        return Err(Refusal(Row::Size, 0));
    }
    if out.len() != n as usize {
        return Err(Refusal(Row::List, 0));
    }
    domain::fill_powers(MODULE_PRIME, domain::root_of(MODULE_PRIME, n), out);
    Ok(())
}

// 5 for the coefficients, then 6 for a coefficient, then 6 for the point.
fn judge_evaluation(f: &[u32], y: u32) -> Result<(), Refusal>
    ensures { refusal_in result ≡ evaluation_refusal baby_bear (length f.now) (f.now ++ (y ∷ [])) }
{
    if f.len() > MAX_WORDS {
        return Err(Refusal(Row::List, 0));
    }
    judge_words(MODULE_PRIME, 0, f)?;
    if y < MODULE_PRIME {
        Ok(())
    } else {
        Err(Refusal(Row::Word, f.len()))
    }
}

// The value at y of the polynomial with coefficients f, the constant first. Refusals: 5 over 2,048 words, 6 for a word.
pub fn evaluate(f: &[u32], y: u32) -> Result<u32, Refusal>
    ensures { word_meaning result ≡ evaluate_call baby_bear f.now y }
{
    judge_evaluation(f, y)?;
    Ok(poly::evaluate(MODULE_PRIME, f, y))
}

// 5 for the part, then 6 for the sum, the power and the point, then 6 for a coefficient.
fn judge_part(running: Running, y: u32, part: &[u32]) -> Result<(), Refusal>
    ensures { refusal_in result
        ≡ evaluation_refusal baby_bear (length part.now) (running.sum ∷ running.power ∷ y ∷ part.now) }
{
    if part.len() > MAX_WORDS {
        return Err(Refusal(Row::List, 0));
    }
    let words = [running.sum, running.power, y];
    judge_words(MODULE_PRIME, 0, &words)?;
    judge_words(MODULE_PRIME, 3, part)
}

// Evaluation at y taken up midway, with the next part of a list, from any sum and power: the next sum and the next power. Begun with 0
// and 1 and given the parts of a list in order, it ends at the list's value. Refusals: 5 over 2,048 words, 6 for a word.
pub fn evaluate_part(running: Running, y: u32, part: &[u32]) -> Result<Running, Refusal>
    ensures { evaluated_meaning result ≡ evaluate_part_call baby_bear (under_way running) y part.now }
{
    judge_part(running, y, part)?;
    Ok(poly::evaluate_part(MODULE_PRIME, running, y, part))
}

// 4 for n, 5 for the list and the lent slice, 6 for a word.
fn judge_transform(n: u32, words: &[u32], lent: usize) -> Result<(), Refusal>
    ensures { refusal_in result ≡ transform_refusal baby_bear n words.now lent }
{
    if !domain::is_size(n) {
        return Err(Refusal(Row::Size, 0));
    }
    if words.len() != n as usize {
        return Err(Refusal(Row::List, 0));
    }
    if lent != n as usize {
        return Err(Refusal(Row::List, 1));
    }
    judge_words(MODULE_PRIME, 0, words)
}

// The n coefficients of the polynomial with the given values on the domain of size n into a slice. Refusals: 4 for n, 5 for the
// values and the slice, 6 for a value. Given what `evaluate_on_domain` answers, it answers what that was given.
pub fn interpolate(n: u32, values: &[u32], out: &mut [u32]) -> Result<(), Refusal>
    ensures { filling (filled_meaning result) out.new
        ≡ fills (interpolate_call baby_bear n values.now (length out.old)) out.old }
{
    judge_transform(n, values, out.len())?;
    let root = domain::root_of(MODULE_PRIME, n);
    transform::interpolate_into(MODULE_PRIME, root, values, out);
    Ok(())
}

// The values of the polynomial with the given n coefficients on the domain of size n, in order, into a slice. Refusals: 4 for n, 5 for
// the coefficients and the slice, 6 for a coefficient. Given what `interpolate` answers, it answers what that was given.
pub fn evaluate_on_domain(n: u32, f: &[u32], out: &mut [u32]) -> Result<(), Refusal>
    ensures { filling (filled_meaning result) out.new
        ≡ fills (evaluate_on_domain_call baby_bear n f.now (length out.old)) out.old }
{
    judge_transform(n, f, out.len())?;
    let root = domain::root_of(MODULE_PRIME, n);
    transform::evaluate_into(MODULE_PRIME, root, f, out);
    Ok(())
}
