// Public calls on field words. Refusal 6 for a word of p or more, then 12 for the inverse of 0.
ghost use Rattle.std.specs.Prelude.{◌≡◌, [], ◌∷◌};
ghost use Rattle.field.specs.Meanings.{inverse_meaning};
ghost use Rattle.domain.specs.BabyBear.{baby_bear};
ghost use Rattle.protocol.specs.Refusals.{word_refusal, inverse_outcome};
ghost use Rattle.protocol.specs.Calls.{add_call, subtract_call, multiply_call, power_call, inverse_call};
ghost use Rattle.shared.specs.Meanings.{refusal_in};
ghost use Rattle.varuna.specs.Answers.{word_meaning};

use field::MODULE_PRIME;
use shared::{Refusal, Row};

fn check_word(a: u32) -> Result<(), Refusal>
    ensures { refusal_in result ≡ word_refusal baby_bear (a ∷ []) }
{
    if a < MODULE_PRIME {
        Ok(())
    } else {
        Err(Refusal(Row::Word, 0))
    }
}

fn check_pair(a: u32, b: u32) -> Result<(), Refusal>
    ensures { refusal_in result ≡ word_refusal baby_bear (a ∷ b ∷ []) }
{
    check_word(a)?;
    if b < MODULE_PRIME {
        Ok(())
    } else {
        Err(Refusal(Row::Word, 1))
    }
}

// a + b. This call and the two below differ in one function of the field: a call that took it as an argument would be no shorter.
pub fn add(a: u32, b: u32) -> Result<u32, Refusal>
    ensures { word_meaning result ≡ add_call baby_bear a b }
{
    check_pair(a, b)?;
    Ok(field::add(MODULE_PRIME, a, b))
}

// a - b
pub fn subtract(a: u32, b: u32) -> Result<u32, Refusal>
    ensures { word_meaning result ≡ subtract_call baby_bear a b }
{
    check_pair(a, b)?;
    Ok(field::subtract(MODULE_PRIME, a, b))
}

// a · b
pub fn multiply(a: u32, b: u32) -> Result<u32, Refusal>
    ensures { word_meaning result ≡ multiply_call baby_bear a b }
{
    check_pair(a, b)?;
    Ok(field::multiply(MODULE_PRIME, a, b))
}

// a^n, for any n
pub fn power(a: u32, n: u32) -> Result<u32, Refusal>
    ensures { word_meaning result ≡ power_call baby_bear a n }
{
    check_word(a)?;
    Ok(field::raise(MODULE_PRIME, a, n))
}

// 1/a, for any a but 0
pub fn inverse(a: u32) -> Result<u32, Refusal>
    ensures { word_meaning result ≡ inverse_call baby_bear a }
{
    check_word(a)?;
    field::invert(MODULE_PRIME, a).ok_or(Refusal(Row::Inverse, 0))
}
