// Calls on field words.
ghost use Rattle.std.specs.Prelude.{◌≡◌};
ghost use Rattle.domain.specs.BabyBear.{baby_bear};
ghost use Rattle.protocol.specs.Calls.{add_call, subtract_call, multiply_call, power_call, inverse_call};
ghost use Rattle.c_numbers.specs.Answers.{told, answered};

use c_numbers::answers::give_word;

// a + b. Refusal 6.
#[unsafe(no_mangle)]
pub extern "C" fn varuna_add(a: u32, b: u32, res: &mut u32, position: &mut usize) -> u32
    ensures { told result position.new res.new
        ≡ answered (add_call baby_bear a b) res.old }
{
    give_word(varuna::arithmetic::add(a, b), res, position)
}

// a - b. Refusal 6.
#[unsafe(no_mangle)]
pub extern "C" fn varuna_subtract(a: u32, b: u32, res: &mut u32, position: &mut usize) -> u32
    ensures { told result position.new res.new
        ≡ answered (subtract_call baby_bear a b) res.old }
{
    give_word(varuna::arithmetic::subtract(a, b), res, position)
}

// a · b. Refusal 6.
#[unsafe(no_mangle)]
pub extern "C" fn varuna_multiply(a: u32, b: u32, res: &mut u32, position: &mut usize) -> u32
    ensures { told result position.new res.new
        ≡ answered (multiply_call baby_bear a b) res.old }
{
    give_word(varuna::arithmetic::multiply(a, b), res, position)
}

// a^n, for any n. Refusal 6.
#[unsafe(no_mangle)]
pub extern "C" fn varuna_power(a: u32, n: u32, res: &mut u32, position: &mut usize) -> u32
    ensures { told result position.new res.new
        ≡ answered (power_call baby_bear a n) res.old }
{
    give_word(varuna::arithmetic::power(a, n), res, position)
}

// 1/a, for any a but 0. Refusals 6, 12.
#[unsafe(no_mangle)]
pub extern "C" fn varuna_inverse(a: u32, res: &mut u32, position: &mut usize) -> u32
    ensures { told result position.new res.new
        ≡ answered (inverse_call baby_bear a) res.old }
{
    give_word(varuna::arithmetic::inverse(a), res, position)
}
