// Calls on domains and polynomials.
ghost use Rattle.std.specs.Prelude.{◌≡◌, length};
ghost use Rattle.algebra.specs.Polynomial.{running};
ghost use Rattle.domain.specs.BabyBear.{baby_bear};
ghost use Rattle.protocol.specs.Calls.{domain_call, evaluate_call, evaluate_part_call, interpolate_call, evaluate_on_domain_call};
ghost use Rattle.c_numbers.specs.Answers.{told, answered};

use c_numbers::answers::{give_evaluated, give_filled, give_word};
use varuna::answers::Running;

// The n elements of the domain of size n. Refusals 4, 5.
#[unsafe(no_mangle)]
pub extern "C" fn varuna_list_domain(n: u32, elements: &mut [u32], position: &mut usize) -> u32
    ensures { told result position.new elements.new
        ≡ answered (domain_call baby_bear n (length elements.old)) elements.old }
{
    give_filled(varuna::polynomials::list_domain(n, elements), position)
}

// The value at the point of the polynomial with these coefficients, the constant first. Refusals 5, 6.
#[unsafe(no_mangle)]
pub extern "C" fn varuna_evaluate(
    coefficients: &[u32],
    point: u32,
    res: &mut u32,
    position: &mut usize,
) -> u32
    ensures { told result position.new res.new
        ≡ answered (evaluate_call baby_bear coefficients.now point) res.old }
{
    give_word(
        varuna::polynomials::evaluate(coefficients, point),
        res,
        position,
    )
}

// Evaluation taken up midway: the next sum and the next power, after the next part of a list. Refusals 5, 6.
#[unsafe(no_mangle)]
pub extern "C" fn varuna_evaluate_part(
    sum: u32,
    power: u32,
    point: u32,
    part: &[u32],
    next_sum: &mut u32,
    next_power: &mut u32,
    position: &mut usize,
) -> u32
    ensures { told result position.new (running next_sum.new next_power.new)
        ≡ answered (evaluate_part_call baby_bear (running sum power) point part.now) (running next_sum.old next_power.old) }
{
    let so_far = Running { sum, power };
    give_evaluated(
        varuna::polynomials::evaluate_part(so_far, point, part),
        next_sum,
        next_power,
        position,
    )
}

// The n coefficients of the polynomial with these values on the domain of size n. Refusals 4, 5, 6.
#[unsafe(no_mangle)]
pub extern "C" fn varuna_interpolate(
    n: u32,
    values: &[u32],
    coefficients: &mut [u32],
    position: &mut usize,
) -> u32
    ensures { told result position.new coefficients.new
        ≡ answered (interpolate_call baby_bear n values.now (length coefficients.old)) coefficients.old }
{
    give_filled(
        varuna::polynomials::interpolate(n, values, coefficients),
        position,
    )
}

// The values of the polynomial with these n coefficients on the domain of size n, in order. Refusals 4, 5, 6.
#[unsafe(no_mangle)]
pub extern "C" fn varuna_evaluate_on_domain(
    n: u32,
    coefficients: &[u32],
    values: &mut [u32],
    position: &mut usize,
) -> u32
    ensures { told result position.new values.new
        ≡ answered (evaluate_on_domain_call baby_bear n coefficients.now (length values.old)) values.old }
{
    give_filled(
        varuna::polynomials::evaluate_on_domain(n, coefficients, values),
        position,
    )
}
