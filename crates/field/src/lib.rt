// The prime field on words. The modulus p is a parameter of every function; a contract holds for each prime of that value.
// Any words are taken: a word of p or more stands for its remainder.
#![tactic(auto)]

ghost use Rattle.std.specs.Prelude.{◌≡◌, ◌*◌, ◌/◌, ◌%◌, ◌^◌, ◌<◌, ◌≢◌};
ghost use Rattle.std.proofs.Math.Option.{map};
ghost use Rattle.field.specs.Prime.{Prime};
ghost use Rattle.field.specs.Element.{of, 𝟘, ◌⊕◌, ◌⊗◌, ◌⊖◌, word_of};
ghost use Rattle.field.specs.Power.{power, inverse, ◌⊘◌};
ghost use Rattle.field.specs.Meanings.{inverse_meaning};

// The module's prime.
pub const MODULE_PRIME: u32 = 2013265921;

// x modulo p. The module's prime has a branch of its own, here and in `prepare`: the remainder by a constant needs no division.
fn reduce(p: u32, x: u64) -> u32
    requires { 0 < p }
    ensures { result ≡ x % p }
{
    if p == MODULE_PRIME {
        (x % u64::from(MODULE_PRIME)) as u32
    } else {
        (x % u64::from(p)) as u32
    }
}

pub fn add(p: u32, a: u32, b: u32) -> u32
    requires { 0 < p }
    ensures { (q : Prime) → q.p ≡ p → result ≡ (of {q = q} a ⊕ of b).word }
{
    reduce(p, u64::from(a) + u64::from(b))
}

pub fn subtract(p: u32, a: u32, b: u32) -> u32
    requires { 0 < p }
    ensures { (q : Prime) → q.p ≡ p → result ≡ (of {q = q} a ⊖ of b).word }
{
    let low = reduce(p, u64::from(b));
    reduce(p, u64::from(a) + u64::from(p - low))
}

pub fn multiply(p: u32, a: u32, b: u32) -> u32
    requires { 0 < p }
    ensures { (q : Prime) → q.p ≡ p → result ≡ (of {q = q} a ⊗ of b).word }
{
    reduce(p, u64::from(a) * u64::from(b))
}

// a·b + c, with one division.
pub fn multiply_add(p: u32, a: u32, b: u32, c: u32) -> u32
    requires { 0 < p }
    ensures { (q : Prime) → q.p ≡ p → result ≡ (of {q = q} a ⊗ of b ⊕ of c).word }
{
    reduce(p, u64::from(a) * u64::from(b) + u64::from(c))
}

// What a product by w needs in place of a division, for a word w below p: w·2^32 divided by p.
pub fn prepare(p: u32, w: u32) -> u32
    requires { 0 < p }
    ensures { w < p → result ≡ w * 4294967296 / p }
{
    let shifted = u64::from(w) * 4294967296;
    if p == MODULE_PRIME {
        (shifted / u64::from(MODULE_PRIME) % 4294967296) as u32
    } else {
        (shifted / u64::from(p) % 4294967296) as u32
    }
}

// w·x for a word w below p < 2^31 with its prepared quotient: quotient·x / 2^32 is at most one less than w·x / p.
pub fn multiply_prepared(p: u32, w: u32, quotient: u32, x: u32) -> u32
    ensures { (q : Prime) → q.p ≡ p → p < 2 ^ 31 → w < p → quotient ≡ w * 4294967296 / p → result ≡ (of {q = q} w ⊗ of x).word }
{
    let estimate = u64::from(quotient) * u64::from(x) / 4294967296;
    let rest = (u64::from(w) * u64::from(x)).wrapping_sub(estimate * u64::from(p));
    let low = (rest % 4294967296) as u32;
    if low < p { low } else { low - p }
}

// a + b of words below p, with no division.
pub fn add_reduced(p: u32, a: u32, b: u32) -> u32
    ensures { (q : Prime) → q.p ≡ p → (a < p) × (b < p) → result ≡ (of {q = q} a ⊕ of b).word }
{
    let room = p.wrapping_sub(b);
    if a < room {
        a.wrapping_add(b)
    } else {
        a - room
    }
}

// a - b of words below p, with no division.
pub fn subtract_reduced(p: u32, a: u32, b: u32) -> u32
    ensures { (q : Prime) → q.p ≡ p → (a < p) × (b < p) → result ≡ (of {q = q} a ⊖ of b).word }
{
    if b <= a { a - b } else { p.wrapping_sub(b - a) }
}

// a^n, by squaring.
pub fn raise(p: u32, a: u32, n: u32) -> u32
    requires { 1 < p }
    ensures { (q : Prime) → q.p ≡ p → result ≡ (power (of {q = q} a) n).word }
{
    let mut base = a;
    let mut rest = n;
    let mut result: u32 = 1;
    while 0 < rest {
        if rest % 2 == 1 {
            result = multiply(p, result, base);
        }
        base = multiply(p, base, base);
        rest /= 2;
    }
    result
}

// a/b, for a divisor that is not 0.
pub fn divide(p: u32, a: u32, b: u32) -> u32
    requires lt_p { 1 < p }
    requires b_nonzero { (q : Prime) → q.p ≡ p → of {q = q} b ≢ 𝟘 }
    ensures { (q : Prime) → q.p ≡ p → result ≡ (of {q = q} a ⊘ of b).word }
{
    multiply(p, a, raise(p, b, p - 2))
}

// 1/a; none for 0.
pub fn invert(p: u32, a: u32) -> Option<u32>
    requires { 1 < p }
    ensures { (q : Prime) → q.p ≡ p → inverse_meaning result ≡ map word_of (inverse (of {q = q} a)) }
{
    if reduce(p, u64::from(a)) == 0 {
        return None;
    }
    Some(raise(p, a, p - 2))
}
