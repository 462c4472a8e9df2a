// The product of two polynomials of length n, given by their values on the domain of size n, divided by v_D = Y^n - 1: its remainder from
// values on the domain, and its quotient from values on a coset s·D too, on which v_D is the constant s^n - 1. Here root is g_n, and
// powers and quotients are the tables of transforms of length n: for coefficients where nothing else is said.
ghost use Rattle.std.specs.Prelude.{◌≡◌, true, ◌≢◌, map, ◌+◌, ◌≤◌, ◌<◌, length, get_or};
ghost use Rattle.algebra.specs.Lists.{tabulate};
ghost use Rattle.algebra.specs.Ring.{pow};
ghost use Rattle.algebra.specs.Polynomial.{twist};
ghost use Rattle.field.specs.Prime.{Prime};
ghost use Rattle.field.specs.Element.{of, 𝟘, ◌⊗◌, ◌⊖◌, words};
ghost use Rattle.field.proofs.ElementLaws.{prime_ring};
ghost use Rattle.domain.specs.Size.{is_size};
ghost use Rattle.domain.specs.Domain.{root as rootOf};
ghost use Rattle.domain.specs.Polynomial.{Poly, ◌⊠◌, quotient, remainder, values_on};
ghost use Rattle.domain.specs.Qualifies.{Qualifies};
ghost use Rattle.domain.specs.Known.{Known, Modulus, OutsideDomain};
ghost use Rattle.transform.specs.Reading.{ValueTables, CoefficientTables};
ghost use Rattle.transform.specs.Product.{Shift, ProductDivided};

use crate::{evaluate_with, fill_inverse_tables, fill_tables, interpolate_with};

// An element of no domain: the generator.
const SHIFT: u32 = 31;

// The products of the words at each place into the slice.
pub fn products_into(p: u32, left: &[u32], right: &[u32], out: &mut [u32])
    requires p_nonzero { 0 < p }
    requires left_len { (length left.now ≡ length out.old) × (length right.now ≡ length out.old) }
    ensures { (q : Prime) → q.p ≡ p
        → out.new
        ≡ words (tabulate (length out.old)
        (λ i. of {q = q} (get_or left.now i 0) ⊗ of (get_or right.now i 0))) }
{
    for (i, word) in out.iter_mut().enumerate() {
        *word = field::multiply(p, left[i], right[i]);
    }
}

// The remainder of f·g by v_D into the slice, from the values of f and g.
fn remainder_from(
    p: u32,
    powers: &[u32],
    quotients: &[u32],
    left: &[u32],
    right: &[u32],
    out: &mut [u32],
)
    requires lt_p { 1 < p }
    requires out_value { is_size (length out.old) ≡ true }
    requires left_len { (length left.now ≡ length out.old) × (length right.now ≡ length out.old) }
    requires out_in_bounds { (length out.old ≤ length powers.now) × (length out.old ≤ length quotients.now) }
    ensures { (q : Prime) → Qualifies q → q.p ≡ p
        → CoefficientTables q (length out.old) powers.now quotients.now → (f g : Poly q)
        → map of left.now ≡ values_on (length out.old) f
        → map of right.now ≡ values_on (length out.old) g
        → out.new ≡ words (remainder (length out.old) (f ⊠ g)) }
{
    let n = out.len();
    let mut products = [0u32; 1024];
    products_into(p, left, right, &mut products[..n]);
    interpolate_with(p, powers, quotients, &products[..n], out);
}

// f(s·Y) into the slice.
fn twist_into(p: u32, s: u32, f: &[u32], out: &mut [u32])
    requires lt_p { 1 < p }
    requires f_len { length f.now ≡ length out.old }
    ensures { (q : Prime) → q.p ≡ p → out.new ≡ words (twist (prime_ring q) (of s) (map of f.now)) }
{
    let mut power: u32 = 1;
    for (i, word) in out.iter_mut().enumerate() {
        *word = field::multiply(p, power, f[i]);
        power = field::multiply(p, power, s);
    }
}

// The values of f on the coset into the slice: those of f(s·Y) on the domain. The tables are those for values.
fn coset_values_into(p: u32, powers: &[u32], quotients: &[u32], s: u32, f: &[u32], out: &mut [u32])
    requires lt_p { 1 < p }
    requires out_value { is_size (length out.old) ≡ true }
    requires f_len { length f.now ≡ length out.old }
    requires out_in_bounds { (length out.old ≤ length powers.now) × (length out.old ≤ length quotients.now) }
    ensures { (q : Prime) → Qualifies q → q.p ≡ p
        → ValueTables q (length out.old) powers.now quotients.now
        → out.new ≡ words (values_on (length out.old) (twist (prime_ring q) (of s) (map of f.now))) }
{
    let n = out.len();
    let mut twisted = [0u32; 1024];
    twist_into(p, s, f, &mut twisted[..n]);
    evaluate_with(p, powers, quotients, &twisted[..n], out);
}

// The remainder of f(s·Y)·g(s·Y) by v_D into the slice.
fn coset_remainder_into(
    p: u32,
    root: u32,
    powers: &[u32],
    quotients: &[u32],
    s: u32,
    f: &[u32],
    g: &[u32],
    out: &mut [u32],
)
    requires lt_p { 1 < p }
    requires out_value { is_size (length out.old) ≡ true }
    requires f_len { (length f.now ≡ length out.old) × (length g.now ≡ length out.old) }
    requires out_in_bounds { (length out.old ≤ length powers.now) × (length out.old ≤ length quotients.now) }
    ensures { (q : Prime) → Qualifies q → q.p ≡ p → root ≡ (rootOf {q = q} (length out.old)).word
        → CoefficientTables q (length out.old) powers.now quotients.now
        → out.new
        ≡ words (remainder (length out.old)
        (twist (prime_ring q) (of s) (map of f.now) ⊠ twist (prime_ring q) (of s) (map of g.now))) }
{
    let n = out.len();
    let mut value_powers = [0u32; 1024];
    let mut value_quotients = [0u32; 1024];
    fill_tables(p, root, &mut value_powers[..n], &mut value_quotients[..n]);
    let mut left = [0u32; 1024];
    coset_values_into(
        p,
        &value_powers[..n],
        &value_quotients[..n],
        s,
        f,
        &mut left[..n],
    );
    let mut right = [0u32; 1024];
    coset_values_into(
        p,
        &value_powers[..n],
        &value_quotients[..n],
        s,
        g,
        &mut right[..n],
    );
    remainder_from(p, powers, quotients, &left[..n], &right[..n], out);
}

// The i-th word of the second list times the i-th power of s, less that of the first, times the share.
fn combine_into(p: u32, s: u32, share: u32, plain: &[u32], turned: &[u32], out: &mut [u32])
    requires lt_p { 1 < p }
    requires out_in_bounds { (length out.old ≤ length plain.now) × (length out.old ≤ length turned.now) }
    ensures { (q : Prime) → q.p ≡ p
        → out.new
        ≡ words (tabulate (length out.old)
        (λ i. (pow (prime_ring q) (of s) i ⊗ of (get_or turned.now i 0) ⊖ of (get_or plain.now i 0)) ⊗ of share)) }
{
    let mut power: u32 = 1;
    for (i, word) in out.iter_mut().enumerate() {
        let difference = field::subtract(p, field::multiply(p, power, turned[i]), plain[i]);
        *word = field::multiply(p, difference, share);
        power = field::multiply(p, power, s);
    }
}

// The quotient of f·g by v_D from its remainder there and on the coset.
fn quotient_from(p: u32, n: u32, s: u32, plain: &[u32], turned: &[u32], out: &mut [u32])
    requires lt_p { 1 < p }
    requires n_value { is_size n ≡ true }
    requires outside_domain { OutsideDomain p n s × ((q : Prime) → q.p ≡ p → of {q = q} s ≢ 𝟘) }
    requires out_in_bounds { (length out.old ≤ length plain.now) × (length out.old ≤ length turned.now) }
    ensures { (q : Prime) → Qualifies q → q.p ≡ p → Shift n (of {q = q} s)
        → (f g : Poly q) → length (f ⊠ g) ≡ length out.old + n → length out.old ≤ n
        → plain.now ≡ words (remainder n (f ⊠ g))
        → turned.now ≡ words (remainder n (twist (prime_ring q) (of s) f ⊠ twist (prime_ring q) (of s) g))
        → out.new ≡ words (quotient n (f ⊠ g)) }
{
    let share = field::divide(p, 1, domain::vanishing_value(p, n, s));
    let turn = field::divide(p, 1, s);
    combine_into(p, turn, share, plain, turned, out);
}

// The work of the call below, with the tables made.
fn divide_with(
    p: u32,
    root: u32,
    powers: &[u32],
    quotients: &[u32],
    left: &[u32],
    right: &[u32],
    factor: &mut [u32],
    rest: &mut [u32],
    out: &mut [u32],
)
    requires modulus { Modulus p }
    requires left_value { is_size (length left.now) ≡ true }
    requires left_in_bounds { (length left.now ≤ length powers.now) × (length left.now ≤ length quotients.now) }
    requires right_len { (length right.now ≡ length left.now) × (length factor.old ≡ length left.now) }
    requires rest_len { (length rest.old ≡ length left.now) × (length out.old + 1 ≡ length left.now) }
    ensures { (q : Prime) → Known q p → root ≡ (rootOf {q = q} (length left.now)).word
        → CoefficientTables q (length left.now) powers.now quotients.now
        → ProductDivided q left.now right.now factor.new rest.new out.new }
{
    let n = left.len();
    interpolate_with(p, powers, quotients, left, factor);
    let mut other = [0u32; 1024];
    interpolate_with(p, powers, quotients, right, &mut other[..n]);
    remainder_from(p, powers, quotients, left, right, rest);
    let mut turned = [0u32; 1024];
    coset_remainder_into(
        p,
        root,
        powers,
        quotients,
        SHIFT,
        factor,
        &other[..n],
        &mut turned[..n],
    );
    quotient_from(p, n as u32, SHIFT, rest, &turned[..n], out);
}

// With f and g given by their values on the domain of size n: the n coefficients of f, and the remainder (n words) and the quotient
// (n - 1 words) of f·g by v_D.
pub fn divide_product_into(
    p: u32,
    left: &[u32],
    right: &[u32],
    factor: &mut [u32],
    rest: &mut [u32],
    out: &mut [u32],
)
    requires modulus { Modulus p }
    requires left_value { is_size (length left.now) ≡ true }
    requires right_len { (length right.now ≡ length left.now) × (length factor.old ≡ length left.now) }
    requires rest_len { (length rest.old ≡ length left.now) × (length out.old + 1 ≡ length left.now) }
    ensures { (q : Prime) → Known q p
        → ProductDivided q left.now right.now factor.new rest.new out.new }
{
    let n = left.len();
    let root = domain::root_of(p, n as u32);
    let mut powers = [0u32; 1024];
    let mut quotients = [0u32; 1024];
    fill_inverse_tables(p, root, &mut powers[..n], &mut quotients[..n]);
    divide_with(
        p,
        root,
        &powers[..n],
        &quotients[..n],
        left,
        right,
        factor,
        rest,
        out,
    );
}
