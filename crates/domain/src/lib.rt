// Sizes, the generator table, and values on domains, on words. The modulus p is a parameter; words of p or more stand for their
// remainders.
#![tactic(auto)]

ghost use Rattle.std.specs.Prelude.{◌≡◌, true, map, ℕ, ◌/◌, ◌<◌, length, take};
ghost use Rattle.algebra.specs.Lists.{tabulate};
ghost use Rattle.algebra.specs.Ring.{pow};
ghost use Rattle.field.specs.Prime.{Prime};
ghost use Rattle.field.specs.Element.{Elem, of, ◌⊗◌, words};
ghost use Rattle.field.specs.Power.{reciprocal};
ghost use Rattle.field.proofs.ElementLaws.{prime_ring};
ghost use Rattle.domain.specs.Size.{is_size, size_for};
ghost use Rattle.domain.specs.Domain.{root, element, domain, inside, vanishing, lagrange};
ghost use Rattle.domain.specs.Polynomial.{eval, interpolate};
ghost use Rattle.domain.specs.Qualifies.{Qualifies};
ghost use Rattle.domain.specs.Known.{Known};

pub const MAX_SIZE: u32 = 1024;

// The generators g_n of the module's prime for n = 1, 2, 4, .., 1,024: `generator_table` of the definitions.
const ROOTS: [u32; 11] = [
    1, 2013265920, 1728404513, 1592366214, 196396260, 760005850, 1721589904, 397765732, 1732600167,
    1753498361, 341742893,
];

// A power of two from 1 to 1,024.
pub fn is_size(n: u32) -> bool
    ensures { result ≡ is_size n }
{
    n <= MAX_SIZE && n.count_ones() == 1
}

// The smallest size not below the count, 1,024 past it.
pub fn size_for(count: u32) -> u32
    ensures { result ≡ size_for count }
{
    if count > MAX_SIZE {
        return MAX_SIZE;
    }
    count.next_power_of_two()
}

// g_n, from the table.
pub fn root_of(p: u32, n: u32) -> u32
    requires { is_size n ≡ true }
    ensures { (q : Prime) → Known q p → result ≡ (root {q = q} n).word }
{
    ROOTS[n.trailing_zeros() as usize]
}

// 1/n of a size n, which divides p - 1: (p - 1)/n times n is -1.
pub fn size_inverse(p: u32, n: u32) -> u32
    requires lt_p { 1 < p }
    requires n_value { is_size n ≡ true }
    ensures { (q : Prime) → Qualifies q → q.p ≡ p → result ≡ (reciprocal (of {q = q} n)).word }
{
    p - (p - 1) / n
}

// 1, g, g², .. into the slice: each is the last one times g.
pub fn fill_powers(p: u32, g: u32, out: &mut [u32])
    requires { 1 < p }
    ensures { (q : Prime) → q.p ≡ p → out.new ≡ words (tabulate (length out.old) (pow (prime_ring q) (of g))) }
{
    let mut power: u32 = 1;
    for place in out.iter_mut() {
        *place = power;
        power = field::multiply(p, power, g);
    }
}

// Element i of a domain from the list of its elements: past the last they begin again.
pub fn listed_element(elements: &[u32], i: u32) -> u32
    requires { 0 < length elements.now }
    ensures { (q : Prime) → Qualifies q → (n : ℕ) → is_size n ≡ true → elements.now ≡ words (domain {q = q} n)
        → result ≡ (element {q = q} n i).word }
{
    let at = i as usize;
    if at < elements.len() {
        return elements[at];
    }
    elements[at % elements.len()]
}

// v_D(y) = y^n - 1
pub fn vanishing_value(p: u32, n: u32, y: u32) -> u32
    requires { 1 < p }
    ensures { (q : Prime) → q.p ≡ p → result ≡ (vanishing n (of {q = q} y)).word }
{
    field::subtract(p, field::raise(p, y, n), 1)
}

// y is in the domain of size n: decided by y^n = 1.
pub fn is_inside(p: u32, n: u32, y: u32) -> bool
    requires lt_p { 1 < p }
    requires n_value { is_size n ≡ true }
    ensures { (q : Prime) → Qualifies q → q.p ≡ p → result ≡ inside n (of {q = q} y) }
{
    field::raise(p, y, n) == 1
}

// The first half of the slice has the Lagrange values of the domain of half its length at y²; the slice gets those of the domain of
// its whole length at y. g is the root of that domain. At its element a = g^i, with x = y/a, the value is (1 + x)/2 times the value of
// the smaller domain at place i; at -a it is what is left of that.
fn double_lagrange(p: u32, g: u32, y: u32, out: &mut [u32])
    requires p_nonzero { 0 < p }
    requires out_value { (is_size (length out.old) ≡ true) × (1 < length out.old) }
    ensures { (q : Prime) → Qualifies q → q.p ≡ p → g ≡ (root {q = q} (length out.old)).word
        → take (length out.old / 2) out.old
        ≡ words (tabulate (length out.old / 2)
        (λ i. lagrange (length out.old / 2) (element (length out.old / 2) i) (of {q = q} y ⊗ of y)))
        → out.new
        ≡ words (tabulate (length out.old)
        (λ i. lagrange (length out.old) (element (length out.old) i) (of {q = q} y))) }
{
    let half = out.len() / 2;
    // 1/2, and x/2 at i = half, where a is -1.
    let share = p / 2 + 1;
    let mut turned = field::multiply(p, y, p / 2);
    for i in (0..half).rev() {
        let whole = out[i];
        turned = field::multiply(p, turned, g);
        let low = field::multiply(p, whole, field::add_reduced(p, turned, share));
        out[i] = low;
        out[half + i] = field::subtract_reduced(p, whole, low);
    }
}

// L_a(y) of every element a of the domain whose size is the slice's length, in order, with no inverse: by doubling from size 1.
pub fn lagrange_values_into(p: u32, y: u32, out: &mut [u32])
    requires lt_p { 1 < p }
    requires out_value { is_size (length out.old) ≡ true }
    ensures { (q : Prime) → Known q p
        → out.new
        ≡ words (tabulate (length out.old)
        (λ i. lagrange (length out.old) (element (length out.old) i) (of {q = q} y))) }
{
    if out.len() == 1 {
        out[0] = 1;
        return;
    }
    let n = out.len() as u32;
    let half = out.len() / 2;
    let g = root_of(p, n);
    lagrange_values_into(p, field::multiply(p, y, y), &mut out[..half]);
    double_lagrange(p, g, y, out);
}

// The value at y of the polynomial that has the given values on a domain: the sum of the values times the domain's Lagrange values at y.
pub fn interpolated_at(p: u32, weights: &[u32], values: &[u32]) -> u32
    requires p_nonzero { 0 < p }
    requires values_len { length values.now ≡ length weights.now }
    ensures { (q : Prime) → Qualifies q → q.p ≡ p → (n : ℕ) → is_size n ≡ true → (y : Elem q)
        → weights.now ≡ words (tabulate n (λ i. lagrange n (element n i) y))
        → result ≡ (eval (interpolate n (map of values.now)) y).word }
{
    let mut sum: u32 = 0;
    for (value, weight) in values.iter().zip(weights) {
        sum = field::multiply_add(p, *value, *weight, sum);
    }
    sum
}
