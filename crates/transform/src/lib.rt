// The transform by halves between the coefficients of a polynomial and its values on a domain, on words: it calls itself on half sizes, the
// size falling, down to one element. The modulus p and the root g are parameters; input words of p or more stand for their remainders.
// Results are field words. The powers that halves are joined with come in a table by levels: the h words from place h on are the powers of
// a root of order 2h. A second table has the quotients that prepare products by them. Working memory is arrays of the largest size, of which
// a part is used: there is no heap.
#![tactic(auto)]

ghost use Rattle.std.specs.Prelude.{◌≡◌, true, List, ◌++◌, map, ℕ, ◌+◌, ◌-◌, ◌*◌, ◌/◌, ◌^◌, ◌≤◌, ◌<◌, length};
ghost use Rattle.algebra.specs.Halving.{join as joining, transform as transforming};
ghost use Rattle.field.specs.Prime.{Prime};
ghost use Rattle.field.specs.Element.{Elem, of, words};
ghost use Rattle.field.proofs.ElementLaws.{prime_ring};
ghost use Rattle.domain.specs.Size.{is_size};
ghost use Rattle.domain.specs.Domain.{root};
ghost use Rattle.domain.specs.Polynomial.{values_on, interpolate as interpolation};
ghost use Rattle.domain.specs.Qualifies.{Qualifies};
ghost use Rattle.transform.specs.Reading.{LevelOf, Levels, Prepared, Tables, ValueTables, CoefficientTables, Folded, spread};

pub mod product;

// Each place of a table from the first to the middle takes the word at twice its place, the last of these places first: below the powers of
// a root then stand those of its square, of its fourth power, and so on.
fn fold_levels(powers: &mut [u32])
    ensures { Folded powers.old powers.new }
{
    for j in (1..powers.len() / 2).rev() {
        let twice = j + j;
        powers[j] = powers[twice];
    }
}

// The quotient that prepares a product, for each word of the table.
fn prepare_all(p: u32, powers: &[u32], quotients: &mut [u32])
    requires p_nonzero { 0 < p }
    requires quotients_len { length quotients.old ≡ length powers.now }
    ensures { Prepared p powers.now quotients.new }
{
    for (i, quotient) in quotients.iter_mut().enumerate() {
        *quotient = field::prepare(p, powers[i]);
    }
}

// The tables of a transform with the powers of g, as long as what it transforms.
pub fn fill_tables(p: u32, g: u32, powers: &mut [u32], quotients: &mut [u32])
    requires lt_p { 1 < p }
    requires quotients_len { length quotients.old ≡ length powers.old }
    ensures { (q : Prime) → q.p ≡ p → (k : ℕ) → length powers.old ≡ 2 ^ k
        → Tables q k (of g) powers.new quotients.new }
{
    let half = powers.len() / 2;
    domain::fill_powers(p, g, &mut powers[half..]);
    fold_levels(powers);
    prepare_all(p, powers, quotients);
}

// The tables for the way from values to coefficients; 1/g is the last power of g before 1.
pub fn fill_inverse_tables(p: u32, g: u32, powers: &mut [u32], quotients: &mut [u32])
    requires lt_p { 1 < p }
    requires quotients_len { (length quotients.old ≡ length powers.old) × (is_size (length powers.old) ≡ true) }
    ensures { (q : Prime) → q.p ≡ p → g ≡ (root {q = q} (length powers.old)).word
        → CoefficientTables q (length powers.old) powers.new quotients.new }
{
    let n = powers.len() as u32;
    let last = field::raise(p, g, n - 1);
    fill_tables(p, last, powers, quotients);
}

// The two halves of the slice are joined in place: each i-th word of the second is multiplied by the i-th power of its level, then added to
// the i-th word of the first, and subtracted from it. The first power is 1 and takes no product, so that two words take none at all.
fn join(p: u32, powers: &[u32], quotients: &[u32], out: &mut [u32])
    requires in_bounds { 1 < length out.old }
    requires out_in_bounds { (length out.old ≤ length powers.now) × (length out.old ≤ length quotients.now) }
    ensures { (q : Prime) → q.p ≡ p → p < 2 ^ 31 → (w : Elem q) → LevelOf (length out.old / 2) w powers.now
        → Prepared p powers.now quotients.now
        → (e o : List (Elem q)) → length e ≡ length out.old / 2 → length o ≡ length out.old / 2
        → out.old ≡ words e ++ words o
        → out.new ≡ words (joining (prime_ring q) (length out.old / 2) w e o) }
{
    let half = out.len() / 2;
    let first = out[0];
    let second = out[half];
    out[0] = field::add_reduced(p, first, second);
    out[half] = field::subtract_reduced(p, first, second);
    for i in 1..half {
        let j = half + i;
        let even = out[i];
        let odd = field::multiply_prepared(p, powers[j], quotients[j], out[j]);
        out[i] = field::add_reduced(p, even, odd);
        out[j] = field::subtract_reduced(p, even, odd);
    }
}

// The words of the input at the places from, from + step, .., each times the factor, transformed into the slice. It calls itself on half
// sizes, down to one element: the even ones of these words go into the first half of the slice, the odd ones into the second. Then it
// joins the halves.
fn transform(
    p: u32,
    factor: u32,
    powers: &[u32],
    quotients: &[u32],
    input: &[u32],
    from: usize,
    step: usize,
    out: &mut [u32],
)
    requires p_nonzero { 0 < p }
    requires out_value { is_size (length out.old) ≡ true }
    requires out_in_bounds { from + step * (length out.old - 1) < length input.now }
    requires out_in_bounds_2 { (length out.old ≤ length powers.now) × (length out.old ≤ length quotients.now) }
    ensures { (q : Prime) → q.p ≡ p → p < 2 ^ 31 → (w : Elem q) (k : ℕ) → length out.old ≡ 2 ^ k
        → Levels k w powers.now → Prepared p powers.now quotients.now
        → out.new ≡ words (transforming (prime_ring q) k w (spread factor input.now from step (2 ^ k))) }
{
    if out.len() == 1 {
        out[0] = field::multiply(p, factor, input[from]);
        return;
    }
    let half = out.len() / 2;
    let twice = step + step;
    let next = from + step;
    transform(
        p,
        factor,
        powers,
        quotients,
        input,
        from,
        twice,
        &mut out[..half],
    );
    transform(
        p,
        factor,
        powers,
        quotients,
        input,
        next,
        twice,
        &mut out[half..],
    );
    join(p, powers, quotients, out);
}

// The values of the polynomial f of length n on the domain of size n into the slice, with the tables of g_n.
pub fn evaluate_with(p: u32, powers: &[u32], quotients: &[u32], f: &[u32], out: &mut [u32])
    requires lt_p { 1 < p }
    requires out_len { (length out.old ≡ length f.now) × (is_size (length f.now) ≡ true) }
    requires f_in_bounds { (length f.now ≤ length powers.now) × (length f.now ≤ length quotients.now) }
    ensures { (q : Prime) → Qualifies q → q.p ≡ p
        → ValueTables q (length f.now) powers.now quotients.now
        → out.new ≡ words (values_on (length f.now) (map (of {q = q}) f.now)) }
{
    transform(p, 1, powers, quotients, f, 0, 1, out);
}

// The polynomial with the given values on the domain of size n into the slice, with the tables of 1/g_n.
pub fn interpolate_with(p: u32, powers: &[u32], quotients: &[u32], values: &[u32], out: &mut [u32])
    requires lt_p { 1 < p }
    requires out_len { (length out.old ≡ length values.now) × (is_size (length values.now) ≡ true) }
    requires values_in_bounds { (length values.now ≤ length powers.now) × (length values.now ≤ length quotients.now) }
    ensures { (q : Prime) → Qualifies q → q.p ≡ p
        → CoefficientTables q (length values.now) powers.now quotients.now
        → out.new ≡ words (interpolation (length values.now) (map (of {q = q}) values.now)) }
{
    let share = domain::size_inverse(p, values.len() as u32);
    transform(p, share, powers, quotients, values, 0, 1, out);
}

// The values of the polynomial f of length n on the domain of size n into the slice; g is the root g_n. It differs from the call below in
// which tables it makes and in the factor: one call for both would take these as arguments, and be no plainer.
pub fn evaluate_into(p: u32, g: u32, f: &[u32], out: &mut [u32])
    requires lt_p { 1 < p }
    requires out_len { (length out.old ≡ length f.now) × (is_size (length f.now) ≡ true) }
    ensures { (q : Prime) → Qualifies q → q.p ≡ p → g ≡ (root {q = q} (length f.now)).word
        → out.new ≡ words (values_on (length f.now) (map (of {q = q}) f.now)) }
{
    let n = f.len();
    let mut powers = [0u32; 1024];
    let mut quotients = [0u32; 1024];
    fill_tables(p, g, &mut powers[..n], &mut quotients[..n]);
    evaluate_with(p, &powers[..n], &quotients[..n], f, out);
}

// The polynomial with the given values on the domain of size n into the slice; g is the root g_n.
pub fn interpolate_into(p: u32, g: u32, values: &[u32], out: &mut [u32])
    requires lt_p { 1 < p }
    requires out_len { (length out.old ≡ length values.now) × (is_size (length values.now) ≡ true) }
    ensures { (q : Prime) → Qualifies q → q.p ≡ p → g ≡ (root {q = q} (length values.now)).word
        → out.new ≡ words (interpolation (length values.now) (map (of {q = q}) values.now)) }
{
    let n = values.len();
    let mut powers = [0u32; 1024];
    let mut quotients = [0u32; 1024];
    fill_inverse_tables(p, g, &mut powers[..n], &mut quotients[..n]);
    interpolate_with(p, &powers[..n], &quotients[..n], values, out);
}
