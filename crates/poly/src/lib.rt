// Polynomials over the field as slices of words, the constant first. The modulus p is a parameter; words of p or more stand for
// their remainders. Results are field words.
#![tactic(auto)]

ghost use Rattle.std.specs.Prelude.{◌≡◌, ◌+◌, ◌-◌, ◌^◌, ◌<◌, ◌≤◌, length, get_or, drop, replicate};
ghost use mathlib.Core.List.{◌++◌, map, tail};
ghost use Rattle.algebra.specs.Polynomial.{map_running};
ghost use Rattle.field.specs.Prime.{Prime};
ghost use Rattle.field.specs.Element.{of, 𝟘, word_of, words};
ghost use Rattle.domain.specs.Polynomial.{eval, eval_part, ◌⊞◌, ◌·◌, quotient, remainder};
ghost use Rattle.poly.specs.Meanings.{under_way};

// An evaluation under way: the sum so far, and the power of the point that the next coefficient is multiplied by.
#[derive(Clone, Copy)]
pub struct Running {
    pub sum: u32,
    pub power: u32,
}

// Evaluation at x taken up midway, with the next part of a list: each coefficient takes the power as it stands, and the power is then
// multiplied once by x. The sum and the power are words below p.
pub fn evaluate_part(p: u32, running: Running, x: u32, part: &[u32]) -> Running
    requires { 0 < p }
    ensures { (q : Prime) → q.p ≡ p → (running.sum < p) × (running.power < p)
        → under_way result ≡ map_running word_of (eval_part (map_running of (under_way running)) (of {q = q} x) (map of part.now)) }
{
    let mut sum = running.sum;
    let mut power = running.power;
    for coefficient in part {
        sum = field::multiply_add(p, power, *coefficient, sum);
        power = field::multiply(p, power, x);
    }
    Running { sum, power }
}

// f(x): evaluation begun with 0 and 1.
pub fn evaluate(p: u32, f: &[u32], x: u32) -> u32
    requires { 0 < p }
    ensures { (q : Prime) → q.p ≡ p → result ≡ (eval (map of f.now) (of {q = q} x)).word }
{
    let begun = Running { sum: 0, power: 1 };
    let end = evaluate_part(p, begun, x, f);
    end.sum
}

// The word of s at i, 0 past its end.
pub fn word_or_zero(s: &[u32], i: usize) -> u32
    ensures { result ≡ get_or s.now i 0 }
{
    s.get(i).copied().unwrap_or(0)
}

// Zeros into the slice.
pub fn clear(out: &mut [u32])
    ensures { out.new ≡ replicate (length out.old) 0 }
{
    out.fill(0);
}

// f + k·g into f, where g is not longer.
pub fn add_scaled(p: u32, f: &mut [u32], k: u32, g: &[u32])
    requires p_nonzero { 0 < p }
    requires g_in_bounds { length g.now ≤ length f.old }
    ensures { (q : Prime) → q.p ≡ p
        → f.new ≡ words (map of f.old ⊞ of {q = q} k · map of g.now) }
{
    for (i, word) in f.iter_mut().enumerate() {
        *word = field::multiply_add(p, k, word_or_zero(g, i), *word);
    }
}

// The quotient by Y^n - 1 into the slice, of length |f| - n.
pub fn quotient_into(p: u32, n: usize, f: &[u32], out: &mut [u32])
    requires p_nonzero { 0 < p }
    requires n_nonzero { 0 < n }
    requires out_len { length out.old ≡ length f.now - n }
    ensures { (q : Prime) → q.p ≡ p → out.new ≡ words (quotient n (map (of {q = q}) f.now)) }
{
    for i in (0..out.len()).rev() {
        let carried = word_or_zero(out, i + n);
        out[i] = field::add(p, f[i + n], carried);
    }
}

// Coefficient `at` of the remainder by Y^n - 1: the sum of each n-th coefficient of f from there on.
fn folded(p: u32, n: usize, f: &[u32], at: usize) -> u32
    requires p_nonzero { 0 < p }
    requires at_lt_n { (at < n) × (n < 2 ^ 63) }
    ensures { (q : Prime) → q.p ≡ p → result ≡ (get_or (remainder n (map of f.now)) at (𝟘 {q = q})).word }
{
    let mut sum: u32 = 0;
    for part in f.chunks(n) {
        sum = field::add(p, sum, word_or_zero(part, at));
    }
    sum
}

// The remainder by Y^n - 1 into the slice, of length n.
pub fn remainder_into(p: u32, f: &[u32], out: &mut [u32])
    requires p_nonzero { 0 < p }
    requires out_nonzero { 0 < length out.old }
    ensures { (q : Prime) → q.p ≡ p
        → out.new ≡ words (remainder (length out.old) (map (of {q = q}) f.now)) }
{
    let n = out.len();
    for (i, word) in out.iter_mut().enumerate() {
        *word = folded(p, n, f, i);
    }
}

// All coefficients but the constant.
pub fn copy_tail(words: &[u32], out: &mut [u32])
    requires { length words.now ≡ length out.old + 1 }
    ensures { out.new ≡ tail words.now }
{
    out.copy_from_slice(&words[1..]);
}

// The words over the front of the slice; what stands after them stays. It is a loop, since a copy of slices that may lie anywhere makes the
// archive for C call memmove.
pub fn copy_front(words: &[u32], out: &mut [u32])
    requires { length words.now ≤ length out.old }
    ensures { out.new ≡ words.now ++ drop (length words.now) out.old }
{
    for i in 0..words.len() {
        out[i] = words[i];
    }
}
