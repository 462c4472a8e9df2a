// The three checks and the verdict. Any words are taken: a word of p or more stands for its remainder. No loop runs over R, C or K.
// A check's contract is for every x, and for all openings of the index polynomials, where the check reads none.
#![tactic(auto)]

ghost use Rattle.std.specs.Prelude.{◌≡◌, true, List, map, ℕ, ◌<◌, length};
ghost use Rattle.field.specs.Prime.{Prime};
ghost use Rattle.field.specs.Element.{Elem, of, ◌⊗◌};
ghost use Rattle.domain.specs.Size.{is_size};
ghost use Rattle.domain.specs.Domain.{vanishing};
ghost use Rattle.domain.specs.Polynomial.{eval, interpolate};
ghost use Rattle.domain.specs.Qualifies.{Qualifies};
ghost use Rattle.domain.specs.Known.{Known, Modulus, OutsideDomain};
ghost use Rattle.protocol.specs.Three.{MatrixName, at, each, map_three};
ghost use Rattle.protocol.specs.Circuit.{Sizes as SixSizes, largest as largestSize};
ghost use Rattle.protocol.specs.Index.{map_index};
ghost use Rattle.protocol.specs.Checks.{map_transcript, map_openings, weighted, assignment_value, line_right};
ghost use Rattle.protocol.specs.Checks.{denominator_value, matrix_left, Row, Line, Matrix, passes};
ghost use Rattle.protocol.specs.Checks as checks;
ghost use Rattle.protocol.specs.Refusals.{six_size_tests};
ghost use Rattle.protocol.specs.Session.{all};
ghost use Rattle.shared.specs.Meanings.{three, sizes, transcript, index_words, openings, verdict_meaning};
ghost use Rattle.verdict.specs.Scale.{scale_word};

use shared::six_sizes::largest;
use shared::{Check, Opened, Sizes, Transcript, Triple, Verdict};

// The most public words.
const MAX_WORDS: usize = 1024;

// Row: σ_A σ_B - σ_C = h0(α) v_R(α), with rows = v_R(α).
fn row_holds(p: u32, t: Transcript, o: Opened, rows: u32) -> bool
    requires { 1 < p }
    ensures { (q : Prime) → q.p ≡ p → (s : SixSizes) (x : List (Elem q)) (index : List (List ℕ))
        → rows ≡ (vanishing s.|R| (of {q = q} t.alpha)).word
        → result ≡ passes s x (map_transcript of (transcript t)) (map_openings of (openings o index)) Row }
{
    let sums = t.sums;
    let left = field::subtract(p, field::multiply(p, sums.a, sums.b), sums.c);
    left == field::multiply(p, o.row_quotient, rows)
}

// Σ η_M v_M.
fn weighted_sum(p: u32, eta: Triple, v: Triple) -> u32
    requires { 1 < p }
    ensures { (q : Prime) → q.p ≡ p → result ≡ (weighted (map_three (of {q = q}) (three eta)) (map_three of (three v))).word }
{
    let a = field::multiply(p, eta.a, v.a);
    let b = field::multiply(p, eta.b, v.b);
    let c = field::multiply(p, eta.c, v.c);
    field::add(p, field::add(p, a, b), c)
}

// x̂(y), the sum of x_i L_i(y) over X.
fn public_value(p: u32, n: u32, x: &[u32], y: u32) -> u32
    requires modulus { Modulus p }
    requires n_value { is_size n ≡ true }
    requires x_len { length x.now ≡ n }
    ensures { (q : Prime) → Known q p → Qualifies q → result ≡ (eval (interpolate n (map (of {q = q}) x.now)) (of y)).word }
{
    let mut words = [0; MAX_WORDS];
    let weights = &mut words[..n as usize];
    domain::lagrange_values_into(p, y, weights);
    domain::interpolated_at(p, weights, x)
}

// ẑ(β) = ŵ(β) v_X(β) + x̂(β).
fn assignment_value(p: u32, s: Sizes, x: &[u32], beta: u32, witness: u32) -> u32
    requires modulus { Modulus p }
    requires x_value { is_size s.x ≡ true }
    requires x_len { length x.now ≡ s.x }
    ensures { (q : Prime) → Known q p → Qualifies q
        → result ≡ (assignment_value (sizes s) (map (of {q = q}) x.now) (of beta) (of witness)).word }
{
    let vanishing = domain::vanishing_value(p, s.x, beta);
    let public = public_value(p, s.x, x, beta);
    field::add(p, field::multiply(p, witness, vanishing), public)
}

// h1(β) v_C(β) + β g1(β) + σ/|C|, with columns = v_C(β).
fn line_right(
    p: u32,
    s: Sizes,
    beta: u32,
    sum: u32,
    remainder: u32,
    quotient: u32,
    columns: u32,
) -> u32
    requires lt_p { 1 < p }
    requires c_value { is_size s.c ≡ true }
    ensures { (q : Prime) → Qualifies q → q.p ≡ p → columns ≡ (vanishing s.c (of {q = q} beta)).word
        → result ≡ (line_right (sizes s) (of {q = q} beta) (of sum) (of remainder) (of quotient)).word }
{
    let mean = field::multiply(p, sum, domain::size_inverse(p, s.c));
    let rest = field::multiply(p, beta, remainder);
    field::add(p, field::multiply_add(p, quotient, columns, rest), mean)
}

// Line: m(β) + (Σ η_M ω_M) ẑ(β) = h1(β) v_C(β) + β g1(β) + σ/|C|, with columns = v_C(β).
fn line_holds(p: u32, s: Sizes, x: &[u32], t: Transcript, o: Opened, columns: u32) -> bool
    requires modulus { Modulus p }
    requires x_value { is_size s.x ≡ true }
    requires x_len { length x.now ≡ s.x }
    requires c_value { is_size s.c ≡ true }
    ensures { (q : Prime) → Known q p → Qualifies q → (index : List (List ℕ))
        → columns ≡ (vanishing s.c (of {q = q} t.beta)).word
        → result ≡ passes (sizes s) (map (of {q = q}) x.now) (map_transcript of (transcript t)) (map_openings of (openings o index)) Line }
{
    let eta = t.eta;
    let values = weighted_sum(p, eta, t.values);
    let sum = weighted_sum(p, eta, t.sums);
    let z = assignment_value(p, s, x, t.beta, o.witness);
    let left = field::add(p, o.mask, field::multiply(p, values, z));
    left == line_right(
        p,
        s,
        t.beta,
        sum,
        o.line_remainder,
        o.line_quotient,
        columns,
    )
}

// b_M = |R||C|(αβ - α col_M - β row_M + rowcol_M).
fn denominator_value(p: u32, s: Sizes, alpha: u32, beta: u32, index: [u32; 4]) -> u32
    requires { 1 < p }
    ensures { (q : Prime) → q.p ≡ p → result ≡ (denominator_value (sizes s) (of {q = q} alpha) (of beta) (map_index of (index_words index))).word }
{
    let first = field::subtract(
        p,
        field::multiply(p, alpha, beta),
        field::multiply(p, alpha, index[1]),
    );
    let second = field::subtract(p, first, field::multiply(p, beta, index[0]));
    let both = field::add(p, second, index[2]);
    field::multiply(p, field::multiply(p, s.r, s.c), both)
}

// a_M - b_M (γ g_M + ω_M/|K_M|), with scale = v_R(α) v_C(β), so that a_M = scale · rowcolval_M, |K_M| = size and ω_M = value.
fn matrix_left(
    p: u32,
    s: Sizes,
    t: Transcript,
    scale: u32,
    size: u32,
    value: u32,
    index: [u32; 4],
    remainder: u32,
) -> u32
    requires lt_p { 1 < p }
    requires size_value { is_size size ≡ true }
    ensures { (q : Prime) → Qualifies q → q.p ≡ p → scale ≡ scale_word q (sizes s) t.alpha t.beta
        → (M : MatrixName) → at (sizes s).|K| M ≡ size → at (three t.values) M ≡ value
        → result ≡ (matrix_left (sizes s) (map_transcript (of {q = q}) (transcript t)) M (map_index of (index_words index)) (of remainder)).word }
{
    let numerator = field::multiply(p, scale, index[3]);
    let denominator = denominator_value(p, s, t.alpha, t.beta, index);
    let mean = field::multiply(p, value, domain::size_inverse(p, size));
    let ratio = field::multiply_add(p, t.gamma, remainder, mean);
    field::subtract(p, numerator, field::multiply(p, denominator, ratio))
}

// a·b·c.
fn multiply_three(p: u32, a: u32, b: u32, c: u32) -> u32
    requires { 1 < p }
    ensures { (q : Prime) → q.p ≡ p → result ≡ (of {q = q} a ⊗ of b ⊗ of c).word }
{
    field::multiply(p, field::multiply(p, a, b), c)
}

// The three s_M = |K_M| v_K(γ) / (|K| v_{K_M}(γ)), with whole = v_K(γ), from one inverse: that of the product of the three v_{K_M}(γ).
fn selectors(p: u32, s: Sizes, gamma: u32, whole: u32) -> Triple
    requires lt_p { 1 < p }
    requires s_value { all (six_size_tests (sizes s)) ≡ true }
    requires outside_domain { OutsideDomain p (largestSize (three s.k)) gamma }
    ensures { (q : Prime) → Qualifies q → q.p ≡ p → whole ≡ (vanishing (largestSize (three s.k)) (of {q = q} gamma)).word
        → three result ≡ each (λ M. (checks.selector (sizes s) M (of {q = q} gamma)).word) }
{
    let k = s.k;
    let a = domain::vanishing_value(p, k.a, gamma);
    let b = domain::vanishing_value(p, k.b, gamma);
    let c = domain::vanishing_value(p, k.c, gamma);
    let both = field::multiply(p, a, b);
    let product = field::multiply(p, both, c);
    let mean = field::multiply(p, whole, domain::size_inverse(p, largest(k)));
    let share = field::divide(p, mean, product);
    Triple {
        a: multiply_three(p, k.a, share, field::multiply(p, b, c)),
        b: multiply_three(p, k.b, share, field::multiply(p, a, c)),
        c: multiply_three(p, k.c, share, both),
    }
}

// δ_M s_M (a_M - b_M (γ g_M + ω_M/|K_M|)), with scale = v_R(α) v_C(β), |K_M| = size, δ_M = delta, s_M = share and ω_M = value.
fn matrix_term(
    p: u32,
    s: Sizes,
    t: Transcript,
    scale: u32,
    size: u32,
    delta: u32,
    share: u32,
    value: u32,
    index: [u32; 4],
    remainder: u32,
) -> u32
    requires lt_p { 1 < p }
    requires size_value { is_size size ≡ true }
    ensures { (q : Prime) → Qualifies q → q.p ≡ p → scale ≡ scale_word q (sizes s) t.alpha t.beta
        → (M : MatrixName) → at (sizes s).|K| M ≡ size → at (three t.values) M ≡ value
        → result ≡ (of {q = q} delta ⊗ of share
        ⊗ matrix_left (sizes s) (map_transcript of (transcript t)) M (map_index of (index_words index)) (of remainder)).word }
{
    let left = matrix_left(p, s, t, scale, size, value, index, remainder);
    multiply_three(p, delta, share, left)
}

// Matrix: Σ δ_M s_M (a_M - b_M (γ g_M + ω_M/|K_M|)) = h2(γ) v_K(γ), with scale = v_R(α) v_C(β).
fn matrix_holds(
    p: u32,
    s: Sizes,
    t: Transcript,
    o: Opened,
    index: [[u32; 4]; 3],
    scale: u32,
) -> bool
    requires lt_p { 1 < p }
    requires s_value { all (six_size_tests (sizes s)) ≡ true }
    requires outside_domain { OutsideDomain p (largestSize (three s.k)) t.gamma }
    ensures { (q : Prime) → Qualifies q → q.p ≡ p → scale ≡ scale_word q (sizes s) t.alpha t.beta → (x : List (Elem q))
        → result ≡ passes (sizes s) x (map_transcript of (transcript t)) (map_openings of (openings o index)) Matrix }
{
    let k = s.k;
    let delta = t.delta;
    let value = t.values;
    let rest = o.matrix_remainders;
    let whole = domain::vanishing_value(p, largest(k), t.gamma);
    let share = selectors(p, s, t.gamma, whole);
    let a = matrix_term(
        p, s, t, scale, k.a, delta.a, share.a, value.a, index[0], rest.a,
    );
    let b = matrix_term(
        p, s, t, scale, k.b, delta.b, share.b, value.b, index[1], rest.b,
    );
    let c = matrix_term(
        p, s, t, scale, k.c, delta.c, share.c, value.c, index[2], rest.c,
    );
    let left = field::add(p, field::add(p, a, b), c);
    left == field::multiply(p, o.joined_quotient, whole)
}

// Accept, or Fails with the check that failed first, for γ outside K.
pub fn verdict(
    p: u32,
    s: Sizes,
    x: &[u32],
    t: Transcript,
    o: Opened,
    index: [[u32; 4]; 3],
) -> Verdict
    requires lt_p { 1 < p }
    requires s_value { all (six_size_tests (sizes s)) ≡ true }
    requires x_len { length x.now ≡ s.x }
    requires outside_domain { OutsideDomain p (largestSize (three s.k)) t.gamma }
    ensures { (q : Prime) → Known q p → Qualifies q
        → verdict_meaning result ≡ checks.verdict (sizes s) (map (of {q = q}) x.now) (map_transcript of (transcript t)) (map_openings of (openings o index)) }
{
    let rows = domain::vanishing_value(p, s.r, t.alpha);
    if !row_holds(p, t, o, rows) {
        return Verdict::Fails(Check::Row);
    }
    let columns = domain::vanishing_value(p, s.c, t.beta);
    if !line_holds(p, s, x, t, o, columns) {
        return Verdict::Fails(Check::Line);
    }
    let scale = field::multiply(p, rows, columns);
    if !matrix_holds(p, s, t, o, index, scale) {
        return Verdict::Fails(Check::Matrix);
    }
    Verdict::Accept
}
