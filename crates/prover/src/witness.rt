// The prover's first message: ŵ from z and the mask word, and the public words of z. A result is written into a lent slice of its
// exact length.
ghost use Rattle.std.specs.Prelude.{◌≡◌, true, map, ◌+◌, ◌-◌, ◌*◌, ◌≤◌, ◌<◌, length, get_or};
ghost use Rattle.algebra.specs.Lists.{tabulate};
ghost use Rattle.field.specs.Prime.{Prime};
ghost use Rattle.field.specs.Element.{of, words};
ghost use Rattle.domain.specs.Size.{is_size};
ghost use Rattle.domain.specs.Polynomial.{quotient, vanishing_poly, interpolate as interpolation};
ghost use Rattle.domain.specs.Known.{Known};
ghost use Rattle.protocol.specs.Circuit.{Circuit};
ghost use Rattle.protocol.specs.Messages.{witness as witnessPoly};

use circuit::given::ProverInput;

// Coefficient i of Y^n - 1.
fn vanishing_coefficient(p: u32, n: usize, i: usize) -> u32
    requires p_nonzero { 0 < p }
    requires n_nonzero { (0 < n) × (i ≤ n) }
    ensures { (q : Prime) → q.p ≡ p → result ≡ get_or (words (vanishing_poly {q = q} n)) i 0 }
{
    if i == 0 {
        return p - 1;
    }
    if i == n { 1 } else { 0 }
}

// Y^n - 1 into a slice of length n + 1.
fn fill_vanishing(p: u32, out: &mut [u32])
    requires p_nonzero { 0 < p }
    requires in_bounds { 1 < length out.old }
    ensures { (q : Prime) → q.p ≡ p → out.new ≡ words (vanishing_poly {q = q} (length out.old - 1)) }
{
    let n = out.len() - 1;
    for (i, word) in out.iter_mut().enumerate() {
        *word = vanishing_coefficient(p, n, i);
    }
}

// Each step-th word of z, from the first on.
pub fn public_words_into(step: usize, z: &[u32], out: &mut [u32])
    requires { (0 < step) × (length out.old * step ≤ length z.now) }
    ensures { out.new ≡ tabulate (length out.old) (λ i. get_or z.now (i * step) 0) }
{
    for (i, word) in out.iter_mut().enumerate() {
        *word = z[i * step];
    }
}

// The quotient of z(Y) by v_X, of length |C| - |X|. It is (z(Y) - x̂(Y))/v_X: x̂ is what is left.
fn private_quotient_into(p: u32, c: u32, x: u32, z: &[u32], out: &mut [u32])
    requires lt_p { 1 < p }
    requires c_value { (is_size c ≡ true) × (is_size x ≡ true) × (x ≤ c) }
    requires z_len { (length z.now ≡ c) × (length out.old ≡ c - x) }
    ensures { (q : Prime) → Known q p
        → out.new ≡ words (quotient x (interpolation c (map (of {q = q}) z.now))) }
{
    let n = c as usize;
    let mut whole = [0u32; 1024];
    transform::interpolate_into(p, domain::root_of(p, c), z, &mut whole[..n]);
    poly::quotient_into(p, x as usize, &whole[..n], out);
}

// v_C/v_X, of length |C| - |X| + 1.
fn vanishing_ratio_into(p: u32, c: u32, x: u32, out: &mut [u32])
    requires lt_p { 1 < p }
    requires c_value { (is_size c ≡ true) × (is_size x ≡ true) × (x ≤ c) }
    requires out_len { length out.old ≡ c - x + 1 }
    ensures { (q : Prime) → q.p ≡ p → out.new ≡ words (quotient x (vanishing_poly {q = q} c)) }
{
    let n = c as usize + 1;
    let l = x as usize;
    let mut vanishing = [0u32; 1025];
    fill_vanishing(p, &mut vanishing[..n]);
    poly::quotient_into(p, l, &vanishing[..n], out);
}

// ŵ, of length |C| - |X| + 1.
pub fn witness_into(p: u32, input: &ProverInput, out: &mut [u32])
    requires lt_p { 1 < p }
    requires c_value { (is_size input.now.circuit.c ≡ true) × (is_size input.now.circuit.x ≡ true)
        × (input.now.circuit.x ≤ input.now.circuit.c) }
    requires z_len { (length input.now.z.now ≡ input.now.circuit.c)
        × (length out.old ≡ input.now.circuit.c - input.now.circuit.x + 1) }
    ensures { (q : Prime) → Known q p → (k : Circuit) → k.|C| ≡ input.now.circuit.c → k.|X| ≡ input.now.circuit.x
        → out.new ≡ words (witnessPoly k (map (of {q = q}) input.now.z.now) (of input.now.mask)) }
{
    let c = input.circuit.c;
    let x = input.circuit.x;
    let n = (c - x) as usize;
    private_quotient_into(p, c, x, input.z, &mut out[..n]);
    // It is one shorter than the masking term: its last coefficient is 0.
    out[n] = 0;
    let l = n + 1;
    let mut ratio = [0u32; 1024];
    vanishing_ratio_into(p, c, x, &mut ratio[..l]);
    poly::add_scaled(p, out, input.mask, &ratio[..l]);
}
