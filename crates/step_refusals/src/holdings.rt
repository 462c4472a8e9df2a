// What a session holds before the openings is what steps leave in it.
ghost use Rattle.std.specs.Prelude.{◌≡◌, true, map, ℕ, ◌≤◌, ◌<◌, eqb, ltb, length};
ghost use Rattle.field.specs.Prime.{Prime};
ghost use Rattle.domain.specs.Size.{max_size};
ghost use Rattle.domain.specs.Qualifies.{Qualifies};
ghost use Rattle.protocol.specs.Checks.{list_transcript};
ghost use Rattle.protocol.specs.Refusals.{six_size_tests};
ghost use Rattle.protocol.specs.Session.{all, public_fits, transcript_fits, left_by_steps};
ghost use Rattle.shared.specs.Meanings.{sizes, transcript};

use shared::constant::begins_with_one;
use shared::six_sizes::largest;
use shared::{Sizes, Transcript};

// The words of a transcript in the order in which they are heard.
pub fn transcript_words(t: Transcript) -> [u32; 15]
    ensures { result ≡ list_transcript (transcript t) }
{
    let (sums, eta, values, delta) = (t.sums, t.eta, t.values, t.delta);
    [
        t.alpha, sums.a, sums.b, sums.c, eta.a, eta.b, eta.c, t.beta, values.a, values.b, values.c,
        delta.a, delta.b, delta.c, t.gamma,
    ]
}

// This test and the next are loops: an iterator's `all` takes about twice as long.
fn all_below(p: u32, words: &[u32]) -> bool
    ensures { result ≡ all (map (λ w. ltb w p) words.now) }
{
    for word in words {
        if p <= *word {
            return false;
        }
    }
    true
}

fn all_zero(words: &[u32]) -> bool
    ensures { result ≡ all (map (λ w. eqb w 0) words.now) }
{
    for word in words {
        if *word != 0 {
            return false;
        }
    }
    true
}

// The n public words are field words, of which the first is 1, and zeros come after them.
fn public_fits(p: u32, n: u32, x: &[u32]) -> bool
    requires { n ≤ length x.now }
    ensures { (q : Prime) → q.p ≡ p → result ≡ public_fits q n x.now }
{
    // n is within x, so that `min` changes nothing: it shows the compiler the bound, with which it tests four words at a time.
    let (public, after) = x.split_at(x.len().min(n as usize));
    begins_with_one(x) && all_below(p, public) && all_zero(after)
}

// The transcript holds field words, with α outside R, β outside C and γ outside K.
fn transcript_fits(p: u32, s: Sizes, t: Transcript) -> bool
    requires lt_p { 1 < p }
    requires s_value { all (six_size_tests (sizes s)) ≡ true }
    ensures { (q : Prime) → Qualifies q → q.p ≡ p → result ≡ transcript_fits q (sizes s) (transcript t) }
{
    all_below(p, &transcript_words(t))
        && !domain::is_inside(p, s.r, t.alpha)
        && !domain::is_inside(p, s.c, t.beta)
        && !domain::is_inside(p, largest(s.k), t.gamma)
}

pub fn left_by_steps(p: u32, s: Sizes, x: &[u32], t: Transcript) -> bool
    requires lt_p { 1 < p }
    requires s_value { all (six_size_tests (sizes s)) ≡ true }
    requires x_len { length x.now ≡ max_size }
    ensures { (q : Prime) → Qualifies q → q.p ≡ p → (stage : ℕ)
        → result ≡ left_by_steps q (record { stage = stage; sizes = sizes s; x = x.now; transcript = transcript t }) }
{
    public_fits(p, s.x, x) && transcript_fits(p, s, t)
}
