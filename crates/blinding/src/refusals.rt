// The rows of the table of refusals that blinding has, in its order: 4, 5, 6, 7, 15, 13. Contents are judged only where lengths are right:
// sizes and lists come first, then the lent slices, then the contents.
ghost use Rattle.std.specs.Prelude.{◌≡◌, ◌&&◌, [], ◌∷◌, ◌*◌, ◌%◌, eqb, ltb};
ghost use Rattle.field.specs.Prime.{Prime};
ghost use Rattle.domain.specs.Size.{max_size};
ghost use Rattle.protocol.specs.Circuit.{Circuit};
ghost use Rattle.protocol.specs.Refusals.{refuse};
ghost use Rattle.protocol.specs.Blinded.{blind_refusal};
ghost use Rattle.shared.specs.Meanings.{refusal_in, three};
ghost use Rattle.circuit.specs.Given.{circuit_words, lists_in};
ghost use Rattle.blinding.specs.Given.{ShapedCircuit};
ghost use Rattle.blinding.specs.Judgement.{whole_with_room, shape_refusal, contents_refusal};

use crate::columns;
use circuit::checks;
use circuit::given::{CircuitWords, ProverInput};
use shared::constant::judge_constant;
use shared::scans::first_failed;
use shared::{Refusal, Row, Three, Triple};

// How many words an entry has.
const ENTRY_WORDS: usize = 3;

// 5: whole entries, with room for one more.
fn has_room(len: usize) -> bool
    ensures { result ≡ (eqb (len % 3) 0 && ltb len (3 * max_size)) }
{
    len % 3 == 0 && len < checks::MAX_ENTRY_WORDS
}

// 5: the entry lists of A, B, C, and z, which has |C| words.
fn check_lists(c: u32, ea: usize, eb: usize, ec: usize, z: usize) -> Result<(), Refusal>
    ensures { refusal_in result ≡ refuse 5 0 (whole_with_room ea ∷ whole_with_room eb ∷ whole_with_room ec ∷ eqb z c ∷ []) }
{
    let tests = [has_room(ea), has_room(eb), has_room(ec), z == c as usize];
    first_failed(Row::List, 0, &tests)
}

// 4, and 5 of the lists that are given.
fn judge_shape(circuit: &CircuitWords, z: &[u32]) -> Result<(), Refusal>
    ensures { refusal_in result ≡ shape_refusal (circuit_words circuit.now) z.now }
{
    checks::check_sizes(circuit.r, circuit.c, circuit.x)?;
    let Three { a, b, c } = circuit.matrices;
    check_lists(circuit.c, a.len(), b.len(), c.len(), z.len())
}

// 6, 7, 15 and 13 of a call whose shape is fine. The words of ρ come after those of z.
fn judge_contents(p: u32, circuit: &CircuitWords, z: &[u32], rho: Triple) -> Result<(), Refusal>
    requires { ShapedCircuit circuit.now z.now }
    ensures { (q : Prime) → q.p ≡ p → (k : Circuit) → k.|R| ≡ circuit.now.r → k.|C| ≡ circuit.now.c → k.|X| ≡ circuit.now.x
        → k.matrices ≡ lists_in circuit.now
        → refusal_in result ≡ contents_refusal q k z.now (three rho) }
{
    let middle = [rho.b];
    let last = [rho.c];
    let input = ProverInput {
        circuit: *circuit,
        z,
        mask: rho.a,
        m: &middle,
    };
    checks::check_call_words(p, &input, &last)?;
    checks::check_three_entries(circuit)?;
    if !columns::is_reservable(circuit) {
        return Err(Refusal(Row::Blinding, 0));
    }
    judge_constant(z)
}

// All of them. Lent slices come as their lengths: those for A, B, C and z.
pub fn judge_blind(
    p: u32,
    circuit: &CircuitWords,
    z: &[u32],
    rho: Triple,
    lent: Three<usize>,
    lent_z: usize,
) -> Result<(), Refusal>
    ensures { (q : Prime) → q.p ≡ p
        → refusal_in result
        ≡ blind_refusal q (circuit_words circuit.now) z.now (three rho)
        (three lent) lent_z }
{
    judge_shape(circuit, z)?;
    let Three { a, b, c } = circuit.matrices;
    let due = [
        a.len() + ENTRY_WORDS,
        b.len() + ENTRY_WORDS,
        c.len() + ENTRY_WORDS,
        circuit.c as usize,
    ];
    checks::check_lent(4, &[lent.a, lent.b, lent.c, lent_z], &due)?;
    judge_contents(p, circuit, z, rho)
}
