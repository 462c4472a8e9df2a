// Rows of the table of refusals in its order, for calls with a circuit. Contents are judged only where lengths are right: sizes and
// lists come first, then the lent slices, then the contents. Lent slices come as their lengths; a round's beside the lengths that they
// must have.
#![tactic(auto)]

ghost use Rattle.std.specs.Prelude.{◌≡◌, ◌<◌, ◌≤◌, length};
ghost use Rattle.field.specs.Prime.{Prime};
ghost use Rattle.domain.specs.Qualifies.{Qualifies};
ghost use Rattle.protocol.specs.Circuit.{Circuit};
ghost use Rattle.shared.specs.Meanings.{refusal_in};
ghost use Rattle.protocol.specs.Calls.{round_refusal};
ghost use Rattle.circuit.specs.Given.{circuit_words, input_words, lists_in, WholeLists, ShapedInput};
ghost use Rattle.circuit.specs.Judgement.{index_shape_refusal, shape_refusal, circuit_refusal, index_due, index_refusal, index_contents_refusal, contents_refusal};

use circuit::given::{CircuitWords, ProverInput};
use circuit::{checks, matrices};
use shared::constant::judge_constant;
use shared::{Refusal, Three};

// 4 and 5 of a circuit: its sizes and its entry lists.
fn judge_index_shape(circuit: &CircuitWords) -> Result<(), Refusal>
    ensures { refusal_in result ≡ index_shape_refusal (circuit_words circuit.now) }
{
    checks::check_sizes(circuit.r, circuit.c, circuit.x)?;
    let Three { a, b, c } = circuit.matrices;
    checks::check_entry_lists(a.len(), b.len(), c.len())
}

// 4 and 5 of what every prover call begins with: sizes, entry lists, z and m.
fn judge_shape(input: &ProverInput) -> Result<(), Refusal>
    ensures { refusal_in result ≡ shape_refusal (circuit_words input.now.circuit) input.now.z.now input.now.m.now }
{
    judge_index_shape(&input.circuit)?;
    checks::check_assignment_lists(input.circuit.c, input.z.len(), input.m.len())
}

// 6 and 7 of a circuit whose shape is fine.
fn judge_index_contents(p: u32, circuit: &CircuitWords) -> Result<(), Refusal>
    requires { WholeLists circuit.now }
    ensures { (q : Prime) → q.p ≡ p → (k : Circuit) → k.|R| ≡ circuit.now.r → k.|C| ≡ circuit.now.c
        → k.matrices ≡ lists_in circuit.now → refusal_in result ≡ index_contents_refusal q k }
{
    checks::check_three_values(p, circuit)?;
    checks::check_three_entries(circuit)
}

// 6, 7, 8, 13, 9 and 10 of a prover call whose shape is fine. The challenges are all its challenge words, the points those of α, β, γ that
// it has.
fn judge_contents(
    p: u32,
    input: &ProverInput,
    challenges: &[u32],
    points: &[u32],
) -> Result<(), Refusal>
    requires lt_p { 1 < p }
    requires shaped { ShapedInput input.now }
    requires points_len_bound { length points.now ≤ 3 }
    ensures { (q : Prime) → Qualifies q → q.p ≡ p → (k : Circuit)
        → k.|R| ≡ input.now.circuit.r → k.|C| ≡ input.now.circuit.c
        → k.matrices ≡ lists_in input.now.circuit
        → refusal_in result ≡ contents_refusal q k input.now.z.now input.now.mask input.now.m.now challenges.now points.now }
{
    let circuit = &input.circuit;
    checks::check_call_words(p, input, challenges)?;
    checks::check_three_entries(circuit)?;
    checks::check_mask(p, circuit.c, input.m)?;
    judge_constant(input.z)?;
    checks::check_assignment(p, circuit, input.z)?;
    checks::check_points(
        p,
        circuit.r,
        circuit.c,
        matrices::largest_size(circuit),
        points,
    )
}

// 4 to 7 of a circuit whose call lends no slice.
pub fn judge_circuit(p: u32, circuit: &CircuitWords) -> Result<(), Refusal>
    ensures { (q : Prime) → q.p ≡ p → refusal_in result ≡ circuit_refusal q (circuit_words circuit.now) }
{
    judge_index_shape(circuit)?;
    judge_index_contents(p, circuit)
}

// The lengths that the lent slices of the indexer must have.
fn index_lengths(circuit: &CircuitWords) -> [usize; 12]
    ensures { result ≡ index_due (lists_in circuit.now) }
{
    let a = matrices::size_of(circuit.matrices.a) as usize;
    let b = matrices::size_of(circuit.matrices.b) as usize;
    let c = matrices::size_of(circuit.matrices.c) as usize;
    [a, a, a, a, b, b, b, b, c, c, c, c]
}

// 4 to 7 of the indexer.
pub fn judge_index(p: u32, circuit: &CircuitWords, lent: [usize; 12]) -> Result<(), Refusal>
    ensures { (q : Prime) → q.p ≡ p → refusal_in result ≡ index_refusal q (circuit_words circuit.now) lent }
{
    judge_index_shape(circuit)?;
    let due = index_lengths(circuit);
    checks::check_lent(3, &lent, &due)?;
    judge_index_contents(p, circuit)
}

// 4 to 8, 13, 9 and 10 of a prover call. The challenges are all its challenge words, the points those of α, β, γ that it has.
pub fn judge_round(
    p: u32,
    input: &ProverInput,
    lent: &[usize],
    due: &[usize],
    challenges: &[u32],
    points: &[u32],
) -> Result<(), Refusal>
    requires lt_p { 1 < p }
    requires due_len { length due.now ≡ length lent.now }
    requires points_len_bound { length points.now ≤ 3 }
    ensures { (q : Prime) → Qualifies q → q.p ≡ p
        → refusal_in result ≡ round_refusal q (input_words input.now) lent.now due.now challenges.now points.now }
{
    judge_shape(input)?;
    checks::check_lent(5, lent, due)?;
    judge_contents(p, input, challenges, points)
}
