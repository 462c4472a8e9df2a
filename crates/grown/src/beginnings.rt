// A circuit's words at the beginning: of a circuit without entries, and of one whose entry lists are let through.
ghost use Rattle.std.specs.Prelude.{◌≡◌, ◌++◌, ◌-◌, ◌*◌, ◌<◌, ◌≤◌, length, replicate};
ghost use Rattle.algebra.specs.Counting.{All};
ghost use Rattle.algebra.specs.Lists.{tabulate};
ghost use Rattle.field.specs.Prime.{Prime};
ghost use Rattle.domain.specs.Size.{max_size};
ghost use Rattle.protocol.specs.Circuit.{Entry};
ghost use Rattle.protocol.specs.Calls.{entries_of, circuit_of};
ghost use Rattle.protocol.specs.Grown.{grown_words, matrix_words, row_entries, stored_matrix, stored, begin_call, begin_from_call};
ghost use Rattle.shared.specs.Meanings.{refusal_in};
ghost use Rattle.shared.specs.Answers.{LentAnswer};
ghost use Rattle.circuit.specs.Given.{circuit_words, EntryWords, WholeLists};

use call_refusals::judge_circuit;
use circuit::checks::check_sizes;
use circuit::given::CircuitWords;
use shared::{Refusal, Three};

// How many entries each row has, a word for each row.
fn count_rows(entries: &[u32], out: &mut [u32])
    requires entries_len_bound { length entries.now ≤ 3 * max_size }
    requires all { All (λ (e : Entry). e.row < length out.old) (entries_of entries.now) }
    ensures { out.new
        ≡ tabulate (length out.old) (λ i. length (row_entries i (entries_of entries.now))) }
{
    out.fill(0);
    for i in 0..entries.len() / 3 {
        let row = entries[3 * i] as usize;
        out[row] += 1;
    }
}

// The words, and zeros after them.
fn copy_words(words: &[u32], out: &mut [u32])
    requires { length words.now ≤ length out.old }
    ensures { out.new ≡ words.now ++ replicate (length out.old - length words.now) 0 }
{
    out.fill(0);
    poly::copy_front(words, out);
}

// A matrix's words: the total, the rows' counts and the entries.
fn store_matrix(entries: &[u32], out: &mut [u32])
    requires out_len { length out.old ≡ matrix_words }
    requires entry_words { EntryWords entries.now }
    requires all { All (λ (e : Entry). e.row < max_size) (entries_of entries.now) }
    ensures { out.new ≡ stored_matrix (entries_of entries.now) }
{
    out[0] = (entries.len() / 3) as u32;
    count_rows(entries, &mut out[1..1025]);
    copy_words(entries, &mut out[1025..4097]);
}

// A circuit's words.
fn store(circuit: &mut [u32], given: &CircuitWords)
    requires circuit_len { length circuit.old ≡ grown_words }
    requires three_lists { WholeLists given.now }
    requires all { All (λ (e : Entry). e.row < max_size) (entries_of given.now.matrices.a.now) }
    requires all_2 { All (λ (e : Entry). e.row < max_size) (entries_of given.now.matrices.b.now) }
    requires all_3 { All (λ (e : Entry). e.row < max_size) (entries_of given.now.matrices.c.now) }
    ensures { circuit.new ≡ stored (circuit_of (circuit_words given.now)) }
{
    let Three { a, b, c } = given.matrices;
    circuit[..3].copy_from_slice(&[given.r, given.c, given.x]);
    store_matrix(a, &mut circuit[3..4100]);
    store_matrix(b, &mut circuit[4100..8197]);
    store_matrix(c, &mut circuit[8197..12294]);
}

// A circuit without entries. Refusal: 4 for a size.
pub fn begin(circuit: &mut [u32], r: u32, c: u32, x: u32) -> Result<(), Refusal>
    requires { length circuit.old ≡ grown_words }
    ensures { LentAnswer (begin_call r c x) (refusal_in result) circuit.old circuit.new }
{
    check_sizes(r, c, x)?;
    copy_words(&[r, c, x], circuit);
    Ok(())
}

// A circuit from its entry lists. Refusals: 4 for a size, 5 for a list, 6 for a value, 7 for an entry.
pub fn begin_from(p: u32, circuit: &mut [u32], given: &CircuitWords) -> Result<(), Refusal>
    requires circuit_len { length circuit.old ≡ grown_words }
    requires p_value { (q : Prime) × (q.p ≡ p) }
    ensures { (q : Prime) → q.p ≡ p
        → LentAnswer (begin_from_call q (circuit_words given.now)) (refusal_in result) circuit.old circuit.new }
{
    judge_circuit(p, given)?;
    store(circuit, given);
    Ok(())
}
