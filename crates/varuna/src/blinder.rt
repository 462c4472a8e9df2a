// The blinder: an entry of value 1 for each matrix in the last row, and in the assignment the three values that it picks.
ghost use Rattle.std.specs.Prelude.{◌≡◌, List, ℕ, length};
ghost use Rattle.domain.specs.BabyBear.{baby_bear};
ghost use Rattle.protocol.specs.Three.{Three as PerMatrix, map_three};
ghost use Rattle.protocol.specs.Blinded.{blind_call};
ghost use Rattle.shared.specs.Meanings.{three};
ghost use Rattle.circuit.specs.Given.{circuit_words};
ghost use Rattle.varuna.specs.Answers.{filled_meaning, filling, fills};
ghost use Rattle.varuna.specs.Inputs.{three_of};

use blinding::blinded::blind_into;
use blinding::refusals::judge_blind;
use circuit::given::CircuitWords;
use field::MODULE_PRIME;
use shared::{Refusal, Three, Triple};

// The blinded entry lists, each of three words more than its list, and the blinded z, of |C| words, into slices. Refusals: 4 for a size, 5
// for a list, also one of 1,024 entries, or a slice, 6 for a word, 7 for an entry, 15 for fewer than three columns that are not public or an
// entry in the last row or the highest three of them, 13 for z's first word.
pub fn blind(
    circuit: &CircuitWords,
    z: &[u32],
    rho: Triple,
    blinded_a: &mut [u32],
    blinded_b: &mut [u32],
    blinded_c: &mut [u32],
    blinded_z: &mut [u32],
) -> Result<(), Refusal>
    ensures { (let before : PerMatrix (List ℕ) = three_of blinded_a.old blinded_b.old blinded_c.old in
        filling (filled_meaning result) (three_of blinded_a.new blinded_b.new blinded_c.new, blinded_z.new)
        ≡ fills
        (blind_call baby_bear (circuit_words circuit.now) z.now (three rho)
        (map_three length before) (length blinded_z.old)) (before, blinded_z.old)) }
{
    let lent = Three {
        a: blinded_a.len(),
        b: blinded_b.len(),
        c: blinded_c.len(),
    };
    judge_blind(MODULE_PRIME, circuit, z, rho, lent, blinded_z.len())?;
    blind_into(circuit, z, rho, blinded_a, blinded_b, blinded_c, blinded_z);
    Ok(())
}
