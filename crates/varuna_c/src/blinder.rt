// The blinder.
ghost use Rattle.std.specs.Prelude.{◌≡◌, List, ℕ, length};
ghost use Rattle.domain.specs.BabyBear.{baby_bear};
ghost use Rattle.protocol.specs.Three.{Three, map_three};
ghost use Rattle.protocol.specs.Blinded.{blind_call};
ghost use Rattle.circuit.specs.Given.{given};
ghost use Rattle.varuna.specs.Inputs.{three_of};
ghost use Rattle.verifier.specs.Session.{three_at};
ghost use Rattle.c_numbers.specs.Answers.{told, answered};

use c_numbers::answers::give_filled;
use c_numbers::inputs::triple;
use varuna::answers::{self, CircuitWords};

// The blinded entry lists and the blinded z. Refusals 4 to 7, 15, 13.
#[unsafe(no_mangle)]
pub extern "C" fn varuna_blind(
    r: u32,
    c: u32,
    x: u32,
    ea: &[u32],
    eb: &[u32],
    ec: &[u32],
    z: &[u32],
    rho: &[u32; 3],
    blinded_a: &mut [u32],
    blinded_b: &mut [u32],
    blinded_c: &mut [u32],
    blinded_z: &mut [u32],
    position: &mut usize,
) -> u32
    ensures { (let before : Three (List ℕ) = three_of blinded_a.old blinded_b.old blinded_c.old in
        told result position.new
        (three_of blinded_a.new blinded_b.new blinded_c.new, blinded_z.new)
        ≡ answered
        (blind_call baby_bear (given r c x ea.now eb.now ec.now) z.now
        (three_at rho.now 0) (map_three length before) (length blinded_z.old)) (before, blinded_z.old)) }
{
    let matrices = answers::Three {
        a: ea,
        b: eb,
        c: ec,
    };
    let circuit = CircuitWords { r, c, x, matrices };
    let answer = varuna::blinder::blind(
        &circuit,
        z,
        triple(rho),
        blinded_a,
        blinded_b,
        blinded_c,
        blinded_z,
    );
    give_filled(answer, position)
}
