// The σ of a job that is not refused, and what a round answers, as three words.
ghost use Rattle.std.specs.Prelude.{◌≡◌, [], ◌∷◌};
ghost use Rattle.protocol.specs.Refusals.{Refusal};
ghost use Rattle.shared.specs.Meanings.{outcome_by, three};
ghost use Rattle.circuit.specs.Given.{input_words};
ghost use Rattle.report.specs.Stages.{Free, sum_words, three_or_zeros};

use circuit::given::ProverInput;
use shared::Triple;
use varuna::rounds;

// Three words; zeros where the call was refused, with any error.
pub fn words_or_zeros<E: Copy>(answer: Result<Triple, E>) -> Triple
    ensures { (refused : E → Refusal) → three result ≡ three_or_zeros (outcome_by refused three answer) }
{
    match answer {
        Ok(words) => words,
        Err(_) => Triple { a: 0, b: 0, c: 0 },
    }
}

// σ_A, σ_B, σ_C.
pub fn sums(input: &ProverInput, alpha: u32) -> Triple
    requires { Free (input_words input.now) (alpha ∷ []) (alpha ∷ []) }
    ensures { three result
        ≡ sum_words (input_words input.now)
        alpha }
{
    words_or_zeros(rounds::second_round(input, alpha))
}
