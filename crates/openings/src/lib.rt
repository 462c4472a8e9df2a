// The openings: each polynomial of a proof at its point, from values on the domains. The Lagrange values of the rows at α, of the columns
// at β and of each matrix's places at γ are made once; only g1 and the g_M need coefficients. The call was let through, so that working
// memory of the largest sizes holds every list, and the points are outside their domains.
#![tactic(auto)]

ghost use Rattle.std.specs.Prelude.{◌≡◌, ℕ, ◌<◌, length};
ghost use Rattle.field.specs.Prime.{Prime};
ghost use Rattle.field.specs.Element.{of, words};
ghost use Rattle.domain.specs.Known.{Known};
ghost use Rattle.protocol.specs.Three.{Three as PerMatrix, map_three};
ghost use Rattle.protocol.specs.Checks.{list_openings};
ghost use Rattle.shared.specs.Meanings.{three};
ghost use Rattle.protocol.specs.Calls.{circuit_of};
ghost use Rattle.circuit.specs.Given.{circuit_words, input_words, FitsInput};
ghost use Rattle.matrix_sumcheck.specs.MatrixGiven.{LagrangeLists};
ghost use Rattle.openings.specs.LineGiven.{Weighed};
ghost use Rattle.openings.specs.OpeningsGiven.{openings_in, opened_list, ChallengesOutside};

use circuit::given::{Challenges, ProverInput};
use matrix_sumcheck::matrix::Factors;
use shared::{Opened, Three};

mod line;
mod matrix;
mod rows;
mod values;

// The index polynomials of one matrix at one point.
#[derive(Clone, Copy)]
pub struct IndexOpened {
    pub row: u32,
    pub col: u32,
    pub rowcol: u32,
    pub rowcolval: u32,
}

// The openings of the messages, and of the index polynomials of A, B, C.
#[derive(Clone, Copy)]
pub struct AllOpened {
    pub messages: Opened,
    pub index: Three<IndexOpened>,
}

// All openings, where rows and columns have their Lagrange values at α and β, and the columns their weights.
fn opened_from(
    p: u32,
    input: &ProverInput,
    challenges: &Challenges,
    lagrange: &Factors,
    weights: &[u32],
) -> AllOpened
    requires lt_p { 1 < p }
    requires fits { FitsInput p input.now }
    requires points_outside { ChallengesOutside p input.now.circuit challenges.now }
    requires rows_len { (length lagrange.now.rows.now ≡ input.now.circuit.r)
        × (length lagrange.now.columns.now ≡ input.now.circuit.c)
        × (length weights.now ≡ input.now.circuit.c) }
    ensures { (q : Prime) → Known q p
        → LagrangeLists q input.now.circuit.r input.now.circuit.c challenges.now.alpha challenges.now.beta
        lagrange.now.rows.now lagrange.now.columns.now
        → (η : PerMatrix ℕ)
        → Weighed (circuit_of (circuit_words input.now.circuit)) (of {q = q} challenges.now.alpha) (map_three of η)
        weights.now
        → opened_list result
        ≡ words (list_openings (openings_in q (input_words input.now)
        challenges.now.alpha η challenges.now.beta (three challenges.now.delta) challenges.now.gamma)) }
{
    let circuit = &input.circuit;
    let beta = challenges.beta;
    let scale = field::multiply(
        p,
        domain::vanishing_value(p, circuit.r, challenges.alpha),
        domain::vanishing_value(p, circuit.c, beta),
    );
    let Three { a, b, c } = circuit.matrices;
    let of_a = matrix::matrix_at(p, circuit, challenges, lagrange, scale, a);
    let of_b = matrix::matrix_at(p, circuit, challenges, lagrange, scale, b);
    let of_c = matrix::matrix_at(p, circuit, challenges, lagrange, scale, c);
    let quotients = Three {
        a: of_a.quotient,
        b: of_b.quotient,
        c: of_c.quotient,
    };
    let assignment = line::assignment_at(p, input, lagrange.columns, beta);
    let at_beta = line::line_at(p, input, lagrange.columns, weights, assignment, beta);
    let messages = Opened {
        witness: line::witness_at(p, input, assignment, beta),
        mask: at_beta.mask,
        line_remainder: at_beta.remainder,
        line_quotient: at_beta.quotient,
        row_quotient: rows::row_quotient_at(p, input, lagrange.rows, challenges.alpha),
        joined_quotient: matrix::joined_at(p, circuit, challenges.delta, quotients),
        matrix_remainders: Three {
            a: of_a.remainder,
            b: of_b.remainder,
            c: of_c.remainder,
        },
    };
    let index = Three {
        a: of_a.index,
        b: of_b.index,
        c: of_c.index,
    };
    AllOpened { messages, index }
}

// All openings: those of the messages, and of the index polynomials.
pub fn open_all(p: u32, input: &ProverInput, challenges: &Challenges) -> AllOpened
    requires lt_p { 1 < p }
    requires fits { FitsInput p input.now }
    requires points_outside { ChallengesOutside p input.now.circuit challenges.now }
    ensures { (q : Prime) → Known q p
        → opened_list result
        ≡ words (list_openings (openings_in q (input_words input.now)
        challenges.now.alpha (three challenges.now.eta) challenges.now.beta (three challenges.now.delta) challenges.now.gamma)) }
{
    let circuit = &input.circuit;
    let n = circuit.r as usize;
    let l = circuit.c as usize;
    let mut rows = [0u32; 1024];
    domain::lagrange_values_into(p, challenges.alpha, &mut rows[..n]);
    let mut columns = [0u32; 1024];
    domain::lagrange_values_into(p, challenges.beta, &mut columns[..l]);
    let mut weights = [0u32; 1024];
    prover::line::weights_from(p, circuit, &rows[..n], challenges.eta, &mut weights[..l]);
    let lagrange = Factors {
        rows: &rows[..n],
        columns: &columns[..l],
    };
    opened_from(p, input, challenges, &lagrange, &weights[..l])
}
