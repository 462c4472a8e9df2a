// Rounds 1 to 3 of the prover as functions on words; crate `matrix_sumcheck` has rounds 4 and 5. The modulus p is a parameter; a result
// is written into a lent slice of its exact length. Working memory is arrays of the largest size, of which a part is used: there is no
// heap.
#![tactic(auto)]

pub mod line;
pub mod rows;
pub mod witness;
