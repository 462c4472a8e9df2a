// The matrix sumcheck, rounds 4 and 5, as functions on words: one matrix, then the three in each round. The modulus p is a parameter; a
// result is written into a lent slice of its exact length. Working memory is arrays of the largest size, of which a part is used: there
// is no heap.
#![tactic(auto)]

pub mod joined;
pub mod matrix;
pub mod values;
