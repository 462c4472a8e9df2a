// What calls are given: a circuit, what every prover call begins with, and challenges.

use shared::{Three, Triple};

// A circuit as words: |R|, |C|, |X|, and the entry lists of A, B, C.
#[derive(Clone, Copy)]
pub struct CircuitWords<'a> {
    pub r: u32,
    pub c: u32,
    pub x: u32,
    pub matrices: Three<&'a [u32]>,
}

// The circuit, the assignment z, the mask word and the mask polynomial m.
#[derive(Clone, Copy)]
pub struct ProverInput<'a> {
    pub circuit: CircuitWords<'a>,
    pub z: &'a [u32],
    pub mask: u32,
    pub m: &'a [u32],
}

// The verifier's challenges, in the order in which they are heard.
#[derive(Clone, Copy)]
pub struct Challenges {
    pub alpha: u32,
    pub eta: Triple,
    pub beta: u32,
    pub delta: Triple,
    pub gamma: u32,
}
