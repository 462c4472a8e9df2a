// What refuses each step of the verifier's session, and whether a session holds what steps leave in it. The modulus p is a parameter;
// the contracts hold for each prime of that value.
#![tactic(auto)]

pub mod holdings;
pub mod refusals;
