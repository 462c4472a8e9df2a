// The verifier: the public session. Crate `step_refusals` has what refuses its steps.
#![tactic(auto)]

pub mod session;
