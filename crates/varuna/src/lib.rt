// The public calls of the module. None has a `requires`: every word, slice and order of steps gets a complete result or the first
// refusal of document 01's table that applies, and a refusal changes no lent slice and no session. docs/CALLS.md lists them.
#![tactic(auto)]

pub mod answers;
pub mod arithmetic;
pub mod blinder;
pub mod circuits;
pub mod indexer;
pub mod polynomials;
pub mod records;
pub mod rounds;
pub mod session;
