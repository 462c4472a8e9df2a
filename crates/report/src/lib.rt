// The lines of a job that program `prove` prints, round by round, and those of a verdict and of a refusal. Working memory is
// arrays of the largest size, of which a part is used, and text goes into a lent buffer from a place on: there is no heap, and the clauses
// state each byte.
#![tactic(auto)]

pub mod first_rounds;
pub mod lines;
pub mod matrix_rounds;
pub mod messages;
