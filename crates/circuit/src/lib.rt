// The checks of circuit inputs, in the order of document 01's table of refusals. The modulus p is a parameter. An
// entry list is a slice with three words to an entry: row, column, value. Working memory is arrays of the largest size: there is no heap.
#![tactic(auto)]

pub mod checks;
pub mod given;
pub mod matrices;
