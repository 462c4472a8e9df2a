// Blinding (document 02, request 4): the row and the columns that are reserved for the three blinding values, the refusals of the call,
// and the blinded entry lists and assignment.
#![tactic(auto)]

pub mod blinded;
pub mod columns;
pub mod refusals;
