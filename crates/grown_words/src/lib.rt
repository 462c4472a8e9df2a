// The words of a circuit that grows by the entry (document 02, request 3): where its parts stand, a row's entries, and an entry's words put
// in and taken out. A circuit is 12,294 words that the caller lends: the sizes, and for each matrix the total of its entries, their number
// in each row, and the entries in order; protocol/specs/Grown.antt has the layout. A matrix is named by its number: 0 for A, 1 for B, 2
// for C. It is a number and no enum, since the public calls, and C, answer for every number that a caller gives.
#![tactic(auto)]

pub mod moves;
pub mod places;
pub mod rows;
