// What the calls for C take and give, in numbers: the arrays that they are given, as the values that the calls of crate `varuna` take,
// and the answers of those calls, as the number that is returned, the position, and the results. The calls are crate `varuna_c`.
#![tactic(auto)]

pub mod answers;
pub mod inputs;
pub mod refusals;
