// The public calls for programs in C: one exported function for each prototype of include/varuna.h. Each makes the call of crate
// `varuna` and hands its answer over in numbers: it returns 0 where the call is done and the refusal's number where it is refused, and
// sets the position; a refusal changes no other memory, but for the verdict, which refused openings set to 0, none. A slice is a
// pointer and a length, an array and a number a pointer. The parameters are those of the prototypes, one by one, so their lists are long.
#![tactic(auto)]

pub mod arithmetic;
pub mod blinder;
pub mod circuits;
pub mod indexer;
pub mod polynomials;
pub mod records;
pub mod rounds;
pub mod session;
