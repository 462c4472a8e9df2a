// The text of a whole job: the lines of its proof and the session's last answer, or its refusal. Working memory
// is an array of the largest size, of which a part is used: there is no heap.
#![tactic(auto)]

mod conversation;
pub mod whole;
