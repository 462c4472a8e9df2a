// The planner's text, one circuit on a line: the numbers of a line, the first line that is wrong, and the circuits of the others.
#![tactic(auto)]

pub mod circuits;
pub mod numbers;
