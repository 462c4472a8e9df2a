// What holds in any commutative ring or field. This crate has definitions and theorems and no code.
#![tactic(auto)]
