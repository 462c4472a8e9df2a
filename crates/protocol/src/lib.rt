// Varuna as document 01 fixes it: definitions, statements and theorems. This crate has no code.
#![tactic(auto)]
