// The writer of the proof record: what refuses a call to write one, and the bytes that it leaves in the lent slice. The modulus p is
// a parameter; the contract holds for each prime of that value. The sizes and the lengths are judged before the words, whatever p is.
#![tactic(auto)]

mod judging;
mod writer;

pub use writer::write;
