// The proof record on bytes: its layout, its reader and its section finder. The modulus p is a parameter; the contracts hold for
// each prime of that value. What is checked before the words holds whatever p is.
#![tactic(auto)]

pub mod layout;
mod reader;
mod sections;

pub use reader::{read, word_at};
pub use sections::{find_section, section};
