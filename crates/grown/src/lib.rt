// Circuits that grow by the entry (document 02, request 3): begun, and changed by an entry. A circuit is words that the caller lends: by
// value every call would move these 49 KiB twice, in lent words it touches what it changes. The modulus p is a parameter; the contracts hold
// for each prime of that value.
#![tactic(auto)]

pub mod beginnings;
pub mod changes;
