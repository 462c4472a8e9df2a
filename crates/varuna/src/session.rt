// The verifier's session, as crate `verifier` has it.
pub use verifier::session::{SESSION_WORDS, Session, Stepped};
