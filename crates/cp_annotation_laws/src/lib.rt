//! What annotations change and promise: schedules are those of the program without them, and where nobody is inside a component, its invariants are true.
//! Definitions and laws.
#![tactic(auto)]

pub mod laws;

pub use laws::{law_annotations, law_invariants};
