//! What a program means: its components, values, steps and states, on the syntax as it is written.
#![tactic(auto)]

pub mod laws;

pub use laws::{law_exclusive, law_holder, law_ownership};
