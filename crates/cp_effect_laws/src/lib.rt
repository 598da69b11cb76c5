//! What the steps of a process touch of a machine, and that machines which agree on it take the same steps: definitions and laws.
#![tactic(auto)]

pub mod laws;

pub use laws::{law_admission, law_effect, law_leg, law_stays, law_step, law_walked};
