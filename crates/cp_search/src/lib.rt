//! The search through states: each is expanded once, in the order in which they are found.
#![tactic(auto)]

pub mod visit;

pub use visit::{SearchJob, Visit, take_choices, visit_all};
