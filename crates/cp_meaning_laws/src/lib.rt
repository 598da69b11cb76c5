//! The laws of the language hold for every program that the checker accepts.
#![tactic(auto)]

pub mod laws;

pub use laws::{law_accepted_well_formed, law_exclusive, law_holder, law_ownership};
