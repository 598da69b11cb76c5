//! Texts that are written piece by piece, and that tell at the end whether memory was refused.
#![tactic(auto)]

mod prose;

pub use prose::Prose;
