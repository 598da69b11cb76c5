//! Stretches from one choice to the next, by the legs that are known.
#![tactic(auto)]

pub mod admission;
pub mod cache;
pub mod legs;
pub mod numbers;
pub mod stretch;

pub use cache::{LegCache, Standing};
pub use legs::LegTable;
pub use numbers::StatusNumbers;
