//! The ways on from a state: how many schedules lead on to which outcome.
#![tactic(auto)]

pub mod counting;
pub mod key;
pub mod laws;
pub mod ways;

pub use counting::Counting;
pub use laws::law_alike;
pub use ways::Ways;
