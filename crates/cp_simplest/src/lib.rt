//! The simplest schedule of each outcome: the one in which processes are switched least.
#![tactic(auto)]

pub mod finding;
pub mod label;
pub mod search;
pub mod states;
pub mod watching;

pub use finding::{Searched, SimplestSchedule, is_schedule_of, simplest};
