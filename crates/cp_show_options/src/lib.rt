//! What the words of a call of `cpx_show` ask for.
#![tactic(auto)]

pub mod choosing;
mod command;
mod faults;
pub mod parts;
mod words;

pub use choosing::ScheduleChoice;
pub use parts::{Asked, ShowPart, read_parts};
