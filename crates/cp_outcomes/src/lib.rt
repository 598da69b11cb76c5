//! The report in words: each outcome with its share, and whether these are all.
#![tactic(auto)]

pub mod completing;
pub mod known;
pub mod lines;
mod objects;
mod pieces;
pub mod share;
mod simples;
pub mod stopped;
pub mod subject;
mod telling;
mod texts;
mod told;

pub use lines::lines_of;
pub use objects::{excess_and_known_json, excess_json};
pub use subject::{Format, Subject, Summary};
pub use telling::{First, KnownOutcomes, first_of_outcome, outcomes, simplest_of_outcome};
