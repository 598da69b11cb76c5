//! The ends that are possible in schedules of any length, and who may wait for ever, told in words.
#![tactic(auto)]

mod finding;
pub mod numbered;
mod objects;
mod placing;
pub mod subject;
mod telling;
mod texts;

pub use numbered::{NumberedSchedule, schedule_of_end, schedule_of_wait};
pub use subject::{EndsFormat, EndsSubject, EndsSummary};
pub use telling::ends_story;
