//! What is expected of who waits at the ends of schedules, where somebody is named.

pub mod asking;
pub mod marking;
pub mod matching;
pub mod rows;

pub use asking::names_who;
pub use marking::{mark_known, mark_named};
