//! Who waits at the ends at which all wait: of all schedules of at most so many choices, or of any length.
#![tactic(auto)]

pub mod again;
pub mod end;
pub mod ends;
pub mod noting;
pub mod quiet;
pub mod table;

pub use again::find_again;
pub use end::WaitingEnd;
pub use ends::WaitingEnds;
pub use table::find_waiting;
