//! Which ends are possible, in schedules of any length: a search that makes kernel calls at once where it can't matter who comes first, and keeps far fewer
//! states.
#![tactic(auto)]

pub mod entering;
pub mod found;
pub mod kept;
pub mod leg;
pub mod order;
pub mod origin;
pub mod report;
pub mod search;

pub use found::FoundAtOnce;
pub use report::at_once_report;
pub use search::{search_at_once, search_at_once_with};
