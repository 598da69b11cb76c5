//! Which ends are possible, in schedules of any length: a search that expands each state once, and has no word too long.
#![tactic(auto)]

pub mod by_moves;
pub mod choosing;
pub mod end;
pub mod found;
pub mod halving;
pub mod laws;
pub mod learning;
pub mod look;
pub mod move_index;
pub mod moves;
pub mod origin;
pub mod report;
pub mod round;
pub mod row;
pub mod rows;
pub mod search;
pub mod seeing;
pub mod sight;
pub mod states;
pub mod told;
pub mod visit;

pub use end::End;
pub use found::Found;
pub use laws::{law_answer_means, law_answer_to_means};
pub use report::ends_report;
pub use search::{search_ends, search_ends_with};
