//! What schedules come to: which statements, and who waits where; and what no schedule comes to.
#![tactic(auto)]

pub mod entries;
mod gaps;
mod lines;
pub mod mark;
pub mod marks;
pub mod noting;
mod objects;
pub mod search;
mod statements;
mod texts;

pub use entries::{Entries, entries_of};
pub use gaps::{Gaps, UnreachedLine, gaps_of};
pub use mark::CoverMark;
pub use marks::Marks;
pub use objects::cover_json;
pub use search::{Coverage, find_coverage};
pub use texts::cover_text;
