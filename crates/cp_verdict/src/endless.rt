//! What is expected of schedules of any length, and whether it holds.

pub mod at_once;
pub mod judging;
pub mod knowing;
pub mod knowing_at_once;
pub mod known;
pub mod marking;
pub mod matching;
pub mod process;
pub mod saying;
pub mod verdict;
pub mod waiting;
pub mod words;

pub use at_once::{mark_at_once, mark_in_turn};
pub use marking::{MarkSubject, asks_waits};
pub use process::unknown_in;
pub use saying::{Against, MarkedEnds, Said};
pub use verdict::EndsMark;
