//! What is expected of a program, and whether it holds of all schedules: of those within limits, or (`endless`) of any length.
#![tactic(auto)]

pub mod comments;
pub mod endless;
pub mod judging;
pub mod laws;
pub mod marking;
pub mod matching;
pub mod output;
pub mod program;
pub mod seen;
pub mod stops;
pub mod waiting;

pub use comments::expectations_in;
pub use judging::Judgement;
pub use laws::{law_holds, law_output, law_stays};
pub use marking::{Standing, mark_of};
pub use program::{MarkFault, Marked, Stops};
pub use seen::{Seen, SeenRow};
pub use waiting::{mark_known, mark_named, names_who};
