//! Why a source is refused, in words, and hints on what is accepted.
#![tactic(auto)]

mod advice;
mod candidates;
mod characters;
mod component_meant;
mod declared;
mod elsewhere;
mod explain;
mod extent;
mod foreign;
mod further_up;
mod hints;
mod layout;
mod misplaced;
mod operands;
mod page;
mod place;
mod report;
mod rules;
mod saying;
mod spelling;
mod teller;
mod unbegun;

pub use cp_text::ByteRange;
pub use explain::refusal;
pub use report::{ExplainedRefusal, Explanation, Hint, Hints, Position, position_of, text};
