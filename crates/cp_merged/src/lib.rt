//! The outcomes of all schedules, counted without rows: schedules that come to one state are counted together.
#![tactic(auto)]

pub mod end_key;
pub mod explorer;
pub mod fault;
pub mod frontier;
pub mod known;
pub mod laws;
pub mod layer;
pub mod layering;
pub mod ordered;
pub mod prefixes;
pub mod report;
pub mod tallies;
pub mod tally;
pub mod word;

pub use explorer::{explore_merged, explore_merged_with};
pub use fault::MergeFault;
pub use laws::{law_closed, law_complete, law_layers, law_report};
pub use report::merged_report;
pub use tallies::Tallies;
pub use tally::Tally;
pub use word::Word;
