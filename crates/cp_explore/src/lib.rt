//! The exploration of all schedules: tables and reports, in the terms of the program's own names, and the laws of both.
#![tactic(auto)]

pub mod laws;
pub mod merged;
pub mod one_thread;
pub mod threads;

pub use cp_meaning_laws::{law_exclusive, law_ownership};
pub use cp_merged::{MergeFault, Tallies, merged_report};
pub use cp_walk::{
    Cutting, ExploreFault, GatherFault, Job, MOST_MEMBERS, NoGate, Report, Row, RowPiece as Piece,
    Rows, SplitFault, StartGate as Gate, Table, Text, beginnings, gather, report, trace_report,
};
pub use laws::{
    law_closed, law_complete, law_greater_limits, law_layers, law_more_steps, law_prefix_free,
    law_report,
};
pub use merged::explore_merged;
pub use one_thread::explore_one;
pub use threads::{explore, explore_observed};
