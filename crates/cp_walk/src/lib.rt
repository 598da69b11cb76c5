//! The walk over the tree of schedule words: cuttings, workers, tables and their reports, over the slot machine.
#![tactic(auto)]

pub mod beginning;
mod children;
mod collect;
pub mod cutting;
pub mod fault;
mod found;
mod groups;
mod key;
mod member;
mod memo;
pub mod numbers;
mod observer;
pub mod one_thread;
pub mod pieces;
pub mod printed;
mod replay;
pub mod reports;
pub mod row;
mod running;
mod tasks;
pub mod text;
pub mod threads;
pub mod trace_reports;
mod walk;
mod wanting;
mod word;
pub mod worker;
mod workers;

pub use beginning::beginnings;
pub use cp_run::Job;
pub use cutting::{Cutting, MOST_MEMBERS};
pub use fault::{ExploreFault, GatherFault, SplitFault};
pub use one_thread::walk_on_one_thread;
pub use pieces::gather;
pub use printed::{Report, Text};
pub use reports::report;
pub use row::{Row, RowPiece, Rows, Table};
pub use threads::walk_on_threads;
pub use trace_reports::trace_report;
pub use worker::{NoGate, StartGate};
