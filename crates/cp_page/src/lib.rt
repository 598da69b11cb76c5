//! A page on which the scheduler is played: the states of a program, what each choice leads to, and the counts of all schedules.
#![tactic(auto)]

mod data;
mod endless;
mod ends;
mod events;
mod graph;
mod json;
mod keys;
mod markup;
mod onward;
mod outcomes;
mod register;
mod schedules;
mod script_brief;
mod script_counts;
mod script_key;
mod script_lanes;
mod script_moves;
mod script_panels;
mod script_play;
mod script_rounds;
mod script_teach;
mod source;
mod style;
mod subject;
mod table;
mod teller;
mod variables;
mod views;
mod writing;

pub use subject::{Length, PageSubject};
pub use writing::page;
