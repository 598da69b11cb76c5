//! Runs of schedule words: limits, outcomes, stretches, runs and traces.
#![tactic(auto)]

pub mod choice;
pub mod job;
pub mod law;
pub mod limits;
pub mod line;
pub mod moves;
pub mod observe;
pub mod observing;
pub mod outcome;
pub mod runs;
pub mod stretches;
pub mod traces;
pub mod turn;

pub use choice::{candidates, choose, may, open};
pub use job::Job;
pub use law::law_prefix_free;
pub use limits::{Limits, MOST_CHOICES, MOST_STEPS};
pub use line::{Holders, TraceEvent, TraceLine};
pub use observe::Observe;
pub use observing::{expect_step, halt_at, observe_choice, observe_opening, observe_run, see_step};
pub use outcome::{Halt, Outcome, OutcomeKind, Output, RunEnd, Turn};
pub use runs::{is_over, outcome_at, run};
pub use stretches::stretch;
pub use traces::{holders, trace};
