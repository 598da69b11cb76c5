//! The slot machine: one step of a process at a time, over flat cells and control stacks.
#![tactic(auto)]

mod admit;
mod call;
mod copy;
pub mod discipline;
mod end;
pub mod event;
mod frame;
mod kernel;
mod local;
mod loops;
mod memory;
pub mod moved;
mod perform;
pub mod process;
mod queue;
mod reading;
pub mod shown;
mod stack;
mod start;
mod start_component;
pub mod state;
mod statement;
pub mod stepper;
mod take;
pub mod ticks;

pub use copy::take_list;
pub use discipline::{Discipline, Gates, Signals};
pub use event::{ErrorName, Event, Kernel, RunError};
pub use local::local_step;
pub use moved::{Moved, Unwatched, Watch};
pub use process::{Entry, ProcessState, Status};
pub use shown::Shown;
pub use state::{Gate, MOST_SHOWN, Phase, Readiness, State};
pub use stepper::step;
pub use ticks::{Count, Ticks, Uncounted};
