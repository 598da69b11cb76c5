//! Who may wait for ever while others go on: the states with the choices between them, their strongly connected components, and rounds
//! that can be gone for ever.
#![tactic(auto)]

pub mod building;
pub mod components;
pub mod finding;
pub mod graph;
pub mod laws;
pub mod passing;
pub mod ranks;
pub mod report;
pub mod rounds;
pub mod set;
pub mod trails;
pub mod traps;
pub mod waiting;

pub use finding::{FoundWaits, find_waits};
pub use laws::law_lines_mean;
pub use report::waits_report;
pub use set::Set;
pub use waiting::{How, Waiting, Waits};
