//! The key of a state: the state as bytes, and back.
#![tactic(auto)]

pub mod bodies;
mod keyed;
mod law;
mod number;
mod part;
mod reader;
mod reading;
pub mod state_key;
mod writing;

pub use bodies::Parts;
pub use law::{law_core, law_key};
pub use reading::thaw;
pub use state_key::StateKey;
pub use writing::{freeze, freeze_core, most_bytes};
