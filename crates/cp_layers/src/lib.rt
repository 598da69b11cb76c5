//! What all schedules come to, by layers of states: each state is expanded once, and whoever notes is told of each stretch.
#![tactic(auto)]

pub mod layer;
pub mod note;
pub mod search;

pub use layer::Layer;
pub use note::Note;
pub use search::{Noted, note_all};
