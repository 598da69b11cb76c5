//! Cells, addresses, and the values of expressions, sets and arguments.
#![tactic(auto)]

mod answer;
pub mod argument;
pub mod arithmetic;
pub mod bind;
pub mod component;
pub mod error;
pub mod evaluation;
pub mod law;
pub mod memory;
pub mod room;
pub mod set;
pub mod writing;

pub use argument::{Bound, evaluate_argument, evaluate_arguments};
pub use bind::{bind_component, bind_frame};
pub use error::ErrorName;
pub use evaluation::{
    address, element_offset, evaluate, evaluate_here, evaluate_set, origin_address,
};
pub use memory::{Address, Frame, Room, cell};
pub use room::{close_frame, open_frame};
pub use writing::{copy_cells, write, write_set};
