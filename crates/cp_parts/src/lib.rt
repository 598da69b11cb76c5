//! States by the parts that their places have: a row of numbers.
#![tactic(auto)]

pub mod bodies;
pub mod coding;
pub mod decoding;
pub mod grounds;
pub mod laws;
pub mod placing;
pub mod row;
pub mod runs;
pub mod span;
pub mod store;
pub mod taking;

pub use laws::{law_part, law_parts, law_row, law_rows};
pub use placing::PlaceTable;
pub use store::PartStore;
