//! Which rule a program breaks, and where.

pub use cp_scope::fault::{CheckFault, Rule};
