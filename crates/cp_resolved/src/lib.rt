//! The resolved program of a tree, and what its tables are in the terms of the tree: definitions and laws.
#![tactic(auto)]

pub mod laws;
pub mod resolver;

pub use laws::law_resolved;
pub use resolver::{resolve, resolve_with_symbols};
