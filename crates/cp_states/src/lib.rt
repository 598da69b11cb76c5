//! Tables of different lists, each with a number, and their hashes.
#![tactic(auto)]

pub mod chain;
pub mod codes;
pub mod hashing;
pub mod index;
pub mod lists;

pub use index::HashIndex;
pub use lists::ListStore;
