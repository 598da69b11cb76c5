//! From names to slots: the tables of a tree.
#![tactic(auto)]

mod component;
mod declaration;
mod designator;
mod expression;
mod frame;
mod heading;
mod kinds;
mod layer;
mod lists;
mod names;
mod part;
mod statement;
mod surroundings;
mod symbols;
mod tables;
mod types;
mod value;

pub use tables::{lay_out, lay_out_with_symbols};
