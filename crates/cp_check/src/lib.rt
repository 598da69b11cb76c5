//! The checker: whether a program breaks a rule of the language, and the first that it breaks.
#![tactic(auto)]

mod call;
mod case;
pub mod checker;
mod constant;
mod declaration;
mod expression;
pub mod fault;
mod heading;
mod name;
mod operand;
mod operation;
mod record;
mod routine;
mod statement;
mod system;
mod types;

pub use checker::{Checked, check, names_at_fault};
pub use fault::{CheckFault, Rule};
