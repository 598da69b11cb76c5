//! What the checker knows of a program: types, what names stand for, and scopes.
#![tactic(auto)]

pub mod count;
pub mod detail;
pub mod fault;
pub mod scope;
pub mod shape;
pub mod shapes;
pub mod table;
pub mod types;

pub use count::{TOO_MANY, Use, plus, times};
pub use detail::{Detail, FoundValue, Role};
pub use fault::{CheckFault, Rule, broken_rule};
pub use scope::Scope;
pub use shape::{ArrayShape, Census, Heading, TokenShape, plain};
pub use shapes::Shapes;
pub use table::ScopeTable;
pub use types::{Base, Meaning, Parameter, Predeclared, Range, ValueType, values_of};
