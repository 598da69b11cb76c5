//! The symbols of a program: its names and its types, with the numbers, slots and cells that they have in its tables.
#![tactic(auto)]

mod kinds;
mod names;
mod symbols;

pub use kinds::{ArrayType, CellBase, CellRange, CellType, values_of};
pub use names::{LayoutMeaning, PredeclaredRoutine};
pub use symbols::{
    FieldSymbol, FunctionResult, RoutineSymbol, Symbol, Symbols, SystemSymbol, TypeSymbol,
};
