//! Symbols: the names of a program, with what the layout made of them. They are made only where they are asked for.

use crate::kinds::{ArrayType, CellType};
use crate::names::LayoutMeaning;
use cp_tree::SystemKind;

/// A function's result, by its cell.
#[derive(Clone, Copy, Drop)]
pub struct FunctionResult {
    pub slot: usize,
    pub value_type: CellType,
}

/// A name that is declared, with what it stands for.
#[derive(Drop)]
pub struct Symbol {
    pub name: String,
    pub meaning: LayoutMeaning,
    /// The routine whose parameter or local variable it is, where it is one.
    pub routine: usize,
    /// The system type that declares it; the program is none.
    pub system: Option<usize>,
}

/// The heading of a routine, or of an initial statement, whose name is empty.
#[derive(Drop)]
pub struct RoutineSymbol {
    pub name: String,
    /// How many parameters it has.
    pub parameters: usize,
    pub result: Option<FunctionResult>,
}

/// A system type.
#[derive(Clone, Copy, Drop)]
pub struct SystemSymbol {
    pub kind: SystemKind,
    /// How many components one is, with those that it contains.
    pub components: usize,
}

/// A field of a record, with the cells before it.
#[derive(Drop)]
pub struct FieldSymbol {
    pub name: String,
    pub value_type: CellType,
    pub offset: usize,
}

/// An array, or a record by its fields and its cells.
#[derive(Drop)]
pub enum TypeSymbol {
    Array(ArrayType),
    Record(Vec<FieldSymbol>, usize),
}

/// The symbols of a program. Routines, system types, arrays and records stand at their numbers.
#[derive(Drop)]
pub struct Symbols {
    /// The names that are declared, but for constants of enumerations, in their order.
    pub declared: Vec<Symbol>,
    pub routines: Vec<RoutineSymbol>,
    pub systems: Vec<SystemSymbol>,
    pub types: Vec<TypeSymbol>,
    /// The constants of all enumerations.
    pub constants: Vec<String>,
}
