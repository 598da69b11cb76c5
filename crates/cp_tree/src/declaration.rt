//! Declarations: parts, routines and system types, as they are written.

use crate::constant::{Constant, Identifier};
use crate::statement::Statement;
use crate::types::Type;

#[derive(Drop)]
pub struct ConstantDefinition {
    pub name: Identifier,
    pub value: Constant,
}

#[derive(Drop)]
pub struct TypeDefinition {
    pub name: Identifier,
    pub value: Type,
}

/// Variables of one type.
#[derive(Drop)]
pub struct VariableGroup {
    pub names: Vec<Identifier>,
    pub variable_type: Type,
}

/// Definitions after one word `const`, `type` or `var`.
#[derive(Drop)]
pub struct Part {
    pub at: usize,
    pub kind: PartKind,
}

#[derive(Drop)]
pub enum PartKind {
    Constants(Vec<ConstantDefinition>),
    Types(Vec<TypeDefinition>),
    Variables(Vec<VariableGroup>),
}

/// Parameters of one type.
#[derive(Drop)]
pub struct Group {
    pub names: Vec<Identifier>,
    pub type_name: Identifier,
}

/// Parameters of a procedure, constant or `var`.
#[derive(Drop)]
pub struct ParameterGroup {
    pub at: usize,
    pub is_var: bool,
    pub group: Group,
}

#[derive(Drop)]
pub enum RoutineKind {
    Procedure(Vec<ParameterGroup>),
    /// Parameters and the name of the result's type.
    Function(Vec<Group>, Identifier),
    /// The invariants of a block, which are a routine without a name.
    Invariants,
}

#[derive(Drop)]
pub struct Routine {
    pub at: usize,
    pub is_entry: bool,
    pub name: Identifier,
    pub kind: RoutineKind,
    pub parts: Vec<Part>,
    pub body: Body,
}

/// The statements between `begin` and `end`, of which there is at least one.
#[derive(Drop)]
pub struct Body {
    pub at: usize,
    pub statements: Vec<Statement>,
}

#[derive(Clone, Copy, PartialEq, Eq)]
pub enum SystemKind {
    Class,
    Monitor,
    Process,
}

/// A class, a monitor or a process.
#[derive(Drop)]
pub struct System {
    pub at: usize,
    pub kind: SystemKind,
    pub parameters: Vec<Group>,
    /// Whether a semicolon follows the heading.
    pub has_semicolon: bool,
    pub parts: Vec<Part>,
    pub routines: Vec<Routine>,
    pub body: Body,
}

#[derive(Drop)]
pub enum Definition {
    Type(Type),
    System(System),
}

#[derive(Drop)]
pub struct SystemDefinition {
    pub name: Identifier,
    pub value: Definition,
}

/// A part at the program's top, whose types may be system types.
#[derive(Drop)]
pub struct ProgramPart {
    pub at: usize,
    pub kind: ProgramPartKind,
}

#[derive(Drop)]
pub enum ProgramPartKind {
    Constants(Vec<ConstantDefinition>),
    Types(Vec<SystemDefinition>),
    Variables(Vec<VariableGroup>),
}

#[derive(Drop)]
pub struct Program {
    pub parts: Vec<ProgramPart>,
    pub routines: Vec<Routine>,
    pub body: Body,
    /// The number of tokens before the final period.
    pub period: usize,
}
