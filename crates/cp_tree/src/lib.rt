//! The syntax tree of Concurrent Pascal and its parser.
#![tactic(auto)]

pub mod constant;
mod cursor;
pub mod declaration;
pub mod expression;
pub mod fault;
mod held;
pub mod parser;
mod read_annotation;
mod read_constant;
mod read_expression;
mod read_part;
mod read_program;
mod read_routine;
mod read_statement;
mod read_type;
pub mod statement;
pub mod tree;
pub mod types;

pub use constant::{Constant, ConstantKind, Identifier, Sign};
pub use declaration::{
    Body, ConstantDefinition, Definition, Group, ParameterGroup, Part, PartKind, Program,
    ProgramPart, ProgramPartKind, Routine, RoutineKind, System, SystemDefinition, SystemKind,
    TypeDefinition, VariableGroup,
};
pub use expression::{
    Addition, Designator, Expression, Factor, FactorKind, Multiplication, Relation, Selector, Sum,
    Term,
};
pub use fault::{ParseFault, Wanted};
pub use parser::{parse, wanted_at};
pub use read_annotation::NAMELESS;
pub use statement::{Arm, AssertionKind, Direction, Start, Statement, StatementKind};
pub use tree::Tree;
pub use types::{FieldGroup, Simple, SimpleKind, Type, TypeKind};
