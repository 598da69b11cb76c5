//! Statements. Each node keeps the number of tokens before it.

use crate::constant::{Constant, Identifier};
use crate::expression::{Designator, Expression};

/// The order in which a `for` goes through its values.
#[derive(Clone, Copy, PartialEq, Eq)]
pub enum Direction {
    To,
    Downto,
}

/// Whose truth an annotation says: that of a place in the text, or that of a component.
#[derive(Clone, Copy, PartialEq, Eq)]
pub enum AssertionKind {
    Assertion,
    Invariant,
}

#[cycle(statement)]
#[derive(Drop)]
pub struct Statement {
    pub at: usize,
    pub kind: StatementKind,
}

#[cycle(statement)]
#[derive(Drop)]
pub enum StatementKind {
    Empty,
    Assign(Designator, Expression),
    Call(Designator, Vec<Expression>),
    Block(Vec<Statement>),
    If(Expression, Box<Statement>, Option<Box<Statement>>),
    /// The truth value tells whether a semicolon stands before the `end`.
    Case(Expression, Vec<Arm>, bool),
    While(Expression, Box<Statement>),
    Repeat(Vec<Statement>, Expression),
    For(Identifier, Expression, Direction, Expression, Box<Statement>),
    Cycle(Vec<Statement>),
    Init(Vec<Start>),
    /// A statement with what is said before it, in order of writing; the node begins with the first opening.
    Asserted(AssertionKind, Vec<Expression>, Box<Statement>),
}

/// An arm of a `case`: its labels, of which there is at least one, and its statement.
#[cycle(statement)]
#[derive(Drop)]
pub struct Arm {
    pub labels: Vec<Constant>,
    pub body: Statement,
}

/// A component that is initialised, with the arguments of its parameters.
#[derive(Drop)]
pub struct Start {
    pub target: Designator,
    pub arguments: Vec<Expression>,
}
