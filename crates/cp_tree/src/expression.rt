//! Expressions. Each node keeps the number of tokens before it.

use crate::constant::{Identifier, Sign};

#[derive(Clone, Copy, PartialEq, Eq)]
pub enum Relation {
    Equal,
    NotEqual,
    Less,
    Greater,
    AtMost,
    AtLeast,
    In,
}

/// An operator between the terms of a sum.
#[derive(Clone, Copy, PartialEq, Eq)]
pub enum Addition {
    Plus,
    Minus,
    Or,
}

/// An operator between the factors of a term.
#[derive(Clone, Copy, PartialEq, Eq)]
pub enum Multiplication {
    Times,
    Div,
    Mod,
    And,
}

/// A sum, or the relation of two sums.
#[cycle(expression)]
#[derive(Drop)]
pub struct Expression {
    pub at: usize,
    pub left: Sum,
    pub right: Option<(Relation, Sum)>,
}

/// Terms that are added or subtracted; a sign applies to the first alone.
#[cycle(expression)]
#[derive(Drop)]
pub struct Sum {
    pub at: usize,
    pub sign: Option<Sign>,
    pub first: Term,
    pub more: Vec<(Addition, Term)>,
}

#[cycle(expression)]
#[derive(Drop)]
pub struct Term {
    pub at: usize,
    pub first: Factor,
    pub more: Vec<(Multiplication, Factor)>,
}

#[cycle(expression)]
#[derive(Drop)]
pub struct Factor {
    pub at: usize,
    pub kind: FactorKind,
}

#[cycle(expression)]
#[derive(Drop)]
pub enum FactorKind {
    Number(u16),
    Character(u8),
    /// A variable or a constant, or a call where there are arguments or a routine is named.
    Named(Designator, Vec<Expression>),
    Group(Box<Expression>),
    Not(Box<Factor>),
    /// A set constructor.
    Set(Vec<Expression>),
}

/// A name with its selectors.
#[cycle(expression)]
#[derive(Drop)]
pub struct Designator {
    pub name: Identifier,
    pub selectors: Vec<Selector>,
}

#[cycle(expression)]
#[derive(Drop)]
pub enum Selector {
    /// A field of a record, or a routine of a component.
    Field(Identifier),
    Index(Expression),
}
