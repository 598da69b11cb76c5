//! Types as they are written. Each node keeps the number of tokens before it.

use crate::constant::{Constant, Identifier};
use cp_text::Name;

#[derive(Drop)]
pub struct Simple {
    pub at: usize,
    pub kind: SimpleKind,
}

#[derive(Drop)]
pub enum SimpleKind {
    Name(Name),
    Enumeration(Vec<Identifier>),
    Subrange(Constant, Constant),
}

#[cycle(types)]
#[derive(Drop)]
pub struct Type {
    pub at: usize,
    pub kind: TypeKind,
}

#[cycle(types)]
#[derive(Drop)]
pub enum TypeKind {
    Simple(Simple),
    /// Index and element.
    Array(Simple, Box<Type>),
    /// The base.
    Set(Simple),
    /// The truth value tells whether a semicolon stands before the `end`.
    Record(Vec<FieldGroup>, bool),
}

/// Fields of one type.
#[cycle(types)]
#[derive(Drop)]
pub struct FieldGroup {
    pub names: Vec<Identifier>,
    pub field_type: Type,
}
