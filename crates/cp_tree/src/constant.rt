//! Names with their places, and constants.

use cp_text::Name;

/// A name where it stands in a program.
#[derive(Drop)]
pub struct Identifier {
    /// The number of tokens before it.
    pub at: usize,
    pub name: Name,
}

#[derive(Clone, Copy, PartialEq, Eq)]
pub enum Sign {
    Plus,
    Minus,
}

/// A constant: a number or a name, with a sign or without, or a character.
#[derive(Drop)]
pub struct Constant {
    /// The number of tokens before it.
    pub at: usize,
    pub kind: ConstantKind,
}

#[derive(Drop)]
pub enum ConstantKind {
    Number(Option<Sign>, u16),
    Name(Option<Sign>, Identifier),
    Character(u8),
}
