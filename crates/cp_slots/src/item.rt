//! The items of the lists of statements.

use crate::place::{
    Argument, ComponentPlace, OrdinalExpression, Place, PlaceOrigin, SetExpression,
};

/// How a value is shown.
#[derive(Clone, Copy, Drop)]
pub enum ShownKind {
    Integer,
    Character,
    Truth,
    /// A constant of an enumeration, by the number of the enumeration's first constant.
    Constant(u16),
}

/// What an annotation speaks of: a place in the text, or a component.
#[derive(Clone, Copy, Drop)]
pub enum Said {
    Assertion,
    Invariant,
}

/// An arm of a `case`.
#[derive(Drop)]
pub struct ResolvedArm {
    pub labels: Vec<i16>,
    pub body: Option<usize>,
}

/// What an item does. A list inside it is the number of the list's first item.
///
/// The function calls of a statement are items before its own, and `again` is the first of those of a test.
#[derive(Drop)]
pub enum Action {
    Empty,
    Assign {
        target: Place,
        value: OrdinalExpression,
        low: i16,
        high: i16,
    },
    AssignSet {
        target: Place,
        value: SetExpression,
        low: u8,
        high: u8,
    },
    /// The assignment of an array or a record.
    Copy {
        target: Place,
        source: Place,
        size: usize,
    },
    /// `begin`, and `repeat`, after which its `until` follows.
    Block(Option<usize>),
    If {
        test: OrdinalExpression,
        then: Option<usize>,
        otherwise: Option<usize>,
    },
    Case {
        selector: OrdinalExpression,
        arms: Vec<ResolvedArm>,
    },
    /// What an annotation says.
    Assert {
        test: OrdinalExpression,
        said: Said,
    },
    While {
        test: OrdinalExpression,
        body: Option<usize>,
        again: usize,
    },
    Until {
        test: OrdinalExpression,
        body: Option<usize>,
        again: usize,
    },
    For {
        variable: PlaceOrigin,
        /// The bounds of the variable's type.
        low: i16,
        high: i16,
        from: OrdinalExpression,
        to: OrdinalExpression,
        down: bool,
        body: Option<usize>,
    },
    Cycle(Option<usize>),
    Call {
        routine: usize,
        component: ComponentPlace,
        /// Whether the routine is called by a component, and not by its name alone.
        is_entry: bool,
        arguments: Vec<Argument>,
        /// The cell of the calling frame that takes a function's result.
        result: Option<usize>,
    },
    /// The start of a class, a monitor or a process, with the routine of its initial statement.
    Start {
        component: ComponentPlace,
        routine: usize,
        arguments: Vec<Argument>,
    },
    Delay(Place),
    Continue(Place),
    Display {
        value: OrdinalExpression,
        kind: ShownKind,
    },
}

/// An item of a list, with the item after it.
#[derive(Drop)]
pub struct Item {
    pub action: Action,
    pub next: Option<usize>,
    /// The line of its first token.
    pub line: u32,
    /// The routine that it stands in.
    pub routine: usize,
    /// How many entries of a control stack its list may need above its own.
    pub need: usize,
}
