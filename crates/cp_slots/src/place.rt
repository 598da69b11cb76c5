//! Places, expressions, sets, components and arguments, with slots in place of names.

/// Where a variable lies.
#[derive(Clone, Copy, Drop)]
pub enum PlaceOrigin {
    /// A permanent cell of the component that is executed.
    Permanent(usize),
    /// A cell of the frame: a parameter, a local variable, the result, or the result of a call.
    Local(usize),
    /// The place that a `var` parameter of the frame names, by the number of the parameter among these.
    Reference(usize),
}

/// A variable or a part of one. Its address is that of the origin, and the offset, and what each index adds.
#[cycle(place)]
#[derive(Drop)]
pub struct Place {
    pub origin: PlaceOrigin,
    /// The cells that fields add.
    pub offset: usize,
    /// From the left to the right as they are written.
    pub indices: Vec<Index>,
}

/// An element of an array: it adds `size` cells for each value that `at` is above `low`.
#[cycle(place)]
#[derive(Drop)]
pub struct Index {
    pub at: OrdinalExpression,
    pub low: i16,
    pub high: i16,
    /// The cells of an element.
    pub size: usize,
}

#[derive(Clone, Copy, Drop)]
pub enum Arithmetic {
    Add,
    Subtract,
    Multiply,
    Divide,
    Modulo,
}

#[derive(Clone, Copy, Drop)]
pub enum Logic {
    And,
    Or,
}

#[derive(Clone, Copy, Drop)]
pub enum Comparison {
    Equal,
    NotEqual,
    Less,
    Greater,
    AtMost,
    AtLeast,
}

#[derive(Clone, Copy, Drop)]
pub enum SetOperation {
    Union,
    Difference,
    Intersection,
}

/// An expression of an ordinal type; its value is the `ord`.
#[cycle(place)]
#[derive(Drop)]
pub enum OrdinalExpression {
    Number(i16),
    /// The cell at a place.
    Load(Place),
    Negate(Box<OrdinalExpression>),
    Absolute(Box<OrdinalExpression>),
    Not(Box<OrdinalExpression>),
    /// With the last value of the type.
    Successor(Box<OrdinalExpression>, i16),
    /// With the first value of the type.
    Predecessor(Box<OrdinalExpression>, i16),
    /// The character of a number.
    Character(Box<OrdinalExpression>),
    Arithmetic(Arithmetic, Box<OrdinalExpression>, Box<OrdinalExpression>),
    Logic(Logic, Box<OrdinalExpression>, Box<OrdinalExpression>),
    Compare(Comparison, Box<OrdinalExpression>, Box<OrdinalExpression>),
    /// Whether two sets are equal, or, where the truth value is false, whether they differ.
    SameSet(bool, Box<SetExpression>, Box<SetExpression>),
    Member(Box<OrdinalExpression>, Box<SetExpression>),
    /// Whether no process waits in a queue.
    IsEmpty(Place),
}

/// An expression of a set type.
#[cycle(place)]
#[derive(Drop)]
pub enum SetExpression {
    /// The cells of a set from a place on.
    Load(Place),
    Empty,
    /// A set and one element more.
    With(Box<SetExpression>, Box<OrdinalExpression>),
    Combine(SetOperation, Box<SetExpression>, Box<SetExpression>),
}

/// A component named in a statement.
#[derive(Drop)]
pub enum ComponentPlace {
    /// The component that is executed.
    Own,
    /// One that the executed component contains: its number is so much greater.
    Contained(usize),
    /// An element of an array of such ones: `first`, and a stride for each value that the index is above `low`.
    Element {
        first: usize,
        low: i16,
        high: i16,
        stride: usize,
        index: Box<OrdinalExpression>,
    },
    /// The component that a parameter is bound to, by the permanent cell of the parameter.
    Parameter(usize),
}

/// What a parameter is bound to.
#[derive(Drop)]
pub enum ArgumentValue {
    /// An ordinal within the bounds of the parameter's type.
    Scalar {
        value: OrdinalExpression,
        low: i16,
        high: i16,
    },
    /// A set whose members are within the bounds of the parameter's base.
    Set {
        value: SetExpression,
        low: u8,
        high: u8,
    },
    /// The cells of an array or a record.
    Copy {
        source: Place,
        size: usize,
    },
    /// A place, for a `var` parameter.
    Reference(Place),
    Component(ComponentPlace),
}

/// An argument.
#[derive(Drop)]
pub struct Argument {
    /// The parameter's first cell in the frame of the routine, or among the permanent cells of the component; of a `var` parameter its number among these.
    pub slot: usize,
    pub value: ArgumentValue,
}
