//! What does not agree where a rule is broken, for those who say it in words. No clause looks at it.

use crate::types::ValueType;

/// A value: where it begins, and its type.
#[derive(Clone, Copy)]
pub struct FoundValue {
    pub at: usize,
    pub value_type: ValueType,
}

/// What a name with its selectors stands for.
#[derive(Clone, Copy)]
pub enum Role {
    /// A constant, a variable or a parameter of this type, or a part of one.
    Value(ValueType),
    Kind,
    Function,
    Procedure,
}

/// What does not agree. Arrays, records, components and routines are known by their tokens.
#[derive(Clone, Copy)]
pub enum Detail {
    /// A value, and the word, the sign or the routine of the language before it.
    Operand(FoundValue),
    /// Two values, and the operator before the second.
    Operands(FoundValue, FoundValue),
    /// The first element of a set, and another one.
    Elements(FoundValue, FoundValue),
    /// What stands before an index, and the index.
    Index(Role, FoundValue),
    /// What stands before a period, and where the name behind it is.
    Period(Role, usize),
    /// The type of what stands before a period, and a name that it has not.
    Member(ValueType),
    /// A name where a value is wanted.
    Value(Role),
    /// A name where a procedure is wanted.
    Call(Role),
    /// A name on the left of an assignment.
    Target(Role),
    /// A name that `init` does not start.
    Start(Role),
    /// A name by which `for` does not count.
    Counter(Role),
    /// The routine or the system type, unless the language has it itself, and the number of arguments.
    Number(Option<usize>, usize),
    /// The routine or the system type, and an argument, before which so many stand.
    Argument(usize, usize, FoundValue),
    /// A name that can't be assigned, by the type of its value; of a function there is none.
    Fixed(Option<ValueType>),
    /// The type of what stands on the left, and the value.
    Assignment(ValueType, FoundValue),
    /// The type of the variable of a `for`, and its bounds.
    Bounds(ValueType, FoundValue, FoundValue),
}
