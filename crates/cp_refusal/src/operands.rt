//! Values, and what operations take, in words.

use crate::extent::Extent;
use cp_scope::{Base, ValueType, values_of};
use cp_text::Mark;

/// A value where it is written.
#[derive(Clone, Copy)]
pub struct Value {
    pub extent: Extent,
    pub value_type: ValueType,
}

/// A type with its article.
pub fn phrase(value_type: ValueType) -> &'static str {
    match value_type {
        ValueType::Ordinal(range) => match range.base {
            Base::Integer => "an integer",
            Base::Boolean => "a boolean",
            Base::Char => "a character",
            Base::Enumeration(..) => "a value of an enumeration",
        },
        ValueType::Set(_) => "a set",
        ValueType::Queue => "a queue",
        ValueType::Array(_) => "an array",
        ValueType::Record(_) => "a record",
        ValueType::Component(..) => "a component",
    }
}

/// Whether two types have one phrase.
pub fn are_alike(one: ValueType, other: ValueType) -> bool {
    phrase(one) == phrase(other)
}

pub fn is_set(value_type: ValueType) -> bool {
    matches!(value_type, ValueType::Set(_))
}

/// What is wanted where each ordinal value will do.
pub const ANY_ORDINAL: &str = "an integer, a character, a boolean or a value of an enumeration";

/// What kinds of operands an operation takes.
#[derive(Clone, Copy, PartialEq, Eq)]
pub enum Operands {
    Integers,
    IntegersOrSets,
    BooleansOrSets,
}

impl Operands {
    /// What an operator between terms or factors takes.
    pub fn of(operator: Option<Mark>) -> Operands {
        match operator {
            Some(Mark::Minus) => Operands::IntegersOrSets,
            Some(Mark::And | Mark::Or) => Operands::BooleansOrSets,
            _ => Operands::Integers,
        }
    }

    pub fn phrase(self) -> &'static str {
        match self {
            Operands::Integers => "two integers",
            Operands::IntegersOrSets => "two integers or two sets",
            Operands::BooleansOrSets => "two booleans or two sets",
        }
    }

    /// Whether a value can be one of the operands.
    pub fn admits(self, value: Value) -> bool {
        let found = value.value_type;
        match self {
            Operands::Integers => found.is_of(Base::Integer),
            Operands::IntegersOrSets => found.is_of(Base::Integer) || is_set(found),
            Operands::BooleansOrSets => found.is_of(Base::Boolean) || is_set(found),
        }
    }
}

/// Whether a type has values in an order that are no integers.
fn has_neighbours(found: ValueType) -> bool {
    found.is_ordinal() && !found.is_of(Base::Integer) && !found.is_of(Base::Boolean)
}

/// Whether values of a type can be in a set.
fn is_element(set: ValueType, value: ValueType) -> bool {
    match (set, value) {
        (ValueType::Set(Some(base)), ValueType::Ordinal(range)) => base.base.is_same(range.base),
        _ => false,
    }
}

/// What more is to be said of two operands of which none or both are such as are taken.
pub fn about_sets(operands: Operands, left: ValueType, right: ValueType) -> &'static str {
    match operands {
        Operands::Integers if is_set(left) || is_set(right) => ": sets have or, and and -",
        Operands::Integers | Operands::IntegersOrSets
            if has_neighbours(left) || has_neighbours(right) =>
            ": ord(x) is the number of a value, succ(x) the next one and pred(x) the one before",
        _ if is_set(left) && is_set(right) => " of another type",
        _ if is_element(left, right) => ": an element stands in brackets, as in [x]",
        _ => "",
    }
}

/// Why a type without a name is another one than each that has the same phrase.
pub fn about_unnamed(found: ValueType) -> &'static str {
    match found {
        ValueType::Record(_) => ": each record that is written is a type of its own",
        ValueType::Ordinal(range) if found.is_same(values_of(range.base)) => {
            ": each enumeration that is written is a type of its own"
        }
        ValueType::Ordinal(_) => ": its type has other bounds",
        _ => "",
    }
}

/// What a routine of the language does with a queue; empty for all else.
pub fn about_waiting(routine: &str) -> &'static str {
    match routine {
        "delay" => ": delay(q) waits in the queue q",
        "continue" => ": continue(q) lets the process go on that waits in the queue q",
        "empty" =>
            ": empty(q) asks whether nobody waits in the queue q, and not empty(q) whether somebody does",
        _ => "",
    }
}

/// What a word or a sign is called that takes one value, and what value it takes.
pub fn taker(mark: Option<Mark>) -> (&'static str, &'static str) {
    match mark {
        Some(Mark::If) => ("if", "a boolean"),
        Some(Mark::While) => ("while", "a boolean"),
        Some(Mark::Until) => ("until", "a boolean"),
        Some(Mark::Assert) => ("assert", "a boolean"),
        Some(Mark::Invariant) => ("invariant", "a boolean"),
        Some(Mark::Not) => ("not", "a boolean"),
        Some(Mark::Case) => ("case", ANY_ORDINAL),
        _ => ("a sign", "an integer"),
    }
}

/// What value a routine of the language takes that takes no queue.
pub fn argument_of(routine: &str) -> &'static str {
    match routine {
        "abs" | "chr" => "an integer",
        "display" => "a value",
        _ => ANY_ORDINAL,
    }
}

/// Why two values are not compared.
pub fn why_not_compared(relation: Option<Mark>, left: ValueType, right: ValueType) -> &'static str {
    let is_equality = matches!(relation, Some(Mark::Equal | Mark::NotEqual));
    if relation == Some(Mark::In) {
        " asks whether a value is in a set of such values, but "
    } else if !are_alike(left, right) {
        " compares two values of one type, but "
    } else if left.is_ordinal() || is_set(left) && is_equality {
        " compares two values of one type, and these are of two: "
    } else {
        " can't compare these: "
    }
}
