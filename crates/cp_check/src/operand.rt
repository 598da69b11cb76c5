//! What the parts of a program are, as far as the rules look at them.

ghost use Rattle.std.specs.Prelude.{◌≡◌};
ghost use Rattle.cp_check.specs.Operands as spec;

use cp_scope::{Base, FoundValue, Predeclared, Use, ValueType, values_of};
use cp_tree::SystemKind;

/// Where a node stands: in the program, or in a system type of this kind; and in the routine whose name stands at a token.
#[derive(Clone, Copy)]
pub struct Context {
    pub owner: Option<SystemKind>,
    pub routine: Option<usize>,
    /// Whether it is in an annotation, which calls no routine.
    pub is_quiet: bool,
}

impl Context {
    /// The same in an annotation.
    pub fn quiet(self) -> Context
        ensures { result ≡ spec.quiet self }
    {
        Context {
            is_quiet: true,
            ..self
        }
    }
}

/// How an operand may be used.
#[derive(Clone, Copy)]
pub enum OperandUse {
    /// A value alone.
    Value,
    /// A name that is not assignable, with its selectors.
    Fixed,
    /// A variable.
    Assignable,
    /// The name of a function in the place of a variable.
    Function,
}

/// An operand: where it begins, and what it takes.
#[derive(Clone, Copy)]
pub struct Operand {
    pub at: usize,
    pub value_type: ValueType,
    pub place: OperandUse,
    pub uses: Use,
}

/// What a name with its selectors stands for.
#[derive(Clone, Copy)]
pub enum Named {
    /// Nothing, since its parts do not agree.
    Nothing,
    Constant(Base),
    Variable(ValueType),
    Parameter(ValueType),
    Kind,
    /// A routine by its simple name.
    Routine(usize),
    /// A routine of a component.
    Entry(usize),
    Predeclared(Predeclared),
}

/// A name with its selectors: what it stands for, where the last name stands, and what it takes.
#[derive(Clone, Copy)]
pub struct DesignatedName {
    pub named: Named,
    pub name_at: usize,
    pub uses: Use,
}

/// A value of a type.
pub fn value(at: usize, value_type: ValueType, uses: Use) -> Operand
    ensures { result ≡ spec.value at value_type uses }
{
    Operand {
        at,
        value_type,
        place: OperandUse::Value,
        uses,
    }
}

/// A value of a base.
pub fn base_value(at: usize, base: Base, uses: Use) -> Operand
    ensures { result ≡ spec.value at (spec.of_base base) uses }
{
    value(at, values_of(base), uses)
}

impl OperandUse {
    /// Whether a value can be assigned.
    pub fn is_assignable(self) -> bool
        ensures { result ≡ spec.is_assignable self }
    {
        match self {
            OperandUse::Assignable => true,
            _ => false,
        }
    }

    /// Whether it is the name of a function.
    pub fn is_function(self) -> bool
        ensures { result ≡ spec.is_function self }
    {
        match self {
            OperandUse::Function => true,
            _ => false,
        }
    }
}

impl Operand {
    /// Its place and its type.
    pub fn as_found(self) -> FoundValue {
        FoundValue {
            at: self.at,
            value_type: self.value_type,
        }
    }

    /// The type of its value, which a function's name has not.
    pub fn own_type(self) -> Option<ValueType> {
        match self.place {
            OperandUse::Function => None,
            _ => Some(self.value_type),
        }
    }

    /// Whether it names a queue.
    pub fn is_queue(self) -> bool
        ensures { result ≡ spec.is_queue self }
    {
        match (self.value_type, self.place) {
            (ValueType::Queue, OperandUse::Fixed) => true,
            _ => false,
        }
    }
}
