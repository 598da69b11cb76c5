//! Types and what names stand for, as the checker keeps them.

ghost use Rattle.std.specs.Prelude.{◌≡◌};
ghost use Rattle.cp_scope.specs.Types as spec;

use cp_tree::SystemKind;

/// What the values of an ordinal type are counted in.
#[derive(Clone, Copy)]
pub enum Base {
    Integer,
    Boolean,
    Char,
    /// The enumeration that is written at this token, and the number of its last constant.
    Enumeration(usize, i64),
}

/// The values of an ordinal type, by their numbers.
#[derive(Clone, Copy)]
pub struct Range {
    pub base: Base,
    pub low: i64,
    pub high: i64,
}

impl Base {
    /// Whether two bases are one.
    pub fn is_same(self, other: Base) -> bool
        ensures { result ≡ spec.same_base self other }
    {
        match (self, other) {
            (Base::Integer, Base::Integer) => true,
            (Base::Boolean, Base::Boolean) => true,
            (Base::Char, Base::Char) => true,
            (Base::Enumeration(m, _), Base::Enumeration(n, _)) => m == n,
            _ => false,
        }
    }

    /// All values of the base.
    pub fn whole(self) -> Range
        ensures { result ≡ spec.whole self }
    {
        match self {
            Base::Integer => Range {
                base: self,
                low: -32768,
                high: 32767,
            },
            Base::Boolean => Range {
                base: self,
                low: 0,
                high: 1,
            },
            Base::Char => Range {
                base: self,
                low: 0,
                high: 127,
            },
            Base::Enumeration(_, last) => Range {
                base: self,
                low: 0,
                high: last,
            },
        }
    }
}

/// A type. Arrays, records and components are told apart by the token where they are written.
#[derive(Clone, Copy)]
pub enum ValueType {
    Ordinal(Range),
    Queue,
    /// A set of values of its base; `[]` has none.
    Set(Option<Range>),
    Array(usize),
    Record(usize),
    Component(SystemKind, usize),
}

/// The type of the values of a base.
pub fn values_of(base: Base) -> ValueType
    ensures { result ≡ spec.values_of base }
{
    ValueType::Ordinal(base.whole())
}

impl ValueType {
    /// Whether values of the two types agree.
    pub fn agrees(self, other: ValueType) -> bool
        ensures { result ≡ spec.agree self other }
    {
        match (self, other) {
            (ValueType::Ordinal(a), ValueType::Ordinal(b)) => a.base.is_same(b.base),
            (ValueType::Queue, ValueType::Queue) => true,
            (ValueType::Set(Some(a)), ValueType::Set(Some(b))) => a.base.is_same(b.base),
            (ValueType::Set(_), ValueType::Set(_)) => true,
            (ValueType::Array(m), ValueType::Array(n)) => m == n,
            (ValueType::Record(m), ValueType::Record(n)) => m == n,
            (ValueType::Component(_, m), ValueType::Component(_, n)) => m == n,
            _ => false,
        }
    }

    /// Whether the two types are one, as those of a `var` parameter and its argument have to be.
    pub fn is_same(self, other: ValueType) -> bool
        ensures { result ≡ spec.same self other }
    {
        match (self, other) {
            (ValueType::Ordinal(a), ValueType::Ordinal(b)) => same_range(a, b),
            (ValueType::Set(Some(a)), ValueType::Set(Some(b))) => same_range(a, b),
            (ValueType::Set(None), ValueType::Set(Some(_))) => false,
            (ValueType::Set(Some(_)), ValueType::Set(None)) => false,
            _ => self.agrees(other),
        }
    }

    /// Whether the values are numbers of this base.
    pub fn is_of(self, base: Base) -> bool
        ensures { result ≡ spec.is_of base self }
    {
        match self {
            ValueType::Ordinal(range) => range.base.is_same(base),
            _ => false,
        }
    }

    /// Whether the values of the type are ordered.
    pub fn is_ordinal(self) -> bool
        ensures { result ≡ spec.is_ordinal self }
    {
        match self {
            ValueType::Ordinal(_) => true,
            _ => false,
        }
    }
}

/// Whether two ordinal types have the same values.
fn same_range(left: Range, right: Range) -> bool
    ensures { result ≡ spec.same_range left right }
{
    left.base.is_same(right.base) && left.low == right.low && left.high == right.high
}

/// A routine that each program has.
#[derive(Clone, Copy)]
pub enum Predeclared {
    Succ,
    Pred,
    Chr,
    Ord,
    Abs,
    Empty,
    Delay,
    Continue,
    Display,
}

/// What a name stands for.
#[derive(Clone, Copy)]
pub enum Meaning {
    /// A constant, by its number.
    Constant(Base, i64),
    Kind(ValueType),
    Variable(ValueType),
    Parameter(ValueType),
    /// A `var` parameter.
    Reference(ValueType),
    /// The routine whose name stands at this token.
    Routine(usize),
    Predeclared(Predeclared),
}

impl Meaning {
    /// Whether it is visible from a system type where it is the program's.
    pub fn is_open(self) -> bool
        ensures { result ≡ spec.is_open self }
    {
        match self {
            Meaning::Variable(_) => false,
            Meaning::Routine(_) => false,
            _ => true,
        }
    }
}

/// A parameter of a routine or of a system type.
#[derive(Clone, Copy)]
pub struct Parameter {
    pub is_var: bool,
    pub value_type: ValueType,
}

impl Meaning {
    /// The parameter that it is, if it is one.
    pub fn as_parameter(self) -> Option<Parameter>
        ensures { result ≡ spec.parameter_of self }
    {
        match self {
            Meaning::Parameter(value_type) => Some(Parameter {
                is_var: false,
                value_type,
            }),
            Meaning::Reference(value_type) => Some(Parameter {
                is_var: true,
                value_type,
            }),
            _ => None,
        }
    }
}
