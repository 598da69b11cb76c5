//! Types of values, with how many cells they take.

ghost use Rattle.std.specs.Prelude.{◌≡◌};
ghost use Rattle.cp_symbols.specs.Kinds as spec;

/// What the values of an ordinal type are counted in.
#[derive(Clone, Copy, Drop)]
pub enum CellBase {
    Integer,
    Boolean,
    Char,
    /// With the number of the first constant among those of all enumerations, and the `ord` of the last.
    Enumeration(u16, i16),
}

impl CellBase {
    /// All values.
    pub fn whole(self) -> CellRange
        ensures { result ≡ spec.whole self }
    {
        let (low, high) = match self {
            CellBase::Integer => (i16::MIN, i16::MAX),
            CellBase::Boolean => (0, 1),
            CellBase::Char => (0, 127),
            CellBase::Enumeration(_, last) => (0, last),
        };
        CellRange {
            base: self,
            low,
            high,
        }
    }
}

/// The values of an ordinal type.
#[derive(Clone, Copy, Drop)]
pub struct CellRange {
    pub base: CellBase,
    pub low: i16,
    pub high: i16,
}

impl CellRange {
    /// How many values there are.
    pub fn count(self) -> usize
        ensures { result ≡ spec.count_of self }
    {
        let distance = i64::from(self.high) - i64::from(self.low) + 1;
        if 0 <= distance { distance as usize } else { 0 }
    }

    /// The value with which a variable begins: 0 for all integers, else the least.
    pub fn least(self) -> i16
        ensures { result ≡ spec.least_of self }
    {
        if self.low <= i16::MIN { 0 } else { self.low }
    }
}

/// A type. Arrays and records are told apart by their numbers among the compound types, and system types by theirs.
#[derive(Clone, Copy, Drop)]
pub enum CellType {
    Ordinal(CellRange),
    Queue,
    /// By the values of the base.
    Set(CellRange),
    Array(usize),
    Record(usize),
    System(usize),
}

/// The type of all values of a base.
pub fn values_of(base: CellBase) -> CellType
    ensures { result ≡ spec.values_of base }
{
    CellType::Ordinal(base.whole())
}

#[derive(Clone, Copy, Drop)]
pub struct ArrayType {
    pub index: CellRange,
    pub element: CellType,
    pub element_cells: usize,
    pub cells: usize,
}
