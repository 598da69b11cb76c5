//! What is written at a token: an array, a record, a system type, a routine's heading, and what its body takes.

ghost use Rattle.std.specs.Prelude.{◌≡◌};
ghost use Rattle.cp_scope.specs.Scopes as spec;

use crate::count::{TOO_MANY, Use, plus};
use crate::scope::Scope;
use crate::types::{Parameter, Range, ValueType};

/// An array's index, its elements, and its cells.
#[derive(Clone, Copy)]
pub struct ArrayShape {
    pub index: Range,
    pub element: ValueType,
    pub cells: u32,
}

/// What variables take: permanent cells, components, processes, and the greatest need of a process.
#[derive(Clone, Copy)]
pub struct Census {
    pub cells: u32,
    pub components: u32,
    pub processes: u32,
    pub need: u32,
}

/// The heading of a routine or of a system type.
#[derive(Drop)]
pub struct Heading {
    pub is_entry: bool,
    pub parameters: Vec<Parameter>,
    /// The type of a function's result.
    pub result: Option<ValueType>,
}

/// What is written at a token.
#[derive(Drop)]
pub enum TokenShape {
    Array(ArrayShape),
    /// Fields and cells.
    Record(Scope, u32),
    /// The names in a system type, its heading, what its variables take, and what its initial statement takes.
    System(Scope, Heading, Census, u32),
    /// A routine's heading, and where its body is written.
    Heading(Heading, usize),
    /// What a routine's body takes.
    Body(Use),
}

impl Census {
    /// No variables.
    pub fn nothing() -> Census
        ensures { result ≡ spec.no_census }
    {
        plain(0)
    }

    /// Both together.
    pub fn and(self, other: Census) -> Census
        ensures { result ≡ spec.both_census self other }
    {
        Census {
            cells: plus(self.cells, other.cells),
            components: plus(self.components, other.components),
            processes: plus(self.processes, other.processes),
            need: self.need.max(other.need),
        }
    }
}

/// Cells alone.
pub fn plain(cells: u32) -> Census
    ensures { result ≡ spec.plain_census cells }
{
    Census {
        cells,
        components: 0,
        processes: 0,
        need: 0,
    }
}

impl Range {
    /// How many values there are, where the upper bound is not below the lower.
    pub fn count(self) -> u32
        ensures { result ≡ spec.count_of self }
    {
        let distance = self.high.abs_diff(self.low);
        distance.saturating_add(1).min(TOO_MANY as u64) as u32
    }
}
