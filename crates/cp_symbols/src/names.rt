//! What names stand for, with slots.

use crate::kinds::{CellBase, CellType};
use cp_slots::PlaceOrigin;

/// A routine that each program has.
#[derive(Clone, Copy, Drop)]
pub enum PredeclaredRoutine {
    Succ,
    Pred,
    Chr,
    Ord,
    Abs,
    Empty,
    Delay,
    Continue,
    Display,
}

/// What a name stands for.
#[derive(Clone, Copy, Drop)]
pub enum LayoutMeaning {
    Constant(CellBase, i16),
    Kind(CellType),
    /// A variable or a parameter.
    Variable(PlaceOrigin, CellType),
    /// A component variable, or an array of these, by the number of the first above that of its container.
    Contained(usize, CellType),
    /// A component parameter, by its permanent cell, with its system type.
    Bound(usize, usize),
    Routine(usize),
    Predeclared(PredeclaredRoutine),
}
