//! What is told, and how.

use cp_legend::Legend;
use cp_run::Limits;
use cp_slots::Resolved;

/// How the outcomes are written.
#[derive(Clone, Copy, PartialEq, Eq)]
pub enum Format {
    Text,
    Json,
}

/// The program whose outcomes are told, and within which limits.
#[derive(Clone, Copy)]
pub struct Subject<'a> {
    pub program: &'a Resolved,
    pub legend: &'a Legend,
    pub limits: Limits,
    /// How many states a layer may have.
    pub states: u32,
    /// The lines of the source.
    pub source: &'a [String],
}

/// The outcomes as they are told.
#[derive(Drop)]
pub struct Summary {
    /// False where there are too many states or outcomes; then the text says what is known, and what to try.
    pub is_whole: bool,
    pub text: String,
}

/// What there is too much of.
#[derive(Clone, Copy)]
pub enum Excess {
    /// States of a layer, of which there may be so many.
    States(u32),
    /// Different outcomes.
    Outcomes,
}
