//! The different outcomes of a table.

use cp_merged::word::Word;
use cp_run::Outcome;

/// An outcome, and the first schedule that ends in it.
#[derive(Clone, Copy, Drop)]
pub struct Seen<'a> {
    pub outcome: &'a Outcome,
    pub first: &'a Word,
}

/// A schedule and its outcome.
#[derive(Drop)]
pub struct SeenRow {
    pub schedule: Word,
    pub outcome: Outcome,
}
