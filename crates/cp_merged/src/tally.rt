//! An outcome of a table.

use crate::word::Word;
use cp_natural::Natural;
use cp_run::Outcome;

/// An outcome, how many words of a table have it, and the first of them in dictionary order.
#[derive(Drop)]
pub struct Tally {
    pub outcome: Outcome,
    pub count: Natural,
    pub first: Word,
}
