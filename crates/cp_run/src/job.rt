//! What is run.

use crate::limits::Limits;
use cp_slots::Resolved;

/// A program, under limits.
#[derive(Clone, Copy)]
pub struct Job<'a> {
    pub program: &'a Resolved,
    pub limits: Limits,
}
