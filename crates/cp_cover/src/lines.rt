//! The lines whose statements or annotations are not reached.

use crate::mark::CoverMark;
use crate::marks::Marks;
use crate::statements::CoverStatement;
use cp_slots::Said;
use std::alloc::{AllocError, Global};

/// What lines are told of.
#[derive(Clone, Copy)]
pub enum CoverKind {
    Statement,
    Assertion,
    Invariant,
}

impl CoverKind {
    fn is_of(self, statement: &CoverStatement) -> bool {
        match self {
            CoverKind::Statement => statement.said.is_none(),
            CoverKind::Assertion => matches!(statement.said, Some(Said::Assertion)),
            CoverKind::Invariant => matches!(statement.said, Some(Said::Invariant)),
        }
    }

    /// Whether there is one of this kind.
    pub fn is_among(self, statements: &[CoverStatement]) -> bool {
        for statement in statements {
            if self.is_of(statement) {
                return true;
            }
        }
        false
    }
}

/// A line of which no schedule reaches what stands there.
#[derive(Clone, Copy)]
pub struct UnreachedLine {
    pub line: u32,
    /// Whether another one of the same kind in this line is reached.
    pub is_part: bool,
}

/// The lines of what is of a kind and not among the marks, in rising order.
pub fn unreached_lines(
    alloc: Global,
    statements: &[CoverStatement],
    kind: CoverKind,
    marks: &Marks,
) -> Result<Vec<UnreachedLine>, AllocError> {
    let is_reached = |statement: &CoverStatement| marks.has(CoverMark::Statement(statement.item));
    let mut sorted = Vec::new(alloc);
    for statement in statements {
        if kind.is_of(statement) {
            sorted.push(*statement)?;
        }
    }
    // On each line those that are reached come last.
    sorted.sort_unstable_by_key(|statement| (statement.line, is_reached(statement)));
    let mut lines: Vec<UnreachedLine> = Vec::new(alloc);
    for statement in &sorted {
        let line = statement.line;
        let is_part = is_reached(statement);
        match lines.last_mut() {
            Some(last) if last.line == line => last.is_part = is_part,
            _ if !is_part => lines.push(UnreachedLine { line, is_part })?,
            _ => {}
        }
    }
    Ok(lines)
}
