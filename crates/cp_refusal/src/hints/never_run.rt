//! What is behind a statement that never ends, or that ends the call.

use crate::hints::Gathering;
use crate::hints::written::Written;
use cp_tree::{Statement, StatementKind};

/// The `cycle` by which a statement never ends, whatever is true when it is begun.
#[cycle(cycles)]
fn cycle_of(statement: &Statement) -> Option<&Statement> {
    match &statement.kind {
        StatementKind::Cycle(_) => Some(statement),
        StatementKind::Block(inner) => cycle_among(inner),
        StatementKind::Asserted(_, _, inner) => cycle_of(inner),
        _ => None,
    }
}

#[cycle(cycles)]
fn cycle_among(statements: &[Statement]) -> Option<&Statement> {
    for one in statements {
        if let Some(found) = cycle_of(one) {
            return Some(found);
        }
    }
    None
}

impl<'a, 'b> Gathering<'a, 'b> {
    /// What ends the call at a statement, or never ends.
    fn last_done(&self, statement: &'a Statement, is_continue: bool) -> Option<&'a Statement> {
        if !is_continue {
            return cycle_of(statement);
        }
        let _queue = self.named_queue(statement, "continue")?;
        Some(statement)
    }

    /// The first statement of a sequence that would do something and never runs, and why it does not.
    fn never_run(
        &self,
        sequence: &'a [Statement],
        is_continue: bool,
    ) -> Option<(&'a Statement, &'a Statement)> {
        let mut last = None;
        for one in sequence {
            match last {
                Some(last) if !matches!(one.kind, StatementKind::Empty) => return Some((one, last)),
                Some(_) => {}
                None => last = self.last_done(one, is_continue),
            }
        }
        None
    }

    /// Adds a hint on the first of the statements behind each `continue`, or behind each `cycle`.
    pub fn add_never_run(&mut self, written: &Written<'a>, is_continue: bool) {
        for sequence in &written.sequences {
            let Some((statement, last)) = self.never_run(*sequence, is_continue) else {
                continue;
            };
            if is_continue {
                self.add(
                    statement.at,
                    "this never runs, since continue ends the call of the entry procedure",
                );
            } else {
                let line = self.line_of(last.at);
                self.add(
                    statement.at,
                    format_args!("this never runs: the cycle of line {line} never ends"),
                );
            }
        }
    }
}
