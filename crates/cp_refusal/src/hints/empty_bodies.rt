//! Statements that a semicolon ends before what they were meant for.

use crate::declared::Declarations;
use crate::hints::Gathering;
use crate::hints::written::{Written, WrittenName};
use cp_tree::{Selector, Statement, StatementKind};

/// The `if`, `while` or `for` at the end of a statement whose `then` or `do` has nothing behind it.
fn empty_at_end(statement: &Statement) -> Option<&Statement> {
    match &statement.kind {
        StatementKind::If(_, body, None)
        | StatementKind::While(_, body)
        | StatementKind::For(_, _, _, _, body) => match &body.kind {
            StatementKind::Empty => Some(statement),
            _ => empty_at_end(body),
        },
        StatementKind::If(_, _, Some(branch)) => empty_at_end(branch),
        StatementKind::Asserted(_, _, inner) => empty_at_end(inner),
        _ => None,
    }
}

impl<'a> Declarations<'a> {
    /// Whether a name with its selectors is a call of a routine of the program.
    fn is_call(&self, written: &WrittenName<'a>) -> bool {
        let Some(one) = self.named(written.name) else {
            return false;
        };
        let has_field = matches!(written.selectors.last(), Some(Selector::Field(_)));
        one.is_routine() || has_field && self.component_of(&one).is_some()
    }
}

impl<'a, 'b> Gathering<'a, 'b> {
    /// Adds a hint on each `do` and `then` that a semicolon follows.
    pub fn add_empty_bodies(&mut self, written: &Written<'a>) {
        for sequence in &written.sequences {
            for (one, next) in sequence.iter().zip(sequence.iter().skip(1)) {
                if let Some(found) = empty_at_end(one) {
                    self.add_empty_body(written, found, next);
                }
            }
        }
    }

    fn add_empty_body(&mut self, written: &Written<'a>, found: &Statement, next: &Statement) {
        let goes_on = !matches!(next.kind, StatementKind::Empty);
        let (body, sentence) = match &found.kind {
            StatementKind::If(_, body, _) if goes_on => (
                body,
                "this semicolon ends the if, which does nothing: what follows is no part of it",
            ),
            StatementKind::For(_, _, _, _, body) if goes_on => (
                body,
                "this semicolon ends the for, which repeats nothing: what follows is no part of it",
            ),
            StatementKind::While(_, body) if !self.calls_between(written, found.at, body.at) => (
                body,
                "this semicolon ends the while: what it tests never changes, and where that is true once, it goes round for ever",
            ),
            _ => return,
        };
        self.add(body.at, sentence);
    }

    /// Whether a call stands between two tokens, so that other processes go on while it is tested again and again.
    fn calls_between(&self, written: &Written<'a>, from: usize, to: usize) -> bool {
        written.names.iter().any(|one| from <= one.name.at
            && one.name.at < to
            && self.declarations.is_call(one))
    }
}
