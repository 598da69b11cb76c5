//! Why no component is declared at a place.

use crate::declared::Declarations;
use crate::extent::{closing, record_around};
use crate::rules::{mark_at, mark_before};
use cp_scope::ValueType;
use cp_text::Mark;
use cp_tree::{RoutineKind, SystemKind};

impl<'a> Declarations<'a> {
    /// What is wrong with the type of components that stands at a token.
    pub fn misplacement(&self, at: usize) -> &'static str {
        let before = mark_before(self.tokens, at);
        let kind = self.kind_at(at);
        if record_around(self.tokens, at).is_some() {
            " is a type of components, and no field of a record is one"
        } else if before == Some(Mark::Of) && self.is_array(at) {
            " is an array of components, and such an array has one index: it is no element of another array"
        } else if before == Some(Mark::Equal) && !self.is_array(at) {
            " is a system type, and has no second name"
        } else if self.is_result(at) {
            " is a type of components, and no function has one as its result"
        } else if self.routine_around(at).is_some() {
            " is a type of components, and a routine declares none: they are permanent variables"
        } else if kind == Some(SystemKind::Process) && !self.owner_at(at).is_empty() {
            " stands for processes, which are declared in the program alone"
        } else if kind == Some(SystemKind::Monitor) && self.is_in(SystemKind::Class, at) {
            " stands for monitors, and a class declares none: they are declared in the program, in processes and in monitors"
        } else {
            " can't stand here: a component is declared only among permanent variables, a monitor in the program, a process or a monitor, a process in the program, a class in any of these"
        }
    }

    /// Of what kind the components of a type are that is named or written at a token.
    fn kind_at(&self, at: usize) -> Option<SystemKind> {
        let named = if mark_at(self.tokens, at) == Some(Mark::Array) {
            let bounds = closing(self.tokens, at, &[Mark::OpenBracket], &[Mark::CloseBracket]);
            self.type_named_at(bounds.saturating_add(2))?
        } else {
            self.type_named_at(at)?
        };
        let element = match named {
            ValueType::Array(array) => self.scopes.shapes().array(array)?.element,
            other => other,
        };
        match element {
            ValueType::Component(kind, _) => Some(kind),
            _ => None,
        }
    }

    /// Whether the type is an array that is named or written at a token.
    fn is_array(&self, at: usize) -> bool {
        mark_at(self.tokens, at) == Some(Mark::Array)
            || matches!(self.type_named_at(at), Some(ValueType::Array(_)))
    }

    /// Whether the result of a function has the type at a token.
    fn is_result(&self, at: usize) -> bool {
        match self.routine_around(at) {
            Some(routine) =>
                matches!(&routine.kind, RoutineKind::Function(_, result) if result.at == at),
            None => false,
        }
    }
}
