//! Functions that never set their results.

use crate::declared::{Declaration, Declared};
use crate::hints::Gathering;
use crate::hints::written::Use;
use cp_tree::{Identifier, RoutineKind};

/// The value with which the result of a function begins, where the language itself declares its type, or the program does.
fn first_value(type_name: &str, is_of_program: bool) -> &'static str {
    match type_name {
        "integer" if !is_of_program => "0",
        "boolean" if !is_of_program => "false",
        _ => "the least value of its type",
    }
}

impl<'a, 'b> Gathering<'a, 'b> {
    /// Adds a hint on each function whose result is never set.
    pub fn add_unset_results(&mut self) {
        for one in &self.declarations.all {
            if let Declared::Routine(routine) = one.what
                && let RoutineKind::Function(_, type_name) = &routine.kind
                && let Some(written) = self.written_in(&routine.body)
            {
                let is_set = written.names.iter().any(|name| {
                    name.used == Use::Set
                        && matches!(self.declarations.named(name.name), Some(set) if set.at == one.at)
                });
                if !is_set {
                    self.add_unset_result(one, type_name);
                }
            }
        }
    }

    fn add_unset_result(&mut self, function: &Declaration<'a>, type_name: &'a Identifier) {
        let is_of_program = self.declarations.named(type_name).is_some();
        let value = first_value(type_name.name.as_str(), is_of_program);
        let name = function.name;
        self.add(
            function.at,
            format_args!(
                "nothing in this function assigns to {name}, so its result is always {value}"
            ),
        );
    }
}
