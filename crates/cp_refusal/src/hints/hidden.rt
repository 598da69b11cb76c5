//! Names of routines that hide variables.

use crate::declared::{Declaration, Declared};
use crate::hints::Gathering;
use crate::hints::written::Use;
use std::alloc::AllocError;

/// The use of a declared name in a routine.
#[derive(Clone, Copy, Drop)]
struct RoutineUse {
    /// The token at which the name is declared.
    declared: usize,
    used: Use,
}

/// Whether what a routine declares is never read, or read before it is set.
fn is_lost(uses: &[RoutineUse], local: usize) -> bool {
    let mut is_set = false;
    for one in uses {
        if one.declared != local {
            continue;
        }
        if one.used != Use::Set {
            return one.used == Use::Read && !is_set;
        }
        is_set = true;
    }
    is_set
}

/// Whether what is declared at a token is used.
fn is_used(uses: &[RoutineUse], declared: usize) -> bool {
    uses.iter().any(|one| one.declared == declared)
}

impl<'a, 'b> Gathering<'a, 'b> {
    /// The permanent variable with the name of what is declared in a routine.
    fn hidden_by(&self, local: &Declaration<'a>) -> Option<&'b Declaration<'a>> {
        self.declarations.all.iter().find(|one| {
            one.is_permanent() && one.owner == local.owner && one.name == local.name
        })
    }

    /// The uses of names in routines, in reading order.
    fn routine_uses(&self) -> Result<Vec<RoutineUse>, AllocError> {
        let mut uses = Vec::new(self.alloc);
        for written in self.bodies {
            if !written.owned.is_of_routine {
                continue;
            }
            for one in &written.names {
                if let Some(declared) = self.declarations.named(one.name) {
                    uses.push(RoutineUse {
                        declared: declared.at,
                        used: one.used,
                    })?;
                }
            }
        }
        Ok(uses)
    }

    /// Adds a hint on each name of a routine that hides a permanent variable, where one seems to be meant for the other: the name is lost, or another routine uses
    /// the variable.
    pub fn add_hidden(&mut self) -> Result<(), AllocError> {
        let uses = self.routine_uses()?;
        for local in &self.declarations.all {
            if !local.routine.is_empty()
                && let Some(variable) = self.hidden_by(local)
            {
                let is_variable = matches!(local.what, Declared::Variable(_));
                if is_variable && is_lost(&uses, local.at)
                    || is_used(&uses, local.at) && is_used(&uses, variable.at)
                {
                    self.add_hiding(local, variable);
                }
            }
        }
        Ok(())
    }

    fn add_hiding(&mut self, local: &Declaration<'a>, variable: &Declaration<'a>) {
        let line = self.line_of(variable.at);
        let (name, routine) = (local.name, local.routine);
        self.add(
            local.at,
            format_args!(
                "this hides the permanent variable {name} of line {line}: in {routine} the name is this one alone"
            ),
        );
    }
}
