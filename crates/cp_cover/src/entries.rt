//! Which routines are entries.

use cp_tree::{Definition, Program, ProgramPartKind, Routine, Tree};
use std::alloc::{AllocError, Global};

/// For each routine, by its number, whether it is an entry.
#[derive(Drop)]
pub struct Entries {
    flags: Vec<bool>,
}

impl Entries {
    /// Whether the routine of this number is an entry.
    pub fn has(&self, routine: usize) -> bool {
        self.flags.get(routine).copied().unwrap_or(false)
    }

    // Routines, and the initial statement after them.
    fn add(&mut self, routines: &[Routine]) -> Result<(), AllocError> {
        for routine in routines {
            self.flags.push(routine.is_entry)?;
        }
        self.flags.push(false)?;
        Ok(())
    }
}

/// The entries of a tree, whose routines have numbers in the order in which they are written.
pub fn entries_of(alloc: Global, tree: &Tree) -> Result<Entries, AllocError> {
    let mut entries = Entries {
        flags: Vec::new(alloc),
    };
    add_systems(&mut entries, &tree.program)?;
    entries.add(&tree.program.routines)?;
    Ok(entries)
}

fn add_systems(entries: &mut Entries, program: &Program) -> Result<(), AllocError> {
    for part in &program.parts {
        if let ProgramPartKind::Types(definitions) = &part.kind {
            for definition in definitions {
                if let Definition::System(system) = &definition.value {
                    entries.add(&system.routines)?;
                }
            }
        }
    }
    Ok(())
}
