//! The statements and annotations of a program.

ghost use Rattle.std.specs.Prelude.{◌<◌, length};

use cp_slots::{Action, Resolved, Said};
use std::alloc::{AllocError, Global};

/// A statement, a call in an expression, or an annotation, by its item.
#[derive(Clone, Copy)]
pub struct CoverStatement {
    pub item: usize,
    /// The line of its first token; of an annotation that of its expression.
    pub line: u32,
    /// What it says, where it is an annotation.
    pub said: Option<Said>,
}

/// All statements and annotations of all routines. Empty statements do nothing, and of compound ones the inner statements are told.
pub fn statements(alloc: Global, program: &Resolved) -> Result<Vec<CoverStatement>, AllocError> {
    let mut found = Vec::new(alloc);
    // Of the items the program's own are laid out last, and of these the first one last of all.
    let _processes = program.processes();
    let process = program.process(0);
    let Some(last) = program.routine(process.routine).body else {
        return Ok(found);
    };
    for at in 0..last {
        add_statement(program, at, &mut found)?;
    }
    add_statement(program, last, &mut found)?;
    Ok(found)
}

fn add_statement(
    program: &Resolved,
    at: usize,
    found: &mut Vec<CoverStatement>,
) -> Result<(), AllocError>
    requires { at < length program.now.items }
{
    let item = program.item(at);
    if tells_itself(&item.action) && !is_check(program, at) {
        found.push(CoverStatement {
            item: at,
            line: item.line,
            said: said_by(&item.action),
        })?;
    }
    Ok(())
}

fn tells_itself(action: &Action) -> bool {
    !matches!(action, Action::Empty | Action::Block(_))
}

fn said_by(action: &Action) -> Option<Said> {
    match action {
        Action::Assert { said, .. } => Some(*said),
        _ => None,
    }
}

// Whether an item calls the invariants of a block, which is written nowhere. The invariants tell themselves.
fn is_check(program: &Resolved, at: usize) -> bool
    requires { at < length program.now.items }
{
    let Action::Call { routine, .. } = &program.item(at).action else {
        return false;
    };
    let Some(first) = program.routine(*routine).body else {
        return false;
    };
    matches!(
        program.item(first).action,
        Action::Assert {
            said: Said::Invariant,
            ..
        }
    )
}
