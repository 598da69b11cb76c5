//! How often components are initialised.

use crate::declared::Declaration;
use crate::hints::Gathering;
use crate::hints::written::Written;
use cp_tree::{StatementKind, SystemKind};

/// How often a component is initialised.
#[derive(Clone, Copy)]
enum Starts {
    Never,
    Once,
    /// A second time for certain, at this token.
    Twice(usize),
}

/// How often a body initialises a component with a name.
fn starts_in(written: &Written, name: &str) -> Starts {
    let mut starts = Starts::Never;
    let mut is_certain = false;
    for placed in &written.statements {
        let StatementKind::Init(all) = &placed.statement.kind else {
            continue;
        };
        for one in all {
            if one.target.name.name.as_str() != name {
                continue;
            }
            // Each run of the body comes to this, and it is no element of an array.
            let is_whole = !placed.around.is_nested && one.target.selectors.is_empty();
            if is_certain && is_whole {
                return Starts::Twice(one.target.name.at);
            }
            is_certain = is_certain || is_whole;
            starts = Starts::Once;
        }
    }
    starts
}

impl<'a, 'b> Gathering<'a, 'b> {
    /// Adds a hint on a component that is started twice, or never.
    fn add_start(&mut self, component: &Declaration<'a>) {
        let Some(system) = self.declarations.component_of(component) else {
            return;
        };
        let body = match self.declarations.system_type(component.owner) {
            Some(owner) => &owner.body,
            None => &self.program.body,
        };
        let Some(written) = self.written_in(body) else {
            return;
        };
        let (at, sentence) = match starts_in(written, component.name) {
            Starts::Twice(at) => (
                at,
                "this is initialised again, and a second init is the run error init-twice",
            ),
            Starts::Once => return,
            Starts::Never if system.kind == SystemKind::Process => (
                component.at,
                "this process is never started: without init it does nothing",
            ),
            Starts::Never => (
                component.at,
                "this is never initialised: a call of it before its init is the run error not-init",
            ),
        };
        self.add(at, sentence);
    }

    /// Adds the hints on starts of components, first those of the system types and then those of the program.
    pub fn add_starts(&mut self) {
        for is_program in [false, true] {
            for one in &self.declarations.all {
                if one.is_permanent() && one.owner.is_empty() == is_program {
                    self.add_start(one);
                }
            }
        }
    }
}
