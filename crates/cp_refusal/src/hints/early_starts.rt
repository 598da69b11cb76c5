//! Processes that are started before a monitor that they are given is initialised.

use crate::hints::Gathering;
use crate::hints::written::{PlacedStatement, name_alone};
use cp_tree::{Designator, Selector, Start, StatementKind, SystemKind};
use std::alloc::AllocError;

/// A component of the program where it is named.
#[derive(Clone, Copy)]
struct NamedComponent {
    kind: SystemKind,
    /// The token at which it, or the array that it is an element of, is declared.
    declared: usize,
    /// Its index, where that is a constant.
    index: Option<i64>,
}

/// A component where it is initialised, and where the outermost loop around that begins, if there is one.
#[derive(Clone, Copy, Drop)]
struct PlacedStart<'a> {
    start: &'a Start,
    component: NamedComponent,
    outermost_loop: Option<usize>,
}

impl<'a> PlacedStart<'a> {
    /// Whether it may initialise a component.
    fn may_be_of(&self, other: NamedComponent) -> bool {
        let is_other = match (self.component.index, other.index) {
            (Some(one), Some(other)) => one != other,
            _ => false,
        };
        self.component.declared == other.declared && !is_other
    }
}

impl<'a, 'b> Gathering<'a, 'b> {
    /// The component variable of the program, or the element of one, that a name with its selectors is.
    fn named_component(&self, node: &'a Designator) -> Option<NamedComponent> {
        let one = self.declarations.named(&node.name)?;
        let kind = self.declarations.component_of(&one)?.kind;
        let index = match node.selectors.first() {
            Some(Selector::Index(index)) => self.declarations.value(index),
            _ => None,
        };
        Some(NamedComponent {
            kind,
            declared: one.at,
            index,
        })
    }

    /// Adds the starts of a statement.
    fn add_placed_starts(
        &self,
        all: &mut Vec<PlacedStart<'a>>,
        placed: &PlacedStatement<'a>,
    ) -> Result<(), AllocError> {
        if let StatementKind::Init(starts) = &placed.statement.kind {
            for start in starts {
                if let Some(component) = self.named_component(&start.target) {
                    all.push(PlacedStart {
                        start,
                        component,
                        outermost_loop: placed.around.outermost_loop,
                    })?;
                }
            }
        }
        Ok(())
    }

    /// Adds a hint on each monitor that is given to a process and initialised only behind the start of it.
    pub fn add_early_starts(&mut self) -> Result<(), AllocError> {
        let program = self.program;
        let Some(written) = self.written_in(&program.body) else {
            return Ok(());
        };
        let mut all = Vec::new(self.alloc);
        for one in &written.statements {
            self.add_placed_starts(&mut all, one)?;
        }
        for (number, one) in all.iter().enumerate() {
            let (before, behind) = all.split_at(number.min(all.len()));
            if one.component.kind == SystemKind::Process {
                self.add_early_start(before, *one, behind);
            }
        }
        Ok(())
    }

    fn add_early_start(
        &mut self,
        before: &[PlacedStart<'a>],
        process: PlacedStart<'a>,
        behind: &[PlacedStart<'a>],
    ) {
        for argument in &process.start.arguments {
            if let Some(given) = name_alone(argument)
                && let Some(monitor) = self.named_component(given)
                && !before.iter().any(|one| one.may_be_of(monitor))
                && let Some(later) = behind.iter().find(|one| one.may_be_of(monitor))
                && (process.outermost_loop.is_none()
                    || later.outermost_loop != process.outermost_loop)
            {
                self.add_uninitialised(given, &process.start.target, &later.start.target);
            }
        }
    }

    fn add_uninitialised(&mut self, given: &Designator, process: &Designator, later: &Designator) {
        let name = given.name.name.as_str();
        let process = process.name.name.as_str();
        let line = self.line_of(later.name.at);
        self.add(
            given.name.at,
            format_args!(
                "{process} is started before {name} is initialised in line {line}: where it calls {name} before that, it is the run error not-init"
            ),
        );
    }
}
