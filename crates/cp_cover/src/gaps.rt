//! What no schedule comes to, in the names of the source.

use crate::entries::Entries;
pub use crate::lines::UnreachedLine;
use crate::lines::{CoverKind, unreached_lines};
use crate::mark::CoverMark;
use crate::marks::Marks;
use crate::search::Coverage;
use crate::statements::statements;
use cp_legend::{Legend, LegendComponent};
use cp_slots::{ComponentKind, Resolved};
use std::alloc::{AllocError, Global};

/// What no schedule comes to.
#[derive(Drop)]
pub struct Gaps {
    /// The lines of statements that are not reached.
    pub lines: Vec<UnreachedLine>,
    /// Those of assertions, and whether there are assertions at all.
    pub assertions: Vec<UnreachedLine>,
    pub has_assertions: bool,
    /// Those of invariants that are never looked at, and whether there are invariants at all.
    pub invariants: Vec<UnreachedLine>,
    pub has_invariants: bool,
    /// The queues in which nobody ever waits.
    pub queues: Vec<String>,
    /// Whether there are queues at all.
    pub has_queues: bool,
    /// The entries of monitors at whose gates nobody ever waits for them.
    pub gates: Vec<String>,
    /// Whether monitors have entries at all.
    pub has_gates: bool,
    /// The schedules are all those of at most so many choices.
    pub choices: u8,
    /// Whether no schedule was stopped by a limit.
    pub is_whole: bool,
}

/// What the coverage of a program leaves out.
pub fn gaps_of(
    alloc: Global,
    program: &Resolved,
    legend: &Legend,
    entries: &Entries,
    coverage: &Coverage,
) -> Result<Gaps, AllocError> {
    let statements = statements(alloc, program)?;
    let marks = &coverage.marks;
    let mut whole = Gaps {
        lines: unreached_lines(alloc, &statements, CoverKind::Statement, marks)?,
        assertions: unreached_lines(alloc, &statements, CoverKind::Assertion, marks)?,
        has_assertions: CoverKind::Assertion.is_among(&statements),
        invariants: unreached_lines(alloc, &statements, CoverKind::Invariant, marks)?,
        has_invariants: CoverKind::Invariant.is_among(&statements),
        queues: Vec::new(alloc),
        has_queues: false,
        gates: Vec::new(alloc),
        has_gates: false,
        choices: coverage.choices,
        is_whole: coverage.is_whole,
    };
    for component in &legend.components {
        whole.add_queues(alloc, legend, component, marks)?;
        whole.add_gates(alloc, program, legend, entries, component, marks)?;
    }
    Ok(whole)
}

impl Gaps {
    // The queues of a component.
    fn add_queues(
        &mut self,
        alloc: Global,
        legend: &Legend,
        component: &LegendComponent,
        marks: &Marks,
    ) -> Result<(), AllocError> {
        for variable in legend.variables_of(component) {
            if legend.shapes.is_queues(variable.shape) {
                let first = component.base.saturating_add(variable.slot);
                for place in 0..legend.shapes.cells_of(variable.shape) {
                    let cell = first.saturating_add(place);
                    self.has_queues = true;
                    if !marks.has(CoverMark::Queue(cell)) {
                        let name = legend.permanent_name(alloc, cell, 1)?;
                        self.queues
                            .push(qualified_name(alloc, component, name.as_str())?)?;
                    }
                }
            }
        }
        Ok(())
    }

    // The entries of a component, if it is a monitor.
    fn add_gates(
        &mut self,
        alloc: Global,
        program: &Resolved,
        legend: &Legend,
        entries: &Entries,
        component: &LegendComponent,
        marks: &Marks,
    ) -> Result<(), AllocError> {
        let ComponentKind::Monitor(monitor) = component.kind else {
            return Ok(());
        };
        // The program's own initial statement is the last routine.
        let _processes = program.processes();
        let process = program.process(0);
        for routine in 0..process.routine {
            if entries.has(routine) && program.routine(routine).system == component.system {
                self.has_gates = true;
                if !marks.has(CoverMark::Gate { monitor, routine }) {
                    let name = legend.routine_name(routine);
                    self.gates.push(qualified_name(alloc, component, name)?)?;
                }
            }
        }
        Ok(())
    }
}

// A name with that of its component before it.
fn qualified_name(
    alloc: Global,
    component: &LegendComponent,
    name: &str,
) -> Result<String, AllocError> {
    format!(in alloc; "{}.{name}", component.path.as_str())
}
