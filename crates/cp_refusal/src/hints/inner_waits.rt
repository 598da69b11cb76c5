//! Where a process may wait while it is inside another monitor.

use crate::declared::{Declaration, Declared};
use crate::extent::{Extent, between};
use crate::hints::Gathering;
use crate::hints::written::WrittenName;
use cp_tree::{Routine, Selector, SystemKind};
use std::alloc::AllocError;

/// Whether the routine of a system type with this name is among these.
fn has(routines: &[Declaration], owner: &str, name: &str) -> bool {
    routines
        .iter()
        .any(|one| one.owner == owner && one.name == name)
}

impl<'a, 'b> Gathering<'a, 'b> {
    /// The call of a component's routine that a name with its selectors is, where that is one of those that may wait.
    fn waiting_call(&self, waiting: &[Declaration], written: &WrittenName<'a>) -> Option<Extent> {
        let Some(Selector::Field(routine)) = written.selectors.last() else {
            return None;
        };
        let component = self.declarations.named(written.name)?;
        let called = self.declarations.component_type(&component)?;
        if has(waiting, called.name, routine.name.as_str()) {
            Some(between(written.name.at, routine.at.saturating_add(1)))
        } else {
            None
        }
    }

    /// Adds a hint on each call, within a monitor, of another one in which it may wait. Each system type and each routine calls only those before it.
    pub fn add_inner_waits(&mut self) -> Result<(), AllocError> {
        let mut waiting = Vec::new(self.alloc);
        for one in &self.declarations.all {
            if let Declared::Routine(routine) = one.what
                && let Some(system) = self.declarations.system_type(one.owner)
                && self.may_wait(&waiting, one, routine, system.kind == SystemKind::Monitor)
            {
                waiting.push(*one)?;
            }
        }
        Ok(())
    }

    /// Whether a routine may wait: by `delay`, or in a routine that it calls, of which those that may wait are known. Adds the hints on such calls in a monitor.
    fn may_wait(
        &mut self,
        waiting: &[Declaration],
        caller: &Declaration,
        routine: &Routine,
        is_of_monitor: bool,
    ) -> bool {
        let Some(written) = self.written_in(&routine.body) else {
            return false;
        };
        let mut may_wait = false;
        for one in &written.names {
            let call = self.waiting_call(waiting, one);
            if let Some(call) = call
                && is_of_monitor
            {
                self.add_inner_wait(call, caller.owner);
            }
            may_wait = may_wait
                || call.is_some()
                || self.declarations.is_standard(one.name.at, "delay")
                || has(waiting, caller.owner, one.name.name.as_str());
        }
        may_wait
    }

    fn add_inner_wait(&mut self, call: Extent, outer: &str) {
        let inner = self.text_of(call);
        let inner = inner.as_str();
        self.add(
            call.from,
            format_args!(
                "whoever waits in {inner} is still inside {outer}, so that nobody else can come in there, not even to wake it"
            ),
        );
    }
}
