//! Queues in which somebody waits and whom nobody lets go on.

use crate::hints::Gathering;
use crate::hints::written::name_alone;
use cp_tree::{Designator, Statement, StatementKind};
use std::alloc::AllocError;

/// A queue where a `delay` or a `continue` names it.
#[derive(Clone, Copy, Drop)]
struct NamedQueue<'a> {
    /// The token at which the queue, or the array that it is an element of, is declared.
    declared: usize,
    named: &'a Designator,
    is_delay: bool,
}

/// Whether one of these is in the same variable as a queue, and named by a `delay` or by a `continue`, as is asked.
fn has(all: &[NamedQueue], declared: usize, is_delay: bool) -> bool {
    all.iter()
        .any(|one| one.declared == declared && one.is_delay == is_delay)
}

impl<'a, 'b> Gathering<'a, 'b> {
    /// The queue that a statement names, where it is a call of this routine of the language itself, `delay` or `continue`.
    pub fn named_queue(&self, statement: &'a Statement, routine: &str) -> Option<&'a Designator> {
        match &statement.kind {
            StatementKind::Call(called, arguments)
                if self.declarations.is_standard(called.name.at, routine) => name_alone(
                arguments.first()?,
            ),
            _ => None,
        }
    }

    /// The queues that the statements of the program name, in reading order.
    fn named_queues(&self) -> Result<Vec<NamedQueue<'a>>, AllocError> {
        let mut all = Vec::new(self.alloc);
        for written in self.bodies {
            for one in &written.statements {
                for (routine, is_delay) in [("delay", true), ("continue", false)] {
                    if let Some(named) = self.named_queue(one.statement, routine)
                        && let Some(queue) = self.declarations.named(&named.name)
                    {
                        all.push(NamedQueue {
                            declared: queue.at,
                            named,
                            is_delay,
                        })?;
                    }
                }
            }
        }
        Ok(all)
    }

    /// Adds a hint on the first `delay` in each queue that no `continue` names, nor another element of its array.
    pub fn add_unnamed_queues(&mut self) -> Result<(), AllocError> {
        let all = self.named_queues()?;
        for (number, one) in all.iter().enumerate() {
            let before = &all[..number.min(all.len())];
            if one.is_delay && !has(&all, one.declared, false) && !has(before, one.declared, true) {
                self.add_unnamed_queue(one.named);
            }
        }
        Ok(())
    }

    fn add_unnamed_queue(&mut self, queue: &Designator) {
        let name = queue.name.name.as_str();
        let element = if queue.selectors.is_empty() {
            ""
        } else {
            "an element of "
        };
        self.add(
            queue.name.at,
            format_args!(
                "no continue names {element}{name}, so that whoever waits here waits for ever"
            ),
        );
    }
}
