//! Where a process that waits does not look again whether it may go on, or waits whatever is true.

use crate::extent::{Part, part_extent};
use crate::hints::Gathering;
use crate::hints::written::Written;
use cp_tree::Statement;

impl<'a, 'b> Gathering<'a, 'b> {
    /// Adds a hint on each wait in a branch of an `if`, where no loop tests again.
    pub fn add_once_tested(&mut self, written: &Written<'a>) {
        for one in &written.statements {
            if one.around.is_branch
                && !one.around.is_tested_again
                && let Some(queue) = self.named_queue(one.statement, "delay")
            {
                self.add_look_again(one.statement.at, queue.name.at);
            }
        }
    }

    fn add_look_again(&mut self, at: usize, queue: usize) {
        let queue = self.text_of(part_extent(self.declarations.tokens, queue, Part::Expression));
        let queue = queue.as_str();
        self.add(
            at,
            format_args!(
                "under --signals continue whoever waits at {queue} has to look again: while in place of if"
            ),
        );
    }

    /// Whether a statement waits in a single queue.
    fn is_plain_delay(&self, statement: &'a Statement) -> bool {
        match self.named_queue(statement, "delay") {
            Some(queue) => queue.selectors.is_empty(),
            None => false,
        }
    }

    /// Whether a `continue` before a token ends the call of a body.
    fn may_leave_before(&self, written: &Written<'a>, at: usize) -> bool {
        self.continue_returns
            && written.statements.iter().any(|one| {
                one.statement.at < at && self.named_queue(one.statement, "continue").is_some()
            })
    }

    /// Adds a hint on each wait to which every call of a routine comes.
    pub fn add_plain_delays(&mut self, written: &Written<'a>) {
        if !written.owned.is_of_routine {
            return;
        }
        for one in &written.owned.body.statements {
            if self.is_plain_delay(one) && !self.may_leave_before(written, one.at) {
                self.add(
                    one.at,
                    "every process that comes here waits; one queue holds one process, and a second one is the run error queue-in-use",
                );
            }
        }
    }
}
