//! How a run stops between two events.

ghost use Rattle.std.specs.Prelude.{◌≡◌, ◌++◌, map, option_map, string_bytes, IfOk};
ghost use Rattle.cp_legend.specs.Names.{legend_seen};
ghost use Rattle.cp_run.specs.Code.{answer_of};
ghost use Rattle.cp_story.specs.Halted as spec;
ghost use Rattle.cp_story.specs.Halted.{halted_seen};
ghost use Rattle.cp_story.specs.Views.{wait_of};

use crate::observer::Last;
use crate::story::Wait;
use crate::words::{error_words, push_cell_queue, push_process};
use cp_legend::Legend;
use cp_machine::ErrorName;
use cp_run::{OutcomeKind, RunEnd};
use std::alloc::{AllocError, Global};

/// How a run stopped where no event tells of it.
#[derive(Drop)]
pub struct AbruptEnd {
    pub process: u8,
    /// The line of the step that failed, or of the last one.
    pub line: Option<u32>,
    pub words: String,
    /// Who waits already in the queue that is in use.
    pub waiting: Option<u8>,
}

/// How a run with this end stopped after a last step, if no event tells of it.
pub fn abrupt_end(
    alloc: Global,
    legend: &Legend,
    end: &RunEnd,
    last: Last,
    waits: &[Wait],
) -> Result<Option<AbruptEnd>, AllocError>
    ensures { IfOk result (λ s. option_map halted_seen s ≡ spec.halted_at (legend_seen legend.now) (answer_of end.now) last (map wait_of waits.now)) }
{
    match end {
        RunEnd::Ended { outcome, .. } => abrupt_end_as(alloc, legend, outcome.kind, last, waits),
        RunEnd::Wants { .. } | RunEnd::NotReady { .. } => Ok(None),
    }
}

fn abrupt_end_as(
    alloc: Global,
    legend: &Legend,
    kind: OutcomeKind,
    last: Last,
    waits: &[Wait],
) -> Result<Option<AbruptEnd>, AllocError>
    ensures { IfOk result (λ s. option_map halted_seen s ≡ spec.halted_as (legend_seen legend.now) last (map wait_of waits.now) kind) }
{
    let stop = match kind {
        OutcomeKind::RunError {
            name,
            process,
            line,
        } => {
            let waiting = waiting_at_error(name, waits, last.queue);
            AbruptEnd {
                process,
                line: Some(line),
                words: failure_words(alloc, legend, name, last.queue, waiting)?,
                waiting,
            }
        }
        OutcomeKind::StepLimit => end_at_limit(alloc, last, "goes on to the limit of steps")?,
        OutcomeKind::OutputLimit => end_at_limit(alloc, last, "displays a value too many")?,
        OutcomeKind::Finished | OutcomeKind::AllWaiting | OutcomeKind::ChoiceLimit => return Ok(
            None,
        ),
    };
    Ok(Some(stop))
}

fn end_at_limit(alloc: Global, last: Last, words: &str) -> Result<AbruptEnd, AllocError>
    ensures { IfOk result (λ s. halted_seen s ≡ spec.halted_after last words.now) }
{
    Ok(AbruptEnd {
        process: last.process,
        line: last.line,
        words: String::from_str(alloc, words)?,
        waiting: None,
    })
}

// Who waits in the queue of a cell, where the error is that it is in use.
fn waiting_at_error(name: ErrorName, waits: &[Wait], queue: Option<usize>) -> Option<u8>
    ensures { result ≡ spec.waiting_at_error name (map wait_of waits.now) queue }
{
    match (name, queue) {
        (ErrorName::QueueInUse, Some(cell)) => first_in_cell(cell, waits),
        _ => None,
    }
}

fn first_in_cell(cell: usize, waits: &[Wait]) -> Option<u8>
    ensures { result ≡ spec.first_in_cell cell (map wait_of waits.now) }
{
    for wait in waits {
        if wait.status.is_delayed_at(cell) {
            return Some(wait.process);
        }
    }
    None
}

// An error, and who waits in the queue if it is in use.
fn failure_words(
    alloc: Global,
    legend: &Legend,
    name: ErrorName,
    queue: Option<usize>,
    waiting: Option<u8>,
) -> Result<String, AllocError>
    ensures { IfOk result (λ t. string_bytes t ≡ spec.error_text name ++ spec.in_use_text (legend_seen legend.now) queue waiting) }
{
    let mut text = String::from_str(alloc, "stops with ")?;
    text.push_str(error_words(name))?;
    if let (Some(cell), Some(process)) = (queue, waiting) {
        text.push_str(": ")?;
        push_process(legend, &mut text, process)?;
        text.push_str(" waits in ")?;
        push_cell_queue(alloc, legend, &mut text, cell)?;
    }
    Ok(text)
}
