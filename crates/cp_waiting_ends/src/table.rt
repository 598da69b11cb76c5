//! Who waits at the ends of all schedules of a table.

ghost use Rattle.std.specs.Prelude.{◌≤◌, IfOk};
ghost use Rattle.cp_run.specs.Slots.{slots};
ghost use Rattle.cp_endless_laws.specs.Silent.{waits_on_slots};
ghost use Rattle.cp_waiting_ends.specs.Ending.{AreEndsWithin};

use crate::ends::WaitingEnds;
use cp_layers::{Noted, note_all};
use cp_progress::ObserveProgress;
use cp_run::Job;
use std::alloc::{AllocError, Global};

/// Who waits at the ends at which all wait of all schedules of a table, each with a word that leads there. A layer may have so many states: one
/// of more ends the search, and the answer says of how many choices the schedules are. An observer is told how far the search has come.
pub fn find_waiting<O: ObserveProgress>(
    alloc: Global,
    job: &Job<'_>,
    most: u32,
    observer: &mut O,
) -> Result<Noted<WaitingEnds>, AllocError>
    ensures ends { IfOk result (λ x. AreEndsWithin (slots job.now.program.now job.now.limits.discipline) waits_on_slots job.now.limits.steps x.choices x.note) }
    ensures choices { IfOk result (λ x. x.choices ≤ job.now.limits.choices) }
{
    note_all::<WaitingEnds, O>(alloc, job, most, observer)
}
