//! What all schedules come to.

ghost use Rattle.std.specs.Prelude.{◌≤◌, IfOk};
ghost use Rattle.cp_run.specs.Slots.{slots};
ghost use Rattle.cp_cover.specs.Reached.{AreReached};

use crate::marks::Marks;
use cp_layers::note_all;
use cp_progress::ObserveProgress;
use cp_run::Job;
use std::alloc::{AllocError, Global};

/// What schedules come to.
#[derive(Drop)]
pub struct Coverage {
    pub marks: Marks,
    /// They are all schedules of at most so many choices.
    pub choices: u8,
    /// Whether no schedule was stopped by a limit.
    pub is_whole: bool,
}

/// What all schedules of a table come to, by its layers, each of which may have `most` states. A layer of more ends the search; one of a single
/// state never does. An observer is told how far the search has come.
pub fn find_coverage<O: ObserveProgress>(
    alloc: Global,
    job: &Job<'_>,
    most: u32,
    observer: &mut O,
) -> Result<Coverage, AllocError>
    ensures reached { IfOk result (λ c. AreReached (slots job.now.program.now job.now.limits.discipline) job.now.limits.steps c.choices c.marks.known.keys) }
    ensures choices { IfOk result (λ c. c.choices ≤ job.now.limits.choices) }
{
    let noted = note_all::<Marks, O>(alloc, job, most, observer)?;
    Ok(Coverage {
        marks: noted.note,
        choices: noted.choices,
        is_whole: noted.is_whole,
    })
}
