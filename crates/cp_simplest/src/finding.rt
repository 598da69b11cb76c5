//! The simplest schedules of outcomes.

ghost use Rattle.std.specs.Prelude.{◌≡◌, IfOk, true};
ghost use Rattle.cp_run.specs.Slots.{slots};
ghost use Rattle.cp_simplest.specs.Simple as spec;

use crate::search::SimplestVisit;
use cp_machine::{State, Uncounted};
use cp_merged::Word;
use cp_progress::ObserveProgress;
use cp_run::{Outcome, RunEnd, run};
use cp_search::{SearchJob, visit_all};
use cp_walk::Job;
use cp_walk::numbers::is_same;
use std::alloc::{AllocError, Global};

/// A schedule, and how many switches it has.
#[derive(Drop)]
pub struct SimplestSchedule {
    pub word: Word,
    pub switches: u8,
}

/// The simplest schedules.
#[derive(Drop)]
pub enum Searched {
    /// One for each outcome, if there is one.
    Found(Vec<Option<SimplestSchedule>>),
    /// There are more states than may be kept.
    TooMany,
}

/// The simplest schedule of each of these outcomes, by a search through so many states at most: of those with as many choices as the job
/// allows it has the fewest switches, of these the fewest numbers, and of these it is the first in dictionary order. A switch is a choice
/// of a process other than the one that made the last step, while that one could be chosen; a choice at a gate is none. An observer is told
/// how far the search has come.
pub fn simplest<O: ObserveProgress>(
    alloc: Global,
    job: Job,
    most: u32,
    outcomes: &[&Outcome],
    observer: &mut O,
) -> Result<Searched, AllocError> {
    // A state is expanded by several words, so the visitor counts its states itself.
    let job = SearchJob {
        alloc,
        run: job,
        most: u32::MAX,
    };
    let mut visit = SimplestVisit::new(&job, most, outcomes)?;
    let mut state = State::start(job.alloc, job.run.program, job.run.limits.discipline)?;
    let mut next = state.copy(job.alloc)?;
    if !visit.open(&job, &mut state)? {
        return Ok(Searched::TooMany);
    }
    match visit_all(&job, &mut visit, &mut state, &mut next, observer)? {
        Some(_) => Ok(Searched::TooMany),
        None => Ok(Searched::Found(visit.into_found())),
    }
}

/// Whether the run of a word uses all of it and ends with an outcome.
pub fn is_schedule_of(
    alloc: Global,
    job: &Job<'_>,
    word: &[u8],
    outcome: &Outcome,
) -> Result<bool, AllocError>
    ensures { IfOk result (λ is. is ≡ true → spec.IsScheduleOf (slots job.now.program.now job.now.limits.discipline) job.now.limits.choices job.now.limits.steps word.now outcome.now) }
{
    let RunEnd::Ended {
        outcome: found,
        used,
    } = run(alloc, job, word, &mut Uncounted)?
    else {
        return Ok(false);
    };
    Ok(used == word.len() && is_same(&found, outcome))
}
