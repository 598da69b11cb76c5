//! The search through all states.

ghost use Rattle.std.specs.Prelude.{◌≤◌, ◌<◌, IfOk};
ghost use Rattle.cp_ends.specs.Holds.{HasFindings};
ghost use Rattle.cp_ends.specs.Whole.{IsAnswer};

use crate::found::Found;
use crate::rows::search_rows;
use cp_progress::{ObserveProgress, Unobserved};
use cp_run::Job;
use cp_search::SearchJob;
use std::alloc::{AllocError, Global};

/// Expands the opening state, and each state that is found, with each number that may be chosen there, in the order in which
/// states are found. So the first word that leads to a state, an end or a value is the shortest, and of the shortest the first in
/// dictionary order. Stops where there are more than so many states; at least one is looked at.
pub fn search_ends(alloc: Global, job: &Job<'_>, most: u32) -> Result<Found, AllocError>
    ensures answer { 1 ≤ most → IfOk result (λ found. IsAnswer job.now.program.now job.now.limits.discipline job.now.limits.steps most found) }
    ensures kept { IfOk result (λ found. HasFindings job.now.program.now found) }
{
    search_ends_with(alloc, job, most, &mut Unobserved)
}

/// The same, where an observer is told how far the search has come.
pub fn search_ends_with<O: ObserveProgress>(
    alloc: Global,
    job: &Job<'_>,
    most: u32,
    observer: &mut O,
) -> Result<Found, AllocError>
    ensures answer { 1 ≤ most → IfOk result (λ found. IsAnswer job.now.program.now job.now.limits.discipline job.now.limits.steps most found) }
    ensures kept { IfOk result (λ found. HasFindings job.now.program.now found) }
{
    let states = if most == 0 { 1 } else { most };
    let job = SearchJob {
        alloc,
        run: *job,
        most: states,
    };
    search_rows(&job, observer)
}
