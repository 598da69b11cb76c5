//! From a program to what is found of it, and who may wait for ever.

ghost use Rattle.std.specs.Prelude.{◌≤◌, IfOk};
ghost use Rattle.cp_ends.specs.Holds.{HasFindings};
ghost use Rattle.cp_ends.specs.Whole.{IsAnswer};
ghost use Rattle.cp_waits.specs.Named.{TellAsked};

use crate::building::{FoundGraph, search_graph};
use crate::waiting::{Waits, who_waits};
use cp_ends::{Found, search_ends_with};
use cp_progress::ObserveProgress;
use cp_run::Job;
use std::alloc::{AllocError, Global};

/// What a search finds, and who may wait for ever, where that is asked and there are not too many states.
#[derive(Drop)]
pub struct FoundWaits {
    pub found: Found,
    pub waits: Option<Waits>,
}

/// Searches for ends, and, where that is asked, looks for each process whether it may wait for ever. Where all states were found, each line
/// shows a fair schedule without end in which its process waits, and who has no line waits for ever in none. An observer is told how far the
/// search has come.
pub fn find_waits<O: ObserveProgress>(
    alloc: Global,
    job: &Job<'_>,
    most: u32,
    asks_waits: bool,
    observer: &mut O,
) -> Result<FoundWaits, AllocError>
    ensures answer { 1 ≤ most → IfOk result (λ x. IsAnswer job.now.program.now job.now.limits.discipline job.now.limits.steps most x.found) }
    ensures kept { IfOk result (λ x. HasFindings job.now.program.now x.found) }
    ensures waits { IfOk result (λ x. TellAsked job.now.program.now job.now.limits.discipline job.now.limits.steps asks_waits x.found x.waits) }
{
    if !asks_waits {
        let found = search_ends_with(alloc, job, most, observer)?;
        return Ok(FoundWaits { found, waits: None });
    }
    let FoundGraph { found, graph } = search_graph(alloc, job, most, observer)?;
    if found.stopped.is_some() {
        return Ok(FoundWaits { found, waits: None });
    }
    let waits = who_waits(alloc, &graph, &found.states)?;
    Ok(FoundWaits {
        found,
        waits: Some(waits),
    })
}
