//! The outcomes of all schedules.

ghost use Rattle.std.specs.Prelude.{◌≡◌, ◌+◌, ◌^◌, ◌<◌, map, IfOk, IfErr};
ghost use Rattle.cp_run.specs.Slots.{slots};
ghost use Rattle.cp_run.specs.Table.{table};
ghost use Rattle.cp_walk.specs.Report.{same_outcome};
ghost use Rattle.cp_merged.specs.Code.{end_of, tally_of};
ghost use Rattle.cp_merged.specs.Holds.{same_key};
ghost use Rattle.cp_merged.specs.Layers.{by_layers};
ghost use Rattle.cp_merged.specs.Tallies.{tally};
ghost use Rattle.cp_merged.specs.Told.{rows_in};
ghost use Rattle.cp_merged.specs.TooMany.{FitsBefore, IsDueFault};

use crate::fault::MergeFault;
use crate::frontier::Ends;
use crate::layering::{Layering, MergeJob, progress_of};
use crate::ordered::sort_tallies;
use crate::tallies::Tallies;
use cp_progress::{ObserveProgress, Unobserved};
use cp_walk::Job;
use std::alloc::Global;

/// The different outcomes of all complete words of a job, by layers of states. A layer may have `states` states.
pub fn explore_merged(alloc: Global, job: Job, states: usize) -> Result<Tallies, MergeFault>
    ensures tallies { IfOk result (λ ts. map tally_of ts ≡ tally same_outcome (table (slots job.entry.program.now job.entry.limits.discipline) job.entry.limits.choices job.entry.limits.steps)) }
    ensures within { IfOk result (λ ts. FitsBefore (slots job.entry.program.now job.entry.limits.discipline) job.entry.limits.choices job.entry.limits.steps states (job.entry.limits.choices + 1)) }
    ensures fault { IfErr result (λ e. IsDueFault (slots job.entry.program.now job.entry.limits.discipline) job.entry.limits.choices job.entry.limits.steps states e) }
{
    explore_merged_with(alloc, job, states, &mut Unobserved)
}

/// The same, where an observer is told how far the search has come.
pub fn explore_merged_with<O: ObserveProgress>(
    alloc: Global,
    job: Job,
    states: usize,
    observer: &mut O,
) -> Result<Tallies, MergeFault>
    ensures tallies { IfOk result (λ ts. map tally_of ts ≡ tally same_outcome (table (slots job.entry.program.now job.entry.limits.discipline) job.entry.limits.choices job.entry.limits.steps)) }
    ensures within { IfOk result (λ ts. FitsBefore (slots job.entry.program.now job.entry.limits.discipline) job.entry.limits.choices job.entry.limits.steps states (job.entry.limits.choices + 1)) }
    ensures fault { IfErr result (λ e. IsDueFault (slots job.entry.program.now job.entry.limits.discipline) job.entry.limits.choices job.entry.limits.steps states e) }
{
    let job = MergeJob {
        alloc,
        run: job,
        most: states,
    };
    let ends = ends_of(&job, observer)?;
    match sort_tallies(alloc, ends) {
        Ok(tallies) => Ok(tallies),
        Err(_) => Err(MergeFault::Memory),
    }
}

/// The outcomes in the order in which they are found.
fn ends_of<O: ObserveProgress>(job: &MergeJob<'_>, observer: &mut O) -> Result<Ends, MergeFault>
    ensures ends { IfOk result (λ ends. map end_of ends.entries ≡ by_layers (slots job.now.run.program.now job.now.run.limits.discipline) same_outcome same_key job.now.run.limits.choices job.now.run.limits.steps) }
    ensures small { IfOk result (λ ends. rows_in (map end_of ends.entries) < 10 ^ 126) }
    ensures within { IfOk result (λ _. FitsBefore (slots job.now.run.program.now job.now.run.limits.discipline) job.now.run.limits.choices job.now.run.limits.steps job.now.most (job.now.run.limits.choices + 1)) }
    ensures fault { IfErr result (λ e. IsDueFault (slots job.now.run.program.now job.now.run.limits.discipline) job.now.run.limits.choices job.now.run.limits.steps job.now.most e) }
{
    let mut layering = Layering::start(job, observer)?;
    for depth in 0..job.run.limits.choices {
        layering.one_layer(job, depth)?;
        let progress = progress_of(&layering.frontier, u32::from(depth) + 1);
        layering.observer.observe_progress(progress);
    }
    layering.last_layer(job)?;
    let frontier = layering.frontier;
    Ok(frontier.into_ends())
}
