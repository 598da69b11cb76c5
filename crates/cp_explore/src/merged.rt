//! The exploration by layers of states.

ghost use Rattle.std.specs.Prelude.{◌≡◌, ◌+◌, map, IfOk, IfErr};
ghost use Rattle.cp_run.specs.Slots.{slots};
ghost use Rattle.cp_run.specs.Table.{table};
ghost use Rattle.cp_walk.specs.Report.{same_outcome};
ghost use Rattle.cp_merged.specs.Code.{tally_of};
ghost use Rattle.cp_merged.specs.Tallies.{tally};
ghost use Rattle.cp_merged.specs.TooMany.{FitsBefore, IsDueFault};
ghost use Rattle.cp_explore.specs.Meant.{AreTallied};

use cp_merged::{MergeFault, Tallies, explore_merged_with};
use cp_progress::ObserveProgress;
use cp_walk::Job;
use std::alloc::Global;

/// The different outcomes of all complete words of a job, by layers of states. A layer may have `states` states. An observer is told how far the search
/// has come.
pub fn explore_merged<O: ObserveProgress>(
    alloc: Global,
    job: Job,
    states: usize,
    observer: &mut O,
) -> Result<Tallies, MergeFault>
    ensures tallies { IfOk result (λ ts. map tally_of ts ≡ tally same_outcome (table (slots job.entry.program.now job.entry.limits.discipline) job.entry.limits.choices job.entry.limits.steps)) }
    ensures meaning { IfOk result (λ ts. AreTallied job.entry.program.now job.entry.limits.discipline job.entry.limits.choices job.entry.limits.steps (map tally_of ts)) }
    ensures within { IfOk result (λ ts. FitsBefore (slots job.entry.program.now job.entry.limits.discipline) job.entry.limits.choices job.entry.limits.steps states (job.entry.limits.choices + 1)) }
    ensures fault { IfErr result (λ e. IsDueFault (slots job.entry.program.now job.entry.limits.discipline) job.entry.limits.choices job.entry.limits.steps states e) }
{
    explore_merged_with(alloc, job, states, observer)
}
