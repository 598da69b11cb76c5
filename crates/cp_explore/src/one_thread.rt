//! The exploration by one walk.

ghost use Rattle.std.specs.Prelude.{◌≡◌, ◌<◌, ◌≤◌, ◌+◌, length, map, IfOk, IfErr};
ghost use Rattle.cp_run.specs.Slots.{slots};
ghost use Rattle.cp_run.specs.Table.{table};
ghost use Rattle.cp_walk.specs.Beginnings.{beginnings, words_of_rows};
ghost use Rattle.cp_walk.specs.Rows.{line_of, IsTooMany};
ghost use Rattle.cp_explore.specs.Meant.{AreExclusive, AreMeant};

use cp_machine::Ticks;
use cp_walk::{ExploreFault, Job, Table, walk_on_one_thread};
use std::alloc::Global;
use std::sync::ledger::Ledger;

/// The table of a job, by one walk over the tree of words. `calls` is raised by one by each call of `choose` and `open`; no word is replayed.
pub fn explore_one<L: Ledger>(
    alloc: Global,
    job: Job,
    calls: &mut Ticks<L>,
) -> Result<Table, ExploreFault>
    requires { job.limits.choices ≤ 20 }
    ensures table { IfOk result (λ t. map line_of t.rows ≡ table (slots job.entry.program.now job.entry.limits.discipline) job.entry.limits.choices job.entry.limits.steps) }
    ensures meaning { IfOk result (λ t. AreMeant job.entry.program.now job.entry.limits.discipline job.entry.limits.choices job.entry.limits.steps (map line_of t.rows)) }
    ensures exclusive { AreExclusive job.entry.program.now job.entry.limits.discipline }
    ensures few { IfOk result (λ t. length t.rows ≤ 50000) }
    ensures many { IfErr result (λ e. IsTooMany e → 50000 < length (table (slots job.entry.program.now job.entry.limits.discipline) job.entry.limits.choices job.entry.limits.steps)) }
    ensures calls { IfOk result (λ t. calls.new ≤ calls.old + beginnings (words_of_rows t.rows)) }
{
    walk_on_one_thread(alloc, &job, calls)
}
