//! The exploration of a cutting by workers.

ghost use Rattle.std.specs.Prelude.{◌≡◌, ◌<◌, ◌≤◌, length, map, IfOk};
ghost use Rattle.cp_run.specs.Slots.{slots};
ghost use Rattle.cp_run.specs.Table.{table};
ghost use Rattle.cp_walk.specs.Rows.{line_of};
ghost use Rattle.cp_explore.specs.Meant.{AreExclusive, AreMeant};

use cp_progress::{ObserveProgress, Unobserved};
use cp_walk::{Cutting, ExploreFault, StartGate as Gate, Table, walk_on_threads};
use std::alloc::Global;
use std::thread::Threads;

/// The table of a cutting's job, by workers that draw its members. Each worker calls `gate` after it drew a member and before its runs.
pub fn explore<X: Threads + Sync, G: Gate + Sync>(
    rt: &X,
    alloc: Global,
    cutting: &Cutting,
    workers: u8,
    gate: &G,
) -> Result<Table, ExploreFault>
    requires workers { (0 < workers) × (workers ≤ 16) }
    ensures table { IfOk result (λ t. map line_of t.rows ≡ table (slots cutting.now.job.program.now cutting.now.job.limits.discipline) cutting.now.job.limits.choices cutting.now.job.limits.steps) }
    ensures meaning { IfOk result (λ t. AreMeant cutting.now.job.program.now cutting.now.job.limits.discipline cutting.now.job.limits.choices cutting.now.job.limits.steps (map line_of t.rows)) }
    ensures exclusive { AreExclusive cutting.now.job.program.now cutting.now.job.limits.discipline }
    ensures few { IfOk result (λ t. length t.rows ≤ 50000) }
    ensures many { result ≡ Err ExploreFault.TooManyRows → 50000 < length (table (slots cutting.now.job.program.now cutting.now.job.limits.discipline) cutting.now.job.limits.choices cutting.now.job.limits.steps) }
{
    explore_observed(rt, alloc, cutting, workers, gate, &mut Unobserved)
}

/// The same, where an observer is told how far the workers have come.
pub fn explore_observed<X: Threads + Sync, G: Gate + Sync, O: ObserveProgress>(
    rt: &X,
    alloc: Global,
    cutting: &Cutting,
    workers: u8,
    gate: &G,
    observer: &mut O,
) -> Result<Table, ExploreFault>
    requires workers { (0 < workers) × (workers ≤ 16) }
    ensures table { IfOk result (λ t. map line_of t.rows ≡ table (slots cutting.now.job.program.now cutting.now.job.limits.discipline) cutting.now.job.limits.choices cutting.now.job.limits.steps) }
    ensures meaning { IfOk result (λ t. AreMeant cutting.now.job.program.now cutting.now.job.limits.discipline cutting.now.job.limits.choices cutting.now.job.limits.steps (map line_of t.rows)) }
    ensures exclusive { AreExclusive cutting.now.job.program.now cutting.now.job.limits.discipline }
    ensures few { IfOk result (λ t. length t.rows ≤ 50000) }
    ensures many { result ≡ Err ExploreFault.TooManyRows → 50000 < length (table (slots cutting.now.job.program.now cutting.now.job.limits.discipline) cutting.now.job.limits.choices cutting.now.job.limits.steps) }
{
    walk_on_threads(rt, alloc, cutting, workers, gate, observer)
}
