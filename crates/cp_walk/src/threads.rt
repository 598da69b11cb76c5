//! The exploration of a cutting by workers.

ghost use Rattle.std.specs.Prelude.{◌≡◌, ◌<◌, ◌≤◌, length, map, IfOk};
ghost use Rattle.cp_run.specs.Slots.{slots};
ghost use Rattle.cp_run.specs.Table.{table};
ghost use Rattle.cp_walk.specs.Rows.{line_of};

use crate::cutting::Cutting;
use crate::fault::ExploreFault;
use crate::row::{Rows, Table};
use crate::worker::StartGate;
use crate::workers::explore_tasks;
use cp_progress::ObserveProgress;
use std::alloc::Global;
use std::thread::Threads;

/// The table of a cutting's job, by workers that draw its members. Each worker calls `gate` after it drew a member and before its runs. An observer
/// is told how far they have come.
pub fn walk_on_threads<X: Threads + Sync, G: StartGate + Sync, O: ObserveProgress>(
    rt: &X,
    alloc: Global,
    cutting: &Cutting,
    workers: u8,
    gate: &G,
    observer: &mut O,
) -> Result<Table, ExploreFault>
    requires workers { (0 < workers) × (workers ≤ 16) }
    ensures table { IfOk result (λ t. map line_of t.rows ≡ table (slots cutting.now.job.program.now cutting.now.job.limits.discipline) cutting.now.job.limits.choices cutting.now.job.limits.steps) }
    ensures few { IfOk result (λ t. length t.rows ≤ 50000) }
    ensures many { result ≡ Err ExploreFault.TooManyRows → 50000 < length (table (slots cutting.now.job.program.now cutting.now.job.limits.discipline) cutting.now.job.limits.choices cutting.now.job.limits.steps) }
{
    match explore_tasks(
        rt,
        alloc,
        cutting,
        cutting.words.len() as u32,
        workers,
        gate,
        observer,
    ) {
        Ok(rows) => Ok(Table {
            rows: Rows::new(rows),
        }),
        Err(fault) => Err(fault),
    }
}
