//! One worker: it draws, passes the gate, collects rows and notes them.

ghost use Rattle.std.specs.Prelude.{◌≡◌, ◌<◌, ℕ, List, length, take, IfOk, IfErr};
ghost use Rattle.cp_walk.specs.declared.row.Row.{Row};

use crate::fault::ExploreFault;
use crate::observer::ObserveWalk;
use crate::row::Row;
use cp_board::Seat;
use std::alloc::Global;

/// The most rows of a table.
pub const MOST_NOTED: u64 = 50_000;

/// How many rows are noted of a task that has more than a table may have.
pub const EXCESS: u32 = 50_001;

/// Each task has a list of rows.
pub trait Work {
    ghost use Rattle.cp_walk.specs.Rows.{IsTooMany};

    ghost rows: { Self → ℕ → List Row };

    /// The rows of a task, unless there are more than 50,000. An observer is told of them.
    fn rows_of<N: ObserveWalk>(
        &self,
        alloc: Global,
        task: u32,
        observer: &mut N,
    ) -> Result<Vec<Row>, ExploreFault>
        ensures rows { IfOk result (λ v. v.items ≡ take 50001 (rows self.now task)) }
        ensures many { IfErr result (λ e. IsTooMany e → 50000 < length (rows self.now task)) };
}

/// Each worker passes it after a claim and before the task's runs.
pub trait StartGate {
    fn pass(&self, task: u32);
}

/// A gate at which nobody waits.
pub struct NoGate;

impl StartGate for NoGate {
    fn pass(&self, _task: u32) {}
}

/// The rows of a task, as a worker keeps them.
#[derive(Drop)]
pub struct TaskRows {
    pub task: u32,
    pub rows: Vec<Row>,
}

/// Why a worker stopped: nothing is left, there are too many rows, or memory was refused.
#[derive(Clone, Copy)]
pub enum WorkerEnd {
    Dry,
    Excess,
    Refused,
}

/// What a worker leaves.
#[derive(Drop)]
pub struct Worked {
    pub seat: Seat,
    pub parts: Vec<TaskRows>,
    pub end: WorkerEnd,
}
