//! What the workers leave is put together.
ghost use Rattle.std.specs.Prelude.{◌≡◌, ◌<◌, [], map, All, flat_map, IfOk};
ghost use Rattle.std.specs.List.{range_with_len};
ghost use Rattle.cp_walk.specs.Tables.{table_of, rows_at};
ghost use Rattle.cp_walk.specs.Ends.{IsKept};

use crate::row::Row;
use crate::worker::{TaskRows, Worked, WorkerEnd};
use cp_board::Seat;
use std::alloc::{AllocError, Global};

/// All seats and all parts, where no worker was refused memory.
pub fn collect_parts(
    alloc: Global,
    workers: Vec<Worked>,
) -> Result<(Vec<Seat>, Vec<TaskRows>), AllocError>
    ensures seats { IfOk result (λ r. r.0.items ≡ map (λ w. w.seat) workers.items) }
    ensures parts { IfOk result (λ r. r.1.items ≡ flat_map (λ w. w.parts.items) workers.items) }
    ensures kept { IfOk result (λ r. All (λ w. IsKept w.end) workers.items) }
{
    let mut seats = Vec::new(alloc);
    let mut all = Vec::new(alloc);
    for worker in workers {
        let Worked {
            seat,
            mut parts,
            end,
        } = worker;
        if let WorkerEnd::Refused = end {
            return Err(AllocError);
        }
        seats.push(seat)?;
        all.append(&mut parts)?;
    }
    Ok((seats, all))
}

/// The rows of the parts in order of task.
pub fn gather_rows(alloc: Global, tasks: u32, parts: Vec<TaskRows>) -> Result<Vec<Row>, AllocError>
    requires { All (λ p. p.task < tasks) parts.items }
    ensures { IfOk result (λ v. v.items ≡ table_of (rows_at parts.items) tasks) }
{
    let slots = sort_by_task(alloc, tasks, parts)?;
    join_rows(alloc, slots)
}

fn join_rows(alloc: Global, slots: Vec<Vec<Row>>) -> Result<Vec<Row>, AllocError>
    ensures { IfOk result (λ v. v.items ≡ flat_map (λ r. r.items) slots.items) }
{
    let mut all = Vec::new(alloc);
    for mut rows in slots {
        all.append(&mut rows)?;
    }
    Ok(all)
}

fn sort_by_task(
    alloc: Global,
    tasks: u32,
    mut parts: Vec<TaskRows>,
) -> Result<Vec<Vec<Row>>, AllocError>
    requires { All (λ p. p.task < tasks) parts.items }
    ensures { IfOk result (λ v. map (λ r. r.items) v.items ≡ map (rows_at parts.items) (range_with_len 0 tasks)) }
{
    let mut slots = empty_slots(alloc, tasks)?;
    while let Some(piece) = parts.pop() {
        let TaskRows { task, rows } = piece;
        slots[task as usize] = rows;
    }
    Ok(slots)
}

fn empty_slots(alloc: Global, tasks: u32) -> Result<Vec<Vec<Row>>, AllocError>
    ensures { IfOk result (λ v. map (λ r. r.items) v.items ≡ map (λ t. []) (range_with_len 0 tasks)) }
{
    let mut slots = Vec::new(alloc);
    for _ in 0..tasks {
        slots.push(Vec::new(alloc))?;
    }
    Ok(slots)
}
