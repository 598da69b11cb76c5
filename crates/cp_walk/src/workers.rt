//! The workers run on threads, and their parts are put together.
ghost use Rattle.std.specs.Prelude.{◌≡◌, ◌<◌, ◌≤◌, length, All, IfOk, IsOk};
ghost use Rattle.cp_walk.specs.Tables.{table_of};
ghost use Rattle.cp_walk.specs.Ends.{HasWorked, IsFresh};

use crate::collect::{collect_parts, gather_rows};
use crate::fault::ExploreFault;
use crate::observer::{ObserveWalk, Teller};
use crate::row::Row;
use crate::running::draw_tasks;
use crate::worker::{MOST_NOTED, StartGate, Work, Worked};
use cp_board::{Board, BoardFault, Seat};
use cp_progress::{ObserveProgress, Unobserved};
use std::alloc::{AllocError, Global};
use std::thread;
use std::thread::Threads;

/// The rows of all tasks in order, whatever the threads do. One of them tells the observer how far they have come.
pub fn explore_tasks<X: Threads + Sync, W: Work + Sync, G: StartGate + Sync, O: ObserveProgress>(
    rt: &X,
    alloc: Global,
    work: &W,
    tasks: u32,
    workers: u8,
    gate: &G,
    observer: &mut O,
) -> Result<Vec<Row>, ExploreFault>
    requires tasks { tasks ≤ 4096 }
    requires workers { (0 < workers) × (workers ≤ 16) }
    ensures table { IfOk result (λ v. v.items ≡ table_of (W.rows work.now) tasks) }
    ensures few { IsOk result → length (table_of (W.rows work.now) tasks) ≤ 50000 }
    ensures many { result ≡ Err ExploreFault.TooManyRows → 50000 < length (table_of (W.rows work.now) tasks) }
{
    let (board, seats) = match Board::new(alloc, tasks, workers) {
        Ok(made) => made,
        Err(BoardFault::Memory(_)) => return Err(ExploreFault::Memory),
        Err(BoardFault::TooManyTasks | BoardFault::BadSeats) => unreachable!(),
    };
    let mut teller = Teller::new(observer, tasks, workers as u32 - 1);
    let Ok(ended) = run_workers(rt, alloc, &board, work, gate, seats, &mut teller) else {
        return Err(ExploreFault::Memory);
    };
    let Ok((seats, parts)) = collect_parts(alloc, ended) else {
        return Err(ExploreFault::Memory);
    };
    let closed = board.close(seats);
    if closed.total > MOST_NOTED {
        return Err(ExploreFault::TooManyRows);
    }
    let Ok(rows) = gather_rows(alloc, tasks, parts) else {
        return Err(ExploreFault::Memory);
    };
    Ok(rows)
}

// What the workers of these seats leave. The last of them runs on the calling thread, and is observed.
fn run_workers<X: Threads + Sync, W: Work + Sync, G: StartGate + Sync, N: ObserveWalk>(
    rt: &X,
    alloc: Global,
    board: &Board,
    work: &W,
    gate: &G,
    mut seats: Vec<Seat>,
    observer: &mut N,
) -> Result<Vec<Worked>, AllocError>
    requires { All (IsFresh board.now) seats.items }
    ensures count { IfOk result (λ v. length v.items ≡ length seats.items) }
    ensures each { IfOk result (λ v. All (HasWorked (W.rows work.now) board.now) v.items) }
{
    let Some(own) = seats.pop() else {
        return Ok(Vec::new(alloc));
    };
    if seats.is_empty() {
        let mut ended = Vec::new(alloc);
        ended.push(draw_tasks(alloc, board, work, gate, observer, own))?;
        return Ok(ended);
    }
    let (others, last) = thread::join(
        rt,
        move || -> Result<Vec<Worked>, AllocError>
            requires { All (IsFresh board.now) seats.items }
            ensures count { IfOk result (λ v. length v.items ≡ length seats.items) }
            ensures each { IfOk result (λ v. All (HasWorked (W.rows work.entry.now) board.entry.now) v.items) }
        { run_on_threads(rt, alloc, board, work, gate, seats) },
        move || -> Worked
            requires { IsFresh board.now own }
            ensures { HasWorked (W.rows work.entry.now) board.entry.now result }
        { draw_tasks(alloc, board, work, gate, observer, own) },
    );
    let mut ended = others?;
    ended.push(last)?;
    Ok(ended)
}

fn run_on_threads<X: Threads + Sync, W: Work + Sync, G: StartGate + Sync>(
    rt: &X,
    alloc: Global,
    board: &Board,
    work: &W,
    gate: &G,
    seats: Vec<Seat>,
) -> Result<Vec<Worked>, AllocError>
    requires { All (IsFresh board.now) seats.items }
    ensures count { IfOk result (λ v. length v.items ≡ length seats.items) }
    ensures each { IfOk result (λ v. All (HasWorked (W.rows work.now) board.now) v.items) }
{
    thread::map_vec(
        rt,
        seats,
        &|seat: Seat| -> Worked
            requires { IsFresh board.now seat }
            ensures { HasWorked (W.rows work.entry.now) board.entry.now result }
        { draw_tasks(alloc, board, work, gate, &mut Unobserved, seat) },
    )
}
