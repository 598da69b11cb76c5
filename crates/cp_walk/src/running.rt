//! The loop of one worker.

ghost use Rattle.cp_walk.specs.Ends.{HasWorked, IsFresh};

use crate::fault::ExploreFault;
use crate::observer::ObserveWalk;
use crate::worker::{EXCESS, MOST_NOTED, StartGate, TaskRows, Work, Worked, WorkerEnd};
use cp_board::{Board, Seat};
use std::alloc::Global;

/// Draws until there is nothing more, until there are too many rows, or until memory is refused.
pub fn draw_tasks<W: Work, G: StartGate, N: ObserveWalk>(
    alloc: Global,
    board: &Board,
    work: &W,
    gate: &G,
    observer: &mut N,
    mut seat: Seat,
) -> Worked
    requires { IsFresh board.now seat }
    ensures { HasWorked (W.rows work.now) board.now result }
{
    let mut parts = Vec::new(alloc);
    while let Some(task) = board.claim(&mut seat) {
        gate.pass(task);
        observer.observe_task(task);
        let rows = match work.rows_of(alloc, task, observer) {
            Ok(rows) => rows,
            Err(ExploreFault::TooManyRows) => {
                board.note(&mut seat, EXCESS);
                return Worked {
                    seat,
                    parts,
                    end: WorkerEnd::Excess,
                };
            }
            Err(ExploreFault::Memory) => {
                return Worked {
                    seat,
                    parts,
                    end: WorkerEnd::Refused,
                };
            }
        };
        let count = rows.len() as u32;
        if parts.push(TaskRows { task, rows }).is_err() {
            return Worked {
                seat,
                parts,
                end: WorkerEnd::Refused,
            };
        }
        let total = board.note(&mut seat, count);
        observer.observe_noted(total);
        if total > MOST_NOTED {
            return Worked {
                seat,
                parts,
                end: WorkerEnd::Excess,
            };
        }
    }
    Worked {
        seat,
        parts,
        end: WorkerEnd::Dry,
    }
}
