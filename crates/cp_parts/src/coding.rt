//! Statuses, frames and options as numbers.

ghost use Rattle.std.specs.Prelude.{◌≡◌, ◌≤◌, length, map};
ghost use Rattle.cp_machine.specs.Machine.{thread_of};
ghost use Rattle.cp_effect_laws.specs.Parts.{stage as stage_of, waits_in as waits_there};
ghost use Rattle.cp_parts.specs.Coded.{frame_code, option_code, status_code, waiting_code, waiting_pair as waiting_pair_code};
ghost use Rattle.cp_parts.specs.Placed.{places_of};

use crate::placing::PlaceTable;
use arrayvec::ArrayVec;
use cp_machine::{ProcessState, Status};
use cp_store::Frame;

/// A process or a monitor, or none, as a number.
#[inline(always)]
pub fn option_number(number: Option<u8>) -> u32
    ensures { result ≡ option_code number }
{
    match number {
        None => 0,
        Some(number) => 1 + u32::from(number),
    }
}

/// A status as two numbers: its kind, and where a process waits.
#[inline(always)]
pub fn status_numbers(status: Status) -> [usize; 2]
    ensures { result ≡ status_code status }
{
    match status {
        Status::Unstarted => [0, 0],
        Status::Ended => [1, 0],
        Status::Ready => [2, 0],
        Status::AtGate(monitor) => [3, monitor as usize],
        Status::Delayed(cell) => [4, cell],
    }
}

/// Unstarted, ended, or between.
#[inline(always)]
pub fn stage_number(status: Status) -> u32
    ensures { result ≡ stage_of status }
{
    match status {
        Status::Unstarted => 0,
        Status::Ended => 1,
        Status::Ready | Status::AtGate(_) | Status::Delayed(_) => 2,
    }
}

/// A frame as numbers.
#[inline(always)]
pub fn frame_numbers(frame: Frame) -> [usize; 5]
    ensures { result ≡ frame_code frame }
{
    [
        frame.routine,
        frame.component,
        frame.own,
        frame.base,
        frame.references,
    ]
}

/// Whether a process of a status waits in a place.
#[inline(always)]
pub fn waits_in(table: &PlaceTable, place: usize, status: Status) -> bool
    ensures { result ≡ waits_there (places_of table.now) place status }
{
    match status {
        Status::AtGate(monitor) => table.of_monitor(monitor) == place,
        Status::Delayed(cell) => table.of_cell(cell) == place,
        Status::Unstarted | Status::Ready | Status::Ended => false,
    }
}

// The two numbers of a process for who waits in a place.
#[inline(always)]
fn waiting_pair(table: &PlaceTable, place: usize, status: Status) -> [usize; 2]
    ensures { result ≡ waiting_pair_code (places_of table.now) place status }
{
    if waits_in(table, place, status) {
        status_numbers(status)
    } else {
        [0, 0]
    }
}

/// Who waits in a place: the numbers of the status of each process that waits there, and zeros for each other one.
#[inline(always)]
pub fn waiting_numbers(
    table: &PlaceTable,
    place: usize,
    processes: &[ProcessState],
) -> ArrayVec<usize, 32>
    requires { length processes.now ≤ 16 }
    ensures { result.items ≡ waiting_code (places_of table.now) place (map thread_of processes.now) }
{
    let mut numbers = ArrayVec::new();
    for at in 0..processes.len() {
        let pair = waiting_pair(table, place, processes[at].status);
        numbers.push(pair[0]);
        numbers.push(pair[1]);
    }
    numbers
}
