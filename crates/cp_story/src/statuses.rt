//! How the processes stand, and who goes on by an event.

ghost use Rattle.std.specs.Option.{option_to_list};
ghost use Rattle.std.specs.Prelude.{◌≡◌, ◌==◌, ◌&&◌, not, IfOk, slice_index_or};
ghost use Rattle.cp_machine.specs.declared.process.Status.TheVariants as status;
ghost use Rattle.cp_machine.specs.Machine.{is_ready_status, is_unstarted, machine_of, thread_at};
ghost use Rattle.cp_story.specs.Story.{resumed_processes, is_gated, last_or, started_processes, statuses_in};

use arrayvec::ArrayVec;
use cp_machine::{State, Status};
use std::alloc::{AllocError, Global};

/// Whether a process of this status is at a gate.
pub fn is_at_gate(status: Status) -> bool
    ensures { result ≡ is_gated status }
{
    matches!(status, Status::AtGate(_))
}

fn is_unstarted(status: Status) -> bool
    ensures { result ≡ is_unstarted status }
{
    matches!(status, Status::Unstarted)
}

/// What a process does.
pub fn status_of(state: &State, process: u8) -> Status
    ensures { result ≡ (thread_at (machine_of state.now).threads process).status }
{
    match state.processes.get(process as usize) {
        Some(process) => process.status,
        None => Status::Ended,
    }
}

/// What each process does.
pub fn statuses_of(alloc: Global, state: &State) -> Result<Vec<Status>, AllocError>
    ensures { IfOk result (λ v. v.items ≡ statuses_in (machine_of state.now)) }
{
    let mut statuses = Vec::new(alloc);
    for process in &state.processes {
        statuses.push(process.status)?;
    }
    Ok(statuses)
}

// What the process of a number did before.
fn status_before(before: &[Status], number: usize) -> Status
    ensures { result ≡ slice_index_or before.now number status.Ended }
{
    before.get(number).copied().unwrap_or(Status::Ended)
}

// Whether the process of a number, which does this now, was let in: it is another one, was at a gate before, and is ready.
fn is_let_in(before: &[Status], number: usize, now: Status, process: u8) -> bool
    ensures { result ≡ (is_gated (slice_index_or before.now number status.Ended) && not (number == process) && is_ready_status now) }
{
    is_at_gate(status_before(before, number)) && number != process as usize && now.is_ready()
}

// Whether the process of a number, which does this now, was unstarted before and is not.
fn has_started(before: &[Status], number: usize, now: Status) -> bool
    ensures { result ≡ (is_unstarted (slice_index_or before.now number status.Ended) && not (is_unstarted now)) }
{
    is_unstarted(status_before(before, number)) && !is_unstarted(now)
}

/// The processes other than one that were at a gate before and are ready now.
pub fn processes_let_in(before: &[Status], state: &State, process: u8) -> ArrayVec<u8, 16>
    ensures { result.items ≡ resumed_processes is_gated before.now (machine_of state.now) process }
{
    let mut gone = ArrayVec::new();
    for (number, one) in state.processes.iter().enumerate() {
        if is_let_in(before, number, one.status, process) {
            gone.push(number as u8);
        }
    }
    gone
}

/// A process, if there is one, as a list.
pub fn listed(process: Option<u8>) -> ArrayVec<u8, 16>
    ensures { result.items ≡ option_to_list process }
{
    let mut processes = ArrayVec::new();
    if let Some(process) = process {
        processes.push(process);
    }
    processes
}

/// The process that was not started before.
pub fn started_process(before: &[Status], state: &State) -> u8
    ensures { result ≡ last_or 0 (started_processes before.now (machine_of state.now)) }
{
    let mut found = 0;
    for (number, one) in state.processes.iter().enumerate() {
        if has_started(before, number, one.status) {
            found = number as u8;
        }
    }
    found
}
