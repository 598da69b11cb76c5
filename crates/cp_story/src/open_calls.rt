//! The calls of monitors' entries that have not returned.

ghost use Rattle.std.specs.Prelude.{◌≡◌, IfOk, map, unwrap_or};
ghost use Rattle.cp_machine.specs.Machine.{machine_of, thread_at};
ghost use Rattle.cp_machine.specs.Stack.{top_first};
ghost use Rattle.cp_story.specs.Story.{call_begun, innermost_call, monitor_left, no_call, with_call, without_call};
ghost use Rattle.cp_story.specs.Views.{items_of};
ghost use Rattle.cp_story.specs.Waiting.{innermost_open};

use crate::event::OpenCall;
use cp_machine::{Entry, ProcessState, State};
use std::alloc::AllocError;

/// In place of a call where none is open.
pub const NO_CALL: OpenCall = OpenCall {
    monitor: 0,
    routine: 0,
    line: 0,
};

/// The call that a process has just begun from a line.
pub fn call_begun(state: &State, process: u8, line: Option<u32>) -> OpenCall
    ensures { result ≡ call_begun (thread_at (machine_of state.now).threads process) line }
{
    let line = line.unwrap_or(0);
    match state.processes.get(process as usize) {
        Some(process) => OpenCall {
            monitor: monitor_left(process),
            routine: process.frame.routine,
            line,
        },
        None => OpenCall { line, ..NO_CALL },
    }
}

// The monitor of the innermost entry that a process is in.
fn monitor_left(process: &ProcessState) -> u8
    ensures { result ≡ monitor_left (top_first process.now.stack) }
{
    let mut found = 0;
    for entry in &process.stack {
        if let Entry::Return(_, _, Some(monitor)) = entry {
            found = *monitor;
        }
    }
    found
}

/// The innermost open call of a process.
pub fn innermost_call(calls: &[Vec<OpenCall>], process: u8) -> Option<OpenCall>
    ensures call { unwrap_or result no_call ≡ innermost_call (map items_of calls.now) process }
    ensures open { result ≡ innermost_open (map items_of calls.now) process }
{
    calls.get(process as usize)?.last().copied()
}

/// Adds a call of a process.
pub fn open_call(
    calls: &mut Vec<Vec<OpenCall>>,
    process: u8,
    call: OpenCall,
) -> Result<(), AllocError>
    ensures { IfOk result (λ _. map items_of calls.new.items ≡ with_call (map items_of calls.old.items) process call) }
{
    if let Some(own) = calls.get_mut(process as usize) {
        own.push(call)?;
    }
    Ok(())
}

/// Takes the innermost open call of a process away.
pub fn close_call(calls: &mut Vec<Vec<OpenCall>>, process: u8) -> OpenCall
    ensures call { result ≡ innermost_call (map items_of calls.old.items) process }
    ensures left { map items_of calls.new.items ≡ without_call (map items_of calls.old.items) process }
{
    match calls.get_mut(process as usize) {
        Some(own) => own.pop().unwrap_or(NO_CALL),
        None => NO_CALL,
    }
}
