//! Frames are opened by calls and starts, and given up at their ends.

ghost use Rattle.std.specs.Prelude.{◌≡◌, ◌+◌, ◌<◌, ◌≤◌, drop, length, slice_index_or, slice_set, pos, take, vec_capacity};
ghost use Rattle.cp_slots.specs.Tables.{Tables};
ghost use Rattle.cp_store.specs.Memory.{KeepsRoom};
ghost use Rattle.cp_machine.specs.Calls as spec;
ghost use Rattle.cp_machine.specs.Fits.{IsReserved};
ghost use Rattle.cp_machine.specs.Machine.{machine_of, thread_of, under};
ghost use Rattle.cp_machine.specs.Premises.{CanLeave, CanOpen};
ghost use Rattle.cp_machine.specs.Results.{HasResult};
ghost use Rattle.cp_machine.specs.Stack.{rest_of};

use crate::memory::frame_of;
use crate::process::{Entry, ProcessState};
use crate::stack::go_into;
use crate::state::State;
use cp_slots::Resolved;
use cp_store::{Frame, Room, close_frame, open_frame};

/// Opens a frame for a routine in a component: its statements, with their end below them, come in place of the item.
pub fn open(
    program: &Resolved,
    state: &mut State,
    pid: u8,
    next: Option<usize>,
    routine: usize,
    component: usize,
    end: Entry,
)
    requires { CanOpen program.now state.old pid routine component }
    ensures after { machine_of state.new ≡ spec.open_frame program.now (machine_of state.old) pid routine component end (rest_of next (under (machine_of state.old) pid)) }
    ensures bounds { state.new.bounds ≡ state.old.bounds }
    ensures reserved { (r : Tables) → IsReserved r state.old → IsReserved r state.new }
{
    let callee = program.routine(routine);
    let own = program.component(component).base;
    let process = &mut state.processes[pid as usize];
    process.frame = Frame {
        routine,
        component,
        own,
        base: process.room.cells.len(),
        references: process.room.references.len(),
    };
    open_frame(&mut process.room, &callee.image, callee.references);
    go_into(&mut process.stack, next, end, callee.body);
}

// The innermost frame is closed, and its function's result is put into a cell of the caller's.
fn close_with_result(room: &mut Room, frame: Frame, from: usize, to: usize)
    requires from { frame.base + from < length room.old.cells.items }
    requires to { to < frame.base }
    ensures cells { room.new.cells.items ≡ slice_set (take frame.base room.old.cells.items) to (slice_index_or room.old.cells.items (frame.base + from) (pos 0)) }
    ensures references { room.new.references.items ≡ take frame.references room.old.references.items }
    ensures room { KeepsRoom room.old room.new }
{
    let value = room.cells[frame.base + from];
    close_frame(room, frame.base, frame.references);
    room.cells[to] = value;
}

// The innermost frame of a process is given up with the end of its call.
fn give_up(process: &mut ProcessState, caller: Frame, from: usize, slot: Option<usize>)
    requires result { HasResult (thread_of process.old) caller from slot }
    ensures after { thread_of process.new ≡ spec.give_up_from (thread_of process.old) caller from slot (drop 1 (thread_of process.old).stack) }
    ensures stack { vec_capacity process.old.stack ≤ vec_capacity process.new.stack }
    ensures room { KeepsRoom process.old.room process.new.room }
{
    let frame = process.frame;
    match slot {
        None => close_frame(&mut process.room, frame.base, frame.references),
        Some(slot) => close_with_result(&mut process.room, frame, from, caller.base + slot),
    }
    process.frame = caller;
    let _ = process.stack.pop();
}

/// Gives up the innermost frame of a process with the end of its call, which is the topmost entry.
pub fn leave(program: &Resolved, state: &mut State, pid: u8, caller: Frame, slot: Option<usize>)
    requires { CanLeave program.now state.old pid caller slot }
    ensures after { machine_of state.new ≡ spec.leave_frame program.now (machine_of state.old) pid caller slot (under (machine_of state.old) pid) }
    ensures reserved { (r : Tables) → IsReserved r state.old → IsReserved r state.new }
{
    let callee = program.routine(frame_of(state, pid).routine);
    let process = &mut state.processes[pid as usize];
    give_up(process, caller, callee.result, slot);
}
