//! What is read of a process.

ghost use Rattle.std.specs.Prelude.{◌≡◌, ◌+◌, ◌<◌, ◌∷◌, [], drop, length, reverse};
ghost use Rattle.cp_machine.specs.Machine.{machine_of, thread_at};
ghost use Rattle.cp_machine.specs.Memory as spec;
ghost use Rattle.cp_machine.specs.Reach.{CanFind, frame_at};
ghost use Rattle.cp_machine.specs.Stack.{above, from_end};
ghost use Rattle.cp_machine.specs.Stack as spec_stack;
ghost use Rattle.cp_store.specs.Places.{reference_at};

use cp_machine::{Entry, State, Status};
use cp_slots::ComponentPlace;
use cp_store::component::component_of;
use cp_store::{Address, ErrorName, Frame};

/// The frame that a process executes.
pub fn frame_of(state: &State, pid: u8) -> Frame
    requires { pid < length state.now.processes.items }
    ensures { result ≡ (thread_at (machine_of state.now).threads pid).frame }
{
    let process = &state.processes[pid as usize];
    process.frame
}

/// The status of a process.
pub fn status_of(state: &State, number: usize) -> Status
    requires { number < length state.now.processes.items }
    ensures { result ≡ (thread_at (machine_of state.now).threads number).status }
{
    let process = &state.processes[number];
    process.status
}

/// What a `var` parameter of the innermost call of a process names.
pub fn reference_of(state: &State, pid: u8, number: usize) -> Address
    requires pid { pid < length state.now.processes.items }
    requires number { (frame_at (machine_of state.now) pid).references + number < length (thread_at (machine_of state.now).threads pid).references }
    ensures { result ≡ reference_at (thread_at (machine_of state.now).threads pid).references ((frame_at (machine_of state.now) pid).references + number) }
{
    let process = &state.processes[pid as usize];
    process.room.references[process.frame.references + number]
}

/// The topmost entry of a process.
pub fn top_of(state: &State, pid: u8) -> Option<Entry>
    requires { pid < length state.now.processes.items }
    ensures { (thread_at (machine_of state.now).threads pid).stack ≡ above result (drop 1 (thread_at (machine_of state.now).threads pid).stack) }
{
    let process = &state.processes[pid as usize];
    process.stack.last().copied()
}

/// The end of the innermost call or initial statement of a process, if it is in one.
pub fn end_of(state: &State, pid: u8) -> Option<Entry>
    requires { pid < length state.now.processes.items }
    ensures { from_end (thread_at (machine_of state.now).threads pid).stack ≡ above result (drop 1 (from_end (thread_at (machine_of state.now).threads pid).stack)) }
{
    let process = &state.processes[pid as usize];
    end_on(process.stack.as_slice())
}

// The same on a control stack, whose last entry is the topmost.
fn end_on(stack: &[Entry]) -> Option<Entry>
    ensures { from_end (reverse stack.now) ≡ above result (drop 1 (from_end (reverse stack.now))) }
{
    let count = stack.len();
    for passed in 0..count {
        let entry = stack[count - 1 - passed];
        if is_end(entry) {
            return Some(entry);
        }
    }
    None
}

fn is_end(entry: Entry) -> bool
    ensures { result ≡ spec_stack.is_end (entry ∷ []) }
{
    match entry {
        Entry::Rest(_) | Entry::Successor(_, _, _) => false,
        Entry::Return(_, _, _) | Entry::InitEnd(_, _) => true,
    }
}

/// The component that a process names.
pub fn named_component(state: &State, pid: u8, place: &ComponentPlace) -> Result<usize, ErrorName>
    requires pid { pid < length state.now.processes.items }
    requires finds { CanFind (machine_of state.now) pid place.now }
    ensures { result ≡ spec.component_of (machine_of state.now) pid place.now }
{
    let process = &state.processes[pid as usize];
    component_of(
        place,
        &state.permanents,
        &state.bindings,
        &process.room,
        process.frame,
    )
}
