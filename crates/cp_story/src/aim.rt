//! What a process is about to do.

ghost use Rattle.std.specs.Prelude.{◌≡◌, ◌∷◌, ◌<◌, ℕ, IfSome, IsTrue, Some, drop, length, option_copied, position};
ghost use Rattle.cp_slots.specs.Tables.{Tables, item_at};
ghost use Rattle.cp_machine.specs.Discipline.{lets_caller_return};
ghost use Rattle.cp_machine.specs.Fits.{IsStateOf, IsTaken};
ghost use Rattle.cp_machine.specs.Kernel.{waits_in};
ghost use Rattle.cp_machine.specs.Machine.{is_delayed_at, is_ready, machine_of, thread_at, under};
ghost use Rattle.cp_machine.specs.Memory.{address_of};
ghost use Rattle.cp_machine.specs.Reach.{CanReach};
ghost use Rattle.cp_machine.specs.Stack.{above};
ghost use Rattle.cp_story.specs.Aimed as spec;

use cp_machine::{Entry, ProcessState, Signals, State};
use cp_slots::{Action, Item, Place, Resolved};
use cp_store::{Address, address};

/// The statement that a process comes to.
#[derive(Clone, Copy)]
pub struct Aim {
    /// The line of its first token, where it is no end of a call.
    pub line: Option<u32>,
    /// The cell of the queue that it continues, or is delayed in.
    pub queue: Option<usize>,
    /// Who waits in the queue that it continues.
    pub wakes: Option<u8>,
    /// Whether a call of a monitor's entry ends by it.
    pub ends_call: bool,
}

/// The aim of who is let in.
pub const NONE: Aim = Aim {
    line: None,
    queue: None,
    wakes: None,
    ends_call: false,
};

/// The aim of who comes to the end of a call of a monitor's entry.
const RETURN: Aim = Aim {
    line: None,
    queue: None,
    wakes: None,
    ends_call: true,
};

/// The topmost entry of a process.
pub fn top_of(state: &State, pid: u8) -> Option<&Entry>
    requires { pid < length state.now.processes.items }
    ensures { (thread_at (machine_of state.now).threads pid).stack ≡ above (option_copied result) (drop 1 (thread_at (machine_of state.now).threads pid).stack) }
{
    let process = &state.processes[pid as usize];
    process.stack.last()
}

/// What a process is about to do.
pub fn aim_of(program: &Resolved, state: &State, pid: u8) -> Aim
    requires own { IsStateOf program.now state.now }
    requires pid { pid < length state.now.processes.items }
    requires ready { IsTrue (is_ready (machine_of state.now) pid) }
    ensures { result ≡ spec.aim_in program.now (machine_of state.now) pid }
{
    match top_of(state, pid) {
        Some(&Entry::Rest(at)) => aim_at(program, state, pid, at),
        Some(&Entry::Return(_, _, Some(_))) => RETURN,
        Some(&Entry::Successor(..)) | Some(&Entry::Return(..)) | Some(&Entry::InitEnd(..)) | None =>
            NONE,
    }
}

// The aim where an item is the topmost entry.
fn aim_at(program: &Resolved, state: &State, pid: u8, at: usize) -> Aim
    requires own { IsStateOf program.now state.now }
    requires pid { pid < length state.now.processes.items }
    requires ready { IsTrue (is_ready (machine_of state.now) pid) }
    requires top { (thread_at (machine_of state.now).threads pid).stack ≡ Entry.Rest at ∷ under (machine_of state.now) pid }
    ensures { result ≡ spec.aim_at (machine_of state.now) pid (item_at program.now at) }
{
    let item = program.item(at);
    let queue = queue_of(state, pid, item);
    Aim {
        line: Some(item.line),
        queue,
        wakes: woken_by(state, item, queue),
        ends_call: is_continue(item) && returns_by_continue(state),
    }
}

fn is_continue(item: &Item) -> bool
    ensures { result ≡ spec.is_continue item.now.action }
{
    matches!(item.action, Action::Continue(_))
}

// Whether who continues a queue returns at once.
fn returns_by_continue(state: &State) -> bool
    ensures { result ≡ lets_caller_return (machine_of state.now).discipline.signals }
{
    matches!(state.discipline.signals, Signals::Return)
}

// The cell of the queue that an item delays in, or continues.
fn queue_of(state: &State, pid: u8, item: &Item) -> Option<usize>
    requires { (r : Tables) × (at : ℕ) × IsTaken r state.now pid at item.now }
    ensures { result ≡ spec.queue_of (machine_of state.now) pid item.now.action }
{
    match &item.action {
        Action::Delay(place) => queue_cell(state, pid, place),
        Action::Continue(place) => queue_cell(state, pid, place),
        _ => None,
    }
}

// The permanent cell of a queue; `None` where the machine would stop.
fn queue_cell(state: &State, pid: u8, place: &Place) -> Option<usize>
    requires pid { pid < length state.now.processes.items }
    requires reach { CanReach (machine_of state.now) pid place.now 1 }
    ensures { result ≡ spec.permanent_cell (address_of (machine_of state.now) pid place.now) }
{
    let process = &state.processes[pid as usize];
    match address(place, &state.permanents, &process.room, &process.frame) {
        Ok(Address::Permanent(cell)) => Some(cell),
        _ => None,
    }
}

// Who waits in the queue of a cell, if the item continues it.
fn woken_by(state: &State, item: &Item, queue: Option<usize>) -> Option<u8>
    ensures { result ≡ spec.woken_by (machine_of state.now) item.now.action queue }
{
    match (&item.action, queue) {
        (Action::Continue(_), Some(cell)) => waiter_of(state, cell),
        _ => None,
    }
}

/// Who waits in the queue of a cell.
pub fn waiter_of(state: &State, cell: usize) -> Option<u8>
    ensures { result ≡ waits_in (machine_of state.now) cell }
{
    match place_in_queue(&state.processes, cell) {
        None => None,
        Some(place) => Some(place as u8),
    }
}

fn place_in_queue(processes: &[ProcessState], cell: usize) -> Option<usize>
    ensures place { result ≡ position (λ p. is_delayed_at cell p.status) processes.now }
    ensures within { IfSome result (λ place. place < length processes.now) }
{
    processes
        .iter()
        .position(|process| process.status.is_delayed_at(cell))
}
