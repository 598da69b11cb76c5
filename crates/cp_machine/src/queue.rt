//! `delay` and `continue`.

ghost use Rattle.std.specs.Prelude.{◌≡◌, ◌<◌, ◌≤◌, ℕ, drop, length, reverse, vec_capacity, vec_len};
ghost use Rattle.cp_slots.specs.Tables.{Tables, component_at};
ghost use Rattle.cp_slots.specs.declared.item.Action.TheVariants.{Continue, Delay};
ghost use Rattle.cp_machine.specs.Calls as spec;
ghost use Rattle.cp_machine.specs.Fits.{IsReserved, IsTaken};
ghost use Rattle.cp_machine.specs.Machine.{machine_of, thread_at, under, with_stack};
ghost use Rattle.cp_machine.specs.Premises.{CanReturn, CanWait, Takes};
ghost use Rattle.cp_machine.specs.Stack.{above, from_end, is_inner as is_inner_of, rest_of, top_first};
ghost use Rattle.cp_machine.specs.Statements as statements;

use crate::discipline::Signals;
use crate::event::{ErrorName, Event, Kernel};
use crate::frame::leave;
use crate::kernel;
use crate::memory::{address_of, frame_of};
use crate::process::Entry;
use crate::stack::{replace, top_of};
use crate::state::State;
use cp_slots::{ComponentKind, Item, Place, Resolved};
use cp_store::Address;
use cp_store::arithmetic::is_true;

// Delays in the queue of a permanent cell, in a monitor.
fn delay_in(
    state: &mut State,
    pid: u8,
    item: &Item,
    cell: usize,
    monitor: u8,
) -> Result<Event, ErrorName>
    requires { CanWait state.old pid cell monitor }
    ensures after { spec.delay_in (machine_of state.old) pid item.now.line cell (ComponentKind.Monitor monitor) (rest_of item.now.next (under (machine_of state.old) pid)) ≡ statements.outcome result (machine_of state.new) pid item.now.line }
    ensures reserved { (r : Tables) → IsReserved r state.old → IsReserved r state.new }
{
    if is_true(state.permanents[cell]) {
        return Err(ErrorName::QueueInUse);
    }
    replace(state, pid, None, item.next);
    kernel::delay(state, pid, monitor, cell);
    Ok(Event::Kernel(Kernel::Delay))
}

// Delays in the queue of a permanent cell.
fn delay_at(
    program: &Resolved,
    state: &mut State,
    pid: u8,
    item: &Item,
    cell: usize,
) -> Result<Event, ErrorName>
    requires taken { (at : ℕ) × IsTaken program.now state.old pid at item.now }
    requires cell { cell < length state.old.permanents.items }
    ensures after { spec.delay_in (machine_of state.old) pid item.now.line cell (component_at program.now (thread_at (machine_of state.old).threads pid).frame.component).kind (rest_of item.now.next (under (machine_of state.old) pid)) ≡ statements.outcome result (machine_of state.new) pid item.now.line }
    ensures reserved { (r : Tables) → IsReserved r state.old → IsReserved r state.new }
{
    let component = frame_of(state, pid).component;
    match program.component(component).kind {
        ComponentKind::Monitor(monitor) => delay_in(state, pid, item, cell, monitor),
        ComponentKind::Class | ComponentKind::Process(_) => {
            replace(state, pid, None, item.next);
            Ok(Event::Local)
        }
    }
}

/// `delay`.
#[inline(never)]
pub fn delay(
    program: &Resolved,
    state: &mut State,
    pid: u8,
    item: &Item,
    place: &Place,
) -> Result<Event, ErrorName>
    requires { Takes program.now state.old pid item.now (Delay place.now) }
    ensures after { spec.delay program.now (machine_of state.old) pid item.now.line place.now (rest_of item.now.next (under (machine_of state.old) pid)) ≡ statements.outcome result (machine_of state.new) pid item.now.line }
    ensures reserved { (r : Tables) → IsReserved r state.old → IsReserved r state.new }
{
    match address_of(state, pid, place)? {
        Address::Permanent(cell) => delay_at(program, state, pid, item, cell),
        Address::Local(_) => {
            replace(state, pid, None, item.next);
            Ok(Event::Local)
        }
    }
}

fn top(stack: &[Entry]) -> Option<Entry>
    ensures { reverse stack.now ≡ above result (drop 1 (reverse stack.now)) }
{
    stack.last().copied()
}

// Whether an entry stands above the end of the innermost call.
fn is_inner(entry: Option<Entry>) -> bool
    ensures { result ≡ is_inner_of entry }
{
    matches!(entry, Some(Entry::Rest(_) | Entry::Successor(_, _, _)))
}

fn drop_top(stack: &mut Vec<Entry>)
    ensures entries { top_first stack.new ≡ drop 1 (top_first stack.old) }
    ensures fewer { 0 < vec_len stack.old → vec_len stack.new < vec_len stack.old }
    ensures room { vec_capacity stack.old ≤ vec_capacity stack.new }
{
    let _ = stack.pop();
}

// Takes what stands above the end of the innermost call off.
fn drop_to_end(stack: &mut Vec<Entry>)
    ensures entries { top_first stack.new ≡ from_end (top_first stack.old) }
    ensures room { vec_capacity stack.old ≤ vec_capacity stack.new }
{
    while is_inner(top(stack)) {
        drop_top(stack);
    }
}

// The rest of an entry is removed: its end is the topmost entry of the process then.
fn unwind(state: &mut State, pid: u8)
    requires pid { pid < length state.old.processes.items }
    ensures after { machine_of state.new ≡ with_stack (machine_of state.old) pid (from_end (under (machine_of state.old) pid)) }
    ensures reserved { (r : Tables) → IsReserved r state.old → IsReserved r state.new }
{
    let process = &mut state.processes[pid as usize];
    drop_top(&mut process.stack);
    drop_to_end(&mut process.stack);
}

// The end of the entry is the topmost entry: it returns, and the kernel goes on.
fn continue_from(program: &Resolved, state: &mut State, pid: u8, cell: usize) -> Event
    requires ends { CanReturn program.now state.old pid }
    requires cell { cell < length state.old.permanents.items }
    ensures after { spec.continue_from program.now (machine_of state.old) pid cell (thread_at (machine_of state.old).threads pid).stack ≡ record { machine = machine_of state.new; event = result } }
    ensures reserved { (r : Tables) → IsReserved r state.old → IsReserved r state.new }
{
    match top_of(state, pid) {
        Some(&Entry::Return(caller, slot, Some(monitor))) => {
            leave(program, state, pid, caller, slot);
            kernel::resume(state, monitor, cell);
            Event::Kernel(Kernel::Continue)
        }
        _ => Event::Local,
    }
}

// The statement alone is removed, in a monitor.
fn continue_in(state: &mut State, pid: u8, item: &Item, cell: usize, monitor: u8) -> Event
    requires { CanWait state.old pid cell monitor }
    ensures after { spec.continue_in (machine_of state.old) pid cell (ComponentKind.Monitor monitor) (rest_of item.now.next (under (machine_of state.old) pid)) ≡ record { machine = machine_of state.new; event = result } }
    ensures reserved { (r : Tables) → IsReserved r state.old → IsReserved r state.new }
{
    replace(state, pid, None, item.next);
    kernel::signal(state, pid, monitor, cell);
    Event::Kernel(Kernel::Continue)
}

// The statement alone is removed.
fn continue_on(program: &Resolved, state: &mut State, pid: u8, item: &Item, cell: usize) -> Event
    requires taken { (at : ℕ) × IsTaken program.now state.old pid at item.now }
    requires cell { cell < length state.old.permanents.items }
    ensures after { spec.continue_in (machine_of state.old) pid cell (component_at program.now (thread_at (machine_of state.old).threads pid).frame.component).kind (rest_of item.now.next (under (machine_of state.old) pid)) ≡ record { machine = machine_of state.new; event = result } }
    ensures reserved { (r : Tables) → IsReserved r state.old → IsReserved r state.new }
{
    let component = frame_of(state, pid).component;
    match program.component(component).kind {
        ComponentKind::Monitor(monitor) => continue_in(state, pid, item, cell, monitor),
        ComponentKind::Class | ComponentKind::Process(_) => {
            replace(state, pid, None, item.next);
            Event::Local
        }
    }
}

// By the discipline: the rest of the entry procedure and its end are removed, or the statement alone.
fn continue_at(program: &Resolved, state: &mut State, pid: u8, item: &Item, cell: usize) -> Event
    requires taken { (at : ℕ) × IsTaken program.now state.old pid at item.now }
    requires cell { cell < length state.old.permanents.items }
    ensures after { spec.continue_by (machine_of state.old).discipline.signals program.now (machine_of state.old) pid cell item.now.next (under (machine_of state.old) pid) ≡ record { machine = machine_of state.new; event = result } }
    ensures reserved { (r : Tables) → IsReserved r state.old → IsReserved r state.new }
{
    match state.discipline.signals {
        Signals::Return => {
            unwind(state, pid);
            continue_from(program, state, pid, cell)
        }
        Signals::Continue | Signals::Wait => continue_on(program, state, pid, item, cell),
    }
}

/// `continue`.
#[inline(never)]
pub fn continue_with(
    program: &Resolved,
    state: &mut State,
    pid: u8,
    item: &Item,
    place: &Place,
) -> Result<Event, ErrorName>
    requires { Takes program.now state.old pid item.now (Continue place.now) }
    ensures after { spec.continue program.now (machine_of state.old) pid item.now.line place.now item.now.next (under (machine_of state.old) pid) ≡ statements.outcome result (machine_of state.new) pid item.now.line }
    ensures reserved { (r : Tables) → IsReserved r state.old → IsReserved r state.new }
{
    match address_of(state, pid, place)? {
        Address::Permanent(cell) => Ok(continue_at(program, state, pid, item, cell)),
        Address::Local(_) => {
            replace(state, pid, None, item.next);
            Ok(Event::Local)
        }
    }
}
