//! Calls, and starts of components.

ghost use Rattle.std.specs.Prelude.{◌≡◌, ◌<◌, length};
ghost use Rattle.cp_slots.specs.Tables.{Tables, component_at};
ghost use Rattle.cp_machine.specs.Calls as spec;
ghost use Rattle.cp_machine.specs.Fits.{IsReserved};
ghost use Rattle.cp_machine.specs.Machine.{machine_of, phase_at, under, with_phase};
ghost use Rattle.cp_machine.specs.Premises.{CanCallIn, IsGate, TakesCall};
ghost use Rattle.cp_machine.specs.Stack.{rest_of};
ghost use Rattle.cp_machine.specs.Statements as statements;

use crate::event::{ErrorName, Event, Kernel};
use crate::frame::open;
use crate::kernel::enter;
use crate::memory::{arguments_of, bind_arguments, component_of, frame_of};
use crate::process::Entry;
use crate::stack::replace;
use crate::state::{Phase, State};
use cp_slots::{Argument, ComponentKind, ComponentPlace, Item, Resolved};

/// What is called, and where a function's result goes.
#[derive(Clone, Copy)]
pub struct Callee {
    pub routine: usize,
    pub is_entry: bool,
    pub result: Option<usize>,
}

// Opens the call of a routine in a component, and binds its parameters.
#[inline(always)]
fn open_call(
    program: &Resolved,
    state: &mut State,
    pid: u8,
    item: &Item,
    callee: Callee,
    component: usize,
    arguments: &[Argument],
    monitor: Option<u8>,
)
    requires { CanCallIn program.now state.old pid callee.routine component arguments.now }
    ensures after { machine_of state.new ≡ spec.open_call program.now (machine_of state.old) pid callee.routine component arguments.now state.old.bounds.items callee.result monitor (rest_of item.now.next (under (machine_of state.old) pid)) }
    ensures reserved { (r : Tables) → IsReserved r state.old → IsReserved r state.new }
{
    let end = Entry::Return(frame_of(state, pid), callee.result, monitor);
    open(
        program,
        state,
        pid,
        item.next,
        callee.routine,
        component,
        end,
    );
    bind_arguments(state, pid, arguments);
}

// Calls an entry of a monitor.
fn call_monitor(
    program: &Resolved,
    state: &mut State,
    pid: u8,
    item: &Item,
    callee: Callee,
    component: usize,
    arguments: &[Argument],
    monitor: u8,
) -> Event
    requires calls { CanCallIn program.now state.old pid callee.routine component arguments.now }
    requires gate { IsGate state.old monitor }
    ensures after { spec.call_in program.now (machine_of state.old) pid (ComponentKind.Monitor monitor) callee.routine component arguments.now state.old.bounds.items callee.result (rest_of item.now.next (under (machine_of state.old) pid)) ≡ record { machine = machine_of state.new; event = result } }
    ensures reserved { (r : Tables) → IsReserved r state.old → IsReserved r state.new }
{
    open_call(
        program,
        state,
        pid,
        item,
        callee,
        component,
        arguments,
        Some(monitor),
    );
    enter(state, pid, monitor);
    Event::Kernel(Kernel::Enter)
}

// Calls an entry of a component that is initialised. A process has no entries.
fn call_entry(
    program: &Resolved,
    state: &mut State,
    pid: u8,
    item: &Item,
    callee: Callee,
    component: usize,
    arguments: &[Argument],
) -> Event
    requires { CanCallIn program.now state.old pid callee.routine component arguments.now }
    ensures after { spec.call_in program.now (machine_of state.old) pid (component_at program.now component).kind callee.routine component arguments.now state.old.bounds.items callee.result (rest_of item.now.next (under (machine_of state.old) pid)) ≡ record { machine = machine_of state.new; event = result } }
    ensures reserved { (r : Tables) → IsReserved r state.old → IsReserved r state.new }
{
    match program.component(component).kind {
        ComponentKind::Monitor(monitor) => {
            call_monitor(
                program, state, pid, item, callee, component, arguments, monitor,
            )
        }
        ComponentKind::Class => {
            open_call(
                program, state, pid, item, callee, component, arguments, None,
            );
            Event::Local
        }
        ComponentKind::Process(_) => {
            replace(state, pid, None, item.next);
            Event::Local
        }
    }
}

/// The phase of a component.
pub fn phase_of(state: &State, component: usize) -> Phase
    requires { component < length state.now.phases.items }
    ensures { result ≡ phase_at (machine_of state.now) component }
{
    state.phases[component]
}

/// Gives a component a phase.
pub fn set_phase(state: &mut State, component: usize, phase: Phase)
    requires known { component < length state.old.phases.items }
    ensures after { machine_of state.new ≡ with_phase (machine_of state.old) component phase }
    ensures reserved { (r : Tables) → IsReserved r state.old → IsReserved r state.new }
{
    state.phases[component] = phase;
}

// Calls with evaluated arguments.
fn call_by(
    program: &Resolved,
    state: &mut State,
    pid: u8,
    item: &Item,
    callee: Callee,
    component: usize,
    arguments: &[Argument],
) -> Result<Event, ErrorName>
    requires { CanCallIn program.now state.old pid callee.routine component arguments.now }
    ensures after { spec.call_by program.now (machine_of state.old) pid item.now.line callee.is_entry callee.routine component arguments.now state.old.bounds.items callee.result (rest_of item.now.next (under (machine_of state.old) pid)) ≡ statements.outcome result (machine_of state.new) pid item.now.line }
    ensures reserved { (r : Tables) → IsReserved r state.old → IsReserved r state.new }
{
    if !callee.is_entry {
        open_call(
            program, state, pid, item, callee, component, arguments, None,
        );
        return Ok(Event::Local);
    }
    if phase_of(state, component) != Phase::Initialised {
        return Err(ErrorName::NotInit);
    }
    Ok(call_entry(program, state, pid, item, callee, component, arguments))
}

/// A call: the component's place first, then the arguments, then whether the component is initialised.
#[inline(never)]
pub fn call(
    program: &Resolved,
    state: &mut State,
    pid: u8,
    item: &Item,
    callee: Callee,
    place: &ComponentPlace,
    arguments: &[Argument],
) -> Result<Event, ErrorName>
    requires { TakesCall program.now state.old pid item.now callee place.now arguments.now }
    ensures after { spec.call program.now (machine_of state.old) pid item.now.line callee.routine place.now callee.is_entry arguments.now callee.result (rest_of item.now.next (under (machine_of state.old) pid)) ≡ statements.outcome result (machine_of state.new) pid item.now.line }
    ensures reserved { (r : Tables) → IsReserved r state.old → IsReserved r state.new }
{
    let component = component_of(state, pid, place)?;
    arguments_of(state, pid, arguments)?;
    call_by(program, state, pid, item, callee, component, arguments)
}
