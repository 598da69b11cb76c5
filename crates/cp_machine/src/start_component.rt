//! Starts of classes, monitors and processes.

ghost use Rattle.std.specs.Prelude.{◌≡◌, ◌<◌, ℕ, length};
ghost use Rattle.cp_slots.specs.Tables.{Tables, component_at};
ghost use Rattle.cp_machine.specs.Calls as spec;
ghost use Rattle.cp_machine.specs.Fits.{IsReserved};
ghost use Rattle.cp_machine.specs.Machine.{machine_of, under};
ghost use Rattle.cp_machine.specs.Premises.{CanStartIn, TakesStart};
ghost use Rattle.cp_machine.specs.Stack.{rest_of};
ghost use Rattle.cp_machine.specs.Statements as statements;

use crate::call::{phase_of, set_phase};
use crate::event::{ErrorName, Event, Kernel};
use crate::frame::open;
use crate::memory::{arguments_of, bind_parameters, component_of, frame_of, set_status, status_of};
use crate::process::{Entry, Status};
use crate::stack::replace;
use crate::state::{Phase, State};
use cp_slots::{Argument, ComponentKind, ComponentPlace, Item, Resolved};

// The parameters of a process are bound, and it is ready.
fn start_process(
    program: &Resolved,
    state: &mut State,
    pid: u8,
    item: &Item,
    number: u8,
    component: usize,
    arguments: &[Argument],
) -> Result<Event, ErrorName>
    requires starts { (routine : ℕ) × CanStartIn program.now state.old pid routine component arguments.now }
    requires process { number < length state.old.processes.items }
    ensures after { spec.start_process program.now (machine_of state.old) pid item.now.line number component arguments.now state.old.bounds.items (rest_of item.now.next (under (machine_of state.old) pid)) ≡ statements.outcome result (machine_of state.new) pid item.now.line }
    ensures reserved { (r : Tables) → IsReserved r state.old → IsReserved r state.new }
{
    if status_of(state, number) != Status::Unstarted {
        return Err(ErrorName::InitTwice);
    }
    let base = program.component(component).base;
    replace(state, pid, None, item.next);
    bind_parameters(state, pid, base, arguments);
    set_status(state, number, Status::Ready);
    Ok(Event::Kernel(Kernel::StartProcess))
}

// The parameters of a class or monitor are bound, and its initial statement is executed.
fn start_inside(
    program: &Resolved,
    state: &mut State,
    pid: u8,
    item: &Item,
    routine: usize,
    component: usize,
    arguments: &[Argument],
) -> Result<Event, ErrorName>
    requires { CanStartIn program.now state.old pid routine component arguments.now }
    ensures after { spec.start_inside program.now (machine_of state.old) pid item.now.line routine component arguments.now state.old.bounds.items (rest_of item.now.next (under (machine_of state.old) pid)) ≡ statements.outcome result (machine_of state.new) pid item.now.line }
    ensures reserved { (r : Tables) → IsReserved r state.old → IsReserved r state.new }
{
    if phase_of(state, component) != Phase::Uninitialised {
        return Err(ErrorName::InitTwice);
    }
    let end = Entry::InitEnd(frame_of(state, pid), component);
    open(program, state, pid, item.next, routine, component, end);
    let base = program.component(component).base;
    bind_parameters(state, pid, base, arguments);
    set_phase(state, component, Phase::Initialising);
    Ok(Event::Local)
}

// Starts with evaluated arguments, by the kind of the component.
fn start_by(
    program: &Resolved,
    state: &mut State,
    pid: u8,
    item: &Item,
    routine: usize,
    component: usize,
    arguments: &[Argument],
) -> Result<Event, ErrorName>
    requires { CanStartIn program.now state.old pid routine component arguments.now }
    ensures after { spec.start_by program.now (machine_of state.old) pid item.now.line (component_at program.now component).kind routine component arguments.now state.old.bounds.items (rest_of item.now.next (under (machine_of state.old) pid)) ≡ statements.outcome result (machine_of state.new) pid item.now.line }
    ensures reserved { (r : Tables) → IsReserved r state.old → IsReserved r state.new }
{
    match program.component(component).kind {
        ComponentKind::Process(number) => {
            start_process(program, state, pid, item, number, component, arguments)
        }
        ComponentKind::Monitor(_) => {
            start_inside(program, state, pid, item, routine, component, arguments)
        }
        ComponentKind::Class => {
            start_inside(program, state, pid, item, routine, component, arguments)
        }
    }
}

/// A start: the component's place first, then the arguments, then whether it is the first start.
#[inline(never)]
pub fn start(
    program: &Resolved,
    state: &mut State,
    pid: u8,
    item: &Item,
    routine: usize,
    place: &ComponentPlace,
    arguments: &[Argument],
) -> Result<Event, ErrorName>
    requires { TakesStart program.now state.old pid item.now place.now routine arguments.now }
    ensures after { spec.start program.now (machine_of state.old) pid item.now.line place.now routine arguments.now (rest_of item.now.next (under (machine_of state.old) pid)) ≡ statements.outcome result (machine_of state.new) pid item.now.line }
    ensures reserved { (r : Tables) → IsReserved r state.old → IsReserved r state.new }
{
    let component = component_of(state, pid, place)?;
    arguments_of(state, pid, arguments)?;
    start_by(program, state, pid, item, routine, component, arguments)
}
