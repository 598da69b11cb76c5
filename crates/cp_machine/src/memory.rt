//! What a process reads and writes, in the frame that it executes.

ghost use Rattle.std.specs.Prelude.{◌≡◌, ℕ, ◌<◌, ◌≤◌, IfOk, OnOk, length, vec_capacity};
ghost use Rattle.cp_slots.specs.Inside.{SET_CELLS};
ghost use Rattle.cp_slots.specs.Tables.{Tables};
ghost use Rattle.cp_store.specs.Arguments.{bounds_or};
ghost use Rattle.cp_store.specs.Inside.{AllFitComponent};
ghost use Rattle.cp_machine.specs.Fits.{IsReserved};
ghost use Rattle.cp_machine.specs.Machine.{machine_of, thread_at, with_status};
ghost use Rattle.cp_machine.specs.Memory.{memory_at};
ghost use Rattle.cp_machine.specs.Memory as spec;
ghost use Rattle.cp_machine.specs.Reach.{CanFind, CanGive, CanName, CanReach, CanRead, CanReadSet, FitsOwn, HasCells};

use crate::event::ErrorName;
use crate::process::Status;
use crate::state::State;
use cp_slots::{Argument, ComponentPlace, OrdinalExpression, Place, PlaceOrigin, SetExpression};
use cp_store::set::SetValue;
use cp_store::{
    Address, Frame, address, bind_component, bind_frame, component, copy_cells, evaluate,
    evaluate_arguments, evaluate_here, evaluate_set, origin_address, write, write_set,
};

/// The frame that a process executes.
pub fn frame_of(state: &State, pid: u8) -> Frame
    requires { pid < length state.now.processes.items }
    ensures { result ≡ (thread_at (machine_of state.now).threads pid).frame }
{
    let process = &state.processes[pid as usize];
    process.frame
}

pub fn status_of(state: &State, pid: u8) -> Status
    requires { pid < length state.now.processes.items }
    ensures { result ≡ (thread_at (machine_of state.now).threads pid).status }
{
    let process = &state.processes[pid as usize];
    process.status
}

/// The value of an expression.
#[inline(always)]
pub fn value_of(state: &State, pid: u8, expression: &OrdinalExpression) -> Result<i16, ErrorName>
    requires pid { pid < length state.now.processes.items }
    requires reads { CanRead (machine_of state.now) pid expression.now }
    ensures { result ≡ spec.value_of (machine_of state.now) pid expression.now }
{
    let process = &state.processes[pid as usize];
    evaluate(expression, &state.permanents, &process.room, &process.frame)
}

/// The same, computed where it is asked for.
#[inline(always)]
pub fn value_here(state: &State, pid: u8, expression: &OrdinalExpression) -> Result<i16, ErrorName>
    requires pid { pid < length state.now.processes.items }
    requires reads { CanRead (machine_of state.now) pid expression.now }
    ensures { result ≡ spec.value_of (machine_of state.now) pid expression.now }
{
    let process = &state.processes[pid as usize];
    evaluate_here(expression, &state.permanents, &process.room, &process.frame)
}

/// The value of a set expression.
pub fn set_of(state: &State, pid: u8, expression: &SetExpression) -> Result<SetValue, ErrorName>
    requires pid { pid < length state.now.processes.items }
    requires reads { CanReadSet (machine_of state.now) pid expression.now }
    ensures { result ≡ spec.set_of (machine_of state.now) pid expression.now }
{
    let process = &state.processes[pid as usize];
    evaluate_set(expression, &state.permanents, &process.room, &process.frame)
}

/// The address of a place.
#[inline(always)]
pub fn address_of(state: &State, pid: u8, place: &Place) -> Result<Address, ErrorName>
    requires pid { pid < length state.now.processes.items }
    requires reach { (cells : ℕ) × CanReach (machine_of state.now) pid place.now cells }
    ensures value { result ≡ spec.address_of (machine_of state.now) pid place.now }
    ensures cells { (cells : ℕ) → CanReach (machine_of state.now) pid place.now cells → IfOk result (λ at. HasCells (machine_of state.now) pid at cells) }
{
    let process = &state.processes[pid as usize];
    address(place, &state.permanents, &process.room, &process.frame)
}

/// Where a variable lies.
#[inline(always)]
pub fn origin_of(state: &State, pid: u8, variable: PlaceOrigin) -> Address
    requires pid { pid < length state.now.processes.items }
    requires name { (cells : ℕ) × CanName (machine_of state.now) pid variable cells }
    ensures value { result ≡ spec.origin_of (machine_of state.now) pid variable }
    ensures cells { (cells : ℕ) → CanName (machine_of state.now) pid variable cells → HasCells (machine_of state.now) pid result cells }
{
    let process = &state.processes[pid as usize];
    origin_address(variable, &process.room, &process.frame)
}

/// The number of a component.
pub fn component_of(state: &State, pid: u8, place: &ComponentPlace) -> Result<usize, ErrorName>
    requires pid { pid < length state.now.processes.items }
    requires finds { CanFind (machine_of state.now) pid place.now }
    ensures { result ≡ spec.component_of (machine_of state.now) pid place.now }
{
    let process = &state.processes[pid as usize];
    component::component_of(
        place,
        &state.permanents,
        &state.bindings,
        &process.room,
        process.frame,
    )
}

/// Evaluates arguments, from left to right, into the room for them.
pub fn arguments_of(state: &mut State, pid: u8, arguments: &[Argument]) -> Result<(), ErrorName>
    requires pid { pid < length state.old.processes.items }
    requires reads { CanGive (machine_of state.old) pid arguments.now }
    requires room { length arguments.now ≤ vec_capacity state.old.bounds }
    ensures bounds { spec.arguments_of (machine_of state.old) pid arguments.now ≡ bounds_or result state.new.bounds.items }
    ensures count { OnOk result (length state.new.bounds.items ≡ length arguments.now) }
    ensures same { machine_of state.new ≡ machine_of state.old }
    ensures processes { state.new.processes ≡ state.old.processes }
    ensures reserved { (r : Tables) → IsReserved r state.old → IsReserved r state.new }
{
    let process = &state.processes[pid as usize];
    evaluate_arguments(
        arguments,
        &state.permanents,
        &state.bindings,
        &process.room,
        process.frame,
        &mut state.bounds,
    )
}

/// Gives a process a status.
pub fn set_status(state: &mut State, pid: u8, status: Status)
    requires pid { pid < length state.old.processes.items }
    ensures after { machine_of state.new ≡ with_status (machine_of state.old) pid status }
    ensures reserved { (r : Tables) → IsReserved r state.old → IsReserved r state.new }
{
    let process = &mut state.processes[pid as usize];
    process.status = status;
}

/// Writes the cell at an address.
#[inline(always)]
pub fn put_number(state: &mut State, pid: u8, at: Address, value: i16)
    requires pid { pid < length state.old.processes.items }
    requires cells { HasCells (machine_of state.old) pid at 1 }
    ensures after { machine_of state.new ≡ spec.number_put (machine_of state.old) pid at value }
    ensures reserved { (r : Tables) → IsReserved r state.old → IsReserved r state.new }
{
    let process = &mut state.processes[pid as usize];
    write(&mut state.permanents, &mut process.room, at, value);
}

/// Writes the cells of a set from an address on.
pub fn put_set(state: &mut State, pid: u8, at: Address, value: SetValue)
    requires pid { pid < length state.old.processes.items }
    requires cells { HasCells (machine_of state.old) pid at SET_CELLS }
    ensures after { machine_of state.new ≡ spec.set_put (machine_of state.old) pid at value }
    ensures reserved { (r : Tables) → IsReserved r state.old → IsReserved r state.new }
{
    let process = &mut state.processes[pid as usize];
    write_set(&mut state.permanents, &mut process.room, at, value);
}

/// Copies cells.
pub fn put_cells(state: &mut State, pid: u8, to: Address, from: Address, size: usize)
    requires pid { pid < length state.old.processes.items }
    requires to { HasCells (machine_of state.old) pid to size }
    requires from { HasCells (machine_of state.old) pid from size }
    ensures after { machine_of state.new ≡ spec.cells_put (machine_of state.old) pid to from size }
    ensures reserved { (r : Tables) → IsReserved r state.old → IsReserved r state.new }
{
    let process = &mut state.processes[pid as usize];
    copy_cells(&mut state.permanents, &mut process.room, to, from, size);
}

/// Binds the parameters of the frame that a process executes to the evaluated arguments.
pub fn bind_arguments(state: &mut State, pid: u8, arguments: &[Argument])
    requires pid { pid < length state.old.processes.items }
    requires count { length state.old.bounds.items ≡ length arguments.now }
    requires fit { FitsOwn (machine_of state.old) pid arguments.now state.old.bounds.items }
    ensures after { machine_of state.new ≡ spec.frame_bound (machine_of state.old) pid arguments.now state.old.bounds.items }
    ensures reserved { (r : Tables) → IsReserved r state.old → IsReserved r state.new }
{
    let process = &mut state.processes[pid as usize];
    bind_frame(
        &mut state.permanents,
        &mut process.room,
        process.frame,
        arguments,
        &state.bounds,
    );
}

/// Binds the parameters of a component, whose permanent cells begin at `base`, to the evaluated arguments.
pub fn bind_parameters(state: &mut State, pid: u8, base: usize, arguments: &[Argument])
    requires pid { pid < length state.old.processes.items }
    requires count { length state.old.bounds.items ≡ length arguments.now }
    requires fit { AllFitComponent (memory_at (machine_of state.old) pid) (machine_of state.old).bindings base arguments.now state.old.bounds.items }
    ensures after { machine_of state.new ≡ spec.parameters_bound (machine_of state.old) pid base arguments.now state.old.bounds.items }
    ensures reserved { (r : Tables) → IsReserved r state.old → IsReserved r state.new }
{
    let process = &mut state.processes[pid as usize];
    bind_component(
        &mut state.permanents,
        &mut state.bindings,
        &mut process.room,
        base,
        arguments,
        &state.bounds,
    );
}
