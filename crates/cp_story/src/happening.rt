//! What the call was that a process is in, and what it is given.

ghost use Rattle.std.specs.Prelude.{◌≡◌, IfOk, map, slice_get};
ghost use Rattle.std.specs.String.{string_bytes};
ghost use Rattle.cp_legend.specs.Names.{legend_seen};
ghost use Rattle.cp_legend.specs.Values.{value_seen};
ghost use Rattle.cp_machine.specs.Machine.{machine_of, thread_of};
ghost use Rattle.cp_machine.specs.Stack.{top_first};
ghost use Rattle.cp_story.specs.Passed as spec;

use cp_legend::{Legend, LegendParameter, LegendPassing, SourceValue};
use cp_machine::{Entry, ProcessState, State};
use cp_store::{Address, Frame};
use std::alloc::{AllocError, Global};

/// The arguments of the innermost call of a process, which has just begun.
pub fn arguments(
    alloc: Global,
    legend: &Legend,
    state: &State,
    pid: u8,
) -> Result<Vec<SourceValue>, AllocError>
    ensures { IfOk result (λ v. map value_seen v.items ≡ spec.arguments (legend_seen legend.now) (slice_get (machine_of state.now).threads pid)) }
{
    let mut values = Vec::new(alloc);
    let Some(process) = state.processes.get(pid as usize) else {
        return Ok(values);
    };
    let Some(routine) = legend.routines.get(process.frame.routine) else {
        return Ok(values);
    };
    for parameter in &routine.parameters {
        values.push(argument(alloc, legend, process, *parameter)?)?;
    }
    Ok(values)
}

fn argument(
    alloc: Global,
    legend: &Legend,
    process: &ProcessState,
    parameter: LegendParameter,
) -> Result<SourceValue, AllocError>
    ensures { IfOk result (λ v. value_seen v ≡ spec.argument (legend_seen legend.now) (thread_of process.now) parameter) }
{
    match parameter.passing {
        LegendPassing::Value => {
            let at = process.frame.base.saturating_add(parameter.slot);
            legend.value(alloc, parameter.shape, &process.room.cells, at)
        }
        LegendPassing::Reference => {
            let name = place_named(alloc, legend, process, parameter)?;
            Ok(SourceValue::Named(name))
        }
    }
}

/// The name of the place that a `var` parameter of the innermost call names.
pub fn place_named(
    alloc: Global,
    legend: &Legend,
    process: &ProcessState,
    parameter: LegendParameter,
) -> Result<String, AllocError>
    ensures { IfOk result (λ t. string_bytes t ≡ spec.place_named (legend_seen legend.now) (thread_of process.now) parameter) }
{
    let cells = legend.shapes.cells_of(parameter.shape);
    match address_of(process, parameter) {
        Some(Address::Permanent(cell)) => legend.permanent_name(alloc, cell, cells),
        Some(Address::Local(cell)) => local_name(alloc, legend, process, cell, cells),
        None => Ok(String::new(alloc)),
    }
}

/// The address that a `var` parameter of the innermost call names.
pub fn address_of(process: &ProcessState, parameter: LegendParameter) -> Option<Address>
    ensures { result ≡ spec.address_of (thread_of process.now) parameter }
{
    let place = process.frame.references.saturating_add(parameter.slot);
    process.room.references.get(place).copied()
}

// The name of what has cells in a frame of the process.
fn local_name(
    alloc: Global,
    legend: &Legend,
    process: &ProcessState,
    cell: usize,
    cells: usize,
) -> Result<String, AllocError>
    ensures { IfOk result (λ t. string_bytes t ≡ spec.name_in_frame (legend_seen legend.now) (spec.frame_with (top_first process.now.stack) cell) cell cells) }
{
    match frame_with(process, cell) {
        Some(Frame { routine, base, .. }) => {
            legend.local_name(alloc, routine, cell.saturating_sub(base), cells)
        }
        None => Ok(String::new(alloc)),
    }
}

// The caller's frame that has a cell.
fn frame_with(process: &ProcessState, cell: usize) -> Option<Frame>
    ensures { result ≡ spec.frame_with (top_first process.now.stack) cell }
{
    let mut found = None;
    for entry in &process.stack {
        found = caller_in(*entry)
            .filter(|frame| frame.base <= cell)
            .or(found);
    }
    found
}

// The frame that goes on behind an entry.
fn caller_in(entry: Entry) -> Option<Frame>
    ensures { result ≡ spec.caller_in entry }
{
    match entry {
        Entry::Return(frame, _, _) => Some(frame),
        Entry::InitEnd(frame, _) => Some(frame),
        Entry::Rest(_) | Entry::Successor(_, _, _) => None,
    }
}
