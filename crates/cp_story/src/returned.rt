//! What comes back from a call of a monitor's entry.

ghost use Rattle.std.specs.Prelude.{◌≡◌, ◌++◌, IfOk, OnOk, flat_map, map, option_map, slice_get};
ghost use Rattle.cp_legend.specs.Names.{legend_seen, routine_names_seen, variable_seen};
ghost use Rattle.cp_legend.specs.Values.{value_seen};
ghost use Rattle.cp_machine.specs.Machine.{machine_of, thread_of};
ghost use Rattle.cp_story.specs.Passed as spec;
ghost use Rattle.cp_story.specs.Views.{given_of};

use crate::event::Returned;
use crate::happening::{address_of, place_named};
use cp_legend::{Legend, LegendParameter, LegendPassing, LegendRoutine, SourceValue, Variable};
use cp_machine::{ProcessState, State};
use cp_store::Address;
use std::alloc::{AllocError, Global};

/// What the innermost call of a process gives back: the values of the places that its `var` parameters name, and the result of a function.
pub fn values_returned(
    alloc: Global,
    legend: &Legend,
    state: &State,
    pid: u8,
) -> Result<Vec<Returned>, AllocError>
    ensures { IfOk result (λ v. map given_of v.items ≡ spec.given_back (legend_seen legend.now) (machine_of state.now).permanents (slice_get (machine_of state.now).threads pid)) }
{
    let mut all = Vec::new(alloc);
    let Some(process) = state.processes.get(pid as usize) else {
        return Ok(all);
    };
    let Some(routine) = legend.routines.get(process.frame.routine) else {
        return Ok(all);
    };
    push_parameters(alloc, legend, state, process, &routine.parameters, &mut all)?;
    push_result(alloc, legend, process, routine, &mut all)?;
    Ok(all)
}

// Appends the places that these parameters name, as far as they are `var` parameters.
fn push_parameters(
    alloc: Global,
    legend: &Legend,
    state: &State,
    process: &ProcessState,
    parameters: &[LegendParameter],
    all: &mut Vec<Returned>,
) -> Result<(), AllocError>
    ensures { OnOk result (map given_of all.new.items ≡ map given_of all.old.items ++ flat_map (spec.parameter_given (legend_seen legend.now) (machine_of state.now).permanents (thread_of process.now)) parameters.now) }
{
    for parameter in parameters {
        if let LegendPassing::Reference = parameter.passing {
            all.push(place_of(alloc, legend, state, process, *parameter)?)?;
        }
    }
    Ok(())
}

// Appends the result of a call of a function.
fn push_result(
    alloc: Global,
    legend: &Legend,
    process: &ProcessState,
    routine: &LegendRoutine,
    all: &mut Vec<Returned>,
) -> Result<(), AllocError>
    ensures { OnOk result (map given_of all.new.items ≡ map given_of all.old.items ++ spec.result_given (legend_seen legend.now) (thread_of process.now) (spec.result_in (routine_names_seen routine.now))) }
{
    if let Some(variable) = result_of(routine) {
        let at = process.frame.base.saturating_add(variable.slot);
        all.push(Returned {
            name: String::new(alloc),
            value: legend.value(alloc, variable.shape, &process.room.cells, at)?,
        })?;
    }
    Ok(())
}

// The result of a function, among its variables.
fn result_of(routine: &LegendRoutine) -> Option<&Variable>
    ensures { option_map (λ v. variable_seen v.now) result ≡ spec.result_in (routine_names_seen routine.now) }
{
    routine.variables.get(routine.result?)
}

/// The place that a `var` parameter of the innermost call names, with its value.
pub fn place_of(
    alloc: Global,
    legend: &Legend,
    state: &State,
    process: &ProcessState,
    parameter: LegendParameter,
) -> Result<Returned, AllocError>
    ensures { IfOk result (λ g. given_of g ≡ spec.place_given (legend_seen legend.now) (machine_of state.now).permanents (thread_of process.now) parameter) }
{
    Ok(Returned {
        name: place_named(alloc, legend, process, parameter)?,
        value: value_at(alloc, legend, state, process, parameter)?,
    })
}

// The value of that place.
fn value_at(
    alloc: Global,
    legend: &Legend,
    state: &State,
    process: &ProcessState,
    parameter: LegendParameter,
) -> Result<SourceValue, AllocError>
    ensures { IfOk result (λ v. value_seen v ≡ spec.value_at (legend_seen legend.now) (machine_of state.now).permanents (thread_of process.now).cells (spec.address_of (thread_of process.now) parameter) parameter.shape) }
{
    let shape = parameter.shape;
    match address_of(process, parameter) {
        Some(Address::Permanent(cell)) => legend.value(alloc, shape, &state.permanents, cell),
        Some(Address::Local(cell)) => legend.value(alloc, shape, &process.room.cells, cell),
        None => Ok(SourceValue::Integer(0)),
    }
}
