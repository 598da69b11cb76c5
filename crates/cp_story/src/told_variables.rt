//! The variables in an expression, with what the source calls them and their values.

ghost use Rattle.std.specs.Prelude.{◌≡◌, ◌++◌, ◌&&◌, ◌==◌, [], OnOk, IfOk, flat_map, map, option_map, slice_get};
ghost use Rattle.std.specs.List.{list_any};
ghost use Rattle.cp_legend.specs.Names.{legend_seen, variable_seen};
ghost use Rattle.cp_machine.specs.Machine.{machine_of, thread_of};
ghost use Rattle.cp_story.specs.Annotations as spec;
ghost use Rattle.cp_story.specs.Views.{given_of};

use crate::event::Returned;
use crate::returned::place_of;
use cp_legend::{Legend, LegendParameter, LegendPassing, Variable};
use cp_machine::{ProcessState, State};
use cp_slots::{Index, OrdinalExpression, Place, PlaceOrigin, SetExpression};
use std::alloc::{AllocError, Global};

/// The variables in an expression that a process evaluates, each once, in the order in which they are written first.
pub fn values_told(
    alloc: Global,
    legend: &Legend,
    state: &State,
    process: &ProcessState,
    expression: &OrdinalExpression,
) -> Result<Vec<Returned>, AllocError>
    ensures { IfOk result (λ v. map given_of v.items ≡ spec.values_told (legend_seen legend.now) (machine_of state.now).permanents (thread_of process.now) expression.now) }
{
    let mut found = Vec::new(alloc);
    push_origins(expression, &mut found)?;
    let once = each_once(alloc, &found)?;
    all_told(alloc, legend, state, process, &once)
}

// Appends where the variables of an expression lie.
#[cycle(origins)]
#[tactic(auto, using(std::proofs::lemmas::List::append_assoc))]
fn push_origins(
    expression: &OrdinalExpression,
    found: &mut Vec<PlaceOrigin>,
) -> Result<(), AllocError>
    ensures { OnOk result (found.new.items ≡ found.old.items ++ spec.origins expression.now) }
{
    match expression {
        OrdinalExpression::Number(_) => Ok(()),
        OrdinalExpression::Load(place) | OrdinalExpression::IsEmpty(place) => {
            push_place(place, found)
        }
        OrdinalExpression::Negate(operand)
        | OrdinalExpression::Absolute(operand)
        | OrdinalExpression::Not(operand)
        | OrdinalExpression::Successor(operand, _)
        | OrdinalExpression::Predecessor(operand, _)
        | OrdinalExpression::Character(operand) => push_origins(operand, found),
        OrdinalExpression::Arithmetic(_, left, right)
        | OrdinalExpression::Logic(_, left, right)
        | OrdinalExpression::Compare(_, left, right) => {
            push_origins(left, found)?;
            push_origins(right, found)
        }
        OrdinalExpression::SameSet(_, left, right) => {
            push_set(left, found)?;
            push_set(right, found)
        }
        OrdinalExpression::Member(element, whole) => {
            push_origins(element, found)?;
            push_set(whole, found)
        }
    }
}

#[cycle(origins)]
#[tactic(auto, using(std::proofs::lemmas::List::append_assoc))]
fn push_set(expression: &SetExpression, found: &mut Vec<PlaceOrigin>) -> Result<(), AllocError>
    ensures { OnOk result (found.new.items ≡ found.old.items ++ spec.set_origins expression.now) }
{
    match expression {
        SetExpression::Load(place) => push_place(place, found),
        SetExpression::Empty => Ok(()),
        SetExpression::With(whole, element) => {
            push_set(whole, found)?;
            push_origins(element, found)
        }
        SetExpression::Combine(_, left, right) => {
            push_set(left, found)?;
            push_set(right, found)
        }
    }
}

#[cycle(origins)]
#[tactic(auto, using(crate::proofs::ToldVariables::place_added))]
fn push_place(place: &Place, found: &mut Vec<PlaceOrigin>) -> Result<(), AllocError>
    ensures { OnOk result (found.new.items ≡ found.old.items ++ spec.place_origins place.now) }
{
    found.push(place.origin)?;
    push_indices(&place.indices, found)
}

#[cycle(origins)]
#[tactic(auto, using(std::proofs::lemmas::List::append_assoc))]
fn push_indices(indices: &[Index], found: &mut Vec<PlaceOrigin>) -> Result<(), AllocError>
    ensures { OnOk result (found.new.items ≡ found.old.items ++ flat_map spec.index_origins indices.now) }
{
    for index in indices {
        push_origins(&index.at, found)?;
    }
    Ok(())
}

// Each of them once.
fn each_once(alloc: Global, found: &[PlaceOrigin]) -> Result<Vec<PlaceOrigin>, AllocError>
    ensures { IfOk result (λ v. v.items ≡ spec.with_each [] found.now) }
{
    let mut once = Vec::new(alloc);
    for origin in found {
        add_one(&mut once, *origin)?;
    }
    Ok(once)
}

// Appends one, unless it is there.
fn add_one(once: &mut Vec<PlaceOrigin>, origin: PlaceOrigin) -> Result<(), AllocError>
    ensures { OnOk result (once.new.items ≡ spec.with_one once.old.items origin) }
{
    if !is_among(once, origin) {
        once.push(origin)?;
    }
    Ok(())
}

fn is_among(all: &[PlaceOrigin], origin: PlaceOrigin) -> bool
    ensures { result ≡ list_any (spec.is_same origin) all.now }
{
    for other in all {
        if is_same(origin, *other) {
            return true;
        }
    }
    false
}

fn is_same(one: PlaceOrigin, other: PlaceOrigin) -> bool
    ensures { result ≡ spec.is_same one other }
{
    match (one, other) {
        (PlaceOrigin::Permanent(one), PlaceOrigin::Permanent(other)) => one == other,
        (PlaceOrigin::Local(one), PlaceOrigin::Local(other)) => one == other,
        (PlaceOrigin::Reference(one), PlaceOrigin::Reference(other)) => one == other,
        _ => false,
    }
}

fn all_told(
    alloc: Global,
    legend: &Legend,
    state: &State,
    process: &ProcessState,
    origins: &[PlaceOrigin],
) -> Result<Vec<Returned>, AllocError>
    ensures { IfOk result (λ v. map given_of v.items ≡ flat_map (spec.origin_told (legend_seen legend.now) (machine_of state.now).permanents (thread_of process.now)) origins.now) }
{
    let mut told = Vec::new(alloc);
    for origin in origins {
        push_told(alloc, legend, state, process, *origin, &mut told)?;
    }
    Ok(told)
}

// Appends the variable that lies there.
fn push_told(
    alloc: Global,
    legend: &Legend,
    state: &State,
    process: &ProcessState,
    origin: PlaceOrigin,
    told: &mut Vec<Returned>,
) -> Result<(), AllocError>
    ensures { OnOk result (map given_of told.new.items ≡ map given_of told.old.items ++ spec.origin_told (legend_seen legend.now) (machine_of state.now).permanents (thread_of process.now) origin) }
{
    match origin {
        PlaceOrigin::Permanent(slot) => {
            let variable = variable_with(slot, permanents_of(legend, process.frame.component));
            push_variable(
                alloc,
                legend,
                &state.permanents,
                process.frame.own,
                variable,
                told,
            )
        }
        PlaceOrigin::Local(slot) => {
            let variable = variable_with(slot, locals_of(legend, process.frame.routine));
            push_variable(
                alloc,
                legend,
                &process.room.cells,
                process.frame.base,
                variable,
                told,
            )
        }
        PlaceOrigin::Reference(slot) => {
            let parameter = reference_with(slot, parameters_of(legend, process.frame.routine));
            push_reference(alloc, legend, state, process, parameter, told)
        }
    }
}

// The permanent variables of a component.
fn permanents_of(legend: &Legend, component: usize) -> &[Variable]
    ensures { map variable_seen result.now ≡ spec.permanents_in (legend_seen legend.now) (slice_get (legend_seen legend.now).components component) }
{
    match legend.components.get(component) {
        Some(component) => legend.variables_of(component),
        None => &[],
    }
}

// The parameters with values and the local variables of a routine.
fn locals_of(legend: &Legend, routine: usize) -> &[Variable]
    ensures { map variable_seen result.now ≡ spec.locals_in (slice_get (legend_seen legend.now).routines routine) }
{
    match legend.routines.get(routine) {
        Some(routine) => &routine.variables,
        None => &[],
    }
}

fn parameters_of(legend: &Legend, routine: usize) -> &[LegendParameter]
    ensures { result.now ≡ spec.parameters_in (slice_get (legend_seen legend.now).routines routine) }
{
    match legend.routines.get(routine) {
        Some(routine) => &routine.parameters,
        None => &[],
    }
}

// The variable whose first cell this is.
fn variable_with(slot: usize, variables: &[Variable]) -> Option<&Variable>
    ensures { option_map (λ v. variable_seen v.now) result ≡ spec.variable_with slot (map variable_seen variables.now) }
{
    for variable in variables {
        if variable.slot == slot {
            return Some(variable);
        }
    }
    None
}

// The `var` parameter of a number.
fn reference_with(slot: usize, parameters: &[LegendParameter]) -> Option<LegendParameter>
    ensures { result ≡ spec.reference_with slot parameters.now }
{
    for parameter in parameters {
        if is_reference(*parameter, slot) {
            return Some(*parameter);
        }
    }
    None
}

fn is_reference(parameter: LegendParameter, slot: usize) -> bool
    ensures { result ≡ (spec.is_by_reference parameter.passing && parameter.slot == slot) }
{
    matches!(parameter.passing, LegendPassing::Reference) && parameter.slot == slot
}

// Appends a variable of cells that begin at a place.
fn push_variable(
    alloc: Global,
    legend: &Legend,
    cells: &[i16],
    base: usize,
    variable: Option<&Variable>,
    told: &mut Vec<Returned>,
) -> Result<(), AllocError>
    ensures { OnOk result (map given_of told.new.items ≡ map given_of told.old.items ++ spec.variable_told (legend_seen legend.now) cells.now base (option_map (λ v. variable_seen v.now) variable.entry)) }
{
    if let Some(variable) = variable {
        let at = base.saturating_add(variable.slot);
        told.push(Returned {
            name: variable.name.clone()?,
            value: legend.value(alloc, variable.shape, cells, at)?,
        })?;
    }
    Ok(())
}

// Appends the place that a `var` parameter names.
fn push_reference(
    alloc: Global,
    legend: &Legend,
    state: &State,
    process: &ProcessState,
    parameter: Option<LegendParameter>,
    told: &mut Vec<Returned>,
) -> Result<(), AllocError>
    ensures { OnOk result (map given_of told.new.items ≡ map given_of told.old.items ++ spec.reference_told (legend_seen legend.now) (machine_of state.now).permanents (thread_of process.now) parameter) }
{
    if let Some(parameter) = parameter {
        told.push(place_of(alloc, legend, state, process, parameter)?)?;
    }
    Ok(())
}
