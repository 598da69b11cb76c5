//! Which statements processes may come to, by what stands on their control stacks.

ghost use Rattle.std.specs.Prelude.{◌≡◌, ◌<◌, ◌≤◌, ◌+◌, IfOk, length, slice_get};
ghost use Rattle.std.specs.List.{list_any};
ghost use Rattle.cp_legend.specs.Names.{legend_seen};
ghost use Rattle.cp_machine.specs.Machine.{machine_of};
ghost use Rattle.cp_story.specs.Ahead as spec;

use cp_legend::Legend;
use cp_machine::{Entry, State};
use cp_slots::{Action, ComponentPlace, OrdinalExpression, Resolved, ResolvedArm};
use std::alloc::{AllocError, Global};

/// A statement, by its item, that a process may come to in a component.
#[derive(Clone, Copy)]
pub struct Ahead {
    pub process: u8,
    pub component: usize,
    pub at: usize,
}

/// How many items there are: those of the program itself are laid out last, and of these the first one last of all.
pub fn item_count(program: &Resolved) -> usize
    ensures value { result ≡ spec.item_count program.now }
    ensures within { result ≤ length program.now.items }
{
    let _processes = program.processes();
    let process = program.process(0);
    match program.routine(process.routine).body {
        Some(last) => last.saturating_add(1),
        None => 0,
    }
}

/// The statements that all processes may come to.
#[tactic(auto, using(crate::proofs::Reasoning::followed_step, crate::proofs::Reasoning::followed_stop, crate::proofs::Reasoning::followed_end))]
pub fn statements_ahead(
    alloc: Global,
    program: &Resolved,
    legend: &Legend,
    state: &State,
) -> Result<Vec<Ahead>, AllocError>
    ensures { IfOk result (λ v. v.items ≡ spec.statements_ahead (legend_seen legend.now) program.now (machine_of state.now)) }
{
    let mut ahead = rests_ahead(alloc, state)?;
    for place in 0..most_ahead(program, legend) {
        if place >= ahead.len() {
            return Ok(ahead);
        }
        let one = ahead[place];
        push_after(program, legend, state, one, &mut ahead)?;
    }
    Ok(ahead)
}

fn most_ahead(program: &Resolved, legend: &Legend) -> usize
    ensures { result ≡ spec.most_ahead (legend_seen legend.now) program.now }
{
    (program.processes() as usize)
        .saturating_mul(legend.components.len())
        .saturating_mul(item_count(program))
}

// The statements at which the lists on the control stacks go on.
#[tactic(auto, using(crate::proofs::Reasoning::begun_more))]
fn rests_ahead(alloc: Global, state: &State) -> Result<Vec<Ahead>, AllocError>
    ensures { IfOk result (λ v. v.items ≡ spec.begun_below (machine_of state.now) (length state.now.processes.items)) }
{
    let mut ahead = Vec::new(alloc);
    for process in 0..state.processes.len() {
        push_rests(state, process, &mut ahead)?;
    }
    Ok(ahead)
}

// Appends those of one process.
#[tactic(auto, using(crate::proofs::Reasoning::below_top))]
fn push_rests(state: &State, process: usize, ahead: &mut Vec<Ahead>) -> Result<(), AllocError>
    requires { process < length state.now.processes.items }
    ensures { IfOk result (λ _. ahead.new.items ≡ spec.begun_by (machine_of state.now) process ahead.old.items) }
{
    let own = &state.processes[process];
    let mut component = own.frame.component;
    for depth in 0..own.stack.len() {
        let entry = &own.stack[own.stack.len() - 1 - depth];
        push_rest(process as u8, component, entry, ahead)?;
        component = component_under(component, entry);
    }
    Ok(())
}

// Appends the statement at which a list goes on.
fn push_rest(
    process: u8,
    component: usize,
    entry: &Entry,
    ahead: &mut Vec<Ahead>,
) -> Result<(), AllocError>
    ensures { IfOk result (λ _. ahead.new.items ≡ spec.with_rest process component ahead.old.items entry.now) }
{
    match entry {
        Entry::Rest(at) | Entry::Successor(at, _, _) => {
            push_list(ahead, process, component, Some(*at))
        }
        Entry::Return(..) | Entry::InitEnd(..) => Ok(()),
    }
}

// The component in which the entries below go on.
fn component_under(component: usize, entry: &Entry) -> usize
    ensures { result ≡ spec.component_under component entry.now }
{
    match entry {
        Entry::Return(frame, _, _) | Entry::InitEnd(frame, _) => frame.component,
        _ => component,
    }
}

// Appends the first item of a list in a component, if there is one, and it is not there.
fn push_list(
    ahead: &mut Vec<Ahead>,
    process: u8,
    component: usize,
    item: Option<usize>,
) -> Result<(), AllocError>
    ensures { IfOk result (λ _. ahead.new.items ≡ spec.with_list process component ahead.old.items item) }
{
    let Some(at) = item else {
        return Ok(());
    };
    let one = Ahead {
        process,
        component,
        at,
    };
    if has_one(ahead, one) {
        return Ok(());
    }
    ahead.push(one)?;
    Ok(())
}

fn has_one(ahead: &[Ahead], one: Ahead) -> bool
    ensures { result ≡ list_any (spec.is_one one) ahead.now }
{
    for other in ahead {
        if other.process == one.process && other.component == one.component && other.at == one.at {
            return true;
        }
    }
    false
}

// Appends what may come after a statement.
fn push_after(
    program: &Resolved,
    legend: &Legend,
    state: &State,
    one: Ahead,
    ahead: &mut Vec<Ahead>,
) -> Result<(), AllocError>
    ensures { IfOk result (λ _. ahead.new.items ≡ spec.after_known (legend_seen legend.now) program.now (machine_of state.now) ahead.old.items one) }
{
    if one.at >= item_count(program) {
        return Ok(());
    }
    let item = program.item(one.at);
    push_list(ahead, one.process, one.component, item.next)?;
    match &item.action {
        Action::Block(list) | Action::Cycle(list) | Action::For { body: list, .. } => {
            push_list(ahead, one.process, one.component, *list)
        }
        Action::If {
            then,
            otherwise,
            ..
        } => {
            push_list(ahead, one.process, one.component, *then)?;
            push_list(ahead, one.process, one.component, *otherwise)
        }
        Action::Case { arms, .. } => push_arms(ahead, one.process, one.component, arms),
        Action::While { body, again, .. } | Action::Until { body, again, .. } => {
            push_list(ahead, one.process, one.component, *body)?;
            push_list(ahead, one.process, one.component, Some(*again))
        }
        Action::Call {
            routine,
            component: called,
            ..
        } => {
            let body = program.routine(*routine).body;
            push_called(legend, state, one, called, body, ahead)
        }
        Action::Start {
            routine,
            component: started,
            ..
        } => {
            if is_of_process(program, *routine) {
                return Ok(());
            }
            let body = program.routine(*routine).body;
            push_called(legend, state, one, started, body, ahead)
        }
        _ => Ok(()),
    }
}

fn push_arms(
    ahead: &mut Vec<Ahead>,
    process: u8,
    component: usize,
    arms: &[ResolvedArm],
) -> Result<(), AllocError>
    ensures { IfOk result (λ _. ahead.new.items ≡ spec.with_arms process component ahead.old.items arms.now) }
{
    for arm in arms {
        push_list(ahead, process, component, arm.body)?;
    }
    Ok(())
}

// Whether a routine is the initial statement of a process, which its own process executes.
#[tactic(auto, using(crate::proofs::Reasoning::any_step))]
fn is_of_process(program: &Resolved, routine: usize) -> bool
    ensures { result ≡ list_any (spec.begins_with routine) program.now.processes }
{
    for process in 0..program.processes() {
        if program.process(process).routine == routine {
            return true;
        }
    }
    false
}

// Appends the beginning of a routine in each component that a place may name.
fn push_called(
    legend: &Legend,
    state: &State,
    one: Ahead,
    place: &ComponentPlace,
    body: Option<usize>,
    ahead: &mut Vec<Ahead>,
) -> Result<(), AllocError>
    ensures { IfOk result (λ _. ahead.new.items ≡ spec.with_called (legend_seen legend.now) (machine_of state.now) one place.now ahead.old.items body) }
{
    match place {
        ComponentPlace::Own => push_list(ahead, one.process, one.component, body),
        ComponentPlace::Contained(number) => {
            let component = one.component.saturating_add(*number);
            push_list(ahead, one.process, component, body)
        }
        ComponentPlace::Element {
            first,
            low,
            high,
            stride,
            index,
        } => {
            let first = one.component.saturating_add(*first);
            match written_index(index) {
                Some(value) => {
                    let component = element_at(first, *low, *high, *stride, value);
                    push_list_at(ahead, one.process, component, body)
                }
                None => {
                    let count = usize::from(high.abs_diff(*low)) + 1;
                    push_elements(ahead, one.process, first, *stride, count, body)
                }
            }
        }
        ComponentPlace::Parameter(slot) => {
            let component = bound_to(legend, state, one.component, *slot);
            push_list(ahead, one.process, component, body)
        }
    }
}

#[tactic(auto, using(crate::proofs::Reasoning::elements_more))]
fn push_elements(
    ahead: &mut Vec<Ahead>,
    process: u8,
    first: usize,
    stride: usize,
    count: usize,
    body: Option<usize>,
) -> Result<(), AllocError>
    ensures { IfOk result (λ _. ahead.new.items ≡ spec.with_elements process first stride count ahead.old.items body) }
{
    for element in 0..count {
        let component = first.saturating_add(element.saturating_mul(stride));
        push_list(ahead, process, component, body)?;
    }
    Ok(())
}

// Appends a list in a component, if there is one.
fn push_list_at(
    ahead: &mut Vec<Ahead>,
    process: u8,
    component: Option<usize>,
    body: Option<usize>,
) -> Result<(), AllocError>
    ensures { IfOk result (λ _. ahead.new.items ≡ spec.with_list_at process ahead.old.items body component) }
{
    match component {
        Some(component) => push_list(ahead, process, component, body),
        None => Ok(()),
    }
}

/// The value of an index that is written as a number or a constant, maybe with a minus. Any other is computed.
pub fn written_index(index: &OrdinalExpression) -> Option<i32>
    ensures { result ≡ spec.written_index index.now }
{
    match index {
        OrdinalExpression::Number(value) => Some(i32::from(*value)),
        OrdinalExpression::Negate(inner) => negated(inner),
        OrdinalExpression::Load(_)
        | OrdinalExpression::Absolute(_)
        | OrdinalExpression::Arithmetic(_, _, _)
        | OrdinalExpression::Not(_)
        | OrdinalExpression::Successor(_, _)
        | OrdinalExpression::Predecessor(_, _)
        | OrdinalExpression::Character(_)
        | OrdinalExpression::Logic(_, _, _)
        | OrdinalExpression::Compare(_, _, _)
        | OrdinalExpression::SameSet(_, _, _)
        | OrdinalExpression::Member(_, _)
        | OrdinalExpression::IsEmpty(_) => None,
    }
}

// That of a number with a minus.
fn negated(number: &OrdinalExpression) -> Option<i32>
    ensures { result ≡ spec.negated number.now }
{
    match number {
        OrdinalExpression::Number(value) => Some(-i32::from(*value)),
        OrdinalExpression::Load(_)
        | OrdinalExpression::Negate(_)
        | OrdinalExpression::Absolute(_)
        | OrdinalExpression::Arithmetic(_, _, _)
        | OrdinalExpression::Not(_)
        | OrdinalExpression::Successor(_, _)
        | OrdinalExpression::Predecessor(_, _)
        | OrdinalExpression::Character(_)
        | OrdinalExpression::Logic(_, _, _)
        | OrdinalExpression::Compare(_, _, _)
        | OrdinalExpression::SameSet(_, _, _)
        | OrdinalExpression::Member(_, _)
        | OrdinalExpression::IsEmpty(_) => None,
    }
}

/// Where the element of an index begins in an array, if it has one.
pub fn element_at(first: usize, low: i16, high: i16, size: usize, index: i32) -> Option<usize>
    ensures { result ≡ spec.element_at first low high size index }
{
    let low = i32::from(low);
    if index < low || index > i32::from(high) {
        return None;
    }
    let before = (index.abs_diff(low) as usize).saturating_mul(size);
    Some(first.saturating_add(before))
}

// The component that a parameter of a component is bound to.
fn bound_to(legend: &Legend, state: &State, component: usize, slot: usize) -> usize
    ensures { result ≡ spec.bound_in (machine_of state.now) slot (slice_get (legend_seen legend.now).components component) }
{
    match legend.components.get(component) {
        Some(own) => {
            let cell = own.base.saturating_add(slot);
            state.bindings.get(cell).copied().unwrap_or(0)
        }
        None => 0,
    }
}
