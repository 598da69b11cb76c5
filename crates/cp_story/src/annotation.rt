//! What is told of an annotation that is false: of which component it is, when it is looked at, and its variables.

ghost use Rattle.std.specs.Prelude.{◌≡◌, ◌∷◌, ◌<◌, IfOk, length, option_map, slice_get};
ghost use Rattle.cp_slots.specs.Tables.{item_at};
ghost use Rattle.cp_legend.specs.Names.{legend_seen};
ghost use Rattle.cp_machine.specs.Fits.{IsStateOf};
ghost use Rattle.cp_machine.specs.Machine.{machine_of, thread_at, under};
ghost use Rattle.cp_machine.specs.Stack.{top_first};
ghost use Rattle.cp_run.specs.Code.{answer_of};
ghost use Rattle.cp_story.specs.Annotations as spec;
ghost use Rattle.cp_story.specs.Annotations.{violation_seen};

use crate::aim::top_of;
use crate::event::Returned;
use crate::told_variables::values_told;
use cp_legend::Legend;
use cp_machine::{Entry, ErrorName, ProcessState, State};
use cp_run::{OutcomeKind, RunEnd};
use cp_slots::{Action, Item, Resolved, Said};
use std::alloc::{AllocError, Global};

/// When an invariant is looked at.
#[derive(Clone, Copy)]
pub enum Moment {
    /// Before a `delay` in a line.
    Delay(u32),
    /// Before a `continue` in a line.
    Continue(u32),
    /// Where a routine returns.
    Return(usize),
    /// At the end of the initial statement.
    Initialised,
}

/// An annotation.
#[derive(Clone, Copy)]
pub enum Annotation {
    Assertion,
    /// One of a component, and when it is looked at.
    Invariant(usize, Moment),
}

/// An annotation that is false.
#[derive(Drop)]
pub struct Violation {
    pub annotation: Annotation,
    /// The variables in it, each once, with their values.
    pub values: Vec<Returned>,
}

/// The annotation with which a run ended that came to a state; none where it ended otherwise.
pub fn violation_of_end(
    alloc: Global,
    legend: &Legend,
    program: &Resolved,
    state: &State,
    end: &RunEnd,
) -> Result<Option<Violation>, AllocError>
    requires { IsStateOf program.now state.now }
    ensures { IfOk result (λ v. option_map violation_seen v ≡ spec.violation_of_end (legend_seen legend.now) program.now (machine_of state.now) (answer_of end.now)) }
{
    match end {
        RunEnd::Ended { outcome, .. } => {
            violation_of_kind(alloc, legend, program, state, outcome.kind)
        }
        RunEnd::Wants { .. } | RunEnd::NotReady { .. } => Ok(None),
    }
}

/// The same of a run that ended so.
pub fn violation_of_kind(
    alloc: Global,
    legend: &Legend,
    program: &Resolved,
    state: &State,
    kind: OutcomeKind,
) -> Result<Option<Violation>, AllocError>
    requires { IsStateOf program.now state.now }
    ensures { IfOk result (λ v. option_map violation_seen v ≡ spec.violation_of_kind (legend_seen legend.now) program.now (machine_of state.now) kind) }
{
    match kind {
        OutcomeKind::RunError { name, process, .. } if is_of_annotation(name) => {
            violation_in(alloc, legend, program, state, process)
        }
        _ => Ok(None),
    }
}

fn is_of_annotation(name: ErrorName) -> bool
    ensures { result ≡ spec.is_of_annotation name }
{
    matches!(name, ErrorName::Assertion | ErrorName::Invariant)
}

// The annotation to which a process has come, if it has come to one.
fn violation_in(
    alloc: Global,
    legend: &Legend,
    program: &Resolved,
    state: &State,
    pid: u8,
) -> Result<Option<Violation>, AllocError>
    requires { IsStateOf program.now state.now }
    ensures { IfOk result (λ v. option_map violation_seen v ≡ spec.violation_in (legend_seen legend.now) program.now (machine_of state.now) pid) }
{
    if pid as usize >= state.processes.len() {
        return Ok(None);
    }
    match top_of(state, pid) {
        Some(&Entry::Rest(at)) => violation_at(alloc, legend, program, state, pid, at),
        _ => Ok(None),
    }
}

// The same where an item is the topmost entry.
fn violation_at(
    alloc: Global,
    legend: &Legend,
    program: &Resolved,
    state: &State,
    pid: u8,
    at: usize,
) -> Result<Option<Violation>, AllocError>
    requires own { IsStateOf program.now state.now }
    requires pid { pid < length state.now.processes.items }
    requires top { (thread_at (machine_of state.now).threads pid).stack ≡ Entry.Rest at ∷ under (machine_of state.now) pid }
    ensures { IfOk result (λ v. option_map violation_seen v ≡ spec.violation_by (legend_seen legend.now) program.now (machine_of state.now).permanents (thread_at (machine_of state.now).threads pid) (item_at program.now at).action) }
{
    let Action::Assert { test, said } = &program.item(at).action else {
        return Ok(None);
    };
    let process = &state.processes[pid as usize];
    Ok(Some(Violation {
        annotation: annotation_told(program, state, pid, *said),
        values: values_told(alloc, legend, state, process, test)?,
    }))
}

// Which annotation of a process it is.
fn annotation_told(program: &Resolved, state: &State, pid: u8, said: Said) -> Annotation
    requires own { IsStateOf program.now state.now }
    requires pid { pid < length state.now.processes.items }
    ensures { result ≡ spec.annotation_told program.now (thread_at (machine_of state.now).threads pid) said }
{
    match said {
        Said::Assertion => Annotation::Assertion,
        Said::Invariant => {
            let component = state.processes[pid as usize].frame.component;
            Annotation::Invariant(component, moment_in(program, state, pid))
        }
    }
}

// When the invariants are looked at that a process has come to.
fn moment_in(program: &Resolved, state: &State, pid: u8) -> Moment
    requires own { IsStateOf program.now state.now }
    requires pid { pid < length state.now.processes.items }
    ensures { result ≡ spec.moment_in program.now (thread_at (machine_of state.now).threads pid).stack }
{
    let process = &state.processes[pid as usize];
    let routine = routine_behind(entry_below(process, 1));
    match entry_below(process, 2) {
        Some(Entry::Rest(at)) => moment_at(routine, program.item(at)),
        Some(Entry::InitEnd(..)) => Moment::Initialised,
        Some(Entry::Return(..)) | Some(Entry::Successor(..)) | None => Moment::Return(routine),
    }
}

// The entry so many below the topmost one.
fn entry_below(process: &ProcessState, below: usize) -> Option<Entry>
    ensures { result ≡ slice_get (top_first process.now.stack) below }
{
    let entries = process.stack.len();
    if below < entries {
        Some(process.stack[entries - 1 - below])
    } else {
        None
    }
}

// The routine that an entry goes back to.
fn routine_behind(entry: Option<Entry>) -> usize
    ensures { result ≡ spec.routine_behind entry }
{
    match entry {
        Some(Entry::Return(caller, _, _)) => caller.routine,
        _ => 0,
    }
}

// When they are looked at where a routine goes on with an item.
fn moment_at(routine: usize, item: &Item) -> Moment
    ensures { result ≡ spec.moment_at routine item.now }
{
    match item.action {
        Action::Delay(_) => Moment::Delay(item.line),
        Action::Continue(_) => Moment::Continue(item.line),
        _ => Moment::Return(routine),
    }
}
