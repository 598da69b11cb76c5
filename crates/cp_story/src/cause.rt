//! What a run error is of: the step that fails is evaluated once more, up to what fails in it.

ghost use Rattle.std.specs.Prelude.{◌≡◌, ◌∷◌, ◌<◌, length};
ghost use Rattle.cp_slots.specs.Tables.{item_at};
ghost use Rattle.cp_machine.specs.Fits.{IsStateOf};
ghost use Rattle.cp_machine.specs.Machine.{machine_of, thread_at, under};
ghost use Rattle.cp_run.specs.Code.{answer_of};
ghost use Rattle.cp_story.specs.Causes as spec;

use crate::aim::{top_of, waiter_of};
use crate::reading::{Reading, forget, is_number, value_within};
use cp_machine::{Entry, State};
use cp_run::{OutcomeKind, RunEnd};
use cp_slots::{Action, Arithmetic, Item, OrdinalExpression, Resolved};
use cp_store::Address;

/// What a run error is of.
#[derive(Clone, Copy)]
pub enum Cause {
    /// An operation on two integers.
    Operation(Arithmetic, i16, i16),
    /// A minus sign before an integer.
    Sign(i16),
    /// `abs` of an integer.
    Absolute(i16),
    /// `succ` of the last value of a type.
    Last,
    /// `pred` of the first value of a type.
    First,
    /// A value that is not within bounds.
    Outside(i16, i16, i16),
    /// A value for which a `case` has no label.
    NoLabel(i16),
    /// The process that waits in the queue of this cell.
    InUse(u8, usize),
    /// An entry call of this component, which is not initialised.
    NotInitialised(usize),
    /// A second `init` of this component.
    InitialisedTwice(usize),
    /// What is not told: it would take the members of a set, or a type that is not known.
    Untold,
}

/// What the error is of with which a run ended that came to a state; none where it ended otherwise, or that is not known.
pub fn cause_of_end(program: &Resolved, state: &State, end: &RunEnd) -> Option<Cause>
    requires { IsStateOf program.now state.now }
    ensures { result ≡ spec.cause_of_end program.now (machine_of state.now) (answer_of end.now) }
{
    match end {
        RunEnd::Ended { outcome, .. } => cause_of_kind(program, state, outcome.kind),
        RunEnd::Wants { .. } | RunEnd::NotReady { .. } => None,
    }
}

/// The same of a run that ended so.
pub fn cause_of_kind(program: &Resolved, state: &State, kind: OutcomeKind) -> Option<Cause>
    requires { IsStateOf program.now state.now }
    ensures { result ≡ spec.cause_of_kind program.now (machine_of state.now) kind }
{
    match kind {
        OutcomeKind::RunError { process, .. } => cause_in(program, state, process),
        _ => None,
    }
}

// Why the next step of a process fails, if that is known.
fn cause_in(program: &Resolved, state: &State, process: u8) -> Option<Cause>
    requires { IsStateOf program.now state.now }
    ensures { result ≡ spec.cause_in program.now (machine_of state.now) process }
{
    if process as usize >= state.processes.len() {
        return None;
    }
    match failure_of(program, state, process) {
        Ok(()) | Err(Cause::Untold) => None,
        Err(cause) => Some(cause),
    }
}

// What fails where the topmost entry of a process is done.
fn failure_of(program: &Resolved, state: &State, pid: u8) -> Result<(), Cause>
    requires own { IsStateOf program.now state.now }
    requires pid { pid < length state.now.processes.items }
    ensures { result ≡ spec.failure_of program.now (machine_of state.now) pid }
{
    match top_of(state, pid) {
        Some(&Entry::Rest(at)) => failure_at(program, state, pid, at),
        Some(&Entry::Successor(at, value, last)) => {
            failure_after(program, state, pid, at, value, last)
        }
        Some(&Entry::Return(..)) | Some(&Entry::InitEnd(..)) | None => Ok(()),
    }
}

// What fails in an item.
fn failure_at(program: &Resolved, state: &State, pid: u8, at: usize) -> Result<(), Cause>
    requires own { IsStateOf program.now state.now }
    requires pid { pid < length state.now.processes.items }
    requires top { (thread_at (machine_of state.now).threads pid).stack ≡ Entry.Rest at ∷ under (machine_of state.now) pid }
    ensures { result ≡ spec.failure_in (machine_of state.now) pid (item_at program.now at).action }
{
    failure_in(state, pid, program.item(at))
}

fn failure_in(state: &State, pid: u8, item: &Item) -> Result<(), Cause>
    requires pid { pid < length state.now.processes.items }
    ensures { result ≡ spec.failure_in (machine_of state.now) pid item.now.action }
{
    let reading = Reading::of(state, pid);
    match &item.action {
        Action::Assign {
            target,
            value,
            low,
            high,
        } => {
            let value = reading.value(value)?;
            reading.address(target)?;
            forget(value_within(value, *low, *high))
        }
        Action::AssignSet { target, value, .. } => {
            reading.set(value)?;
            reading.address(target)?;
            Err(Cause::Untold)
        }
        Action::Copy { target, source, .. } => {
            reading.address(source)?;
            reading.reach(target)
        }
        Action::If { test, .. } | Action::While { test, .. } | Action::Until { test, .. } => {
            forget(reading.value(test))
        }
        Action::Assert { test, .. } => forget(reading.value(test)),
        Action::Case { selector, .. } => {
            let value = reading.value(selector)?;
            Err(unlabelled(selector, value))
        }
        Action::For {
            low,
            high,
            from,
            to,
            ..
        } => {
            let first = reading.value(from)?;
            reading.value(to)?;
            forget(value_within(first, *low, *high))
        }
        Action::Call {
            component,
            arguments,
            ..
        } => {
            let called = reading.component(component)?;
            reading.arguments(arguments)?;
            Err(Cause::NotInitialised(called))
        }
        Action::Start {
            component,
            arguments,
            ..
        } => {
            let started = reading.component(component)?;
            reading.arguments(arguments)?;
            Err(Cause::InitialisedTwice(started))
        }
        Action::Delay(place) => {
            let at = reading.address(place)?;
            used_at(state, at)
        }
        Action::Continue(place) => reading.reach(place),
        Action::Display { value, .. } => forget(reading.value(value)),
        Action::Empty | Action::Block(_) | Action::Cycle(_) => Ok(()),
    }
}

// That a `case` has no label for its value, where this may be an integer.
fn unlabelled(selector: &OrdinalExpression, value: i16) -> Cause
    ensures { result ≡ spec.unlabelled selector.now value }
{
    if is_number(selector) {
        Cause::NoLabel(value)
    } else {
        Cause::Untold
    }
}

// Whether nobody waits in the queue of an address.
fn used_at(state: &State, at: Address) -> Result<(), Cause>
    ensures { result ≡ spec.used_at (machine_of state.now) at }
{
    match at {
        Address::Permanent(cell) => match waiter_of(state, cell) {
            Some(process) => Err(Cause::InUse(process, cell)),
            None => Ok(()),
        },
        Address::Local(_) => Ok(()),
    }
}

// What fails where a `for` goes on after a value.
fn failure_after(
    program: &Resolved,
    state: &State,
    pid: u8,
    at: usize,
    value: i16,
    last: i16,
) -> Result<(), Cause>
    requires own { IsStateOf program.now state.now }
    requires pid { pid < length state.now.processes.items }
    requires top { (thread_at (machine_of state.now).threads pid).stack ≡ Entry.Successor at value last ∷ under (machine_of state.now) pid }
    ensures { result ≡ spec.failure_after (item_at program.now at).action value }
{
    let _ = last;
    match &program.item(at).action {
        Action::For {
            low,
            high,
            down,
            ..
        } => { forget(value_within(next_of(*down, value), *low, *high)) }
        _ => Ok(()),
    }
}

// The value that a `for` comes to after one.
fn next_of(down: bool, value: i16) -> i16
    ensures { result ≡ spec.next_of down value }
{
    if down {
        if i16::MIN < value { value - 1 } else { value }
    } else if value < i16::MAX {
        value + 1
    } else {
        value
    }
}
