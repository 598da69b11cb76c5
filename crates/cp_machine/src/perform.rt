//! What the items say, by kinds of statements.

ghost use Rattle.std.specs.Prelude.{◌≡◌, ℕ, IsTrue};
ghost use Rattle.cp_slots.specs.Tables.{Tables};
ghost use Rattle.cp_machine.specs.Fits.{IsReserved, IsTaken};
ghost use Rattle.cp_machine.specs.Kinds.{is_assignment, is_call, is_choice, is_for, is_of_queue};
ghost use Rattle.cp_machine.specs.Machine.{machine_of, under};
ghost use Rattle.cp_machine.specs.Statements.{outcome};
ghost use Rattle.cp_machine.specs.Step.{act};

use crate::call::{Callee, call};
use crate::event::{ErrorName, Event};
use crate::loops::{Course, for_do, until, while_do};
use crate::queue::{continue_with, delay};
use crate::stack::{repeat, replace};
use crate::start_component::start;
use crate::state::State;
use crate::statement::{assert_that, assign, assign_set, branch, case_of, copy, display};
use cp_slots::{Action, Item, Resolved};

/// Does what an item says, which is the topmost entry.
#[inline(always)]
pub fn perform(
    program: &Resolved,
    state: &mut State,
    pid: u8,
    at: usize,
    item: &Item,
) -> Result<Event, ErrorName>
    requires { IsTaken program.now state.old pid at item.now }
    ensures after { act program.now (machine_of state.old) pid at item.now item.now.action (under (machine_of state.old) pid) ≡ outcome result (machine_of state.new) pid item.now.line }
    ensures reserved { IsReserved program.now state.new }
{
    match &item.action {
        Action::Empty => {
            replace(state, pid, None, item.next);
            Ok(Event::Local)
        }
        Action::Block(list) => {
            replace(state, pid, *list, item.next);
            Ok(Event::Local)
        }
        Action::Cycle(list) => {
            repeat(state, pid, *list);
            Ok(Event::Local)
        }
        // apart from the other assignments, and from `case`: what is frequent is not asked twice for its kind
        Action::Assign { .. } => perform_assignment(state, pid, item),
        Action::AssignSet { .. } | Action::Copy { .. } => perform_assignment(state, pid, item),
        Action::If { .. } => perform_choice(state, pid, item),
        Action::Case { .. } => perform_choice(state, pid, item),
        Action::Assert { test, said } => assert_that(state, pid, item, test, *said),
        Action::While { test, body, again } => while_do(state, pid, item, test, *body, *again),
        Action::Until { test, body, again } => until(state, pid, item, test, *body, *again),
        Action::For { .. } => perform_for(state, pid, at, item),
        Action::Call { .. } | Action::Start { .. } => perform_call(program, state, pid, item),
        Action::Delay(_) | Action::Continue(_) => perform_wait(program, state, pid, item),
        Action::Display { value, kind } => display(state, pid, item, value, *kind),
    }
}

// A value goes to a place.
#[inline(always)]
fn perform_assignment(state: &mut State, pid: u8, item: &Item) -> Result<Event, ErrorName>
    requires taken { (r : Tables) × (at : ℕ) × IsTaken r state.old pid at item.now }
    requires kind { IsTrue (is_assignment item.now.action) }
    ensures after { (r : Tables) (at : ℕ) → act r (machine_of state.old) pid at item.now item.now.action (under (machine_of state.old) pid) ≡ outcome result (machine_of state.new) pid item.now.line }
    ensures reserved { (r : Tables) → IsReserved r state.old → IsReserved r state.new }
{
    match &item.action {
        Action::Assign {
            target,
            value,
            low,
            high,
        } => assign(state, pid, item, target, value, low, high),
        Action::AssignSet {
            target,
            value,
            low,
            high,
        } => assign_set(state, pid, item, target, value, *low, *high),
        Action::Copy {
            target,
            source,
            size,
        } => copy(state, pid, item, target, source, *size),
        _ => unreachable!(),
    }
}

// A choice between lists.
#[inline(always)]
fn perform_choice(state: &mut State, pid: u8, item: &Item) -> Result<Event, ErrorName>
    requires taken { (r : Tables) × (at : ℕ) × IsTaken r state.old pid at item.now }
    requires kind { IsTrue (is_choice item.now.action) }
    ensures after { (r : Tables) (at : ℕ) → act r (machine_of state.old) pid at item.now item.now.action (under (machine_of state.old) pid) ≡ outcome result (machine_of state.new) pid item.now.line }
    ensures reserved { (r : Tables) → IsReserved r state.old → IsReserved r state.new }
{
    match &item.action {
        Action::If {
            test,
            then,
            otherwise,
        } => branch(state, pid, item, test, *then, *otherwise),
        Action::Case { selector, arms } => case_of(state, pid, item, selector, arms),
        _ => unreachable!(),
    }
}

// A `for` begins.
#[inline(always)]
fn perform_for(state: &mut State, pid: u8, at: usize, item: &Item) -> Result<Event, ErrorName>
    requires taken { (r : Tables) × IsTaken r state.old pid at item.now }
    requires kind { IsTrue (is_for item.now.action) }
    ensures after { (r : Tables) → act r (machine_of state.old) pid at item.now item.now.action (under (machine_of state.old) pid) ≡ outcome result (machine_of state.new) pid item.now.line }
    ensures reserved { (r : Tables) → IsReserved r state.old → IsReserved r state.new }
{
    let Action::For {
        variable,
        low,
        high,
        from,
        to,
        down,
        body,
    } = &item.action
    else {
        unreachable!()
    };
    let course = Course {
        at,
        variable: *variable,
        low: *low,
        high: *high,
        down: *down,
        list: *body,
    };
    for_do(state, pid, item, course, from, to)
}

// A routine is executed.
#[inline(always)]
fn perform_call(
    program: &Resolved,
    state: &mut State,
    pid: u8,
    item: &Item,
) -> Result<Event, ErrorName>
    requires taken { (at : ℕ) × IsTaken program.now state.old pid at item.now }
    requires kind { IsTrue (is_call item.now.action) }
    ensures after { (at : ℕ) → act program.now (machine_of state.old) pid at item.now item.now.action (under (machine_of state.old) pid) ≡ outcome result (machine_of state.new) pid item.now.line }
    ensures reserved { IsReserved program.now state.new }
{
    match &item.action {
        Action::Call {
            routine,
            component,
            is_entry,
            arguments,
            result,
        } => {
            let callee = Callee {
                routine: *routine,
                is_entry: *is_entry,
                result: *result,
            };
            call(program, state, pid, item, callee, component, arguments)
        }
        Action::Start {
            component,
            routine,
            arguments,
        } => start(program, state, pid, item, *routine, component, arguments),
        _ => unreachable!(),
    }
}

// A process waits in a queue, or lets another one go on.
#[inline(always)]
fn perform_wait(
    program: &Resolved,
    state: &mut State,
    pid: u8,
    item: &Item,
) -> Result<Event, ErrorName>
    requires taken { (at : ℕ) × IsTaken program.now state.old pid at item.now }
    requires kind { IsTrue (is_of_queue item.now.action) }
    ensures after { (at : ℕ) → act program.now (machine_of state.old) pid at item.now item.now.action (under (machine_of state.old) pid) ≡ outcome result (machine_of state.new) pid item.now.line }
    ensures reserved { IsReserved program.now state.new }
{
    match &item.action {
        Action::Delay(place) => delay(program, state, pid, item, place),
        Action::Continue(place) => continue_with(program, state, pid, item, place),
        _ => unreachable!(),
    }
}
