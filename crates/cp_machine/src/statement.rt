//! Statements without calls.

ghost use Rattle.std.specs.Prelude.{◌≡◌, ◌+◌, ◌<◌, ◌≤◌, None, vec_capacity, vec_len};
ghost use Rattle.cp_slots.specs.Tables.{Tables};
ghost use Rattle.cp_slots.specs.declared.item.Action.TheVariants.{Assert, Assign, AssignSet, Copy, Display, If};
ghost use Rattle.cp_machine.specs.Fits.{IsReserved};
ghost use Rattle.cp_machine.specs.Machine.{machine_of, under};
ghost use Rattle.cp_machine.specs.Premises.{CanReplace, Takes, TakesCase};
ghost use Rattle.cp_machine.specs.Stack.{rest_of};
ghost use Rattle.cp_machine.specs.Statements as spec;

use crate::event::{ErrorName, Event, Kernel};
use crate::memory::{address_of, put_cells, put_number, put_set, set_of, value_here, value_of};
use crate::shown::Shown;
use crate::stack::replace;
use crate::state::{MOST_SHOWN, State};
use cp_slots::{Item, OrdinalExpression, Place, ResolvedArm, Said, SetExpression, ShownKind};
use cp_store::arithmetic::{check_range, is_true};
use cp_store::set;

/// An assignment: the right side first, then the place, and the range last.
#[inline(always)]
pub fn assign(
    state: &mut State,
    pid: u8,
    item: &Item,
    target: &Place,
    value: &OrdinalExpression,
    low: &i16,
    high: &i16,
) -> Result<Event, ErrorName>
    requires { (r : Tables) × Takes r state.old pid item.now (Assign target.now value.now low.now high.now) }
    ensures after { spec.assign (machine_of state.old) pid item.now.line target.now value.now low.now high.now (rest_of item.now.next (under (machine_of state.old) pid)) ≡ spec.outcome result (machine_of state.new) pid item.now.line }
    ensures reserved { (r : Tables) → IsReserved r state.old → IsReserved r state.new }
{
    let right = value_here(state, pid, value)?;
    let left = address_of(state, pid, target)?;
    let value = check_range(right, *low, *high)?;
    replace(state, pid, None, item.next);
    put_number(state, pid, left, value);
    Ok(Event::Local)
}

/// The assignment of a set.
#[inline(never)]
pub fn assign_set(
    state: &mut State,
    pid: u8,
    item: &Item,
    target: &Place,
    value: &SetExpression,
    low: u8,
    high: u8,
) -> Result<Event, ErrorName>
    requires { (r : Tables) × Takes r state.old pid item.now (AssignSet target.now value.now low high) }
    ensures after { spec.assign_set (machine_of state.old) pid item.now.line target.now value.now low high (rest_of item.now.next (under (machine_of state.old) pid)) ≡ spec.outcome result (machine_of state.new) pid item.now.line }
    ensures reserved { (r : Tables) → IsReserved r state.old → IsReserved r state.new }
{
    let value = set_of(state, pid, value)?;
    let at = address_of(state, pid, target)?;
    let value = set::check_members(value, low, high)?;
    replace(state, pid, None, item.next);
    put_set(state, pid, at, value);
    Ok(Event::Local)
}

/// The assignment of an array or a record.
#[inline(never)]
pub fn copy(
    state: &mut State,
    pid: u8,
    item: &Item,
    target: &Place,
    source: &Place,
    size: usize,
) -> Result<Event, ErrorName>
    requires { (r : Tables) × Takes r state.old pid item.now (Copy target.now source.now size) }
    ensures after { spec.copy (machine_of state.old) pid item.now.line target.now source.now size (rest_of item.now.next (under (machine_of state.old) pid)) ≡ spec.outcome result (machine_of state.new) pid item.now.line }
    ensures reserved { (r : Tables) → IsReserved r state.old → IsReserved r state.new }
{
    let from = address_of(state, pid, source)?;
    let to = address_of(state, pid, target)?;
    replace(state, pid, None, item.next);
    put_cells(state, pid, to, from, size);
    Ok(Event::Local)
}

/// `if`: becomes the chosen branch, or nothing.
#[inline(always)]
pub fn branch(
    state: &mut State,
    pid: u8,
    item: &Item,
    test: &OrdinalExpression,
    list: Option<usize>,
    other: Option<usize>,
) -> Result<Event, ErrorName>
    requires { (r : Tables) × Takes r state.old pid item.now (If test.now list other) }
    ensures after { spec.branch (machine_of state.old) pid item.now.line test.now list other (rest_of item.now.next (under (machine_of state.old) pid)) ≡ spec.outcome result (machine_of state.new) pid item.now.line }
    ensures reserved { (r : Tables) → IsReserved r state.old → IsReserved r state.new }
{
    let value = value_of(state, pid, test)?;
    if is_true(value) {
        replace(state, pid, list, item.next);
    } else {
        replace(state, pid, other, item.next);
    }
    Ok(Event::Local)
}

// The run error of what is said and is false.
fn broken(said: Said) -> ErrorName
    ensures { result ≡ spec.broken said }
{
    match said {
        Said::Assertion => ErrorName::Assertion,
        Said::Invariant => ErrorName::Invariant,
    }
}

/// What an annotation says: true: removed; false: a run error.
#[inline(always)]
pub fn assert_that(
    state: &mut State,
    pid: u8,
    item: &Item,
    test: &OrdinalExpression,
    said: Said,
) -> Result<Event, ErrorName>
    requires { (r : Tables) × Takes r state.old pid item.now (Assert test.now said) }
    ensures after { spec.assert_that (machine_of state.old) pid item.now.line test.now said (rest_of item.now.next (under (machine_of state.old) pid)) ≡ spec.outcome result (machine_of state.new) pid item.now.line }
    ensures reserved { (r : Tables) → IsReserved r state.old → IsReserved r state.new }
{
    let value = value_of(state, pid, test)?;
    if !is_true(value) {
        return Err(broken(said));
    }
    replace(state, pid, None, item.next);
    Ok(Event::Local)
}

// Whether an arm has a value as a label.
fn has_label(labels: &[i16], value: i16) -> bool
    ensures { result ≡ spec.has_label value labels.now }
{
    labels.iter().any(|label| *label == value)
}

// The list of the first arm that has a value as a label.
fn arm_for(arms: &[ResolvedArm], value: i16) -> Result<Option<usize>, ErrorName>
    ensures { spec.arm_for value arms.now ≡ result }
{
    for arm in arms {
        if has_label(&arm.labels, value) {
            return Ok(arm.body);
        }
    }
    Err(ErrorName::NoCase)
}

/// `case`: becomes the chosen arm.
#[inline(never)]
pub fn case_of(
    state: &mut State,
    pid: u8,
    item: &Item,
    selector: &OrdinalExpression,
    arms: &[ResolvedArm],
) -> Result<Event, ErrorName>
    requires { (r : Tables) × TakesCase r state.old pid item.now selector.now arms.now }
    ensures after { spec.case_of (machine_of state.old) pid item.now.line selector.now arms.now (rest_of item.now.next (under (machine_of state.old) pid)) ≡ spec.outcome result (machine_of state.new) pid item.now.line }
    ensures reserved { (r : Tables) → IsReserved r state.old → IsReserved r state.new }
{
    let value = value_of(state, pid, selector)?;
    let list = arm_for(arms, value)?;
    replace(state, pid, list, item.next);
    Ok(Event::Local)
}

// A number below 256.
fn byte(value: i16) -> u8
    ensures { result ≡ spec.below 256 value }
{
    if value >= 0 && value < 256 {
        value as u8
    } else {
        0
    }
}

// The number of an enumeration constant, whose enumeration begins with another one.
fn constant(first: u16, value: i16) -> u16
    ensures { result ≡ spec.below 65536 (spec.further first value) }
{
    let number = i32::from(first) + i32::from(value);
    if number >= 0 && number < 65536 {
        number as u16
    } else {
        0
    }
}

fn shown_as(kind: ShownKind, value: i16) -> Shown
    ensures { result ≡ spec.shown_as kind value }
{
    match kind {
        ShownKind::Integer => Shown::Integer(value),
        ShownKind::Character => Shown::Char(byte(value)),
        ShownKind::Truth => Shown::Truth(is_true(value)),
        ShownKind::Constant(first) => Shown::Constant(constant(first, value)),
    }
}

fn show(state: &mut State, pid: u8, next: Option<usize>, value: Shown) -> Event
    requires replaces { CanReplace state.old pid None }
    requires room { MOST_SHOWN ≤ vec_capacity state.old.output }
    requires shown { vec_len state.old.output ≤ MOST_SHOWN }
    ensures after { spec.show (machine_of state.old) pid (rest_of next (under (machine_of state.old) pid)) value ≡ record { machine = machine_of state.new; event = result } }
    ensures reserved { (r : Tables) → IsReserved r state.old → IsReserved r state.new }
{
    if state.output.len() == MOST_SHOWN {
        return Event::OutputFull;
    }
    let _ = state.output.push(value);
    replace(state, pid, None, next);
    Event::Kernel(Kernel::Display)
}

/// `display`: its value first, and then whether there is room for it.
#[inline(always)]
pub fn display(
    state: &mut State,
    pid: u8,
    item: &Item,
    value: &OrdinalExpression,
    kind: ShownKind,
) -> Result<Event, ErrorName>
    requires { (r : Tables) × Takes r state.old pid item.now (Display value.now kind) }
    ensures after { spec.display (machine_of state.old) pid item.now.line value.now kind (rest_of item.now.next (under (machine_of state.old) pid)) ≡ spec.outcome result (machine_of state.new) pid item.now.line }
    ensures reserved { (r : Tables) → IsReserved r state.old → IsReserved r state.new }
{
    let value = value_of(state, pid, value)?;
    Ok(show(state, pid, item.next, shown_as(kind, value)))
}
