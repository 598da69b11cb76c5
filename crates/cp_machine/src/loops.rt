//! Loops.

ghost use Rattle.std.specs.Prelude.{◌≡◌, ◌<◌};
ghost use Rattle.std.specs.Ordering.{int_eq};
ghost use Rattle.cp_slots.specs.Tables.{Tables};
ghost use Rattle.cp_slots.specs.declared.item.Action.TheVariants.{Until, While};
ghost use Rattle.cp_machine.specs.Fits.{IsReserved};
ghost use Rattle.cp_machine.specs.Machine.{machine_of, under};
ghost use Rattle.cp_machine.specs.Premises.{CanTurn, Takes, TakesFor};
ghost use Rattle.cp_machine.specs.Statements as spec;

use crate::event::{ErrorName, Event};
use crate::memory::{origin_of, put_number, value_of};
use crate::process::Entry;
use crate::stack::{replace, replace_by};
use crate::state::State;
use cp_slots::{Item, OrdinalExpression, PlaceOrigin};
use cp_store::arithmetic::{self, check_range, is_true};

/// `while`: true: becomes its list and itself; false: removed.
#[inline(always)]
pub fn while_do(
    state: &mut State,
    pid: u8,
    item: &Item,
    test: &OrdinalExpression,
    list: Option<usize>,
    again: usize,
) -> Result<Event, ErrorName>
    requires { (r : Tables) × Takes r state.old pid item.now (While test.now list again) }
    ensures after { spec.while_do (machine_of state.old) pid item.now.line test.now list again item.now.next (under (machine_of state.old) pid) ≡ spec.outcome result (machine_of state.new) pid item.now.line }
    ensures reserved { (r : Tables) → IsReserved r state.old → IsReserved r state.new }
{
    let value = value_of(state, pid, test)?;
    if is_true(value) {
        replace_by(state, pid, list, Entry::Rest(again));
    } else {
        replace(state, pid, None, item.next);
    }
    Ok(Event::Local)
}

/// The end of `repeat`: true: removed; false: becomes its list and itself.
#[inline(always)]
pub fn until(
    state: &mut State,
    pid: u8,
    item: &Item,
    test: &OrdinalExpression,
    list: Option<usize>,
    again: usize,
) -> Result<Event, ErrorName>
    requires { (r : Tables) × Takes r state.old pid item.now (Until test.now list again) }
    ensures after { spec.until (machine_of state.old) pid item.now.line test.now list again item.now.next (under (machine_of state.old) pid) ≡ spec.outcome result (machine_of state.new) pid item.now.line }
    ensures reserved { (r : Tables) → IsReserved r state.old → IsReserved r state.new }
{
    let value = value_of(state, pid, test)?;
    if is_true(value) {
        replace(state, pid, None, item.next);
    } else {
        replace_by(state, pid, list, Entry::Rest(again));
    }
    Ok(Event::Local)
}

/// The course of a `for`.
#[derive(Clone, Copy)]
pub struct Course {
    /// The number of the item.
    pub at: usize,
    pub variable: PlaceOrigin,
    /// The bounds of the variable's type.
    pub low: i16,
    pub high: i16,
    pub down: bool,
    pub list: Option<usize>,
}

// The variable takes a value; then come the list, and the successor of the value.
#[inline(always)]
fn go_on(state: &mut State, pid: u8, course: Course, last: i16, value: i16)
    requires { CanTurn state.old pid course }
    ensures after { machine_of state.new ≡ spec.gone_on (machine_of state.old) pid course.at course.variable course.list (under (machine_of state.old) pid) last value }
    ensures reserved { (r : Tables) → IsReserved r state.old → IsReserved r state.new }
{
    let at = origin_of(state, pid, course.variable);
    let entry = Entry::Successor(course.at, value, last);
    replace_by(state, pid, course.list, entry);
    put_number(state, pid, at, value);
}

// Whether the first value is beyond the last.
fn is_beyond(down: bool, first: i16, last: i16) -> bool
    ensures { result ≡ spec.is_beyond down first last }
{
    if down { first < last } else { last < first }
}

// The next value, which has to be in the range of the variable.
fn next_value(down: bool, low: i16, high: i16, value: i16) -> Result<i16, ErrorName>
    ensures { result ≡ spec.next_value down low high value }
{
    if down {
        arithmetic::predecessor(value, low)
    } else {
        arithmetic::successor(value, high)
    }
}

// A `for` between two values.
#[inline(always)]
fn for_from(
    state: &mut State,
    pid: u8,
    item: &Item,
    course: Course,
    first: i16,
    last: i16,
) -> Result<Event, ErrorName>
    requires { CanTurn state.old pid course }
    ensures after { spec.for_from (machine_of state.old) pid item.now.line course.at course.variable course.low course.high course.down course.list item.now.next (under (machine_of state.old) pid) first last ≡ spec.outcome result (machine_of state.new) pid item.now.line }
    ensures reserved { (r : Tables) → IsReserved r state.old → IsReserved r state.new }
{
    if is_beyond(course.down, first, last) {
        replace(state, pid, None, item.next);
    } else {
        let value = check_range(first, course.low, course.high)?;
        go_on(state, pid, course, last, value);
    }
    Ok(Event::Local)
}

/// `for`: the first value beyond the last: removed; else becomes its list and the successor of the first value.
pub fn for_do(
    state: &mut State,
    pid: u8,
    item: &Item,
    course: Course,
    first: &OrdinalExpression,
    last: &OrdinalExpression,
) -> Result<Event, ErrorName>
    requires { (r : Tables) × TakesFor r state.old pid item.now course first.now last.now }
    ensures after { spec.for_do (machine_of state.old) pid item.now.line course.at course.variable course.low course.high first.now last.now course.down course.list item.now.next (under (machine_of state.old) pid) ≡ spec.outcome result (machine_of state.new) pid item.now.line }
    ensures reserved { (r : Tables) → IsReserved r state.old → IsReserved r state.new }
{
    let first = value_of(state, pid, first)?;
    let last = value_of(state, pid, last)?;
    for_from(state, pid, item, course, first, last)
}

fn is_last(value: i16, last: i16) -> bool
    ensures { result ≡ int_eq value last }
{
    value == last
}

/// The successor of a value: after the last one removed; else becomes the list and the successor of the next value.
#[inline(always)]
pub fn successor(
    state: &mut State,
    pid: u8,
    item: &Item,
    course: Course,
    value: i16,
    last: i16,
) -> Result<Event, ErrorName>
    requires { CanTurn state.old pid course }
    ensures after { spec.next_turn (machine_of state.old) pid item.now.line course.at course.variable course.low course.high course.down course.list item.now.next (under (machine_of state.old) pid) value last ≡ spec.outcome result (machine_of state.new) pid item.now.line }
    ensures reserved { (r : Tables) → IsReserved r state.old → IsReserved r state.new }
{
    if is_last(value, last) {
        replace(state, pid, None, item.next);
    } else {
        let value = next_value(course.down, course.low, course.high, value)?;
        go_on(state, pid, course, last, value);
    }
    Ok(Event::Local)
}
