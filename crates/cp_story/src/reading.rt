//! Expressions, evaluated as the machine does it, and what fails first in them.

ghost use Rattle.std.specs.Prelude.{◌≡◌, ◌<◌, length};
ghost use Rattle.cp_machine.specs.Machine.{machine_of};
ghost use Rattle.cp_machine.specs.Memory.{memory_at};
ghost use Rattle.cp_store.specs.Memory.{cell_at, address_onward};
ghost use Rattle.cp_store.specs.Places.{origin_address};
ghost use Rattle.cp_story.specs.Causes as spec;
ghost use Rattle.cp_story.specs.Causes.{memory_in};

use crate::cause::Cause;
use cp_machine::State;
use cp_slots::{
    Argument, ArgumentValue, ComponentPlace, Index, OrdinalExpression, Place, PlaceOrigin,
    SetExpression,
};
use cp_store::arithmetic::{
    absolute, apply_logic, calculate, compare, is_true, is_within, negate, predecessor, successor,
    truth,
};
use cp_store::{Address, ErrorName, Frame, Room};

/// An address that no cell has.
const NOWHERE: Address = Address::Local(usize::MAX);

/// Whether the form of an expression may be that of an integer.
pub fn is_number(expression: &OrdinalExpression) -> bool
    ensures { result ≡ spec.is_number expression.now }
{
    match expression {
        OrdinalExpression::Number(_)
        | OrdinalExpression::Load(_)
        | OrdinalExpression::Negate(_)
        | OrdinalExpression::Absolute(_)
        | OrdinalExpression::Arithmetic(_, _, _) => true,
        OrdinalExpression::Not(_)
        | OrdinalExpression::Successor(_, _)
        | OrdinalExpression::Predecessor(_, _)
        | OrdinalExpression::Character(_)
        | OrdinalExpression::Logic(_, _, _)
        | OrdinalExpression::Compare(_, _, _)
        | OrdinalExpression::SameSet(_, _, _)
        | OrdinalExpression::Member(_, _)
        | OrdinalExpression::IsEmpty(_) => false,
    }
}

/// What a process reads, in the frame that it executes.
#[derive(Clone, Copy)]
pub struct Reading<'a> {
    permanents: &'a [i16],
    bindings: &'a [usize],
    room: &'a Room,
    frame: Frame,
}

// The value of an operation, or that this fails.
fn or_cause(value: Result<i16, ErrorName>, cause: Cause) -> Result<i16, Cause>
    ensures { result ≡ spec.or_cause cause value }
{
    match value {
        Ok(value) => Ok(value),
        Err(_) => Err(cause),
    }
}

/// A value that is to lie within bounds.
pub fn value_within(value: i16, low: i16, high: i16) -> Result<i16, Cause>
    ensures { result ≡ spec.within low high value }
{
    if is_within(value, low, high) {
        Ok(value)
    } else {
        Err(Cause::Outside(value, low, high))
    }
}

/// What is left of a value that is not kept.
pub fn forget(value: Result<i16, Cause>) -> Result<(), Cause>
    ensures { result ≡ spec.forgotten value }
{
    match value {
        Ok(_) => Ok(()),
        Err(cause) => Err(cause),
    }
}

fn forget_address(at: Result<Address, Cause>) -> Result<(), Cause>
    ensures { result ≡ spec.forgotten at }
{
    match at {
        Ok(_) => Ok(()),
        Err(cause) => Err(cause),
    }
}

// The address this many cells further on.
fn address_onward(at: Address, cells: usize) -> Address
    ensures { result ≡ address_onward at cells }
{
    match at {
        Address::Permanent(number) => Address::Permanent(number.saturating_add(cells)),
        Address::Local(number) => Address::Local(number.saturating_add(cells)),
    }
}

// How far the element of an index is from the beginning.
fn element_offset(index: i16, low: i16, high: i16, size: usize) -> Result<usize, Cause>
    ensures { result ≡ spec.element_offset low high size index }
{
    let index = value_within(index, low, high)?;
    Ok(usize::from(index.abs_diff(low)).saturating_mul(size))
}

impl<'a> Reading<'a> {
    /// What a process reads in a state.
    pub fn of(state: &'a State, pid: u8) -> Reading<'a>
        requires { pid < length state.now.processes.items }
        ensures memory { memory_in result ≡ memory_at (machine_of state.now) pid }
        ensures bindings { result.bindings.now ≡ (machine_of state.now).bindings }
        ensures frame { result.frame ≡ spec.frame_at (machine_of state.now) pid }
    {
        let process = &state.processes[pid as usize];
        Reading {
            permanents: &state.permanents,
            bindings: &state.bindings,
            room: &process.room,
            frame: process.frame,
        }
    }

    fn origin(&self, origin: PlaceOrigin) -> Address
        ensures { result ≡ origin_address self.now.room.now.references.items self.now.frame origin }
    {
        match origin {
            PlaceOrigin::Permanent(slot) => {
                Address::Permanent(self.frame.own.saturating_add(slot))
            }
            PlaceOrigin::Local(slot) => Address::Local(self.frame.base.saturating_add(slot)),
            PlaceOrigin::Reference(number) => {
                let place = self.frame.references.saturating_add(number);
                self.room.references.get(place).copied().unwrap_or(NOWHERE)
            }
        }
    }

    fn cell(&self, at: Address) -> i16
        ensures { result ≡ cell_at (memory_in self.now) at }
    {
        match at {
            Address::Permanent(number) => self.permanents.get(number).copied().unwrap_or(0),
            Address::Local(number) => self.room.cells.get(number).copied().unwrap_or(0),
        }
    }

    /// The address of a place.
    #[cycle(reading)]
    pub fn address(&self, place: &Place) -> Result<Address, Cause>
        ensures { result ≡ spec.address_at (memory_in self.now) self.now.frame place.now }
    {
        let start = address_onward(self.origin(place.origin), place.offset);
        self.through(start, &place.indices)
    }

    /// Whether a place has an address, which is not kept.
    pub fn reach(&self, place: &Place) -> Result<(), Cause>
        ensures { result ≡ spec.forgotten (spec.address_at (memory_in self.now) self.now.frame place.now) }
    {
        forget_address(self.address(place))
    }

    // The address after all indices.
    #[cycle(reading)]
    fn through(&self, start: Address, indices: &[Index]) -> Result<Address, Cause>
        ensures { result ≡ spec.indexed_at (memory_in self.now) self.now.frame start indices.now }
    {
        let mut at = start;
        for index in indices {
            at = self.element(index, at)?;
        }
        Ok(at)
    }

    #[cycle(reading)]
    fn element(&self, index: &Index, at: Address) -> Result<Address, Cause>
        ensures { result ≡ spec.element_at index.now (memory_in self.now) self.now.frame at }
    {
        let value = self.value(&index.at)?;
        Ok(address_onward(
            at,
            element_offset(value, index.low, index.high, index.size)?,
        ))
    }

    /// The value of an expression.
    #[cycle(reading)]
    pub fn value(&self, expression: &OrdinalExpression) -> Result<i16, Cause>
        ensures { result ≡ spec.value_at (memory_in self.now) self.now.frame expression.now }
    {
        match expression {
            OrdinalExpression::Number(value) => Ok(*value),
            OrdinalExpression::Load(place) => Ok(self.cell(self.address(place)?)),
            OrdinalExpression::Negate(operand) => {
                let value = self.value(operand)?;
                or_cause(negate(value), Cause::Sign(value))
            }
            OrdinalExpression::Absolute(operand) => {
                let value = self.value(operand)?;
                or_cause(absolute(value), Cause::Absolute(value))
            }
            OrdinalExpression::Not(operand) => {
                let value = self.value(operand)?;
                Ok(truth(!is_true(value)))
            }
            OrdinalExpression::Successor(operand, last) => {
                let value = self.value(operand)?;
                or_cause(successor(value, *last), Cause::Last)
            }
            OrdinalExpression::Predecessor(operand, first) => {
                let value = self.value(operand)?;
                or_cause(predecessor(value, *first), Cause::First)
            }
            OrdinalExpression::Character(operand) => {
                let value = self.value(operand)?;
                value_within(value, 0, 127)
            }
            OrdinalExpression::Arithmetic(operator, left, right) => {
                let left = self.value(left)?;
                let right = self.value(right)?;
                let cause = Cause::Operation(*operator, left, right);
                or_cause(calculate(*operator, left, right), cause)
            }
            OrdinalExpression::Logic(operator, left, right) => {
                let left = self.value(left)?;
                let right = self.value(right)?;
                Ok(apply_logic(*operator, left, right))
            }
            OrdinalExpression::Compare(relation, left, right) => {
                let left = self.value(left)?;
                let right = self.value(right)?;
                Ok(compare(*relation, left, right))
            }
            OrdinalExpression::SameSet(_, left, right) => {
                self.set(left)?;
                self.set(right)?;
                Err(Cause::Untold)
            }
            OrdinalExpression::Member(element, whole) => {
                self.value(element)?;
                self.set(whole)?;
                Err(Cause::Untold)
            }
            OrdinalExpression::IsEmpty(queue) => {
                let waits = self.cell(self.address(queue)?);
                Ok(truth(!is_true(waits)))
            }
        }
    }

    /// Whether a set expression has a value, which is not kept.
    #[cycle(reading)]
    pub fn set(&self, expression: &SetExpression) -> Result<(), Cause>
        ensures { result ≡ spec.set_at (memory_in self.now) self.now.frame expression.now }
    {
        match expression {
            SetExpression::Load(place) => forget_address(self.address(place)),
            SetExpression::Empty => Ok(()),
            SetExpression::With(whole, element) => {
                self.set(whole)?;
                let element = self.value(element)?;
                forget(value_within(element, 0, 127))
            }
            SetExpression::Combine(_, left, right) => {
                self.set(left)?;
                self.set(right)
            }
        }
    }

    /// The number of a component named in a statement.
    pub fn component(&self, component: &ComponentPlace) -> Result<usize, Cause>
        ensures { result ≡ spec.component_at (memory_in self.now) self.now.bindings.now self.now.frame component.now }
    {
        match component {
            ComponentPlace::Own => Ok(self.frame.component),
            ComponentPlace::Contained(number) => Ok(self.frame.component.saturating_add(*number)),
            ComponentPlace::Element {
                first,
                low,
                high,
                stride,
                index,
            } => {
                let index = self.value(index)?;
                let further = element_offset(index, *low, *high, *stride)?;
                Ok(
                    self.frame
                        .component
                        .saturating_add(*first)
                        .saturating_add(further),
                )
            }
            ComponentPlace::Parameter(slot) => {
                let place = self.frame.own.saturating_add(*slot);
                Ok(self.bindings.get(place).copied().unwrap_or(0))
            }
        }
    }

    /// Whether arguments have values, which are not kept.
    pub fn arguments(&self, arguments: &[Argument]) -> Result<(), Cause>
        ensures { result ≡ spec.arguments_at (memory_in self.now) self.now.bindings.now self.now.frame arguments.now }
    {
        for argument in arguments {
            self.argument(&argument.value)?;
        }
        Ok(())
    }

    fn argument(&self, value: &ArgumentValue) -> Result<(), Cause>
        ensures { result ≡ spec.argument_at (memory_in self.now) self.now.bindings.now self.now.frame value.now }
    {
        match value {
            ArgumentValue::Scalar { value, low, high } => {
                let value = self.value(value)?;
                forget(value_within(value, *low, *high))
            }
            ArgumentValue::Set { value, .. } => {
                self.set(value)?;
                Err(Cause::Untold)
            }
            ArgumentValue::Copy { source, .. } => self.reach(source),
            ArgumentValue::Reference(place) => self.reach(place),
            ArgumentValue::Component(component) => {
                self.component(component)?;
                Ok(())
            }
        }
    }
}
