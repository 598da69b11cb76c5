//! Evaluated arguments.

ghost use Rattle.std.specs.Prelude.{◌≡◌, ◌≤◌, length, vec_capacity, OnOk};
ghost use Rattle.cp_store.specs.Arguments as spec;
ghost use Rattle.cp_store.specs.Inside.{CanGive, CanGiveAll};
ghost use Rattle.cp_store.specs.Memory.{memory_of};

use crate::arithmetic::check_range;
use crate::component::component_of;
use crate::error::ErrorName;
use crate::evaluation::{address, evaluate, evaluate_set};
use crate::memory::{Address, Frame, Room};
use crate::set::{self, SetValue};
use cp_slots::{Argument, ArgumentValue};

/// What a parameter is to be bound to.
#[derive(Clone, Copy, Debug, PartialEq, Eq)]
pub enum Bound {
    Scalar(i16),
    Set(SetValue),
    /// An array or a record: its first cell, and how many cells.
    Copy(Address, usize),
    /// The place that a `var` parameter names.
    Reference(Address),
    /// A component, by its number.
    Component(usize),
}

/// What an argument gives.
pub fn evaluate_argument(
    value: &ArgumentValue,
    permanents: &[i16],
    bindings: &[usize],
    room: &Room,
    frame: Frame,
) -> Result<Bound, ErrorName>
    requires { CanGive (memory_of permanents.now room.now) bindings.now frame value.now }
    ensures { result ≡ spec.evaluate_argument (memory_of permanents.now room.now) bindings.now frame value.now }
{
    match value {
        ArgumentValue::Scalar { value, low, high } => {
            let value = evaluate(value, permanents, room, &frame)?;
            Ok(Bound::Scalar(check_range(value, *low, *high)?))
        }
        ArgumentValue::Set { value, low, high } => {
            let value = evaluate_set(value, permanents, room, &frame)?;
            Ok(Bound::Set(set::check_members(value, *low, *high)?))
        }
        ArgumentValue::Copy { source, size } => {
            let source = address(source, permanents, room, &frame)?;
            Ok(Bound::Copy(source, *size))
        }
        ArgumentValue::Reference(place) => {
            let at = address(place, permanents, room, &frame)?;
            Ok(Bound::Reference(at))
        }
        ArgumentValue::Component(component) => {
            let number = component_of(component, permanents, bindings, room, frame)?;
            Ok(Bound::Component(number))
        }
    }
}

/// What arguments give, from left to right, in place of what was there; no memory is taken.
pub fn evaluate_arguments(
    arguments: &[Argument],
    permanents: &[i16],
    bindings: &[usize],
    room: &Room,
    frame: Frame,
    bounds: &mut Vec<Bound>,
) -> Result<(), ErrorName>
    requires reads { CanGiveAll (memory_of permanents.now room.now) bindings.now frame arguments.now }
    requires room { length arguments.now ≤ vec_capacity bounds.old }
    ensures after { spec.bounds_at (memory_of permanents.now room.now) bindings.now frame arguments.now ≡ spec.bounds_or result bounds.new.items }
    ensures count { OnOk result (length bounds.new.items ≡ length arguments.now) }
    ensures room { vec_capacity bounds.old ≤ vec_capacity bounds.new }
{
    bounds.clear();
    for argument in arguments {
        let bound = evaluate_argument(&argument.value, permanents, bindings, room, frame)?;
        let _ = bounds.push(bound);
    }
    Ok(())
}
