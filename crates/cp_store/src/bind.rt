//! Parameters are bound to evaluated arguments.

ghost use Rattle.std.specs.Prelude.{◌≡◌, length};
ghost use Rattle.cp_store.specs.Arguments as spec;
ghost use Rattle.cp_store.specs.Inside.{AllFitComponent, AllFitFrame, FitsComponent, FitsFrame, HasBound};
ghost use Rattle.cp_store.specs.Memory.{memory_of, KeepsRoom, onward};
ghost use Rattle.cp_store.specs.declared.memory.Address.TheVariants.{Permanent};

use crate::argument::Bound;
use crate::memory::{Address, Frame, Room};
use crate::writing::{copy_cells, write, write_set};
use cp_slots::Argument;

// Writes a value into the cells from an address on.
fn put_value(permanents: &mut [i16], room: &mut Room, at: Address, bound: Bound)
    requires { HasBound (memory_of permanents.old room.old) at bound }
    ensures after { memory_of permanents.new room.new ≡ spec.put_value (memory_of permanents.old room.old) at bound }
    ensures room { KeepsRoom room.old room.new }
{
    match bound {
        Bound::Scalar(value) => write(permanents, room, at, value),
        Bound::Set(value) => write_set(permanents, room, at, value),
        Bound::Copy(from, size) => copy_cells(permanents, room, at, from, size),
        Bound::Reference(_) | Bound::Component(_) => unreachable!(),
    }
}

// Binds a parameter of the routine of a frame.
#[tactic(auto, using(crate::proofs::Reaches::onward_exact))]
fn put_in_frame(permanents: &mut [i16], room: &mut Room, frame: Frame, slot: usize, bound: Bound)
    requires { FitsFrame (memory_of permanents.old room.old) frame slot bound }
    ensures after { memory_of permanents.new room.new ≡ spec.put_in_frame (memory_of permanents.old room.old) frame slot bound }
    ensures room { KeepsRoom room.old room.new }
{
    match bound {
        Bound::Reference(place) => room.references[frame.references + slot] = place,
        Bound::Scalar(_) | Bound::Set(_) | Bound::Copy(_, _) => {
            put_value(permanents, room, Address::Local(frame.base + slot), bound);
        }
        Bound::Component(_) => unreachable!(),
    }
}

/// Binds the parameters of the routine of a frame.
#[tactic(auto, using(crate::proofs::Bindings::frame_done, crate::proofs::Bindings::frame_fits))]
pub fn bind_frame(
    permanents: &mut [i16],
    room: &mut Room,
    frame: Frame,
    arguments: &[Argument],
    bounds: &[Bound],
)
    requires count { length bounds.now ≡ length arguments.now }
    requires fit { AllFitFrame (memory_of permanents.old room.old) frame arguments.now bounds.now }
    ensures after { memory_of permanents.new room.new ≡ spec.bind_frame (memory_of permanents.old room.old) frame arguments.now bounds.now }
    ensures room { KeepsRoom room.old room.new }
{
    for (number, argument) in arguments.iter().enumerate() {
        put_in_frame(permanents, room, frame, argument.slot, bounds[number]);
    }
}

// Binds a parameter of a component.
#[tactic(auto, using(crate::proofs::Reaches::onward_exact))]
fn put_in_component(
    permanents: &mut [i16],
    bindings: &mut [usize],
    room: &mut Room,
    base: usize,
    slot: usize,
    bound: Bound,
)
    requires { FitsComponent (memory_of permanents.old room.old) bindings.old base slot bound }
    ensures after { memory_of permanents.new room.new ≡ spec.put_value (memory_of permanents.old room.old) (Permanent (onward base slot)) bound }
    ensures bindings { bindings.new ≡ spec.put_binding bindings.old (onward base slot) bound }
    ensures room { KeepsRoom room.old room.new }
{
    match bound {
        Bound::Component(component) => bindings[base + slot] = component,
        Bound::Scalar(_) | Bound::Set(_) | Bound::Copy(_, _) => {
            put_value(permanents, room, Address::Permanent(base + slot), bound);
        }
        Bound::Reference(_) => unreachable!(),
    }
}

/// Binds the parameters of a component, whose permanent cells begin at `base`.
#[tactic(auto, using(crate::proofs::Bindings::component_done, crate::proofs::Bindings::bindings_done, crate::proofs::Bindings::component_fits))]
pub fn bind_component(
    permanents: &mut [i16],
    bindings: &mut [usize],
    room: &mut Room,
    base: usize,
    arguments: &[Argument],
    bounds: &[Bound],
)
    requires count { length bounds.now ≡ length arguments.now }
    requires fit { AllFitComponent (memory_of permanents.old room.old) bindings.old base arguments.now bounds.now }
    ensures after { memory_of permanents.new room.new ≡ spec.bind_component (memory_of permanents.old room.old) base arguments.now bounds.now }
    ensures bindings { bindings.new ≡ spec.bindings_after bindings.old base arguments.now bounds.now }
    ensures room { KeepsRoom room.old room.new }
{
    for (number, argument) in arguments.iter().enumerate() {
        put_in_component(
            permanents,
            bindings,
            room,
            base,
            argument.slot,
            bounds[number],
        );
    }
}
