//! Components named in statements.

ghost use Rattle.std.specs.Prelude.{◌≡◌};
ghost use Rattle.cp_store.specs.Components as spec;
ghost use Rattle.cp_store.specs.Inside.{CanFind};
ghost use Rattle.cp_store.specs.Memory.{memory_of};

use crate::error::ErrorName;
use crate::evaluation::{element_offset, evaluate};
use crate::memory::{Frame, Room};
use cp_slots::ComponentPlace;

/// The number of a component named in a statement.
#[tactic(auto, using(crate::proofs::Reaches::onward_exact, crate::proofs::Reaches::not_further))]
pub fn component_of(
    component: &ComponentPlace,
    permanents: &[i16],
    bindings: &[usize],
    room: &Room,
    frame: Frame,
) -> Result<usize, ErrorName>
    requires { CanFind (memory_of permanents.now room.now) bindings.now frame component.now }
    ensures { result ≡ spec.component_at (memory_of permanents.now room.now) bindings.now frame component.now }
{
    match component {
        ComponentPlace::Own => Ok(frame.component),
        ComponentPlace::Contained(number) => Ok(frame.component + *number),
        ComponentPlace::Element {
            first,
            low,
            high,
            stride,
            index,
        } => {
            let index = evaluate(index, permanents, room, &frame)?;
            let further = element_offset(index, *low, *high, *stride)?;
            Ok(frame.component + *first + further)
        }
        ComponentPlace::Parameter(slot) => Ok(bindings[frame.own + *slot]),
    }
}
