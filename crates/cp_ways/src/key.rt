//! States with the number of choices that are left, as keys.

ghost use Rattle.std.specs.Prelude.{◌≡◌, ◌∷◌, IfOk};
ghost use Rattle.cp_key.specs.Key.{core_key};
ghost use Rattle.cp_machine.specs.System.{machine_of};

use cp_key::{StateKey, freeze_core};
use cp_machine::State;
use std::alloc::{AllocError, Global};

/// How many choices are left, and then the key of the core of a state. States of one key differ in what was displayed before, and in nothing
/// that comes after.
pub fn key_of_ways(alloc: Global, state: &State, left: u8) -> Result<StateKey, AllocError>
    ensures { IfOk result (λ k. k.bytes.items ≡ left ∷ core_key (machine_of state.now)) }
{
    let mut bytes = Vec::new(alloc);
    bytes.push(left)?;
    freeze_core(state, &mut bytes)?;
    Ok(StateKey { bytes })
}
