//! Which states are one in a page.

use cp_key::{StateKey, freeze_core};
use cp_machine::State;
use std::alloc::{AllocError, Global};

/// Which states are merged.
#[derive(Clone, Copy, PartialEq, Eq)]
pub enum Merging {
    /// Those that differ by what was displayed alone. How a run goes on does not depend on it, but for the limit of output.
    WithoutOutput,
    /// Only the same ones.
    WithOutput,
}

/// The key of a state.
pub fn key_of(alloc: Global, state: &State, merging: Merging) -> Result<StateKey, AllocError> {
    let mut key = StateKey {
        bytes: Vec::new(alloc),
    };
    match merging {
        Merging::WithoutOutput => freeze_core(state, &mut key.bytes)?,
        Merging::WithOutput => key.take_from(state)?,
    }
    Ok(key)
}
