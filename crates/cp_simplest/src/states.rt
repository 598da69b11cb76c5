//! The states that were found.

ghost use Rattle.std.specs.Prelude.{IfOk};
ghost use Rattle.cp_slots.specs.Tables.{Tables};
ghost use Rattle.cp_machine.specs.System.{IsStateOf};
ghost use Rattle.cp_simplest.specs.Own.{AreOwn};

use cp_key::{Parts, StateKey, thaw};
use cp_machine::{Moved, State};
use indexmap::IndexSet;
use std::alloc::{AllocError, Global};

/// The states that were found, each once, in the order in which they were found.
#[derive(Drop)]
pub struct States {
    pub keys: IndexSet<StateKey>,
}

impl States {
    /// No state was found.
    pub fn new(alloc: Global) -> States
        ensures { (r : Tables) → AreOwn r result }
    {
        States {
            keys: IndexSet::new(alloc),
        }
    }

    /// How many states were found.
    pub fn len(&self) -> usize {
        self.keys.len()
    }

    /// The number of a state, which is new where the state is.
    pub fn number_of(&mut self, alloc: Global, state: &State) -> Result<usize, AllocError>
        ensures { IfOk result (λ _. (r : Tables) → IsStateOf r state.now → AreOwn r self.old → AreOwn r self.new) }
    {
        let mut key = StateKey {
            bytes: Vec::new(alloc),
        };
        key.take_from(state)?;
        let (number, _) = self.keys.insert_full(key)?;
        Ok(number)
    }

    /// A state becomes the one with a number; `false` where there is none.
    pub fn thaw_at(&self, number: usize, state: &mut State) -> bool
        requires { (r : Tables) × IsStateOf r state.old × AreOwn r self.now }
        ensures { (r : Tables) → IsStateOf r state.old → AreOwn r self.now → IsStateOf r state.new }
    {
        let Some(key) = self.keys.get_index(number) else {
            return false;
        };
        let mut moved = Moved::everybody();
        let _ = thaw(key.bytes.as_slice(), &Parts::none(), state, &mut moved);
        true
    }
}
