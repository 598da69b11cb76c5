//! The states in which a choice is due after as many choices.

ghost use Rattle.std.specs.Prelude.{◌≡◌, ◌≤◌, ℕ, [], true, false, IfOk, Some, length, slice_get};
ghost use Rattle.cp_slots.specs.Tables.{Tables};
ghost use Rattle.cp_machine.specs.System.{Machine, machine_of, IsStateOf};
ghost use Rattle.cp_run.specs.Code.{node_of};
ghost use Rattle.cp_run.specs.Run.{Choosing};
ghost use Rattle.cp_run.specs.System.{System};
ghost use Rattle.cp_layers.specs.Layers.{AddsNode, AddsState, AreOwn, IsKeyOf};
ghost use Rattle.cp_layers.specs.Leading.{AreWords, IsDueBy};
ghost use Rattle.cp_key.specs.declared.state_key.StateKey.{StateKey};

use cp_key::{Parts, StateKey, thaw};
use cp_machine::{Moved, State};
use cp_run::{Halt, OutcomeKind};
use cp_search::SearchJob;
use indexmap::IndexSet;
use std::alloc::{AllocError, Global};

/// States in which a choice is due, each once, with the words of the first schedules that led there, one behind the other: all are of one length.
pub struct Layer {
    pub known: IndexSet<StateKey>,
    words: Vec<u8>,
}

// One call where it is dropped, not one for each list: proofs of functions that may end early are much shorter.
impl Drop for Layer {
    fn drop(self) {
        let Layer { known: _, words: _ } = self;
    }
}

impl Layer {
    /// No state.
    pub fn new(alloc: Global) -> Layer
        ensures keys { result.known.keys ≡ [] }
        ensures words { result.words.items ≡ [] }
    {
        Layer {
            known: IndexSet::new(alloc),
            words: Vec::new(alloc),
        }
    }

    /// One state more, where it is new.
    pub fn add(&mut self, alloc: Global, state: &State, word: &[u8]) -> Result<(), AllocError>
        ensures state { IfOk result (λ _. AddsState self.old.known.keys (machine_of state.now) self.new.known.keys) }
        ensures words { IfOk result (λ _. (sys : System Machine) (steps d : ℕ) → AreWords sys steps d self.old.known.keys self.old.words.items → IsDueBy sys steps d word.now (machine_of state.now) → AreWords sys steps d self.new.known.keys self.new.words.items) }
    {
        let mut key = StateKey {
            bytes: Vec::new(alloc),
        };
        key.take_from(state)?;
        if self.known.insert(key)? {
            self.words.extend_from_slice(word)?;
        }
        Ok(())
    }

    /// The state to which a word led, where a choice is due in it.
    pub fn arrive(
        &mut self,
        job: &SearchJob<'_>,
        state: &State,
        halt: Halt<OutcomeKind>,
        word: &[u8],
    ) -> Result<(), AllocError>
        requires { IsStateOf job.now.run.program.now state.now }
        ensures node { IfOk result (λ _. AddsNode job.now.run.program.now self.old.known.keys (node_of halt (machine_of state.now)) self.new.known.keys) }
        ensures words { IfOk result (λ _. (sys : System Machine) (steps d : ℕ) → AreWords sys steps d self.old.known.keys self.old.words.items → ((m : Machine) → node_of halt (machine_of state.now) ≡ Choosing m → IsDueBy sys steps d word.now m) → AreWords sys steps d self.new.known.keys self.new.words.items) }
    {
        match halt {
            Halt::Choice => self.add(job.alloc, state, word),
            Halt::Ended(_) => Ok(()),
        }
    }

    /// How many states there are.
    pub fn len(&self) -> usize
        ensures { result ≡ length self.now.known.keys }
    {
        self.known.len()
    }

    /// The word that led to the state of this number, where words have this length.
    pub fn word(&self, number: u32, length: u8) -> &[u8]
        ensures { (sys : System Machine) (steps : ℕ) (key : StateKey) (m : Machine) → AreWords sys steps length self.now.known.keys self.now.words.items → slice_get self.now.known.keys number ≡ Some key → IsKeyOf key m → IsDueBy sys steps length result.now m }
    {
        let length = length as usize;
        let start = (number as usize).saturating_mul(length);
        match self.words.get(start..start.saturating_add(length)) {
            Some(word) => word,
            None => &[],
        }
    }

    /// A state becomes the one of this number; `false` where there is none.
    pub fn thaw_at(&self, number: usize, state: &mut State) -> bool
        requires { (r : Tables) × IsStateOf r state.old × AreOwn r self.now.known.keys }
        ensures own { (r : Tables) → IsStateOf r state.old → AreOwn r self.now.known.keys → IsStateOf r state.new }
        ensures none { result ≡ false → length self.now.known.keys ≤ number }
        ensures key { result ≡ true → (key : StateKey) × (slice_get self.now.known.keys number ≡ Some key) × IsKeyOf key (machine_of state.new) }
    {
        let Some(key) = self.known.get_index(number) else {
            return false;
        };
        let mut moved = Moved::everybody();
        let _ = thaw(key.bytes.as_slice(), &Parts::none(), state, &mut moved);
        true
    }
}
