//! States as keys.

ghost use Rattle.std.specs.Prelude.{◌≡◌, ◌∷◌, [], IfOk, nat_eq};
ghost use Rattle.std.specs.Cmp.Lexicographic.{bytes_decides, nat_list_eq_equiv};
ghost use Rattle.std.specs.Cmp.{on_equiv, on_per, partial_equiv_from_equiv};
ghost use Rattle.std.proofs.Common.{ap};
ghost use lib.Pointwise.{pointwise};
ghost use Rattle.cp_key.specs.Key.{key_of};
ghost use Rattle.cp_machine.specs.System.{machine_of};

use crate::bodies::Parts;
use crate::writing::freeze;
use cp_machine::{Moved, State};
use std::alloc::AllocError;
use std::hash::{Hash, Hasher};

/// The key of a state.
#[derive(Drop)]
pub struct StateKey {
    pub bytes: Vec<u8>,
}

impl PartialEq for StateKey {
    ghost eq = { λ x y. pointwise nat_eq x.bytes.items y.bytes.items };

    ghost laws = { on_per (λ x. x.bytes.items) (partial_equiv_from_equiv nat_list_eq_equiv) };

    fn eq(&self, other: &Self) -> bool {
        self.bytes.as_slice() == other.bytes.as_slice()
    }
}

impl Eq for StateKey {
    ghost laws = { on_equiv (λ x. x.bytes.items) nat_list_eq_equiv };
}

impl Hash for StateKey {
    ghost hash_input = { λ x. x.bytes.items ∷ [] };

    ghost respects_eq = { λ x y h. ap (λ bytes. bytes ∷ []) ((bytes_decides x.bytes.items y.bytes.items).0 h) };

    fn hash<H: Hasher>(&self, state: &mut H) {
        state.write(self.bytes.as_slice());
    }
}

impl StateKey {
    /// Becomes the key of a state.
    pub fn take_from(&mut self, state: &State) -> Result<(), AllocError>
        ensures { IfOk result (λ _. self.new.bytes.items ≡ key_of (machine_of state.now)) }
    {
        self.bytes.clear();
        freeze(
            state,
            state,
            &Parts::none(),
            &Moved::everybody(),
            &mut self.bytes,
        )
    }
}
