//! Outcomes as keys.

ghost use Rattle.std.specs.Prelude.{flat_map};
ghost use Rattle.std.specs.Hash as fed;
ghost use Rattle.std.specs.Cmp.Lexicographic.{bytes_decides, nat_list_eq_equiv};
ghost use Rattle.std.specs.Cmp.{on_equiv, on_per, partial_equiv_from_equiv};
ghost use Rattle.std.proofs.Common.{ap};
ghost use Rattle.cp_walk.specs.Hashing.{hashed};
ghost use Rattle.cp_walk.specs.Report.{outcome_numbers, same_outcome};

use cp_run::Outcome;
use cp_walk::numbers::{feed_kind, feed_output, is_same};
use std::hash::{Hash, Hasher};

/// An outcome as a key.
#[derive(Drop)]
pub struct EndKey {
    pub outcome: Outcome,
}

impl PartialEq for EndKey {
    ghost eq = { λ x y. same_outcome x.outcome y.outcome };

    ghost laws = { on_per (λ x. outcome_numbers x.outcome) (partial_equiv_from_equiv nat_list_eq_equiv) };

    fn eq(&self, other: &Self) -> bool {
        is_same(&self.outcome, &other.outcome)
    }
}

impl Eq for EndKey {
    ghost laws = { on_equiv (λ x. outcome_numbers x.outcome) nat_list_eq_equiv };
}

impl Hash for EndKey {
    ghost hash_input = { λ x. flat_map fed.u32 (hashed (outcome_numbers x.outcome)) };

    ghost respects_eq = { λ x y h. ap (λ numbers. flat_map fed.u32 (hashed numbers)) ((bytes_decides (outcome_numbers x.outcome) (outcome_numbers y.outcome)).0 h) };

    fn hash<H: Hasher>(&self, state: &mut H) {
        feed_kind(self.outcome.kind, state);
        feed_output(self.outcome.output.as_slice(), state);
    }
}
