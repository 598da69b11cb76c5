//! Rows as keys, which are the same where their outcomes are.

ghost use Rattle.std.specs.Prelude.{flat_map};
ghost use Rattle.std.specs.Hash as fed;
ghost use Rattle.std.specs.Cmp.Lexicographic.{bytes_decides, nat_list_eq_equiv};
ghost use Rattle.std.specs.Cmp.{on_equiv, on_per, partial_equiv_from_equiv};
ghost use Rattle.std.proofs.Common.{ap};
ghost use Rattle.cp_walk.specs.Hashing.{hashed};
ghost use Rattle.cp_walk.specs.Report.{outcome_numbers, same_outcome};

use crate::numbers::{feed_kind, feed_output, is_same};
use crate::row::Row;
use std::hash::{Hash, Hasher};

/// A row as the key of its outcome.
#[derive(Clone, Copy, Drop)]
pub struct OutcomeKey<'a> {
    pub row: &'a Row,
}

impl PartialEq for OutcomeKey<'_> {
    ghost eq = { λ x y. same_outcome x.row.now.outcome y.row.now.outcome };

    ghost laws = { on_per (λ x. outcome_numbers x.row.now.outcome) (partial_equiv_from_equiv nat_list_eq_equiv) };

    fn eq(&self, other: &Self) -> bool {
        is_same(&self.row.outcome, &other.row.outcome)
    }
}

impl Eq for OutcomeKey<'_> {
    ghost laws = { on_equiv (λ x. outcome_numbers x.row.now.outcome) nat_list_eq_equiv };
}

impl Hash for OutcomeKey<'_> {
    ghost hash_input = { λ x. flat_map fed.u32 (hashed (outcome_numbers x.row.now.outcome)) };

    ghost respects_eq = { λ x y h. ap (λ numbers. flat_map fed.u32 (hashed numbers)) ((bytes_decides (outcome_numbers x.row.now.outcome) (outcome_numbers y.row.now.outcome)).0 h) };

    fn hash<H: Hasher>(&self, state: &mut H) {
        feed_kind(self.row.outcome.kind, state);
        feed_output(self.row.outcome.output.as_slice(), state);
    }
}
