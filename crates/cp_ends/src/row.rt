//! Rows of states by their lists.

ghost use Rattle.std.specs.Prelude.{◌≡◌, ◌∷◌, [], true, false, nat_eq, slice_index_or};
ghost use Rattle.std.specs.Hash as fed;
ghost use Rattle.std.specs.Cmp.Lexicographic.{bytes_decides, nat_list_eq_equiv};
ghost use Rattle.std.specs.Cmp.{on_equiv, on_per, partial_equiv_from_equiv};
ghost use Rattle.std.proofs.Common.{ap};
ghost use lib.Pointwise.{pointwise};
ghost use Rattle.cp_states.specs.Hashing.{mixed};
ghost use Rattle.cp_states.specs.Numbers.{number_at};
ghost use Rattle.cp_ends.specs.Halves.{half_position};

use arrayvec::ArrayVec;
use cp_states::hashing::mix;
use std::hash::{Hash, Hasher};

/// The numbers of the three lists of a row: its statuses, and the two halves of what its places have.
#[derive(Clone, Copy, Drop)]
pub struct HalvedRow {
    pub numbers: [u32; 3],
}

/// A state by its row, and by the numbers of the row.
#[derive(Drop)]
pub struct StateRow<P> {
    pub row: ArrayVec<u32, 97>,
    pub numbers: HalvedRow,
    /// What a look at it sees.
    pub seen: P,
}

impl PartialEq for HalvedRow {
    ghost eq = { λ x y. pointwise nat_eq x.numbers y.numbers };

    ghost laws = { on_per (λ x. x.numbers) (partial_equiv_from_equiv nat_list_eq_equiv) };

    fn eq(&self, other: &Self) -> bool {
        self.numbers == other.numbers
    }
}

impl Eq for HalvedRow {
    ghost laws = { on_equiv (λ x. x.numbers) nat_list_eq_equiv };
}

impl Hash for HalvedRow {
    ghost hash_input = { λ x. fed.u64 (mixed (mixed (mixed 0 (slice_index_or x.numbers 0 0)) (slice_index_or x.numbers 1 0)) (slice_index_or x.numbers 2 0)) };

    ghost respects_eq = { λ x y h. ap (λ numbers. fed.u64 (mixed (mixed (mixed 0 (slice_index_or numbers 0 0)) (slice_index_or numbers 1 0)) (slice_index_or numbers 2 0))) ((bytes_decides x.numbers y.numbers).0 h) };

    fn hash<H: Hasher>(&self, state: &mut H) {
        let statuses = mix(0, u64::from(self.numbers[0]));
        let first = mix(statuses, u64::from(self.numbers[1]));
        state.write_u64(mix(first, u64::from(self.numbers[2])));
    }
}

impl HalvedRow {
    /// The numbers of no row in particular.
    pub fn of_none() -> HalvedRow {
        HalvedRow { numbers: [0, 0, 0] }
    }

    /// The number of one of the halves: the first one, or the second one.
    #[inline(always)]
    pub fn half(&self, is_first: bool) -> u32
        ensures { result ≡ number_at self.now.numbers (half_position is_first) }
    {
        if is_first {
            self.numbers[1]
        } else {
            self.numbers[2]
        }
    }

    /// The numbers of a row with the same list of statuses or this one, and where one half is another.
    #[inline(always)]
    pub fn with(&self, statuses: u32, is_first: bool, half: u32) -> HalvedRow
        ensures first { is_first ≡ true → result.numbers ≡ statuses ∷ half ∷ number_at self.now.numbers 2 ∷ [] }
        ensures second { is_first ≡ false → result.numbers ≡ statuses ∷ number_at self.now.numbers 1 ∷ half ∷ [] }
    {
        let [_, first, second] = self.numbers;
        if is_first {
            HalvedRow {
                numbers: [statuses, half, second],
            }
        } else {
            HalvedRow {
                numbers: [statuses, first, half],
            }
        }
    }
}
