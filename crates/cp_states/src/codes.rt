//! What states hold is hashed.

ghost use Rattle.std.specs.Prelude.{◌≡◌, true};
ghost use Rattle.cp_states.specs.Codes.{address_code, entry_code, phase_code, shown_code};

use crate::hashing::{Compared, Hashed, are_one};
use cp_machine::{Entry, Phase, Shown};
use cp_store::Address;

impl Hashed for Phase {
    ghost code = { phase_code };

    #[inline(always)]
    fn number(self) -> u64 {
        match self {
            Phase::Uninitialised => 0,
            Phase::Initialising => 1,
            Phase::Initialised => 2,
        }
    }

    #[inline(always)]
    fn is(&self, other: &Phase) -> bool {
        *self == *other
    }
}

impl Compared for Phase {
    #[inline(always)]
    fn are(list: &[Phase], other: &[Phase]) -> bool {
        are_one(list, other)
    }
}

impl Hashed for Shown {
    ghost code = { shown_code };

    #[inline(always)]
    fn number(self) -> u64 {
        match self {
            Shown::Integer(number) => u64::from(number.cast_unsigned()),
            Shown::Char(code) => u64::from(code),
            Shown::Truth(truth) => u64::from(truth),
            Shown::Constant(number) => u64::from(number),
        }
    }

    #[inline(always)]
    fn is(&self, other: &Shown) -> bool {
        *self == *other
    }
}

impl Compared for Shown {
    #[inline(always)]
    fn are(list: &[Shown], other: &[Shown]) -> bool {
        are_one(list, other)
    }
}

impl Hashed for Address {
    ghost code = { address_code };

    #[inline(always)]
    fn number(self) -> u64 {
        match self {
            Address::Permanent(number) | Address::Local(number) => number as u64,
        }
    }

    #[inline(always)]
    fn is(&self, other: &Address) -> bool {
        *self == *other
    }
}

impl Compared for Address {
    #[inline(always)]
    fn are(list: &[Address], other: &[Address]) -> bool {
        are_one(list, other)
    }
}

impl Hashed for Entry {
    ghost code = { entry_code };

    #[inline(always)]
    fn number(self) -> u64 {
        match self {
            Entry::Rest(item) => item as u64,
            Entry::Successor(item, value, _) => {
                (item as u64).wrapping_add(65536 * u64::from(value.cast_unsigned()))
            }
            Entry::Return(frame, _, _) | Entry::InitEnd(frame, _) => frame.routine as u64,
        }
    }

    #[inline(always)]
    fn is(&self, other: &Entry) -> bool {
        match (self, other) {
            (Entry::Rest(item), Entry::Rest(same)) => item == same,
            _ => is_entry(self, other),
        }
    }
}

// Whether two entries are one. It stands apart from `is`, which then reads no more of the rest of a list than its item.
#[inline(never)]
fn is_entry(entry: &Entry, other: &Entry) -> bool
    ensures one { result ≡ true → entry.now ≡ other.now }
    ensures same { entry.now ≡ other.now → result ≡ true }
{
    match (entry, other) {
        (Entry::Rest(item), Entry::Rest(same)) => item == same,
        (Entry::Successor(item, value, last), Entry::Successor(same, number, end)) => {
            item == same && value == number && last == end
        }
        (Entry::Return(frame, result, monitor), Entry::Return(same, cell, left)) => {
            frame == same && result == cell && monitor == left
        }
        (Entry::InitEnd(frame, component), Entry::InitEnd(same, number)) => {
            frame == same && component == number
        }
        _ => false,
    }
}

impl Compared for Entry {
    #[inline(always)]
    fn are(list: &[Entry], other: &[Entry]) -> bool {
        are_one(list, other)
    }
}
