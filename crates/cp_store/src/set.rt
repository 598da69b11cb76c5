//! Sets of the numbers 0 to 127.

ghost use Rattle.std.specs.Prelude.{◌≡◌, ◌≤◌};
ghost use Rattle.cp_slots.specs.Inside.{SET_CELLS};
ghost use Rattle.cp_store.specs.Inside.{HasCells};
ghost use Rattle.cp_store.specs.Memory.{memory_of};
ghost use Rattle.cp_store.specs.Sets as spec;

use crate::arithmetic::{is_within, truth};
use crate::error::ErrorName;
use crate::memory::{Address, Room, cell};
use cp_slots::SetOperation;

/// A set of the numbers 0 to 127.
#[derive(Clone, Copy, Debug, PartialEq, Eq)]
pub struct SetValue {
    /// Bit number k is 1 where k is a member.
    pub members: u128,
}

/// The empty set.
pub fn empty() -> SetValue
    ensures { result ≡ spec.empty }
{
    SetValue { members: 0 }
}

/// Whether an ordinal is a member.
pub fn is_member(set: SetValue, ordinal: i16) -> bool
    ensures { result ≡ spec.is_member set ordinal }
{
    is_within(ordinal, 0, 127) && (set.members >> ordinal.unsigned_abs()) % 2 == 1
}

/// A set and one element more, which may be no number of a set.
pub fn with(set: SetValue, ordinal: i16) -> Result<SetValue, ErrorName>
    ensures { result ≡ spec.with_element set ordinal }
{
    if is_within(ordinal, 0, 127) {
        Ok(SetValue {
            members: set.members | 1 << ordinal.unsigned_abs(),
        })
    } else {
        Err(ErrorName::Range)
    }
}

/// The union, the difference or the intersection of two sets.
pub fn combine_sets(operation: SetOperation, left: SetValue, right: SetValue) -> SetValue
    ensures { result ≡ spec.combine_sets operation left right }
{
    let members = match operation {
        SetOperation::Union => left.members | right.members,
        SetOperation::Difference => left.members & (left.members ^ right.members),
        SetOperation::Intersection => left.members & right.members,
    };
    SetValue { members }
}

/// The truth value of: the two sets are equal, or, where that is not wanted, they differ.
pub fn compare_sets(wanted: bool, left: SetValue, right: SetValue) -> i16
    ensures { result ≡ spec.compare_sets wanted left right }
{
    if wanted {
        truth(left.members == right.members)
    } else {
        truth(left.members != right.members)
    }
}

// Whether the members below a number lie within bounds.
#[tactic(auto, unfolding(crate::specs::Sets::are_within))]
fn are_within(members: u128, low: u8, high: u8, count: u8) -> bool
    requires { count ≤ 128 }
    ensures { result ≡ spec.are_within low high members count }
{
    let mut within = true;
    for number in 0..count {
        let is_outside = number < low || high < number;
        if is_outside && (members >> number) % 2 == 1 {
            within = false;
        }
    }
    within
}

/// A set whose members are to lie within bounds.
pub fn check_members(set: SetValue, low: u8, high: u8) -> Result<SetValue, ErrorName>
    ensures { result ≡ spec.check_members low high set }
{
    if are_within(set.members, low, high, 128) {
        Ok(set)
    } else {
        Err(ErrorName::Range)
    }
}

// Sixteen members, as a cell holds them.
fn word(permanents: &[i16], room: &Room, at: Address) -> u16
    requires { HasCells (memory_of permanents.now room.now) at 1 }
    ensures { result ≡ spec.word_at (memory_of permanents.now room.now) at }
{
    cell(permanents, room, at).cast_unsigned()
}

// Thirty-two members.
fn pair(permanents: &[i16], room: &Room, at: Address) -> u32
    requires { HasCells (memory_of permanents.now room.now) at 2 }
    ensures { result ≡ spec.pair_at (memory_of permanents.now room.now) at }
{
    let low = word(permanents, room, at);
    let high = word(permanents, room, at.plus(1));
    low as u32 + high as u32 * 65536
}

// Sixty-four members.
fn quad(permanents: &[i16], room: &Room, at: Address) -> u64
    requires { HasCells (memory_of permanents.now room.now) at 4 }
    ensures { result ≡ spec.quad_at (memory_of permanents.now room.now) at }
{
    let low = pair(permanents, room, at);
    let high = pair(permanents, room, at.plus(2));
    low as u64 + high as u64 * 4_294_967_296
}

/// The set that the eight cells from an address on hold.
pub fn load_set(permanents: &[i16], room: &Room, at: Address) -> SetValue
    requires { HasCells (memory_of permanents.now room.now) at SET_CELLS }
    ensures { result ≡ spec.load_set (memory_of permanents.now room.now) at }
{
    let low = quad(permanents, room, at);
    let high = quad(permanents, room, at.plus(4));
    SetValue {
        members: low as u128 + high as u128 * 18_446_744_073_709_551_616,
    }
}
