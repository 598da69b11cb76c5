//! Operations on ordinals. Each answers its value, or the run error.

ghost use Rattle.std.specs.Prelude.{◌≡◌};
ghost use Rattle.cp_store.specs.Values as spec;

use crate::error::ErrorName;
use cp_slots::{Arithmetic, Comparison, Logic};

/// A value that is to be an integer of the language; else overflow.
pub fn narrow(value: i32) -> Result<i16, ErrorName>
    ensures { result ≡ spec.narrow value }
{
    if value < -32768 || value > 32767 {
        Err(ErrorName::Overflow)
    } else {
        Ok(value as i16)
    }
}

/// Whether a value lies within bounds.
pub fn is_within(value: i16, low: i16, high: i16) -> bool
    ensures { result ≡ spec.is_within low high value }
{
    low <= value && value <= high
}

/// A value that is to lie within bounds; else range.
pub fn check_range(value: i16, low: i16, high: i16) -> Result<i16, ErrorName>
    ensures { result ≡ spec.check_range low high value }
{
    if is_within(value, low, high) {
        Ok(value)
    } else {
        Err(ErrorName::Range)
    }
}

/// A truth value as an ordinal.
pub fn truth(holds: bool) -> i16
    ensures { result ≡ spec.truth holds }
{
    if holds { 1 } else { 0 }
}

/// The truth value that an ordinal stands for.
pub fn is_true(value: i16) -> bool
    ensures { result ≡ spec.is_true value }
{
    value != 0
}

/// A sign before an integer.
pub fn negate(value: i16) -> Result<i16, ErrorName>
    ensures { result ≡ spec.negate value }
{
    narrow(-(value as i32))
}

/// `abs` of an integer.
pub fn absolute(value: i16) -> Result<i16, ErrorName>
    ensures { result ≡ spec.absolute value }
{
    narrow(value.unsigned_abs() as i32)
}

/// `succ` of an ordinal; range at the last value of its type.
pub fn successor(value: i16, last: i16) -> Result<i16, ErrorName>
    ensures { result ≡ spec.successor last value }
{
    if value < last {
        Ok(value + 1)
    } else {
        Err(ErrorName::Range)
    }
}

/// `pred` of an ordinal; range at the first value of its type.
pub fn predecessor(value: i16, first: i16) -> Result<i16, ErrorName>
    ensures { result ≡ spec.predecessor first value }
{
    if first < value {
        Ok(value - 1)
    } else {
        Err(ErrorName::Range)
    }
}

/// `div` of two integers, rounded towards zero.
pub fn quotient(left: i16, right: i16) -> Result<i16, ErrorName>
    ensures { result ≡ spec.quotient left right }
{
    if right == 0 {
        Err(ErrorName::ZeroDivisor)
    } else {
        narrow(left as i32 / right as i32)
    }
}

/// `mod` of two integers, with the sign of the left one.
pub fn remainder(left: i16, right: i16) -> Result<i16, ErrorName>
    ensures { result ≡ spec.remainder left right }
{
    if right == 0 {
        Err(ErrorName::ZeroDivisor)
    } else {
        Ok(left.wrapping_rem(right))
    }
}

/// The product of two integers.
pub fn product(left: i16, right: i16) -> Result<i16, ErrorName>
    ensures { result ≡ spec.product left right }
{
    narrow(left as i32 * right as i32)
}

/// An operation on two integers.
#[inline(always)]
pub fn calculate(operator: Arithmetic, left: i16, right: i16) -> Result<i16, ErrorName>
    ensures { result ≡ spec.calculate operator left right }
{
    match operator {
        Arithmetic::Add => narrow(left as i32 + right as i32),
        Arithmetic::Subtract => narrow(left as i32 - right as i32),
        Arithmetic::Multiply => product(left, right),
        Arithmetic::Divide => quotient(left, right),
        Arithmetic::Modulo => remainder(left, right),
    }
}

/// `and` or `or` of two truth values.
pub fn apply_logic(operator: Logic, left: i16, right: i16) -> i16
    ensures { result ≡ spec.apply_logic operator left right }
{
    match operator {
        Logic::And => truth(is_true(left) && is_true(right)),
        Logic::Or => truth(is_true(left) || is_true(right)),
    }
}

/// The truth value of a relation between two ordinals.
pub fn compare(relation: Comparison, left: i16, right: i16) -> i16
    ensures { result ≡ spec.compare relation left right }
{
    match relation {
        Comparison::Equal => truth(left == right),
        Comparison::NotEqual => truth(left != right),
        Comparison::Less => truth(left < right),
        Comparison::Greater => truth(right < left),
        Comparison::AtMost => truth(left <= right),
        Comparison::AtLeast => truth(right <= left),
    }
}
