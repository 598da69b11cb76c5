//! Numbers as bytes.

ghost use Rattle.std.specs.Prelude.{◌≡◌, ◌<◌, ◌∷◌, ◌++◌, ℕ, ℤ, List, IfOk};
ghost use Rattle.cp_key.specs.Numbers.{byte_key, digits, integer_key, number_key, place_of as place_of_number, short_key};

use crate::keyed::Keyed;
use crate::reader::KeyReader;
use std::alloc::AllocError;

impl Keyed for u8 {
    ghost key_of = { byte_key };

    #[inline(always)]
    fn freeze(self, key: &mut Vec<u8>) -> Result<(), AllocError> {
        key.push(self)?;
        Ok(())
    }

    #[inline(always)]
    fn thaw(key: &mut KeyReader) -> u8 {
        key.byte()
    }
}

impl Keyed for usize {
    ghost key_of = { number_key };

    #[inline(always)]
    fn freeze(self, key: &mut Vec<u8>) -> Result<(), AllocError> {
        if self < 254 {
            key.push(self as u8)?;
            Ok(())
        } else if self < 65536 {
            freeze_two(self, key)
        } else {
            freeze_eight(self, key)
        }
    }

    #[inline(always)]
    fn thaw(key: &mut KeyReader) -> usize {
        let byte = key.byte();
        if byte < 254 {
            usize::from(byte)
        } else if byte == 254 {
            thaw_two(key)
        } else {
            thaw_eight(key)
        }
    }

    #[inline(always)]
    fn short(self) -> Option<u8> {
        if self < 254 { Some(self as u8) } else { None }
    }

    #[inline(always)]
    fn of_byte(byte: u8) -> Option<usize> {
        if byte < 254 {
            Some(usize::from(byte))
        } else {
            None
        }
    }
}

#[cold]
#[inline(never)]
fn freeze_two(number: usize, key: &mut Vec<u8>) -> Result<(), AllocError>
    requires { number < 65536 }
    ensures { IfOk result (λ _. key.new.items ≡ key.old.items ++ 254 ∷ digits 1 number) }
{
    key.extend_from_slice(&[254, (number % 256) as u8, (number / 256) as u8])
}

#[cold]
#[inline(never)]
fn freeze_eight(number: usize, key: &mut Vec<u8>) -> Result<(), AllocError>
    ensures { IfOk result (λ _. key.new.items ≡ key.old.items ++ 255 ∷ digits 7 number) }
{
    key.extend_from_slice(&[
        255,
        (number % 256) as u8,
        (number / 256 % 256) as u8,
        (number / 256 / 256 % 256) as u8,
        (number / 256 / 256 / 256 % 256) as u8,
        (number / 256 / 256 / 256 / 256 % 256) as u8,
        (number / 256 / 256 / 256 / 256 / 256 % 256) as u8,
        (number / 256 / 256 / 256 / 256 / 256 / 256 % 256) as u8,
        (number / 256 / 256 / 256 / 256 / 256 / 256 / 256) as u8,
    ])
}

#[inline(always)]
fn thaw_two(key: &mut KeyReader) -> usize
    ensures { (n : ℕ) (more : List ℕ) → key.old.bytes.now ≡ digits 1 n ++ more → (result ≡ n) × (key.new.bytes.now ≡ more) }
{
    let low = usize::from(key.byte());
    low + 256 * usize::from(key.byte())
}

#[inline(always)]
fn thaw_eight(key: &mut KeyReader) -> usize
    ensures { (n : ℕ) (more : List ℕ) → key.old.bytes.now ≡ digits 7 n ++ more → (result ≡ n) × (key.new.bytes.now ≡ more) }
{
    let first = usize::from(key.byte());
    let second = usize::from(key.byte());
    let third = usize::from(key.byte());
    let fourth = usize::from(key.byte());
    let fifth = usize::from(key.byte());
    let sixth = usize::from(key.byte());
    let seventh = usize::from(key.byte());
    let eighth = usize::from(key.byte());
    let high = fifth + 256 * (sixth + 256 * (seventh + 256 * eighth));
    first + 256 * (second + 256 * (third + 256 * (fourth + 256 * high)))
}

impl Keyed for i16 {
    ghost key_of = { integer_key };

    #[inline(always)]
    fn freeze(self, key: &mut Vec<u8>) -> Result<(), AllocError> {
        if 0 <= self && self < 255 {
            key.push(self as u8)?;
            Ok(())
        } else {
            freeze_pair(place_of(self), key)
        }
    }

    #[inline(always)]
    fn thaw(key: &mut KeyReader) -> i16 {
        match key.byte() {
            255 => at_place(thaw_pair(key)),
            byte => i16::from(byte),
        }
    }

    #[inline(always)]
    fn short(self) -> Option<u8> {
        if 0 <= self && self < 255 {
            Some(self as u8)
        } else {
            None
        }
    }

    #[inline(always)]
    fn of_byte(byte: u8) -> Option<i16> {
        if byte < 255 {
            Some(i16::from(byte))
        } else {
            None
        }
    }
}

fn place_of(number: i16) -> u16
    ensures { result ≡ place_of_number number }
{
    if number < 0 {
        2 * (number.unsigned_abs() - 1) + 1
    } else {
        2 * number.unsigned_abs()
    }
}

// The number at a place.
fn at_place(place: u16) -> i16
    ensures { (number : ℤ) → place ≡ place_of_number number → result ≡ number }
{
    let half = (place / 2) as i16;
    if place % 2 == 0 { half } else { -half - 1 }
}

/// Appends the key of a number below 65536.
#[inline(always)]
pub fn freeze_short(number: u16, key: &mut Vec<u8>) -> Result<(), AllocError>
    ensures { IfOk result (λ _. key.new.items ≡ key.old.items ++ short_key number) }
{
    if number < 255 {
        key.push(number as u8)?;
        Ok(())
    } else {
        freeze_pair(number, key)
    }
}

#[cold]
#[inline(never)]
fn freeze_pair(number: u16, key: &mut Vec<u8>) -> Result<(), AllocError>
    ensures { IfOk result (λ _. key.new.items ≡ key.old.items ++ 255 ∷ digits 1 number) }
{
    key.extend_from_slice(&[255, (number % 256) as u8, (number / 256) as u8])
}

/// The number below 65536 whose key is next.
#[inline(always)]
pub fn thaw_short(key: &mut KeyReader) -> u16
    ensures { (n : ℕ) (more : List ℕ) → key.old.bytes.now ≡ short_key n ++ more → (result ≡ n) × (key.new.bytes.now ≡ more) }
{
    match key.byte() {
        255 => thaw_pair(key),
        byte => u16::from(byte),
    }
}

#[inline(always)]
fn thaw_pair(key: &mut KeyReader) -> u16
    ensures { (n : ℕ) (more : List ℕ) → key.old.bytes.now ≡ digits 1 n ++ more → (result ≡ n) × (key.new.bytes.now ≡ more) }
{
    let low = u16::from(key.byte());
    low + 256 * u16::from(key.byte())
}
