//! What has a key.

ghost use Rattle.std.specs.Prelude.{◌≡◌, ◌+◌, ◌∷◌, ◌++◌, ◌≤◌, [], length, ℕ, List, IfOk, IfSome, IsTrue, flat_map, take, vec_capacity, vec_len};
ghost use Rattle.cp_key.specs.Numbers.{list_key};

use crate::reader::KeyReader;
use std::alloc::AllocError;

/// What is written as bytes, and read back from them.
pub trait Keyed: Copy + Drop {
    ghost key_of: { Self → List ℕ };

    /// Appends the key.
    fn freeze(self, key: &mut Vec<u8>) -> Result<(), AllocError>
        ensures { IfOk result (λ _. key.new.items ≡ key.old.items ++ key_of self) };

    /// The value whose key is next.
    fn thaw(key: &mut KeyReader) -> Self
        ensures { (x : Self) (more : List ℕ) → key.old.bytes.now ≡ key_of x ++ more → (result ≡ x) × (key.new.bytes.now ≡ more) };

    /// The key, where it is seen at once that it is one byte.
    #[inline(always)]
    fn short(self) -> Option<u8>
        ensures { IfSome result (λ byte. key_of self ≡ byte ∷ []) }
    {
        None
    }

    /// The value that has this byte as its key, where that is seen at once.
    #[inline(always)]
    fn of_byte(byte: u8) -> Option<Self>
        ensures { (x : Self) (rest more : List ℕ) → byte ∷ rest ≡ key_of x ++ more → IfSome result (λ y. (y ≡ x) × (rest ≡ more)) }
    {
        None
    }
}

/// Appends the key of a list.
pub fn freeze_list<T: Keyed>(list: &[T], key: &mut Vec<u8>) -> Result<(), AllocError>
    ensures { IfOk result (λ _. key.new.items ≡ key.old.items ++ list_key T.key_of list.now) }
{
    list.len().freeze(key)?;
    for x in list {
        x.freeze(key)?;
    }
    Ok(())
}

/// Appends the key of a list of numbers, of which most are one byte.
#[inline(always)]
pub fn freeze_numbers<T: Keyed>(list: &[T], key: &mut Vec<u8>) -> Result<(), AllocError>
    ensures { IfOk result (λ _. key.new.items ≡ key.old.items ++ list_key T.key_of list.now) }
{
    let count = list.len();
    count.freeze(key)?;
    key.reserve(count)?;
    let done = freeze_short(list, key);
    if done == count {
        return Ok(());
    }
    freeze_each(&list[done..], key)
}

// Appends the keys up to the first of more than one byte, and tells how many these are.
#[inline(always)]
fn freeze_short<T: Keyed>(list: &[T], key: &mut Vec<u8>) -> usize
    requires { vec_len key.old + length list.now ≤ vec_capacity key.old }
    ensures items { key.new.items ≡ key.old.items ++ flat_map T.key_of (take result list.now) }
    ensures within { result ≤ length list.now }
{
    let begin = key.len();
    for x in list {
        match x.short() {
            Some(byte) => key.push_reserved(byte),
            None => return key.len() - begin,
        }
    }
    list.len()
}

#[cold]
#[inline(never)]
fn freeze_each<T: Keyed>(list: &[T], key: &mut Vec<u8>) -> Result<(), AllocError>
    ensures { IfOk result (λ _. key.new.items ≡ key.old.items ++ flat_map T.key_of list.now) }
{
    for x in list {
        x.freeze(key)?;
    }
    Ok(())
}

/// The list whose key is next, in a vector that has room for it.
#[inline(always)]
pub fn thaw_list<T: Keyed>(key: &mut KeyReader, list: &mut Vec<T>)
    ensures list { (xs : List T) (more : List ℕ) → key.old.bytes.now ≡ list_key T.key_of xs ++ more → length xs ≤ vec_capacity list.old → (list.new.items ≡ xs) × (key.new.bytes.now ≡ more) }
    ensures room { vec_capacity list.old ≤ vec_capacity list.new }
{
    list.clear();
    let count = usize::thaw(key);
    thaw_elements(key, count, list);
}

#[inline(always)]
fn thaw_elements<T: Keyed>(key: &mut KeyReader, count: usize, list: &mut Vec<T>)
    requires { list.old.items ≡ [] }
    ensures list { (xs : List T) (more : List ℕ) → key.old.bytes.now ≡ flat_map T.key_of xs ++ more → length xs ≡ count → length xs ≤ vec_capacity list.old → (list.new.items ≡ xs) × (key.new.bytes.now ≡ more) }
    ensures room { vec_capacity list.old ≤ vec_capacity list.new }
{
    // No key of a state asks for more than there is room for. So there is no need to look at each value.
    let room = list.capacity();
    let count = if count < room { count } else { room };
    for at in 0..count {
        list.push_reserved(T::thaw(key));
    }
}

/// The list of numbers whose key is next, in a vector that has room for it. Most numbers are one byte.
#[inline(always)]
pub fn thaw_numbers<T: Keyed>(key: &mut KeyReader, list: &mut Vec<T>)
    ensures list { (xs : List T) (more : List ℕ) → key.old.bytes.now ≡ list_key T.key_of xs ++ more → length xs ≤ vec_capacity list.old → (list.new.items ≡ xs) × (key.new.bytes.now ≡ more) }
    ensures room { vec_capacity list.old ≤ vec_capacity list.new }
{
    list.clear();
    let count = usize::thaw(key);
    let room = list.capacity();
    let count = if count < room { count } else { room };
    if count <= key.bytes.len() && thaw_short_ones(&key.bytes[..count], list) {
        key.bytes = &key.bytes[count..];
    } else {
        list.clear();
        thaw_elements(key, count, list);
    }
}

// Each byte as a key by itself, where all are.
#[inline(always)]
fn thaw_short_ones<T: Keyed>(bytes: &[u8], list: &mut Vec<T>) -> bool
    requires empty { list.old.items ≡ [] }
    requires fits { length bytes.now ≤ vec_capacity list.old }
    ensures list { (xs : List T) (rest more : List ℕ) → bytes.now ++ rest ≡ flat_map T.key_of xs ++ more → length xs ≡ length bytes.now → IsTrue result → (list.new.items ≡ xs) × (rest ≡ more) }
    ensures room { vec_capacity list.old ≤ vec_capacity list.new }
{
    for byte in bytes {
        match T::of_byte(*byte) {
            Some(x) => list.push_reserved(x),
            None => return false,
        }
    }
    true
}
