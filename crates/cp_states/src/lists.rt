//! Lists by numbers.

ghost use Rattle.std.specs.Prelude.{length};
ghost use Rattle.cp_states.specs.Pieces.{AreDifferent, AreHashed, AreInside};
ghost use Rattle.cp_states.specs.Hashes.{hashes};

use crate::hashing::{Compared, Hashed, hash_of};
use crate::index::{HashIndex, MOST};
use cp_machine::take_list;
use std::alloc::{AllocError, Global};

/// Different lists, each with a number.
#[derive(Drop)]
pub struct ListStore<T: Hashed> {
    // One list after another.
    pub items: Vec<T>,
    // Where each ends.
    pub ends: Vec<usize>,
    pub index: HashIndex,
    pub ghost inside: { AreInside ends.items (length items.items) },
    pub ghost hashed: { AreHashed T.code items.items ends.items (hashes index) },
    pub ghost different: { AreDifferent items.items ends.items },
}

impl<T: Hashed + Compared> ListStore<T> {
    ghost use Rattle.std.specs.Prelude.{◌≡◌, ◌<◌, ◌≤◌, ℕ, length, true, vec_capacity, IfNone, IfOk, IfSome};
    ghost use Rattle.cp_states.specs.Hashing.{hash_of as hash_in};
    ghost use Rattle.cp_states.specs.Pieces.{piece_at, KeepPieces};

    /// There is no list.
    pub fn new(alloc: Global) -> ListStore<T>
        ensures { length result.ends.items ≡ 0 }
    {
        ListStore {
            items: Vec::new(alloc),
            ends: Vec::new(alloc),
            index: HashIndex::new(alloc),
        }
    }

    /// How many lists there are.
    pub fn len(&self) -> usize
        ensures { result ≡ length self.now.ends.items }
    {
        self.ends.len()
    }

    /// The list with a number.
    #[inline(always)]
    pub fn at(&self, number: usize) -> &[T]
        requires { number < length self.now.ends.items }
        ensures { result.now ≡ piece_at self.now.items.items self.now.ends.items number }
    {
        let from = if number == 0 {
            0
        } else {
            self.ends[number - 1]
        };
        &self.items[from..self.ends[number]]
    }

    // Whether this is the number of a list.
    #[inline(always)]
    fn is_at(&self, at: usize, list: &[T]) -> bool
        ensures one { result ≡ true → (at < length self.now.ends.items) × (piece_at self.now.items.items self.now.ends.items at ≡ list.now) }
        ensures same { at < length self.now.ends.items → piece_at self.now.items.items self.now.ends.items at ≡ list.now → result ≡ true }
    {
        at < self.ends.len() && T::are(self.at(at), list)
    }

    // The number of a list that is there.
    #[inline(always)]
    fn find(&self, hash: u32, list: &[T]) -> Option<u32>
        requires { hash ≡ hash_in T.code list.now }
        ensures found { IfSome result (λ n. (n < length self.now.ends.items) × (piece_at self.now.items.items self.now.ends.items n ≡ list.now)) }
        ensures absent { IfNone result ((n : ℕ) → n < length self.now.ends.items → piece_at self.now.items.items self.now.ends.items n ≡ list.now → ⊥) }
    {
        self.index.find(
            hash,
            |at|
                ensures one { result ≡ true → (at < length self.entry.now.ends.items) × (piece_at self.entry.now.items.items self.entry.now.ends.items at ≡ list.entry.now) }
                ensures same { at < length self.entry.now.ends.items → piece_at self.entry.now.items.items self.entry.now.ends.items at ≡ list.entry.now → result ≡ true }
            { self.is_at(at, list) },
        )
    }

    /// The number of a list, which is new where the list is.
    #[inline(always)]
    pub fn number_of(&mut self, alloc: Global, list: &[T]) -> Result<u32, AllocError>
        ensures number { IfOk result (λ n. (n < length self.new.ends.items) × (piece_at self.new.items.items self.new.ends.items n ≡ list.now)) }
        ensures kept { KeepPieces self.old.items.items self.old.ends.items self.new.items.items self.new.ends.items }
    {
        let hash = hash_of(list);
        match self.find(hash, list) {
            Some(number) => Ok(number),
            None => self.add(alloc, hash, list),
        }
    }

    // One list more, which is new.
    #[inline(never)]
    fn add(&mut self, alloc: Global, hash: u32, list: &[T]) -> Result<u32, AllocError>
        requires hash { hash ≡ hash_in T.code list.now }
        requires new { (n : ℕ) → n < length self.old.ends.items → piece_at self.old.items.items self.old.ends.items n ≡ list.now → ⊥ }
        ensures number { IfOk result (λ n. (n < length self.new.ends.items) × (piece_at self.new.items.items self.new.ends.items n ≡ list.now)) }
        ensures kept { KeepPieces self.old.items.items self.old.ends.items self.new.items.items self.new.ends.items }
    {
        let number = self.ends.len();
        if number >= MOST {
            return Err(AllocError);
        }
        self.items.reserve(list.len())?;
        self.ends.reserve(1)?;
        self.index.push(alloc, hash)?;
        let _ = self.items.extend_from_slice(list);
        self.ends.push_reserved(self.items.len());
        Ok(number as u32)
    }

    /// A list becomes the one with a number.
    #[inline(always)]
    pub fn take_anew(&self, number: u32, list: &mut Vec<T>)
        requires number { number < length self.now.ends.items }
        requires room { length (piece_at self.now.items.items self.now.ends.items number) ≤ vec_capacity list.old }
        ensures items { list.new.items ≡ piece_at self.now.items.items self.now.ends.items number }
        ensures room { vec_capacity list.old ≤ vec_capacity list.new }
    {
        take_list(list, self.at(number as usize));
    }
}
