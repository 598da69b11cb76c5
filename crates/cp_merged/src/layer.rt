//! The states of a layer, by their rows.

ghost use Rattle.std.specs.Prelude.{◌≡◌, ◌*◌, length};
ghost use Rattle.cp_states.specs.Hashes.{hashes};
ghost use Rattle.cp_merged.specs.Block.{AreDifferentRows, AreRowHashes};

use crate::prefixes::{Prefixes, copy_of};
use cp_states::HashIndex;
use cp_states::hashing::hash_of;
use std::alloc::{AllocError, Global};

/// Different rows, all as long, and the words that lead to the state of each.
pub struct StateLayer {
    /// How many numbers a row has.
    pub width: usize,
    // One row after another.
    pub numbers: Vec<u32>,
    pub index: HashIndex,
    pub leads: Vec<Prefixes>,
    pub ghost long: { length numbers.items ≡ length leads.items * width },
    pub ghost hashed: { AreRowHashes width numbers.items (length leads.items) (hashes index) },
    pub ghost different: { AreDifferentRows width numbers.items (length leads.items) },
}

// One call where it is dropped, not one for each list: proofs of functions that may end early are much shorter.
impl Drop for StateLayer {
    fn drop(self) {
        let StateLayer {
            width: _,
            numbers: _,
            index: _,
            leads: _,
        } = self;
    }
}

impl StateLayer {
    ghost use Rattle.std.specs.Prelude.{◌+◌, ◌<◌, ◌^◌, [], ℕ, map, nat_eq, true, IfNone, IfOk, IfSome, Some};
    ghost use lib.Pointwise.{pointwise};
    ghost use Rattle.cp_states.specs.Hashing.{hash_of as hash_in};
    ghost use Rattle.cp_merged.specs.Code.{keyed};
    ghost use Rattle.cp_merged.specs.Holds.{words_of};
    ghost use Rattle.cp_merged.specs.Block.{row_at};
    ghost use Rattle.cp_merged.specs.Layer.{rows_of};
    ghost use Rattle.cp_merged.specs.Layers.{with_lead};

    /// There is no row.
    pub fn new(alloc: Global, width: usize) -> StateLayer
        ensures none { rows_of result ≡ [] }
        ensures width { result.width ≡ width }
    {
        StateLayer {
            width,
            numbers: Vec::new(alloc),
            index: HashIndex::new(alloc),
            leads: Vec::new(alloc),
        }
    }

    /// How many rows there are.
    pub fn len(&self) -> usize
        ensures { result ≡ length (rows_of self.now) }
    {
        self.leads.len()
    }

    /// The row of a number.
    #[inline(always)]
    pub fn row(&self, number: usize) -> &[u32]
        requires { number < length self.now.leads.items }
        ensures { result.now ≡ row_at self.now.width self.now.numbers.items number }
    {
        let from = number * self.width;
        &self.numbers[from..from + self.width]
    }

    // Whether this is the number of a row.
    #[inline(always)]
    fn is_at(&self, at: usize, row: &[u32]) -> bool
        ensures one { result ≡ true → (at < length self.now.leads.items) × (row_at self.now.width self.now.numbers.items at ≡ row.now) }
        ensures same { at < length self.now.leads.items → row_at self.now.width self.now.numbers.items at ≡ row.now → result ≡ true }
    {
        at < self.leads.len() && self.row(at) == row
    }

    // The number of a row that is there.
    #[inline(always)]
    fn find(&self, hash: u32, row: &[u32]) -> Option<u32>
        requires { hash ≡ hash_in (λ (k : ℕ). k) row.now }
        ensures found { IfSome result (λ n. (n < length self.now.leads.items) × (row_at self.now.width self.now.numbers.items n ≡ row.now)) }
        ensures absent { IfNone result ((n : ℕ) → n < length self.now.leads.items → row_at self.now.width self.now.numbers.items n ≡ row.now → ⊥) }
    {
        self.index.find(
            hash,
            |at|
                ensures one { result ≡ true → (at < length self.entry.now.leads.items) × (row_at self.entry.now.width self.entry.now.numbers.items at ≡ row.entry.now) }
                ensures same { at < length self.entry.now.leads.items → row_at self.entry.now.width self.entry.now.numbers.items at ≡ row.entry.now → result ≡ true }
            { self.is_at(at, row) },
        )
    }

    // One row more, which is new.
    #[inline(never)]
    fn push(
        &mut self,
        alloc: Global,
        hash: u32,
        row: &[u32],
        prefixes: &Prefixes,
    ) -> Result<(), AllocError>
        requires width { length row.now ≡ self.old.width }
        requires hash { hash ≡ hash_in (λ (k : ℕ). k) row.now }
        requires new { (n : ℕ) → n < length self.old.leads.items → row_at self.old.width self.old.numbers.items n ≡ row.now → ⊥ }
        ensures rows { IfOk result (λ _. map keyed (rows_of self.new) ≡ with_lead (pointwise nat_eq) (map keyed (rows_of self.old)) (keyed (row.now, prefixes.now))) }
        ensures width { self.new.width ≡ self.old.width }
    {
        self.numbers.reserve(row.len())?;
        self.leads.reserve(1)?;
        self.index.push(alloc, hash)?;
        let _ = self.numbers.extend_from_slice(row);
        self.leads.push_reserved(copy_of(prefixes));
        Ok(())
    }

    // More words lead to the state of the row of a number.
    #[inline(always)]
    fn merge(&mut self, number: usize, prefixes: &Prefixes)
        requires number { number < length self.old.leads.items }
        requires small { words_of (map keyed (rows_of self.old)) + prefixes.now.count < 10 ^ 126 }
        ensures rows { map keyed (rows_of self.new) ≡ with_lead (pointwise nat_eq) (map keyed (rows_of self.old)) (keyed (row_at self.old.width self.old.numbers.items number, prefixes.now)) }
        ensures width { self.new.width ≡ self.old.width }
    {
        self.leads[number].merge(prefixes);
    }

    /// Words lead to the state of a row. Where that is known, it takes no memory.
    #[inline(always)]
    pub fn add(&mut self, alloc: Global, row: &[u32], prefixes: &Prefixes) -> Result<(), AllocError>
        requires width { length row.now ≡ self.old.width }
        requires small { words_of (map keyed (rows_of self.old)) + prefixes.now.count < 10 ^ 126 }
        ensures rows { IfOk result (λ _. map keyed (rows_of self.new) ≡ with_lead (pointwise nat_eq) (map keyed (rows_of self.old)) (keyed (row.now, prefixes.now))) }
        ensures width { self.new.width ≡ self.old.width }
    {
        let hash = hash_of(row);
        match self.find(hash, row) {
            Some(at) => {
                self.merge(at as usize, prefixes);
                Ok(())
            }
            None => self.push(alloc, hash, row, prefixes),
        }
    }
}
