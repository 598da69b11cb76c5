//! Where entries are found by their hashes.

ghost use Rattle.std.specs.Prelude.{◌≤◌, length};
ghost use Rattle.cp_states.specs.Chains.{AreChained};

use crate::chain::{Link, chain_all, chain_of};
use std::alloc::{AllocError, Global};

/// The most entries.
pub const MOST: usize = 2_000_000_000;

const FIRST_CHAINS: usize = 16;

/// From a hash to the numbers of the entries that have it. It sees no entry.
#[derive(Drop)]
pub struct HashIndex {
    // The last entry of each chain, plus one.
    pub heads: Vec<u32>,
    pub links: Vec<Link>,
    pub ghost chained: { AreChained heads.items links.items },
    pub ghost few: { length links.items ≤ 2000000000 },
}

impl HashIndex {
    ghost use Rattle.std.specs.Prelude.{◌≡◌, ◌<◌, ◌≤◌, ◌++◌, ◌∷◌, [], ℕ, length, IfNone, IfOk, IfSome, OnErr, false, true, vec_capacity, vec_len};
    ghost use Rattle.cp_states.specs.Hashes.{hash_at, hashes};

    /// There is no entry.
    pub fn new(alloc: Global) -> HashIndex
        ensures { hashes result ≡ [] }
    {
        HashIndex {
            heads: Vec::new(alloc),
            links: Vec::new(alloc),
        }
    }

    /// How many entries there are.
    #[inline(always)]
    pub fn len(&self) -> usize
        ensures { result ≡ length (hashes self.now) }
    {
        self.links.len()
    }

    /// An entry that has this hash and is the one that is looked for.
    #[inline(always)]
    pub fn find<F: Fn(usize) -> bool>(&self, hash: u32, is_it: F) -> Option<u32>
        requires { (i : ℕ) → i < length (hashes self.now) → F.pre is_it i }
        ensures found { IfSome result (λ i. (i < length (hashes self.now)) × F.post is_it i true) }
        ensures absent { IfNone result ((i : ℕ) → i < length (hashes self.now) → hash_at self.now i ≡ hash → F.post is_it i false) }
    {
        let chains = self.heads.len();
        if chains == 0 {
            return None;
        }
        let mut next = self.heads[chain_of(hash, chains)];
        for _ in 0..self.links.len() {
            if next == 0 {
                return None;
            }
            let at = next - 1;
            let link = self.links[at as usize];
            if link.hash == hash && is_it(at as usize) {
                return Some(at);
            }
            next = link.next;
        }
        None
    }

    // Twice as many chains.
    #[inline(never)]
    fn widen(&mut self, alloc: Global) -> Result<(), AllocError>
        requires { length self.old.heads.items ≤ 2000000000 }
        ensures some { IfOk result (λ _. 0 < length self.new.heads.items) }
        ensures same { hashes self.new ≡ hashes self.old }
        ensures long { IfOk result (λ _. length self.new.links.items ≡ length self.old.links.items) }
    {
        let count = self.heads.len();
        let wider = if count == 0 { FIRST_CHAINS } else { 2 * count };
        let mut heads = Vec::from_elem(alloc, 0, wider)?;
        chain_all(&mut heads, &mut self.links);
        self.heads = heads;
        Ok(())
    }

    // Puts one entry more into its chain, where there is room.
    #[inline(always)]
    fn put(&mut self, hash: u32)
        requires some { 0 < length self.old.heads.items }
        requires few { length self.old.links.items < 2000000000 }
        requires room { vec_len self.old.links < vec_capacity self.old.links }
        ensures { hashes self.new ≡ hashes self.old ++ hash ∷ [] }
    {
        let count = self.links.len();
        let chain = chain_of(hash, self.heads.len());
        let next = self.heads[chain];
        self.links.push_reserved(Link { hash, next });
        self.heads[chain] = count as u32 + 1;
    }

    /// One entry more, with this hash.
    pub fn push(&mut self, alloc: Global, hash: u32) -> Result<(), AllocError>
        ensures more { IfOk result (λ _. hashes self.new ≡ hashes self.old ++ hash ∷ []) }
        ensures same { OnErr result (hashes self.new ≡ hashes self.old) }
    {
        let count = self.links.len();
        if count >= MOST {
            return Err(AllocError);
        }
        if count >= self.heads.len() {
            self.widen(alloc)?;
        }
        self.links.reserve(1)?;
        self.put(hash);
        Ok(())
    }
}
