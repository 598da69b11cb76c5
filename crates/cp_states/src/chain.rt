//! Entries in chains, by their hashes.

ghost use Rattle.std.specs.Prelude.{◌≡◌, ◌<◌, ◌≤◌, ℕ, length, slice_index_or};
ghost use Rattle.cp_states.specs.Chains.{AreChainedBelow, chain_of as chain_at, link_at};

/// An entry in its chain.
#[derive(Clone, Copy)]
pub struct Link {
    pub hash: u32,
    /// The entry of the same chain before it, plus one; 0 where there is none.
    pub next: u32,
}

/// The chain of a hash, of so many.
#[inline(always)]
pub fn chain_of(hash: u32, chains: usize) -> usize
    requires { 0 < chains }
    ensures value { result ≡ chain_at hash chains }
    ensures within { result < chains }
{
    hash as usize & (chains - 1)
}

/// Puts all entries into chains, which are empty so far.
pub fn chain_all(heads: &mut [u32], links: &mut Vec<Link>)
    requires some { 0 < length heads.old }
    requires empty { (chain : ℕ) → slice_index_or heads.old chain 0 ≡ 0 }
    requires few { length links.old.items ≤ 2000000000 }
    ensures count { length heads.new ≡ length heads.old }
    ensures chained { AreChainedBelow heads.new links.new.items (length links.new.items) }
    ensures long { length links.new.items ≡ length links.old.items }
    ensures same { (i : ℕ) → (link_at links.new.items i).hash ≡ (link_at links.old.items i).hash }
{
    let chains = heads.len();
    for at in 0..links.len() {
        let hash = links[at].hash;
        let chain = chain_of(hash, chains);
        let next = heads[chain];
        links[at] = Link { hash, next };
        heads[chain] = at as u32 + 1;
    }
}
