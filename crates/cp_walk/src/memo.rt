//! Nodes of the tree of words that were walked.

ghost use Rattle.std.specs.Prelude.{◌≡◌, ◌⊎◌, ◌∷◌, [], IfOk, IfSome, nat_eq};
ghost use Rattle.std.specs.Map.{lookup};
ghost use Rattle.std.specs.Cmp.Lexicographic.{bytes_decides, nat_list_eq_equiv};
ghost use Rattle.std.specs.Cmp.{on_equiv, on_per, partial_equiv_from_equiv};
ghost use Rattle.std.proofs.Common.{ap};
ghost use Rattle.indexmap.specs.IndexMap.{insert_entry};
ghost use lib.Pointwise.{pointwise};
ghost use Rattle.cp_key.specs.Key.{core_key};
ghost use Rattle.cp_machine.specs.System.{machine_of};

use arrayvec::ArrayVec;
use cp_key::{freeze_core, most_bytes};
use cp_machine::State;
use cp_run::{Halt, OutcomeKind};
use indexmap::IndexMap;
use std::alloc::{AllocError, Global};
use std::hash::{Hash, Hasher};

/// The most nodes that are remembered.
pub const MOST_NODES: usize = 1024;

/// The rows from one place up to another.
#[derive(Clone, Copy, PartialEq, Eq)]
pub struct Span {
    pub first: usize,
    pub end: usize,
}

/// The key of a node: how many choices are left, and then the key of the core of its state. Nodes of one key differ in what led to
/// them and in what was displayed until then, and in nothing that comes after.
#[derive(Drop)]
pub struct NodeKey {
    pub bytes: ArrayVec<u8, 500>,
}

impl PartialEq for NodeKey {
    ghost eq = { λ x y. pointwise nat_eq x.bytes.items y.bytes.items };

    ghost laws = { on_per (λ x. x.bytes.items) (partial_equiv_from_equiv nat_list_eq_equiv) };

    fn eq(&self, other: &Self) -> bool {
        self.bytes.as_slice() == other.bytes.as_slice()
    }
}

impl Eq for NodeKey {
    ghost laws = { on_equiv (λ x. x.bytes.items) nat_list_eq_equiv };
}

impl Hash for NodeKey {
    ghost hash_input = { λ x. x.bytes.items ∷ [] };

    ghost respects_eq = { λ x y h. ap (λ bytes. bytes ∷ []) ((bytes_decides x.bytes.items y.bytes.items).0 h) };

    fn hash<H: Hasher>(&self, state: &mut H) {
        state.write(self.bytes.as_slice());
    }
}

/// Nodes that were walked, with their rows. All its memory is taken at once.
#[derive(Drop)]
pub struct Walked {
    pub nodes: IndexMap<NodeKey, Span>,
    // Room for a key.
    scratch: Vec<u8>,
}

impl Walked {
    /// None was walked. There is room for the keys of the states of a run, of which one is given.
    pub fn new(alloc: Global, state: &State) -> Result<Walked, AllocError>
        ensures { IfOk result (λ w. w.nodes.entries ≡ []) }
    {
        Ok(Walked {
            nodes: IndexMap::with_capacity(alloc, MOST_NODES)?,
            scratch: Vec::with_capacity(alloc, most_bytes(state).saturating_add(1))?,
        })
    }

    /// The key of a node where a choice is due and some are left, if it is not too long to be remembered.
    // Else its call is made at each leaf.
    #[inline(always)]
    pub fn key_of(
        &mut self,
        state: &State,
        halt: Halt<OutcomeKind>,
        left: u8,
    ) -> Result<Option<NodeKey>, AllocError>
        ensures due { IfOk result (λ o. IfSome o (λ k. halt ≡ Halt.Choice)) }
        ensures key { IfOk result (λ o. IfSome o (λ k. k.bytes.items ≡ left ∷ core_key (machine_of state.now))) }
        ensures nodes { self.new.nodes.entries ≡ self.old.nodes.entries }
    {
        if left == 0 || matches!(halt, Halt::Ended(_)) {
            return Ok(None);
        }
        self.scratch.clear();
        self.scratch.push(left)?;
        freeze_core(state, &mut self.scratch)?;
        let mut bytes = ArrayVec::new();
        if bytes.try_extend_from_slice(&self.scratch).is_err() {
            return Ok(None);
        }
        Ok(Some(NodeKey { bytes }))
    }

    /// The rows of the node of this key, if it was walked.
    pub fn find(&self, key: &NodeKey) -> Option<Span>
        ensures { result ≡ lookup (λ k. pointwise nat_eq key.now.bytes.items k.bytes.items) self.now.nodes.entries }
    {
        self.nodes.get(key).copied()
    }

    /// A node was walked. It is remembered where there is room.
    pub fn add(&mut self, key: NodeKey, span: Span)
        ensures { (self.new.nodes.entries ≡ self.old.nodes.entries) ⊎ (self.new.nodes.entries ≡ insert_entry (λ j k. pointwise nat_eq j.bytes.items k.bytes.items) self.old.nodes.entries key span) }
    {
        if self.nodes.len() < MOST_NODES {
            let _ = self.nodes.insert(key, span);
        }
    }
}
