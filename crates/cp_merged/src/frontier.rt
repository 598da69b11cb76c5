//! Where words have arrived: at ends, and at the states of a layer.

ghost use Rattle.std.specs.Prelude.{◌≡◌, ◌+◌, ◌++◌, ◌^◌, ◌<◌, [], List, map, IfOk, IfSome};
ghost use Rattle.std.specs.Map.{lookup};
ghost use Rattle.cp_walk.specs.Groups.{Tally};
ghost use Rattle.cp_walk.specs.Report.{same_outcome};
ghost use Rattle.cp_merged.specs.Code.{end_of};
ghost use Rattle.cp_merged.specs.Holds.{AreEnds, counts};
ghost use Rattle.cp_merged.specs.Layer.{rows_of};
ghost use Rattle.cp_merged.specs.Layers.{with_tally};

use crate::end_key::EndKey;
use crate::layer::StateLayer;
use crate::prefixes::{Prefixes, copy_of};
use cp_machine::Shown;
use cp_run::{Outcome, OutcomeKind, Output};
use indexmap::IndexMap;
use std::alloc::{AllocError, Global};
use std::mem;

/// The most outcomes that are kept.
pub const MOST_OUTCOMES: usize = 50_000;

/// The outcomes of the words that have ended.
pub type Ends = IndexMap<EndKey, Prefixes>;

// An end that is known takes no memory.
fn add_end(ended: &mut Ends, key: EndKey, prefixes: &Prefixes) -> Result<(), AllocError>
    requires { IfSome (lookup (λ k. same_outcome key.outcome k.outcome) ended.old.entries) (λ y. y.count + prefixes.now.count < 10 ^ 126) }
    ensures { IfOk result (λ _. map end_of ended.new.entries ≡ with_tally same_outcome (map end_of ended.old.entries) (end_of (key, prefixes.now))) }
{
    match ended.get_mut(&key) {
        Some(known) => known.merge(prefixes),
        None => {
            ended.insert(key, copy_of(prefixes))?;
        }
    }
    Ok(())
}

/// Where words have arrived: the outcomes of those that have ended, and the layer that is made.
pub struct Frontier {
    pub ended: Ends,
    pub layer: StateLayer,
}

// One call where it is dropped, not one for each list: proofs of functions that may end early are much shorter.
impl Drop for Frontier {
    fn drop(self) {
        let Frontier { ended: _, layer: _ } = self;
    }
}

impl Frontier {
    /// Nothing has arrived. Rows have so many numbers.
    pub fn new(alloc: Global, width: usize) -> Frontier
        ensures ended { result.ended.entries ≡ [] }
        ensures layer { rows_of result.layer ≡ [] }
        ensures width { result.layer.width ≡ width }
    {
        Frontier {
            ended: IndexMap::new(alloc),
            layer: StateLayer::new(alloc, width),
        }
    }

    /// The layer, in whose place an empty one begins.
    pub fn take_layer(&mut self, alloc: Global) -> StateLayer
        ensures layer { result ≡ self.old.layer }
        ensures empty { rows_of self.new.layer ≡ [] }
        ensures width { self.new.layer.width ≡ self.old.layer.width }
        ensures ended { self.new.ended.entries ≡ self.old.ended.entries }
    {
        let next = StateLayer::new(alloc, self.layer.width);
        mem::replace(&mut self.layer, next)
    }

    /// The outcomes.
    pub fn into_ends(self) -> Ends
        ensures { result.entries ≡ self.ended.entries }
    {
        let Frontier { ended, layer: _ } = self;
        ended
    }

    /// Words end where this was displayed, and more. Where there are too many outcomes already, nothing changes.
    pub fn end(
        &mut self,
        alloc: Global,
        kind: OutcomeKind,
        shown: &[Shown],
        more: &[Shown],
        prefixes: &Prefixes,
    ) -> Result<(), AllocError>
        requires { (ts : List Tally) × AreEnds self.old.ended.entries ts × (counts ts + prefixes.now.count < 10 ^ 126) }
        ensures ended { IfOk result (λ _. (ts : List Tally) → AreEnds self.old.ended.entries ts → AreEnds self.new.ended.entries (with_tally same_outcome ts (record { first = record { word = prefixes.now.first.items; outcome = record { kind = kind; output = shown.now ++ more.now } }; count = prefixes.now.count }))) }
        ensures layer { self.new.layer ≡ self.old.layer }
    {
        if self.ended.len() > MOST_OUTCOMES {
            return Ok(());
        }
        let output = Output::join(alloc, shown, more)?;
        let outcome = Outcome { kind, output };
        add_end(&mut self.ended, EndKey { outcome }, prefixes)?;
        Ok(())
    }
}
