//! The ends at which all wait.

ghost use Rattle.std.specs.Prelude.{◌≡◌, ◌∷◌, [], true, Contains, IfOk, length, option_map, slice_get};
ghost use Rattle.cp_machine.specs.System.{machine_of, IsStateOf};
ghost use Rattle.cp_run.specs.Code.{node_of};
ghost use Rattle.cp_run.specs.Slots.{slots};
ghost use Rattle.cp_endless_laws.specs.Silent.{waits_on_slots};
ghost use Rattle.cp_layers.specs.Adding.{Adds, HasNoOthers};
ghost use Rattle.cp_layers.specs.Leading.{with_word};
ghost use Rattle.cp_waiting_ends.specs.Waiting.{end_seen, ends_seen, ends_words, entry_seen, entry_word, is_waiting, those_in, waits_at};

use crate::end::WaitingEnd;
use cp_machine::State;
use cp_run::{Halt, OutcomeKind};
use cp_search::SearchJob;
use indexmap::IndexMap;
use std::alloc::{AllocError, Global};

/// Ends at which all wait, each once, with a word that leads there.
#[derive(Drop)]
pub struct WaitingEnds {
    pub known: IndexMap<WaitingEnd, Vec<u8>>,
}

impl WaitingEnds {
    /// None.
    pub fn none(alloc: Global) -> WaitingEnds
        ensures marks { ends_seen result ≡ [] }
        ensures words { ends_words result ≡ [] }
    {
        WaitingEnds {
            known: IndexMap::new(alloc),
        }
    }

    /// How many there are.
    pub fn len(&self) -> usize
        ensures { result ≡ length self.now.known.entries }
    {
        self.known.len()
    }

    /// The one of this number, with its word.
    pub fn get(&self, number: usize) -> Option<(&WaitingEnd, &[u8])>
        ensures { option_map (λ x. (end_seen x.0.now, x.1.now)) result ≡ option_map entry_word (slice_get self.now.known.entries number) }
    {
        let (end, word) = self.known.get_index(number)?;
        Some((end, word.as_slice()))
    }

    /// Whether it is one of them.
    pub fn has(&self, end: &WaitingEnd) -> bool
        ensures { result ≡ true → Contains (ends_seen self.now) (end_seen end.now) }
    {
        self.known.contains_key(end)
    }

    /// One more, with a word that leads there: of several the first one in dictionary order is kept.
    pub fn add(&mut self, alloc: Global, end: WaitingEnd, word: &[u8]) -> Result<(), AllocError>
        ensures marks { IfOk result (λ _. Adds (ends_seen self.old) (end_seen end ∷ []) (ends_seen self.new)) }
        ensures words { IfOk result (λ _. HasNoOthers (ends_words self.old) ((end_seen end, word.now) ∷ []) (ends_words self.new)) }
    {
        if self.has_before(&end, word) {
            return Ok(());
        }
        let mut first = Vec::new(alloc);
        first.extend_from_slice(word)?;
        self.known.insert(end, first)?;
        Ok(())
    }

    // Whether it is one of them, with this word or one before it.
    fn has_before(&self, end: &WaitingEnd, word: &[u8]) -> bool
        ensures { result ≡ true → Contains (ends_seen self.now) (end_seen end.now) }
    {
        match self.known.get(end) {
            Some(known) => known.as_slice() <= word,
            None => false,
        }
    }

    /// The end of this number of others.
    pub fn add_number(
        &mut self,
        alloc: Global,
        others: &WaitingEnds,
        number: usize,
    ) -> Result<(), AllocError>
        ensures marks { IfOk result (λ _. Adds (ends_seen self.old) (those_in (option_map entry_seen (slice_get others.now.known.entries number))) (ends_seen self.new)) }
        ensures words { IfOk result (λ _. HasNoOthers (ends_words self.old) (those_in (option_map entry_word (slice_get others.now.known.entries number))) (ends_words self.new)) }
    {
        match others.get(number) {
            Some((end, word)) => {
                let copy = end.copy(alloc)?;
                self.add(alloc, copy, word)
            }
            None => Ok(()),
        }
    }

    /// The end to which a word led, if all wait there.
    pub fn arrive(
        &mut self,
        job: &SearchJob<'_>,
        state: &State,
        halt: Halt<OutcomeKind>,
        word: &[u8],
    ) -> Result<(), AllocError>
        requires { IsStateOf job.now.run.program.now state.now }
        ensures marks { IfOk result (λ _. Adds (ends_seen self.old) (waits_at (slots job.now.run.program.now job.now.run.limits.discipline) waits_on_slots (node_of halt (machine_of state.now))) (ends_seen self.new)) }
        ensures words { IfOk result (λ _. HasNoOthers (ends_words self.old) (with_word word.now (waits_at (slots job.now.run.program.now job.now.run.limits.discipline) waits_on_slots (node_of halt (machine_of state.now)))) (ends_words self.new)) }
    {
        if !is_waiting(halt) {
            return Ok(());
        }
        let end = WaitingEnd::of(job, state)?;
        self.add(job.alloc, end, word)
    }
}

/// Whether all wait where a stretch halted.
pub fn is_waiting(halt: Halt<OutcomeKind>) -> bool
    ensures { result ≡ is_waiting halt }
{
    matches!(halt, Halt::Ended(OutcomeKind::AllWaiting))
}
