//! The search: over states with the process that made the last step, by switches, by numbers, and in dictionary order.

ghost use Rattle.std.specs.Prelude.{◌≡◌, IfOk};
ghost use Rattle.cp_slots.specs.Tables.{Tables};
ghost use Rattle.cp_machine.specs.System.{machine_of, opening, IsStateOf};
ghost use Rattle.cp_simplest.specs.Own.{AreOwn};

use crate::finding::SimplestSchedule;
use crate::label::{Label, Target};
use crate::states::States;
use crate::watching::LastMoved;
use cp_machine::{State, Uncounted};
use cp_merged::end_key::EndKey;
use cp_progress::Progress;
use cp_run::choice::{choose, open};
use cp_run::{Halt, Outcome, OutcomeKind, Output, candidates, outcome_at};
use cp_search::{SearchJob, Visit};
use indexmap::IndexSet;
use std::alloc::AllocError;
use std::collections::BTreeMap;

/// What was found so far. A visit is one of a word, which leads to a state that others may lead to as well.
pub struct SimplestVisit {
    pub states: States,
    /// For each state, and for each process that made the last step, the lengths of the words that were expanded there, as bits.
    lengths: Vec<[u128; 16]>,
    /// How many states there may be.
    most: u32,
    /// Whether words of all lengths are expanded: where a run ends at the limit of choices, a shorter one stands for no longer one.
    by_length: bool,
    /// The outcomes for which a word is looked for.
    ends: IndexSet<EndKey>,
    pub found: Vec<Option<SimplestSchedule>>,
    /// How many outcomes have no word yet.
    missing: usize,
    /// The words that are to be expanded or end, and where they lead to.
    labels: BTreeMap<Label, Target>,
    /// The word that is expanded, the process that made its last step, and whether this one can be chosen, but not at a gate.
    label: Label,
    last: u8,
    may_stay: bool,
}

// One call where it is dropped, not one for each list: proofs of functions that may end early are much shorter.
impl Drop for SimplestVisit {
    fn drop(self) {
        let SimplestVisit {
            states: _,
            lengths: _,
            most: _,
            by_length: _,
            ends: _,
            found: _,
            missing: _,
            labels: _,
            label: _,
            last: _,
            may_stay: _,
        } = self;
    }
}

impl SimplestVisit {
    /// Nothing is found, of these outcomes.
    pub fn new(
        job: &SearchJob<'_>,
        most: u32,
        outcomes: &[&Outcome],
    ) -> Result<SimplestVisit, AllocError>
        ensures { IfOk result (λ visit. (r : Tables) → AreOwn r visit.states) }
    {
        let mut ends = IndexSet::new(job.alloc);
        let mut found = Vec::new(job.alloc);
        let mut by_length = false;
        for outcome in outcomes {
            let kind = outcome.kind;
            let output = Output::of(job.alloc, outcome.output.as_slice())?;
            ends.insert(EndKey {
                outcome: Outcome { kind, output },
            })?;
            found.push(None)?;
            by_length = by_length || kind == OutcomeKind::ChoiceLimit;
        }
        Ok(SimplestVisit {
            states: States::new(job.alloc),
            lengths: Vec::new(job.alloc),
            most,
            by_length,
            ends,
            missing: found.len(),
            found,
            labels: BTreeMap::new(job.alloc),
            label: Label::empty(),
            last: 0,
            may_stay: false,
        })
    }

    /// The schedules that were found, one for each outcome, if there is one.
    pub fn into_found(self) -> Vec<Option<SimplestSchedule>> {
        let SimplestVisit {
            states: _,
            lengths: _,
            most: _,
            by_length: _,
            ends: _,
            found,
            missing: _,
            labels: _,
            label: _,
            last: _,
            may_stay: _,
        } = self;
        found
    }

    /// Begins with the empty word. `false` where there are too many states.
    pub fn open(&mut self, job: &SearchJob<'_>, state: &mut State) -> Result<bool, AllocError>
        requires own { IsStateOf job.now.run.program.now state.old }
        requires start { machine_of state.old ≡ opening job.now.run.program.now job.now.run.limits.discipline }
        requires states { AreOwn job.now.run.program.now self.old.states }
        ensures own { IsStateOf job.now.run.program.now state.new }
        ensures states { IfOk result (λ _. AreOwn job.now.run.program.now self.new.states) }
    {
        let halt = open(&job.run, state, &mut Uncounted, &mut Uncounted);
        self.arrive(job, halt, state, Label::empty(), 0)
    }

    // Notes where a word leads to. `false` where there are too many states.
    fn arrive(
        &mut self,
        job: &SearchJob<'_>,
        halt: Halt<OutcomeKind>,
        state: &State,
        label: Label,
        last: u8,
    ) -> Result<bool, AllocError>
        requires own { IsStateOf job.now.run.program.now state.now }
        requires states { AreOwn job.now.run.program.now self.old.states }
        ensures { IfOk result (λ _. AreOwn job.now.run.program.now self.new.states) }
    {
        let target = match halt {
            Halt::Ended(kind) => self.end_at(job, kind, state)?,
            Halt::Choice if label.length >= job.run.limits.choices as usize => {
                self.end_at(job, OutcomeKind::ChoiceLimit, state)?
            }
            Halt::Choice => Some(Target::State(self.add_state(job, state)?, last)),
        };
        if let Some(target) = target {
            self.labels.insert(label, target)?;
        }
        Ok(self.states.len() <= self.most as usize)
    }

    // The outcome with which a run ends, if it is looked for.
    fn end_at(
        &self,
        job: &SearchJob<'_>,
        kind: OutcomeKind,
        state: &State,
    ) -> Result<Option<Target>, AllocError> {
        let outcome = outcome_at(job.alloc, kind, state)?;
        match self.ends.get_index_of(&EndKey { outcome }) {
            Some(place) => Ok(Some(Target::End(place))),
            None => Ok(None),
        }
    }

    // The number of a state, which is added where it is new.
    fn add_state(&mut self, job: &SearchJob<'_>, state: &State) -> Result<usize, AllocError>
        requires own { IsStateOf job.now.run.program.now state.now }
        requires states { AreOwn job.now.run.program.now self.old.states }
        ensures { IfOk result (λ _. AreOwn job.now.run.program.now self.new.states) }
    {
        let number = self.states.number_of(job.alloc, state)?;
        if number == self.lengths.len() {
            self.lengths.push([0; 16])?;
        }
        Ok(number)
    }

    // The next word that is to be expanded becomes the one that is. The number of its state; none where none is left, or none needed.
    fn next_word(&mut self) -> Option<usize>
        ensures { self.new.states ≡ self.old.states }
    {
        for _ in 0..self.labels.len() {
            if self.missing == 0 {
                return None;
            }
            let (label, target) = self.labels.pop_first()?;
            match target {
                Target::End(place) => self.end(place, label),
                Target::State(number, last) => {
                    if self.is_first(number, last, label.length) {
                        self.label = label;
                        self.last = last;
                        return Some(number);
                    }
                }
            }
        }
        None
    }

    // The word of an outcome, if it has none yet.
    fn end(&mut self, place: usize, label: Label)
        ensures { self.new.states ≡ self.old.states }
    {
        if let Some(found) = self.found.get_mut(place) {
            if found.is_none() {
                *found = Some(SimplestSchedule {
                    word: label.word,
                    switches: label.switches,
                });
                self.missing = self.missing.saturating_sub(1);
            }
        }
    }

    // Whether no word that stands for this one led there before it, which is noted.
    fn is_first(&mut self, number: usize, last: u8, length: usize) -> bool
        ensures { self.new.states ≡ self.old.states }
    {
        let Some(all) = self.lengths.get_mut(number) else {
            return false;
        };
        let Some(lengths) = all.get_mut(last as usize) else {
            return false;
        };
        let bit = 1u128 << (length % 128);
        let shorter = if self.by_length {
            0
        } else {
            bit.wrapping_sub(1)
        };
        if *lengths & (bit | shorter) != 0 {
            return false;
        }
        *lengths |= bit;
        true
    }
}

impl Visit for SimplestVisit {
    ghost use Rattle.cp_simplest.specs.Own.{AreOwn};

    ghost before = { λ v job n. AreOwn job.run.program.now v.states };

    ghost within = { λ v job at m done. AreOwn job.run.program.now v.states };

    ghost over = { λ v job. Unit {0} };

    ghost stops = { λ v job at. Unit {0} };

    fn len(&self) -> usize {
        self.states.len()
    }

    fn progress(&self, _choices: u32) -> Progress {
        Progress {
            choices: u32::try_from(self.label.length).unwrap_or(u32::MAX),
            states: self.states.len(),
            outcomes: Some(self.found.len().saturating_sub(self.missing)),
        }
    }

    fn thaw_at(&mut self, job: &SearchJob<'_>, _number: u32, state: &mut State) -> bool {
        let Some(number) = self.next_word() else {
            return false;
        };
        let is_there = self.states.thaw_at(number, state);
        let numbers = candidates(&job.run, state);
        self.may_stay = state.pending().is_none() && numbers.contains(&self.last);
        is_there
    }

    fn take(
        &mut self,
        job: &SearchJob<'_>,
        _at: u32,
        state: &State,
        next: &mut State,
        process: u8,
    ) -> Result<bool, AllocError> {
        let is_switch = self.may_stay && process != self.last;
        let mut watch = LastMoved { process: self.last };
        let halt = choose(
            &job.run,
            next,
            process,
            &mut watch,
            &mut Uncounted,
            &mut Uncounted,
        );
        let label = self.label.extended(process, is_switch);
        let is_room = self.arrive(job, halt, next, label, watch.process)?;
        next.take_from(state);
        Ok(is_room)
    }

    fn end_state(&mut self, _job: &SearchJob<'_>, _at: u32) -> Result<(), AllocError> {
        Ok(())
    }

    ghost fills = { λ v job own. tt };
}
