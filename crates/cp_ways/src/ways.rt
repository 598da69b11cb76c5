//! Outcomes, each with how many schedules lead on to it.

ghost use Rattle.std.specs.Prelude.{◌≡◌, ◌+◌, ◌*◌, ◌^◌, ◌<◌, [], ℕ, IfOk};
ghost use Rattle.cp_run.specs.declared.outcome.Outcome.{Outcome};
ghost use Rattle.cp_ways.specs.Weights.{after, weight, total};

use cp_machine::Shown;
use cp_merged::end_key::EndKey;
use cp_natural::Natural;
use cp_run::{Outcome, OutcomeKind, Output};
use indexmap::IndexMap;
use std::alloc::{AllocError, Global};

/// Different outcomes from a state on, each with the number of schedules that lead on to it. What they display is what is displayed from there on.
#[derive(Drop)]
pub struct Ways {
    pub list: IndexMap<EndKey, Natural>,
}

impl Ways {
    /// No ways on.
    pub fn new(alloc: Global) -> Ways
        ensures { result.list.entries ≡ [] }
    {
        Ways {
            list: IndexMap::new(alloc),
        }
    }

    /// So many schedules more lead on to an outcome.
    pub fn add(&mut self, outcome: Outcome, count: &Natural) -> Result<(), AllocError>
        requires small { total self.old.list.entries + count.now < 10 ^ 126 }
        ensures added { IfOk result (λ _. (f : Outcome → ℕ) → weight f self.new.list.entries ≡ weight f self.old.list.entries + count.now * f outcome) }
    {
        let key = EndKey { outcome };
        match self.list.get_mut(&key) {
            Some(known) => *known = known.plus(count),
            None => {
                self.list.insert(key, *count)?;
            }
        }
        Ok(())
    }

    /// One schedule more ends so, and displays these values before.
    pub fn add_end(
        &mut self,
        alloc: Global,
        kind: OutcomeKind,
        shown: &[Shown],
    ) -> Result<(), AllocError>
        requires small { total self.old.list.entries + 1 < 10 ^ 126 }
        ensures added { IfOk result (λ _. (f : Outcome → ℕ) → weight f self.new.list.entries ≡ weight f self.old.list.entries + f (record { kind = kind; output = shown.now })) }
    {
        let output = Output::of(alloc, shown)?;
        self.add(Outcome { kind, output }, &Natural::one())
    }

    /// The ways on from a state further on, where these values are displayed before it.
    pub fn add_behind(
        &mut self,
        alloc: Global,
        shown: &[Shown],
        further: &Ways,
    ) -> Result<(), AllocError>
        requires small { total self.old.list.entries + total further.now.list.entries < 10 ^ 126 }
        ensures added { IfOk result (λ _. (f : Outcome → ℕ) → weight f self.new.list.entries ≡ weight f self.old.list.entries + weight (λ o. f (after shown.now o)) further.now.list.entries) }
    {
        for (key, count) in further.list.iter() {
            let output = Output::join(alloc, shown, key.outcome.output.as_slice())?;
            let kind = key.outcome.kind;
            self.add(Outcome { kind, output }, count)?;
        }
        Ok(())
    }
}
