//! The simplest schedules, beside the first ones.

ghost use Rattle.std.specs.Prelude.{IfOk, IfSome};
ghost use Rattle.cp_run.specs.Slots.{slots};
ghost use Rattle.cp_simplest.specs.Simple.{IsScheduleOf};

use cp_merged::{Tallies, Tally};
use cp_progress::ObserveProgress;
use cp_simplest::{Searched, SimplestSchedule, is_schedule_of, simplest};
use cp_walk::Job;
use std::alloc::{AllocError, Global};

/// The simplest schedule of each outcome, or none of any where there are too many states to search through.
#[derive(Drop)]
pub struct Simples {
    words: Option<Vec<Option<SimplestSchedule>>>,
}

impl Simples {
    /// Those of these outcomes, by a search through so many states at most.
    pub fn of<O: ObserveProgress>(
        alloc: Global,
        job: Job,
        states: u32,
        tallies: &Tallies,
        observer: &mut O,
    ) -> Result<Simples, AllocError> {
        let mut outcomes = Vec::new(alloc);
        for tally in tallies.as_slice() {
            outcomes.push(&tally.outcome)?;
        }
        match simplest(alloc, job, states, &outcomes, observer)? {
            Searched::Found(words) => Ok(Simples { words: Some(words) }),
            Searched::TooMany => Ok(Simples { words: None }),
        }
    }

    /// Whether they were searched for.
    pub fn is_searched(&self) -> bool {
        self.words.is_some()
    }

    /// That of the outcome at a place: its word, if the run of it is a row of the table with this outcome.
    pub fn at(
        &self,
        alloc: Global,
        job: Job,
        place: usize,
        tally: &Tally,
    ) -> Result<Option<&SimplestSchedule>, AllocError>
        ensures { IfOk result (λ found. IfSome found (λ s. IsScheduleOf (slots job.entry.program.now job.entry.limits.discipline) job.entry.limits.choices job.entry.limits.steps s.now.word.items tally.now.outcome)) }
    {
        let Some(simple) = self.simplest_at(place) else {
            return Ok(None);
        };
        let word = simple.word.as_slice();
        if is_schedule_of(alloc, &job, word, &tally.outcome)? {
            Ok(Some(simple))
        } else {
            Ok(None)
        }
    }

    fn simplest_at(&self, place: usize) -> Option<&SimplestSchedule> {
        self.words.as_ref()?.get(place)?.as_ref()
    }
}
