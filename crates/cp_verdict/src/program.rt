//! The mark of a program, by the outcomes of all its schedules.

ghost use Rattle.std.specs.Prelude.{◌≡◌, ◌||◌, map, IfOk};
ghost use Rattle.cp_run.specs.Slots.{slots};
ghost use Rattle.cp_run.specs.Table.{table};
ghost use Rattle.cp_walk.specs.Report.{same_outcome};
ghost use Rattle.cp_merged.specs.Code.{tally_of};
ghost use Rattle.cp_merged.specs.Tallies.{tally};
ghost use Rattle.cp_verdict.specs.Judged.{line_of};
ghost use Rattle.cp_verdict.specs.Limits.{AreStopsOf, ended_for_choices, ended_for_output, ended_for_steps};

use crate::judging::Judgement;
use crate::marking::Standing;
use crate::seen::Seen;
use cp_merged::{MergeFault, Tallies, Tally, explore_merged_with};
use cp_progress::ObserveProgress;
use cp_run::OutcomeKind;
use cp_walk::Job;
use std::alloc::{AllocError, AllocFailed, Global};

/// Why a program has no mark.
#[derive(Clone, Copy, PartialEq, Eq)]
pub enum MarkFault {
    TooManyStates,
    TooManyOutcomes,
    Memory,
}

impl From<AllocError> for MarkFault {
    fn from(_e: AllocError) -> MarkFault {
        MarkFault::Memory
    }
}

impl<T: Drop> From<AllocFailed<T>> for MarkFault {
    fn from(_e: AllocFailed<T>) -> MarkFault {
        MarkFault::Memory
    }
}

/// The limits at which some schedules ended.
#[derive(Clone, Copy, PartialEq, Eq)]
pub struct Stops {
    pub choices: bool,
    pub steps: bool,
    pub output: bool,
}

/// What is said of each expectation, and of all together.
#[derive(Drop)]
pub struct Marked {
    pub judgements: Vec<Judgement>,
    pub mark: Standing,
    pub stops: Stops,
}

impl Stops {
    // One more run, which ended so.
    fn note(&mut self, kind: OutcomeKind)
        ensures choices { self.new.choices ≡ (self.old.choices || ended_for_choices kind) }
        ensures steps { self.new.steps ≡ (self.old.steps || ended_for_steps kind) }
        ensures output { self.new.output ≡ (self.old.output || ended_for_output kind) }
    {
        match kind {
            OutcomeKind::ChoiceLimit => self.choices = true,
            OutcomeKind::StepLimit => self.steps = true,
            OutcomeKind::OutputLimit => self.output = true,
            _ => {}
        }
    }
}

/// The limits at which some of these ended.
pub fn stops_of(seen: &[Seen]) -> Stops
    ensures { AreStopsOf (map line_of seen.now) result }
{
    let mut stops = Stops {
        choices: false,
        steps: false,
        output: false,
    };
    for one in seen {
        stops.note(one.outcome.kind);
    }
    stops
}

/// The outcomes of a table, each with its first schedule.
pub fn seen_of<'a>(alloc: Global, tallies: &'a [Tally]) -> Result<Vec<Seen<'a>>, AllocError>
    ensures { IfOk result (λ v. map line_of v.items ≡ map (λ t. t.first) (map tally_of tallies.entry.now)) }
{
    let mut seen = Vec::new(alloc);
    for tally in tallies {
        seen.push(Seen {
            outcome: &tally.outcome,
            first: &tally.first,
        })?;
    }
    Ok(seen)
}

/// The outcomes of a job, or what there is too much of. A layer may have so many states.
pub fn outcomes_of<O: ObserveProgress>(
    alloc: Global,
    job: Job,
    states: u32,
    observer: &mut O,
) -> Result<Tallies, MarkFault>
    ensures { IfOk result (λ ts. map tally_of ts ≡ tally same_outcome (table (slots job.entry.program.now job.entry.limits.discipline) job.entry.limits.choices job.entry.limits.steps)) }
{
    match explore_merged_with(alloc, job, states as usize, observer) {
        Ok(tallies) => Ok(tallies),
        Err(MergeFault::Memory) => Err(MarkFault::Memory),
        Err(MergeFault::TooManyStates) => Err(MarkFault::TooManyStates),
        Err(MergeFault::TooManyOutcomes) => Err(MarkFault::TooManyOutcomes),
    }
}
