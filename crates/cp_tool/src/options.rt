//! The options and their ranges, and why there are none.
ghost use Rattle.std.specs.Prelude.{◌≡◌, ◌≤◌};
ghost use Rattle.std.specs.Option.{ForSome};
ghost use Rattle.cp_machine.specs.Discipline.{IsDiscipline};
ghost use Rattle.cp_tool.specs.Analysis.{most_choices};
ghost use Rattle.cp_tool.specs.Words.{IsWord};

use crate::analysis::Analysis;
use arrayvec::ArrayVec;
use cp_machine::Discipline;
use cp_run::{Limits, MOST_CHOICES};
use std::alloc::AllocError;

/// What the words of a call ask for, each in its range.
#[derive(Drop)]
pub struct Options {
    /// The most choices of a schedule.
    pub choices: u8,
    /// The most steps of a stretch.
    pub steps: u32,
    /// How many threads explore.
    pub workers: u8,
    /// To how many choices the schedules are dealt out to the threads, if the words say so.
    pub cut: Option<u8>,
    pub analysis: Analysis,
    /// The most states, of a layer or in all, where they are.
    pub states: u32,
    /// The one schedule to be traced, if any.
    pub schedule: Option<ArrayVec<u8, 100>>,
    /// Who goes into a monitor that becomes free, and who goes on after a `continue`.
    pub discipline: Discipline,
    ghost choices_range: { choices ≤ most_choices analysis },
    ghost steps_range: { steps ≤ 100000 },
    ghost some_step: { 1 ≤ steps },
    ghost workers_range: { workers ≤ 16 },
    ghost some_worker: { 1 ≤ workers },
    ghost cut_range: { ForSome cut (λ depth. depth ≤ 20) },
    ghost states_range: { states ≤ 10000000 },
    ghost some_state: { 1 ≤ states },
    ghost kept: { IsDiscipline discipline },
    ghost schedule_range: { ForSome schedule (λ w. IsWord (most_choices analysis) w.items) },
}

impl Options {
    /// The limits that they set.
    pub fn limits(&self) -> Limits
        ensures { (result.choices ≡ self.now.choices) × (result.steps ≡ self.now.steps) × (result.discipline ≡ self.now.discipline) }
    {
        let Some(limits) = Limits::new(self.choices, self.steps, self.discipline) else {
            unreachable!()
        };
        limits
    }

    /// The same with as many choices as there can be.
    pub fn longest_limits(&self) -> Limits
        ensures { (result.choices ≡ 100) × (result.steps ≡ self.now.steps) × (result.discipline ≡ self.now.discipline) }
    {
        self.limits().with_choices(MOST_CHOICES)
    }
}

/// Why there are no options.
#[derive(Drop)]
pub enum OptionFault {
    /// The words are refused, and this says why.
    Refused(String),
    /// Memory was refused.
    Memory,
    /// The words ask for help, and this is its text.
    Help(String),
    /// The words ask for the version.
    Version,
}

impl From<AllocError> for OptionFault {
    ghost use Rattle.std.specs.Prelude.{◌≡◌};
    ghost use Rattle.cp_tool.specs.declared.options.OptionFault.TheVariants.{Memory};

    ghost from_gives = { λ _ e. e ≡ Memory };

    fn from(_: AllocError) -> OptionFault {
        OptionFault::Memory
    }
}
