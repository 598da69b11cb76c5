//! A program that is accepted, and what is asked of it.

ghost use Rattle.cpx_show.specs.Selecting.{IsEndsSubjectOf, IsJobOf};
ghost use Rattle.cpx_show.specs.Summaries.{IsSubjectOf};

use crate::selecting::ChosenSchedule;
use cp_ends_story::EndsSubject;
use cp_front::Loaded;
use cp_legend::Legend;
use cp_outcomes::Subject;
use cp_page::{Length, PageSubject};
use cp_run::Job;
use cp_show_options::Asked;
use std::alloc::Global;

/// A program that is accepted, and what is asked of it.
#[derive(Clone, Copy)]
pub struct Inquiry<'a> {
    pub alloc: Global,
    pub asked: &'a Asked,
    pub loaded: &'a Loaded,
    pub legend: &'a Legend,
    /// The bytes of the source.
    pub source: &'a [u8],
    /// Its lines, as they are shown.
    pub lines: &'a [String],
}

impl<'a> Inquiry<'a> {
    /// All schedules within the limits of the options.
    pub fn job(self) -> Job<'a>
        ensures { IsJobOf result self.entry.asked.now.options self.entry.loaded.now.program }
    {
        Job {
            program: &self.loaded.program,
            limits: self.asked.options.limits(),
        }
    }

    /// Whose outcomes are told.
    pub fn outcomes_subject(self) -> Subject<'a>
        ensures { IsSubjectOf result self.entry.asked.now.options self.entry.loaded.now.program self.entry.legend.now }
    {
        Subject {
            program: &self.loaded.program,
            legend: self.legend,
            limits: self.asked.options.limits(),
            states: self.asked.options.states,
            source: self.lines,
        }
    }

    /// Whose schedules of any length are looked at.
    pub fn ends_subject(self) -> EndsSubject<'a>
        ensures { IsEndsSubjectOf result self.entry.asked.now.options self.entry.loaded.now.program }
    {
        let options = &self.asked.options;
        EndsSubject {
            program: &self.loaded.program,
            legend: self.legend,
            limits: options.longest_limits(),
            most: options.states,
            waits: options.analysis.tells_waits(),
            at_once: options.analysis.is_at_once(),
            source: self.lines,
        }
    }

    /// What a page is made of that expands so many states, and on which a schedule is laid out.
    pub fn page_subject(self, states: u32, schedule: &'a ChosenSchedule) -> PageSubject<'a> {
        let options = &self.asked.options;
        PageSubject {
            program: &self.loaded.program,
            legend: self.legend,
            limits: options.limits(),
            length: if options.analysis.is_endless() {
                Length::Any
            } else {
                Length::Limited
            },
            states,
            source: self.source,
            word: schedule.word.as_slice(),
            round: schedule.round,
        }
    }
}
