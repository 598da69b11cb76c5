//! What is told, and how.

ghost use Rattle.std.specs.Prelude.{◌≤◌};

use cp_ends::End;
use cp_legend::Legend;
use cp_machine::Shown;
use cp_run::{Limits, OutcomeKind};
use cp_slots::Resolved;
use cp_waits::Waits;
use std::alloc::Global;

/// How the ends are written.
#[derive(Clone, Copy, PartialEq, Eq)]
pub enum EndsFormat {
    Text,
    Json,
}

/// The program whose ends are told, and how they are found.
#[derive(Clone, Copy)]
pub struct EndsSubject<'a> {
    pub program: &'a Resolved,
    pub legend: &'a Legend,
    pub limits: Limits,
    /// How many states there may be.
    pub most: u32,
    /// Whether it is told who may wait for ever.
    pub waits: bool,
    /// Whether kernel calls are made at once from the first.
    pub at_once: bool,
    /// The lines of the source.
    pub source: &'a [String],
    ghost some_state: { 1 ≤ most },
}

/// The ends as they are told.
#[derive(Drop)]
pub struct EndsSummary {
    /// False where there are too many states, or it is not known who may wait for ever and that was asked.
    pub is_whole: bool,
    pub text: String,
}

/// An end, and a word that leads to it.
#[derive(Drop)]
pub struct ToldEnd {
    pub end: End,
    pub word: Vec<u8>,
}

/// A value that can be displayed, and a word that leads to a stretch that displays it.
#[derive(Drop)]
pub struct ToldValue {
    pub value: Shown,
    pub word: Vec<u8>,
}

/// How far was looked.
#[derive(Clone, Copy)]
pub enum Reach {
    /// At all states, so many.
    States(usize),
    /// At all that are kept with kernel calls at once, so many.
    StatesAtOnce(usize),
    /// At all schedules of at most so many choices: there are too many states.
    Choices(usize),
    /// At some schedules: there are too many states with kernel calls at once.
    SomeAtOnce,
}

/// What was found.
#[derive(Drop)]
pub struct Findings {
    pub ends: Vec<ToldEnd>,
    /// One value more than is told, where there are so many.
    pub values: Vec<ToldValue>,
    pub reach: Reach,
    pub waits: Option<Waits>,
}

impl Findings {
    /// Whether kernel calls were made at once.
    pub fn is_at_once(&self) -> bool {
        matches!(self.reach, Reach::StatesAtOnce(_) | Reach::SomeAtOnce)
    }

    /// What a word is called: some other one may be shorter where kernel calls are made at once.
    pub fn word_name(&self) -> &'static str {
        if self.is_at_once() { "by" } else { "first" }
    }

    /// Whether a stretch was cut, so that it is not known what follows.
    pub fn is_cut(&self) -> bool {
        self.ends
            .iter()
            .any(|told| told.end == End::Over(OutcomeKind::StepLimit))
    }
}

/// What is told: of a program, what was found.
#[derive(Clone, Copy)]
pub struct Telling<'a> {
    pub alloc: Global,
    pub subject: EndsSubject<'a>,
    pub findings: &'a Findings,
}
