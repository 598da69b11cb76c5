//! What is known of the schedules of a program.

ghost use Rattle.std.specs.Prelude.{◌≡◌};
ghost use Rattle.cp_verdict.specs.endless.Behaviour.{word_of};
ghost use Rattle.cp_verdict.specs.endless.Knowledge.{finding_of};

use cp_ends::End;
use cp_machine::Shown;
use cp_waits::Waiting;

/// An end, with the first word that leads to it.
#[derive(Drop)]
pub struct KnownEnd {
    pub end: End,
    pub word: Vec<u8>,
}

/// A value that can be displayed, as a report prints it, with the first word that displays it.
#[derive(Drop)]
pub struct KnownValue {
    pub value: Shown,
    pub text: String,
    pub word: Vec<u8>,
}

/// An end at which all wait, and who waits there.
#[derive(Drop)]
pub struct KnownWaitingEnd {
    pub who: Vec<u8>,
    pub end: KnownEnd,
}

/// The ends and values of the schedules that were looked at, in the order of their words, and who may wait for ever.
#[derive(Drop)]
pub struct KnownEnds {
    pub ends: Vec<KnownEnd>,
    pub values: Vec<KnownValue>,
    /// Who may wait for ever, where that was asked and is settled.
    pub waits: Option<Vec<Waiting>>,
    /// The ends at which all wait by who waits there, where that was asked.
    pub waiting: Vec<KnownWaitingEnd>,
    /// Schedules of at most so many choices were looked at; with none, those of any length.
    pub looked: Option<usize>,
}

impl KnownEnds {
    /// The same, and who waits at the ends.
    pub fn with_waiting(mut self, waiting: Vec<KnownWaitingEnd>) -> KnownEnds
        ensures { result ≡ record self { waiting = waiting } }
    {
        self.waiting = waiting;
        self
    }
}

/// What a schedule shows.
#[derive(Clone, Copy, Drop)]
pub enum Witness<'a> {
    End(&'a KnownEnd),
    Value(&'a KnownValue),
    Waiting(&'a Waiting),
}

impl Witness<'_> {
    /// Its schedule; that of who waits is not one word.
    pub fn word(&self) -> &[u8]
        ensures { result.now ≡ word_of (finding_of self.now) }
    {
        match self {
            Witness::End(known) => &known.word,
            Witness::Value(known) => &known.word,
            Witness::Waiting(_) => &[],
        }
    }
}
