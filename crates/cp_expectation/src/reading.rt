//! Expectations as they are written.

ghost use Rattle.std.specs.Prelude.{◌≡◌, ◌≢◌, List, map, IfOk, IfErr};
ghost use Rattle.cp_expectation.specs.Misread.{IsMisread};
ghost use Rattle.cp_expectation.specs.Plain.{Expected, expected_of};
ghost use Rattle.cp_expectation.specs.Spelling.{Spells};
ghost use Rattle.cp_expectation.specs.Words.{words_of};
ghost use Rattle.cp_expectation.specs.declared.reading.Misread.TheVariants.{Memory};

use crate::expectation::{EndPattern, Expectation, Topic};
use crate::reader::{ReadPart, Reader};
use crate::vocabulary::words_in;
use std::alloc::{AllocError, AllocFailed, Global};

/// What could have stood where a text of expectations goes wrong.
#[derive(Clone, Copy, PartialEq, Eq)]
pub enum WantedWord {
    /// `never`, `some` or `only`.
    Claim,
    /// What begins a topic.
    Topic,
    /// A displayed value, `-` or `..`.
    Output,
    /// A displayed value.
    Value,
    /// `output`, or a joint: `and`, `or`, or what begins another topic.
    AfterEnd,
    /// The name of a run error, `output`, or a joint.
    Error,
    /// A process, `output`, or a joint.
    Process,
    /// A process, or a joint.
    WhoWaits,
    /// A process, `..`, `output`, or a joint.
    AfterProcess,
    /// A value, `..`, or a joint.
    AfterValue,
    /// A joint.
    Joint,
}

/// Why a text has no expectations.
#[derive(Clone, Copy, PartialEq, Eq)]
pub enum Misread {
    /// This was wanted in place of the word with this number, counted from 0, or of the end.
    Unexpected { wanted: WantedWord, place: usize },
    Memory,
}

impl From<AllocError> for Misread {
    ghost from_gives = { λ _ e. e ≡ Memory };

    fn from(_e: AllocError) -> Misread {
        Misread::Memory
    }
}

impl<T: Drop> From<AllocFailed<T>> for Misread {
    ghost from_gives = { λ _ e. e ≡ Memory };

    fn from(_e: AllocFailed<T>) -> Misread {
        Misread::Memory
    }
}

/// The expectations of a text.
#[derive(Drop)]
pub struct Reading {
    pub expectations: Vec<Expectation>,
    /// A word that begins a topic and follows a value, where a constant of this name could be meant as well.
    pub doubtful: Option<&'static str>,
}

// What was wanted where a text ends too early, or a word does not fit.
fn wanted_by(part: &ReadPart) -> WantedWord {
    match part {
        ReadPart::Nothing => WantedWord::Claim,
        ReadPart::Before(_) => WantedWord::Topic,
        ReadPart::Output(_, _) => WantedWord::Output,
        ReadPart::Shown(_) => WantedWord::Value,
        ReadPart::After(_, topic) => wanted_after(topic),
    }
}

fn wanted_after(topic: &Topic) -> WantedWord {
    match topic {
        Topic::End {
            output: Some(output),
            ..
        } if !output.items.is_empty() => WantedWord::AfterValue,
        Topic::End { output: None, end } => wanted_behind(end),
        Topic::Waiting(None) => WantedWord::WhoWaits,
        _ => WantedWord::Joint,
    }
}

fn wanted_behind(end: &EndPattern) -> WantedWord {
    match end {
        EndPattern::AllWaiting(Some(who)) if !who.others => WantedWord::AfterProcess,
        EndPattern::AllWaiting(None) | EndPattern::Alone(None) | EndPattern::Spins(None) => {
            WantedWord::Process
        }
        EndPattern::AnyError => WantedWord::Error,
        _ => WantedWord::AfterEnd,
    }
}

/// The expectations of a text, joined by `and`.
///
/// # Errors
/// What was wanted at the first word that can't stand where it does, or at the end.
pub fn expectations(alloc: Global, text: &str) -> Result<Reading, Misread>
    ensures spelled { IfOk result (λ r. Spells (words_of text.now) (map expected_of r.expectations.items)) }
    ensures none { IfErr result (λ e. e ≢ Memory → (es : List Expected) → ¬ (Spells (words_of text.now) es)) }
    ensures place { IfErr result (λ e. IsMisread (words_of text.now) e) }
{
    let words = words_in(alloc, text)?;
    let mut reader = Reader::new(alloc);
    for (place, word) in words.iter().enumerate() {
        let wanted = wanted_by(&reader.part);
        if !reader.read(alloc, word)? {
            return Err(Misread::Unexpected { wanted, place });
        }
    }
    let wanted = wanted_by(&reader.part);
    if reader.end()? {
        Ok(reader.into_reading())
    } else {
        Err(Misread::Unexpected {
            wanted,
            place: words.len(),
        })
    }
}
