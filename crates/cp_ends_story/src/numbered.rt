//! The schedules of ends and waits that are told with numbers.

ghost use Rattle.std.specs.Prelude.{IfOk, Some, map};
ghost use Rattle.cp_ends_story.specs.Findings.{end_with_word};
ghost use Rattle.cp_ends_story.specs.Numbered.{IsEnd, IsScheduleOfEnd, IsScheduleOfWait, IsWait, IsWaitAmong};

use crate::finding::findings;
use crate::subject::{EndsSubject, ToldEnd};
use cp_progress::ObserveProgress;
use cp_waits::{Waiting, Waits};
use std::alloc::{AllocError, Global};

/// The schedule of an end or of a wait that is told with a number, if there is one.
#[derive(Drop)]
pub enum NumberedSchedule {
    /// Its word; so many numbers at its end are a round that can be gone again and again.
    Word(Vec<u8>, usize),
    /// None has this number; this is how many there are.
    None(usize),
    /// It is not known who may wait for ever.
    NotKnown,
}

/// The schedule of the end that `ends_story` tells with this number. An observer is told how far each search has come.
pub fn schedule_of_end<O: ObserveProgress>(
    alloc: Global,
    subject: EndsSubject<'_>,
    number: usize,
    observer: &mut O,
) -> Result<NumberedSchedule, AllocError>
    ensures { IfOk result (IsScheduleOfEnd subject.entry number) }
{
    let findings = findings(alloc, subject, observer)?;
    end_among(alloc, &findings.ends, number)
}

fn end_among(alloc: Global, ends: &[ToldEnd], number: usize) -> Result<NumberedSchedule, AllocError>
    ensures { IfOk result (IsEnd (map end_with_word ends.now) number) }
{
    if number == 0 || number > ends.len() {
        return Ok(NumberedSchedule::None(ends.len()));
    }
    let word = Vec::from_slice(alloc, &ends[number - 1].word)?;
    Ok(NumberedSchedule::Word(word, 0))
}

/// The schedule of the process that `ends_story` tells with this number as one that may wait for ever: the word after which it waits, and the round.
pub fn schedule_of_wait<O: ObserveProgress>(
    alloc: Global,
    subject: EndsSubject<'_>,
    number: usize,
    observer: &mut O,
) -> Result<NumberedSchedule, AllocError>
    ensures { IfOk result (IsScheduleOfWait subject.entry number) }
{
    let findings = findings(alloc, subject, observer)?;
    match &findings.waits {
        Some(waits) => known_among(alloc, waits, number),
        None => Ok(NumberedSchedule::NotKnown),
    }
}

fn known_among(alloc: Global, waits: &Waits, number: usize) -> Result<NumberedSchedule, AllocError>
    ensures { IfOk result (IsWaitAmong (Some waits.now) number) }
{
    match waits {
        Waits::Known(list) => wait_among(alloc, list, number),
        Waits::NotSettled(_) => Ok(NumberedSchedule::NotKnown),
    }
}

fn wait_among(
    alloc: Global,
    waits: &[Waiting],
    number: usize,
) -> Result<NumberedSchedule, AllocError>
    ensures { IfOk result (IsWait waits.now number) }
{
    if number == 0 || number > waits.len() {
        return Ok(NumberedSchedule::None(waits.len()));
    }
    let waiting = &waits[number - 1];
    let mut word = Vec::from_slice(alloc, &waiting.first)?;
    word.extend_from_slice(&waiting.again)?;
    Ok(NumberedSchedule::Word(word, waiting.again.len()))
}
