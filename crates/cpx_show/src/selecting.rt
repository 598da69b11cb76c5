//! Which schedule is shown.

ghost use Rattle.std.specs.Prelude.{◌≡◌, ◌≤◌, IfOk, length};
ghost use Rattle.cpx_show.specs.Selecting as spec;

use crate::answer::answer_with;
use crate::inquiry::Inquiry;
use crate::missing::{no_end, no_outcome, not_searched, too_long, unknown_waits};
use cp_ends_story::{NumberedSchedule, schedule_of_end, schedule_of_wait};
use cp_merged::word::{Word, word_of};
use cp_outcomes::{First, first_of_outcome, simplest_of_outcome};
use cp_progress::ObserveProgress;
use cp_run::MOST_CHOICES;
use cp_show_mark::{ShowAnswer, ShowVerdict};
use cp_show_options::ScheduleChoice;
use cp_tool::Options;
use std::alloc::AllocError;

/// A schedule that is shown.
#[derive(Drop)]
pub struct ChosenSchedule {
    pub word: Word,
    /// So many numbers at its end are a round that can be gone again and again.
    pub round: usize,
}

/// The schedule that is shown, or what is told where there is none.
#[derive(Drop)]
pub enum Selection {
    Schedule(ChosenSchedule),
    Without(ShowAnswer),
}

/// The schedule that is given, or that of the outcome, of the end or of the wait that is.
pub fn select_schedule<O: ObserveProgress>(
    inquiry: Inquiry<'_>,
    observer: &mut O,
) -> Result<Selection, AllocError>
    ensures { IfOk result (spec.IsAskedFor inquiry.entry.asked.now inquiry.entry.loaded.now.program) }
{
    match inquiry.asked.schedule {
        ScheduleChoice::Given(round) => {
            Ok(select_word(word_given(&inquiry.asked.options), round))
        }
        ScheduleChoice::First(number) => select_first(inquiry, number, observer),
        ScheduleChoice::Simplest(number) => select_simplest(inquiry, number, observer),
        ScheduleChoice::End(number) => select_end(inquiry, number, observer),
        ScheduleChoice::Wait(number) => select_wait(inquiry, number, observer),
    }
}

fn select_first<O: ObserveProgress>(
    inquiry: Inquiry<'_>,
    number: usize,
    observer: &mut O,
) -> Result<Selection, AllocError>
    ensures { IfOk result (spec.IsFirstOf inquiry.entry.asked.now.options inquiry.entry.loaded.now.program number) }
{
    let states = inquiry.asked.options.states;
    let first = first_of_outcome(inquiry.alloc, inquiry.job(), states, number, observer)?;
    select_of_outcome(inquiry, first)
}

fn select_simplest<O: ObserveProgress>(
    inquiry: Inquiry<'_>,
    number: usize,
    observer: &mut O,
) -> Result<Selection, AllocError>
    ensures { IfOk result (spec.IsSimplestOf inquiry.entry.asked.now.options inquiry.entry.loaded.now.program number) }
{
    let states = inquiry.asked.options.states;
    let first = simplest_of_outcome(inquiry.alloc, inquiry.job(), states, number, observer)?;
    select_of_outcome(inquiry, first)
}

fn select_end<O: ObserveProgress>(
    inquiry: Inquiry<'_>,
    number: usize,
    observer: &mut O,
) -> Result<Selection, AllocError>
    ensures { IfOk result (spec.IsEndOf inquiry.entry.asked.now.options inquiry.entry.loaded.now.program number) }
{
    let numbered = schedule_of_end(inquiry.alloc, inquiry.ends_subject(), number, observer)?;
    select_numbered(inquiry, "end", numbered)
}

fn select_wait<O: ObserveProgress>(
    inquiry: Inquiry<'_>,
    number: usize,
    observer: &mut O,
) -> Result<Selection, AllocError>
    ensures { IfOk result (spec.IsWaitOf inquiry.entry.asked.now.options inquiry.entry.loaded.now.program number) }
{
    let numbered = schedule_of_wait(inquiry.alloc, inquiry.ends_subject(), number, observer)?;
    select_numbered(inquiry, "wait", numbered)
}

fn word_given(options: &Options) -> &[u8]
    ensures length { length result.now ≤ 100 }
    ensures word { result.now ≡ spec.word_given options.now }
{
    match &options.schedule {
        Some(word) => word.as_slice(),
        None => &[],
    }
}

// A word is shown, with so many numbers of a round at its end.
fn select_word(word: &[u8], round: usize) -> Selection
    requires { length word.now ≤ 100 }
    ensures { spec.IsSelected word.now round result }
{
    Selection::Schedule(ChosenSchedule {
        word: word_of(word),
        round,
    })
}

// What is shown of the schedule of an outcome.
fn select_of_outcome(inquiry: Inquiry<'_>, first: First) -> Result<Selection, AllocError>
    ensures { IfOk result (spec.IsOfOutcome first) }
{
    match first {
        First::Word(word) => Ok(Selection::Schedule(ChosenSchedule { word, round: 0 })),
        First::None(known) => without(ShowVerdict::Misread, no_outcome(inquiry, known)),
        First::NotSearched => without(ShowVerdict::TooMany, not_searched(inquiry)),
    }
}

// What is shown of the schedule of an end or of a wait: one of more numbers than a schedule may have is not shown.
fn select_numbered(
    inquiry: Inquiry<'_>,
    called: &str,
    numbered: NumberedSchedule,
) -> Result<Selection, AllocError>
    ensures { IfOk result (spec.IsOfNumber numbered) }
{
    let alloc = inquiry.alloc;
    match numbered {
        NumberedSchedule::Word(word, round) => {
            if word.len() > usize::from(MOST_CHOICES) {
                return without(ShowVerdict::TooMany, too_long(alloc, called, word.len()));
            }
            Ok(select_word(word.as_slice(), round))
        }
        NumberedSchedule::None(count) => {
            without(ShowVerdict::Misread, no_end(alloc, called, count))
        }
        NumberedSchedule::NotKnown => without(ShowVerdict::TooMany, unknown_waits(inquiry)),
    }
}

// No schedule is shown, and this is told.
fn without(verdict: ShowVerdict, text: Result<String, AllocError>) -> Result<Selection, AllocError>
    ensures { IfOk result (spec.IsWithout verdict) }
{
    Ok(Selection::Without(answer_with(verdict, text)?))
}
