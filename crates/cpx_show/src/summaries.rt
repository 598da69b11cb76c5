//! All schedules: the page on which they are played, their outcomes, and their ends.

ghost use Rattle.std.specs.Prelude.{◌≡◌, IfOk, string_bytes};
ghost use Rattle.cpx_show.specs.Summaries as spec;

use crate::answer::answer_with;
use crate::inquiry::Inquiry;
use crate::selecting::{Selection, select_schedule};
use cp_ends_story::{EndsFormat, ends_story};
use cp_outcomes::{Format, outcomes};
use cp_page::page;
use cp_progress::ObserveProgress;
use cp_show_mark::{ShowAnswer, ShowVerdict};
use std::alloc::AllocError;

/// A page on which the scheduler is played, which expands so many states.
pub fn page_answer<O: ObserveProgress>(
    inquiry: Inquiry<'_>,
    observer: &mut O,
    states: u32,
) -> Result<ShowAnswer, AllocError> {
    match select_schedule(inquiry, observer)? {
        Selection::Schedule(schedule) => {
            let subject = inquiry.page_subject(states, &schedule);
            answer_with(
                ShowVerdict::Reported,
                page(inquiry.alloc, subject, observer),
            )
        }
        Selection::Without(answer) => Ok(answer),
    }
}

/// The outcomes of all schedules.
pub fn outcomes_answer<O: ObserveProgress>(
    inquiry: Inquiry<'_>,
    observer: &mut O,
    as_json: bool,
) -> Result<ShowAnswer, AllocError>
    ensures { IfOk result (λ a. spec.AreOutcomesOf (spec.form_of as_json) inquiry.entry.asked.now.options inquiry.entry.loaded.now.program inquiry.entry.legend.now a.verdict (string_bytes a.text)) }
{
    let subject = inquiry.outcomes_subject();
    let told = outcomes(inquiry.alloc, subject, form_of(as_json), observer)?;
    Ok(ShowAnswer {
        verdict: verdict_on(told.is_whole),
        text: told.text,
    })
}

fn form_of(as_json: bool) -> Format
    ensures { result ≡ spec.form_of as_json }
{
    if as_json { Format::Json } else { Format::Text }
}

fn verdict_on(is_whole: bool) -> ShowVerdict
    ensures { result ≡ spec.verdict_on is_whole }
{
    if is_whole {
        ShowVerdict::Reported
    } else {
        ShowVerdict::TooMany
    }
}

/// The ends of schedules of any length.
pub fn ends_answer<O: ObserveProgress>(
    inquiry: Inquiry<'_>,
    observer: &mut O,
    as_json: bool,
) -> Result<ShowAnswer, AllocError>
    ensures { IfOk result (λ a. spec.AreEndsOf inquiry.entry.asked.now.options inquiry.entry.loaded.now.program a.verdict) }
{
    let form = if as_json {
        EndsFormat::Json
    } else {
        EndsFormat::Text
    };
    let told = ends_story(inquiry.alloc, inquiry.ends_subject(), form, observer)?;
    Ok(ShowAnswer {
        verdict: verdict_on(told.is_whole),
        text: told.text,
    })
}
