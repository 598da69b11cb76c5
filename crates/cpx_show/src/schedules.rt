//! One schedule: in names, and as a picture.

ghost use Rattle.std.specs.Prelude.{◌≡◌, IfOk, length, map, string_bytes};
ghost use Rattle.cp_legend.specs.Names.{legend_seen};
ghost use Rattle.cp_walk.specs.Rows.{UsedWithin};
ghost use Rattle.cp_show_mark.specs.declared.answer.ShowVerdict.TheVariants.{Reported};
ghost use Rattle.cpx_show.specs.Schedules as spec;

use crate::answer::answer_with;
use crate::inquiry::Inquiry;
use crate::missing::rows_beyond;
use crate::selecting::{ChosenSchedule, Selection, select_schedule};
use cp_lanes::{PictureView, Scene, SheetExtent, picture, row_count};
use cp_progress::ObserveProgress;
use cp_run::RunEnd;
use cp_show_mark::{ShowAnswer, ShowVerdict, story_of};
use cp_story::{Story, first_of_round, json, text};
use cp_walk::text::{push_outcome, push_word};
use cp_walk::trace_report;
use std::alloc::{AllocError, Global};

/// How one schedule is shown.
#[derive(Clone, Copy)]
pub enum ScheduleForm {
    /// In names, as lines.
    Lines,
    /// The same as JSON.
    Json,
    /// These rows of it as a picture.
    Picture(PictureView),
}

/// The form of a trace in names.
pub fn trace_form(as_json: bool) -> ScheduleForm
    ensures { result ≡ spec.trace_form as_json }
{
    if as_json {
        ScheduleForm::Json
    } else {
        ScheduleForm::Lines
    }
}

/// One schedule in a form.
pub fn one_schedule<O: ObserveProgress>(
    inquiry: Inquiry<'_>,
    observer: &mut O,
    form: ScheduleForm,
) -> Result<ShowAnswer, AllocError>
    ensures { IfOk result (λ a. spec.IsTracedAs form (spec.IsStoryText form inquiry.entry.asked.now.options inquiry.entry.loaded.now.program (legend_seen inquiry.entry.legend.now) (map string_bytes inquiry.entry.lines.now)) inquiry.entry.asked.now inquiry.entry.loaded.now.program a.verdict (string_bytes a.text)) }
{
    let selection = select_schedule(inquiry, observer)?;
    match selection {
        Selection::Schedule(schedule) => schedule_part(inquiry, &schedule, form),
        Selection::Without(answer) => Ok(answer),
    }
}

// A schedule in a form, unless the rows that are to be drawn of it are none of its rows.
fn schedule_part(
    inquiry: Inquiry<'_>,
    schedule: &ChosenSchedule,
    form: ScheduleForm,
) -> Result<ShowAnswer, AllocError>
    ensures told { IfOk result (λ a. a.verdict ≡ Reported → spec.IsStoryText form inquiry.entry.asked.now.options inquiry.entry.loaded.now.program (legend_seen inquiry.entry.legend.now) (map string_bytes inquiry.entry.lines.now) schedule.now (string_bytes a.text)) }
    ensures drawn { spec.DrawsAll form → IfOk result (λ a. a.verdict ≡ Reported) }
{
    let Inquiry {
        alloc,
        asked,
        loaded,
        legend,
        ..
    } = inquiry;
    let word = schedule.word.as_slice();
    let story = story_of(alloc, &asked.options, &loaded.program, legend, word)?;
    if let Some(row) = missing_row(form, &story) {
        let text = rows_beyond(alloc, row, row_count(&story));
        return answer_with(ShowVerdict::Misread, text);
    }
    let again = first_of_round(&story, word, schedule.round);
    let text = story_in(inquiry, &story, word, again, form)?;
    Ok(ShowAnswer {
        verdict: ShowVerdict::Reported,
        text,
    })
}

// The last row that is to be drawn, if a story has not so many.
fn missing_row(form: ScheduleForm, story: &Story) -> Option<usize>
    ensures { spec.DrawsAll form → result ≡ None }
{
    let ScheduleForm::Picture(view) = form else {
        return None;
    };
    match view.extent {
        SheetExtent::Between(_, last) if last > row_count(story) => Some(last),
        _ => None,
    }
}

// A story in a form, with the event with which a round begins.
fn story_in(
    inquiry: Inquiry<'_>,
    story: &Story,
    word: &[u8],
    again: Option<usize>,
    form: ScheduleForm,
) -> Result<String, AllocError>
    requires { UsedWithin story.now.end (length word.now) }
    ensures { IfOk result (λ text. spec.IsWrittenAs form inquiry.entry.loaded.now.program (legend_seen inquiry.entry.legend.now) (map string_bytes inquiry.entry.lines.now) word.now story.now again (string_bytes text)) }
{
    let Inquiry {
        alloc,
        loaded,
        legend,
        lines,
        ..
    } = inquiry;
    let end = trace_report(alloc, &loaded.program, &[], &story.end, word)?;
    match form {
        ScheduleForm::Lines => text(alloc, legend, story, again, end.text.as_str()),
        ScheduleForm::Json => json(alloc, legend, story, again, word, lines),
        ScheduleForm::Picture(view) => {
            let line = end.text.as_str().trim();
            let schedule = schedule_text(alloc, word)?;
            let outcome = outcome_text(inquiry, &story.end, line)?;
            picture(Scene {
                alloc,
                legend,
                story,
                schedule: schedule.as_str(),
                end: line,
                outcome: outcome.as_str(),
                source: lines,
                again,
                extent: view.extent,
                is_plain: view.is_plain,
            })
        }
    }
}

// The outcome as the last line of a trace has it; that line, where the run has not ended.
fn outcome_text(inquiry: Inquiry<'_>, end: &RunEnd, line: &str) -> Result<String, AllocError> {
    let mut text = String::new(inquiry.alloc);
    match end {
        RunEnd::Ended { outcome, .. } => {
            push_outcome(&mut text, &inquiry.loaded.program, outcome)?;
        }
        RunEnd::Wants { .. } | RunEnd::NotReady { .. } => text.push_str(line)?,
    }
    Ok(text)
}

// A word as it is written; the empty one by a name.
fn schedule_text(alloc: Global, word: &[u8]) -> Result<String, AllocError> {
    if word.is_empty() {
        return String::from_str(alloc, "none");
    }
    let mut text = String::new(alloc);
    push_word(&mut text, word)?;
    Ok(text)
}
