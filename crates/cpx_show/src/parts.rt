//! What is shown of a source that is accepted, by each part.

ghost use Rattle.std.specs.Prelude.{◌≡◌, false, IfOk, codes, map, string_bytes};
ghost use Rattle.cp_tree.specs.Read.{IsRead};
ghost use Rattle.cp_tree.specs.Syntax.{Tree};
ghost use Rattle.cp_tree.specs.TreeView.{tree_view};
ghost use Rattle.cp_meaning_laws.specs.Accepted.{IsAccepted};
ghost use Rattle.cp_refusal.specs.Text.{BeginsWith};
ghost use Rattle.cp_resolved.specs.Resolving.{IsProgramOf};
ghost use Rattle.cp_show_mark.specs.declared.answer.ShowVerdict.TheVariants.{Reported};
ghost use Rattle.cpx_show.specs.Schedules as schedule;
ghost use Rattle.cpx_show.specs.Schedules.{IsTracedAs};
ghost use Rattle.cpx_show.specs.Shown.{AreNamed, AreOutcomesShown, IsGivenMark, IsShown, IsTraceInNames};

use crate::covering::with_coverage;
use crate::inquiry::Inquiry;
use crate::refusals::explanation_text;
use crate::schedules::{ScheduleForm, one_schedule, trace_form};
use crate::summaries::{ends_answer, outcomes_answer, page_answer};
use cp_progress::ObserveProgress;
use cp_show_mark::{Examinee, ShowAnswer, ShowVerdict, mark_answer};
use cp_show_options::ShowPart;
use std::alloc::AllocError;

/// The part that is asked for.
pub fn show_part<O: ObserveProgress>(
    inquiry: Inquiry<'_>,
    observer: &mut O,
) -> Result<ShowAnswer, AllocError>
    requires accepted { IsAccepted (tree_view inquiry.loaded.now.checked.tree) }
    requires named { AreNamed (tree_view inquiry.loaded.now.checked.tree) inquiry.loaded.now.program inquiry.legend.now }
    ensures { IfOk result (λ a. IsShown inquiry.entry.asked.now.part inquiry.entry.asked.now (tree_view inquiry.entry.loaded.now.checked.tree) inquiry.entry.loaded.now.program inquiry.entry.legend.now inquiry.entry.source.now (map string_bytes inquiry.entry.lines.now) a.verdict (string_bytes a.text)) }
{
    match &inquiry.asked.part {
        ShowPart::Trace { json } => show_trace(inquiry, observer, *json),
        ShowPart::Lanes(view) => one_schedule(inquiry, observer, ScheduleForm::Picture(*view)),
        ShowPart::Page { states } => page_answer(inquiry, observer, *states),
        ShowPart::Outcomes { json, cover } => show_outcomes(inquiry, observer, *json, *cover),
        ShowPart::Ends { json } => ends_answer(inquiry, observer, *json),
        ShowPart::Mark { words, own, json } => {
            show_mark(inquiry, observer, words.as_str(), *own, *json)
        }
        ShowPart::Refusal { json, file } => show_accepted(inquiry, *json, file),
    }
}

// One schedule in names.
fn show_trace<O: ObserveProgress>(
    inquiry: Inquiry<'_>,
    observer: &mut O,
    as_json: bool,
) -> Result<ShowAnswer, AllocError>
    requires accepted { IsAccepted (tree_view inquiry.loaded.now.checked.tree) }
    requires named { AreNamed (tree_view inquiry.loaded.now.checked.tree) inquiry.loaded.now.program inquiry.legend.now }
    ensures { IfOk result (λ a. IsTracedAs (schedule.trace_form as_json) (IsTraceInNames (schedule.trace_form as_json) inquiry.entry.asked.now.options (tree_view inquiry.entry.loaded.now.checked.tree) inquiry.entry.loaded.now.program inquiry.entry.legend.now (map string_bytes inquiry.entry.lines.now)) inquiry.entry.asked.now inquiry.entry.loaded.now.program a.verdict (string_bytes a.text)) }
{
    one_schedule(inquiry, observer, trace_form(as_json))
}

// All outcomes, and what no schedule comes to where that is asked for.
fn show_outcomes<O: ObserveProgress>(
    inquiry: Inquiry<'_>,
    observer: &mut O,
    as_json: bool,
    with_cover: bool,
) -> Result<ShowAnswer, AllocError>
    requires accepted { IsAccepted (tree_view inquiry.loaded.now.checked.tree) }
    requires stands { IsProgramOf (tree_view inquiry.loaded.now.checked.tree) inquiry.loaded.now.program }
    ensures { IfOk result (λ a. AreOutcomesShown as_json with_cover inquiry.entry.asked.now.options (tree_view inquiry.entry.loaded.now.checked.tree) inquiry.entry.loaded.now.program inquiry.entry.legend.now a.verdict (string_bytes a.text)) }
{
    let answer = outcomes_answer(inquiry, observer, as_json)?;
    if with_cover {
        let text = with_coverage(inquiry, observer, answer.text.as_str(), as_json)?;
        Ok(ShowAnswer {
            verdict: answer.verdict,
            text,
        })
    } else {
        Ok(answer)
    }
}

// The mark by the words, or by the source.
fn show_mark<O: ObserveProgress>(
    inquiry: Inquiry<'_>,
    observer: &mut O,
    words: &str,
    own: bool,
    as_json: bool,
) -> Result<ShowAnswer, AllocError>
    ensures { (t : Tree) → ∥ IsRead t.program ∥₁ → IsAccepted t → IsProgramOf t inquiry.entry.loaded.now.program → IfOk result (λ a. IsGivenMark as_json inquiry.entry.asked.now.options t inquiry.entry.loaded.now.program inquiry.entry.legend.now words.now own inquiry.entry.source.now (map string_bytes inquiry.entry.lines.now) a.verdict (string_bytes a.text)) }
{
    let Inquiry {
        alloc,
        asked,
        loaded,
        legend,
        source,
        lines,
    } = inquiry;
    let examinee = Examinee {
        options: &asked.options,
        program: &loaded.program,
        legend,
        lines,
        as_json,
    };
    mark_answer(alloc, examinee, observer, words, own, source)
}

// That a source is accepted, with hints.
fn show_accepted(
    inquiry: Inquiry<'_>,
    as_json: bool,
    file: &Option<String>,
) -> Result<ShowAnswer, AllocError>
    ensures { IfOk result (λ a. (a.verdict ≡ Reported) × (as_json ≡ false → BeginsWith (codes "accepted\n") (string_bytes a.text))) }
{
    let Inquiry {
        alloc,
        loaded,
        source,
        ..
    } = inquiry;
    let signals = inquiry.asked.options.discipline.signals;
    Ok(ShowAnswer {
        verdict: ShowVerdict::Reported,
        text: explanation_text(alloc, source, Ok(loaded), signals, as_json, file)?,
    })
}
