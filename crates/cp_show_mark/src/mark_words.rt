//! What is said of expectations, in words.

ghost use Rattle.std.specs.Prelude.{◌≡◌, IfOk, if◌then◌else◌, map, option_map, string_bytes};
ghost use Rattle.std.specs.List.{list_any, zip};
ghost use Rattle.cp_legend.specs.Names.{legend_seen};
ghost use Rattle.cp_prose.specs.Telling.{UnlessRefused, appended};
ghost use Rattle.cp_run.specs.Table.{each};
ghost use Rattle.cp_story.specs.Objects.{line_of};
ghost use Rattle.cp_story.specs.Views.{wait_of};
ghost use Rattle.cp_verdict.specs.Judged.{row_line};
ghost use Rattle.cp_show_mark.specs.MarkData.{misread_data};
ghost use Rattle.cp_show_mark.specs.MarkText as spec;
ghost use Rattle.cp_show_mark.specs.MarkText.{setting_of};
ghost use Rattle.cp_show_mark.specs.Told.{saying};

use crate::examinee::Examinee;
use crate::mark_objects::{marks_as_json, misread_json};
use crate::mark_texts::{
    doubt_text, expectation_text, mark_words, push_schedule, standing_of, stops_text,
};
use crate::stories::waits_of;
use cp_expectation::{Claim, Expectation, Reading};
use cp_prose::Prose;
use cp_run::{MOST_CHOICES, OutcomeKind};
use cp_story::{Wait, wait_words};
use cp_verdict::{Judgement, Marked, SeenRow, Standing, Stops};
use std::alloc::{AllocError, Global};

/// That there is no expectation, or why it is none.
pub fn misread_text(alloc: Global, said: &str, as_json: bool) -> Result<String, AllocError>
    ensures { IfOk result (λ t. string_bytes t ≡ (if as_json then line_of (misread_data said.now) else said.now)) }
{
    if as_json {
        misread_json(alloc, said)
    } else {
        String::from_str(alloc, said)
    }
}

/// What a table says of the expectations.
pub fn mark_text(
    alloc: Global,
    examinee: Examinee<'_>,
    reading: &Reading,
    marked: &Marked,
) -> Result<String, AllocError>
    ensures { IfOk result (λ t. string_bytes t ≡ saying (setting_of examinee.entry) reading.now.expectations.items (option_map (λ w. w.now) reading.now.doubtful) marked.now) }
{
    if examinee.as_json {
        marks_as_json(alloc, examinee, reading, marked)
    } else {
        marks_as_text(alloc, examinee, reading, marked)
    }
}

fn marks_as_text(
    alloc: Global,
    examinee: Examinee<'_>,
    reading: &Reading,
    marked: &Marked,
) -> Result<String, AllocError>
    ensures { IfOk result (λ t. string_bytes t ≡ spec.mark_text (setting_of examinee.entry) reading.now.expectations.items (option_map (λ w. w.now) reading.now.doubtful) marked.now) }
{
    let mut text = Prose::new(alloc);
    push_holds(alloc, &mut text, marked);
    push_those(alloc, examinee, &mut text, reading, marked, true);
    push_those(alloc, examinee, &mut text, reading, marked, false);
    push_longer(examinee, &mut text, marked);
    text.put_made(doubt_text(alloc, examinee, reading));
    text.finish()
}

// The expectations that fail, or those that are not settled.
fn push_those(
    alloc: Global,
    examinee: Examinee<'_>,
    text: &mut Prose,
    reading: &Reading,
    marked: &Marked,
    failing: bool,
)
    ensures { UnlessRefused text.new (appended text.old (spec.those_text (setting_of examinee.entry) marked.now.stops (spec.is_of failing) (zip reading.now.expectations.items marked.now.judgements.items))) }
{
    for (expectation, judgement) in reading.expectations.iter().zip(&marked.judgements) {
        if is_of(failing, judgement) {
            push_judged(alloc, examinee, text, expectation, judgement, marked);
        }
    }
}

fn is_of(failing: bool, judgement: &Judgement) -> bool
    ensures { result ≡ spec.is_of failing judgement.now }
{
    if failing {
        judgement.is_against()
    } else {
        judgement.is_unsettled()
    }
}

// Who tells of longer schedules, where those that can be asked for are too short.
fn push_longer(examinee: Examinee<'_>, text: &mut Prose, marked: &Marked)
    ensures { UnlessRefused text.new (appended text.old (spec.longer_text examinee.entry.options.now.choices marked.now.stops marked.now.mark)) }
{
    let is_longest = examinee.options.choices == MOST_CHOICES;
    match marked.mark {
        Standing::Open if marked.stops.choices && is_longest => {
            text.put("./show mark --ends says what holds of schedules of any length\n");
        }
        Standing::Holds | Standing::Fails | Standing::Open => {}
    }
}

// That all hold, if they do, and of which schedules.
fn push_holds(alloc: Global, text: &mut Prose, marked: &Marked)
    ensures { UnlessRefused text.new (appended text.old (spec.holds_text marked.now.judgements.items marked.now.stops marked.now.mark)) }
{
    match marked.mark {
        Standing::Holds => {
            text.put("holds\n");
            push_extent(alloc, text, marked);
        }
        Standing::Fails | Standing::Open => {}
    }
}

// Of which schedules they hold.
fn push_extent(alloc: Global, text: &mut Prose, marked: &Marked)
    ensures { UnlessRefused text.new (appended text.old (spec.extent_text marked.now.judgements.items marked.now.stops)) }
{
    if marked.stops.is_empty() {
        text.put("complete: the same for every greater number of choices\n");
        return;
    }
    text.put(reach_words(&marked.judgements));
    text.put_made(stops_text(alloc, marked.stops));
    text.put("\n");
}

// Of which schedules it holds where some ended at a limit.
fn reach_words(judgements: &[Judgement]) -> &'static str
    ensures { result.now ≡ spec.reach_text judgements.now }
{
    if some_may_go_on(judgements) {
        "shown by a schedule; some ended at "
    } else if some_hold(judgements) {
        "shown by each schedule, for every greater number of choices too; some ended at "
    } else {
        "shown by a schedule, for every greater number of choices too; others ended at "
    }
}

// Whether each schedule shows one of them.
fn some_hold(judgements: &[Judgement]) -> bool
    ensures { result ≡ list_any spec.is_of_each judgements.now }
{
    judgements
        .iter()
        .any(|judgement| matches!(judgement, Judgement::Holds))
}

fn some_may_go_on(judgements: &[Judgement]) -> bool
    ensures { result ≡ list_any spec.may_go_on judgements.now }
{
    judgements.iter().any(is_end_for_choices)
}

// Whether a schedule shows it that ended for want of choices: of a greater number nothing is proved then.
fn is_end_for_choices(judgement: &Judgement) -> bool
    ensures { result ≡ spec.may_go_on judgement.now }
{
    match judgement {
        Judgement::Shown(row) => matches!(row.outcome.kind, OutcomeKind::ChoiceLimit),
        _ => false,
    }
}

// An expectation that does not hold, or is not settled.
fn push_judged(
    alloc: Global,
    examinee: Examinee<'_>,
    text: &mut Prose,
    expectation: &Expectation,
    judgement: &Judgement,
    marked: &Marked,
)
    ensures { UnlessRefused text.new (appended text.old (spec.judged_text (setting_of examinee.entry) marked.now.stops (expectation.now, judgement.now))) }
{
    text.put(mark_words(standing_of(judgement)));
    text.put(": ");
    text.put_made(expectation_text(alloc, expectation));
    text.put("\n");
    push_reason(alloc, examinee, text, expectation, judgement, marked);
}

/// Why an expectation does not hold, or is not settled.
pub fn push_reason(
    alloc: Global,
    examinee: Examinee<'_>,
    text: &mut Prose,
    expectation: &Expectation,
    judgement: &Judgement,
    marked: &Marked,
)
    ensures { UnlessRefused text.new (appended text.old (spec.reason_text (setting_of examinee.entry) marked.now.stops expectation.now.claim judgement.now)) }
{
    match judgement {
        Judgement::Against(row) => push_row(alloc, examinee, text, row),
        Judgement::Missing => text.put("the table is complete and has no such schedule\n"),
        Judgement::Unsettled => push_open(alloc, text, expectation.claim, marked.stops),
        Judgement::Holds | Judgement::Shown(_) => {}
    }
}

// That no schedule settles an expectation, and at which limits some ended.
fn push_open(alloc: Global, text: &mut Prose, claim: Claim, stops: Stops)
    ensures { UnlessRefused text.new (appended text.old (spec.stopped_text stops claim)) }
{
    text.put("some schedules ended at ");
    text.put_made(stops_text(alloc, stops));
    text.put(open_words(claim));
}

fn open_words(claim: Claim) -> &'static str
    ensures { result.now ≡ spec.open_text claim }
{
    match claim {
        Claim::Sometimes => ", and none so far settles it\n",
        Claim::Never | Claim::Only => ", and none so far is against it\n",
    }
}

// The first schedule against an expectation; who waits where at its end, or the line of its error.
fn push_row(alloc: Global, examinee: Examinee<'_>, text: &mut Prose, row: &SeenRow)
    ensures { UnlessRefused text.new (appended text.old (spec.row_text (setting_of examinee.entry) (row_line row.now))) }
{
    text.put("first against it: ");
    push_schedule(alloc, examinee, text, row);
    push_end(
        alloc,
        examinee,
        text,
        row.schedule.as_slice(),
        row.outcome.kind,
    );
}

/// Who waits where at the end of a schedule, or the line of its error.
pub fn push_end(
    alloc: Global,
    examinee: Examinee<'_>,
    text: &mut Prose,
    word: &[u8],
    kind: OutcomeKind,
)
    ensures { UnlessRefused text.new (appended text.old (spec.end_text (setting_of examinee.entry) word.now kind)) }
{
    match kind {
        OutcomeKind::AllWaiting => match waits_of(alloc, examinee, word) {
            Ok(waits) => push_waits(alloc, examinee, text, &waits),
            Err(_) => text.refuse(),
        },
        OutcomeKind::RunError { process, line, .. } => push_place(examinee, text, process, line),
        _ => {}
    }
}

fn push_waits(alloc: Global, examinee: Examinee<'_>, text: &mut Prose, waits: &[Wait])
    ensures { UnlessRefused text.new (appended text.old (each (spec.waiting_text (legend_seen examinee.entry.legend.now)) (map wait_of waits.now))) }
{
    for wait in waits {
        push_wait(alloc, examinee, text, wait);
    }
}

fn push_wait(alloc: Global, examinee: Examinee<'_>, text: &mut Prose, wait: &Wait)
    ensures { UnlessRefused text.new (appended text.old (spec.waiting_text (legend_seen examinee.entry.legend.now) (wait_of wait.now))) }
{
    text.put("  ");
    text.put_made(wait_words(alloc, examinee.legend, wait));
    text.put("\n");
}

// Which process was in error, and at which line.
fn push_place(examinee: Examinee<'_>, text: &mut Prose, process: u8, line: u32)
    ensures { UnlessRefused text.new (appended text.old (spec.place_text (setting_of examinee.entry) process line)) }
{
    text.put("  ");
    text.put_display(process);
    text.put(" ");
    text.put(examinee.legend.process_name(process));
    text.put(" at line ");
    text.put_display(line);
    text.put(": ");
    text.put(examinee.line(line));
    text.put("\n");
}
