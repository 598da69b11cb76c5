//! Pieces of what is said of expectations.

ghost use Rattle.std.specs.Prelude.{◌≡◌, IfOk, option_map, string_bytes};
ghost use Rattle.cp_prose.specs.Telling.{UnlessRefused, appended};
ghost use Rattle.cp_verdict.specs.Judged.{row_line};
ghost use Rattle.cp_expectation.specs.Written as language;
ghost use Rattle.cp_verdict.specs.Written as written;
ghost use Rattle.cp_walk.specs.Text as walk_text;
ghost use Rattle.cp_show_mark.specs.MarkText as spec;
ghost use Rattle.cp_show_mark.specs.MarkText.{setting_of};

use crate::examinee::Examinee;
use cp_expectation::{Expectation, Reading, push_doubt, push_expectation};
use cp_prose::Prose;
use cp_verdict::{Judgement, SeenRow, Standing, Stops};
use cp_walk::text::{push_outcome, push_word};
use std::alloc::{AllocError, Global};

/// What a mark is called.
pub fn mark_words(mark: Standing) -> &'static str
    ensures { result.now ≡ spec.mark_name mark }
{
    match mark {
        Standing::Holds => "holds",
        Standing::Fails => "fails",
        Standing::Open => "not settled",
    }
}

/// The mark that a judgement gives its expectation.
pub fn standing_of(judgement: &Judgement) -> Standing
    ensures { result ≡ spec.standing_of judgement.now }
{
    match judgement {
        Judgement::Holds | Judgement::Shown(_) => Standing::Holds,
        Judgement::Against(_) | Judgement::Missing => Standing::Fails,
        Judgement::Unsettled => Standing::Open,
    }
}

/// How a constant of the program is written that is a word of the language as well, if one may be meant.
pub fn doubt_text(
    alloc: Global,
    examinee: Examinee<'_>,
    reading: &Reading,
) -> Result<String, AllocError>
    ensures { IfOk result (λ t. string_bytes t ≡ spec.doubtful_text (spec.doubt_told examinee.entry.program.now.names (option_map (λ w. w.now) reading.now.doubtful))) }
{
    let mut text = String::new(alloc);
    if let Some(name) = doubtful(examinee, reading) {
        push_doubt(&mut text, name)?;
    }
    Ok(text)
}

fn doubtful(examinee: Examinee<'_>, reading: &Reading) -> Option<&'static str>
    ensures { option_map (λ w. w.now) result ≡ spec.doubt_told examinee.entry.program.now.names (option_map (λ w. w.now) reading.now.doubtful) }
{
    let name = reading.doubtful?;
    if examinee.declares(name) {
        Some(name)
    } else {
        None
    }
}

/// The limits at which some schedules ended, as words.
pub fn stops_text(alloc: Global, stops: Stops) -> Result<String, AllocError>
    ensures { IfOk result (λ t. string_bytes t ≡ written.stops_text stops) }
{
    let mut text = String::new(alloc);
    stops.push_to(&mut text)?;
    Ok(text)
}

pub fn expectation_text(alloc: Global, expectation: &Expectation) -> Result<String, AllocError>
    ensures { IfOk result (λ t. string_bytes t ≡ language.expectation_text expectation.now) }
{
    let mut text = String::new(alloc);
    push_expectation(&mut text, expectation)?;
    Ok(text)
}

/// A schedule with its outcome.
pub fn push_schedule(alloc: Global, examinee: Examinee<'_>, text: &mut Prose, row: &SeenRow)
    ensures { UnlessRefused text.new (appended text.old (spec.schedule_text (setting_of examinee.entry) (row_line row.now))) }
{
    text.put_made(word_text(alloc, row));
    text.put(" ");
    text.put_made(outcome_text(alloc, examinee, row));
    text.put("\n");
}

fn word_text(alloc: Global, row: &SeenRow) -> Result<String, AllocError>
    ensures { IfOk result (λ t. string_bytes t ≡ walk_text.word_text row.now.schedule.items) }
{
    let mut text = String::new(alloc);
    push_word(&mut text, row.schedule.as_slice())?;
    Ok(text)
}

fn outcome_text(alloc: Global, examinee: Examinee<'_>, row: &SeenRow) -> Result<String, AllocError>
    ensures { IfOk result (λ t. string_bytes t ≡ walk_text.outcome_text examinee.entry.program.now.names row.now.outcome) }
{
    let mut text = String::new(alloc);
    push_outcome(&mut text, examinee.program, &row.outcome)?;
    Ok(text)
}
