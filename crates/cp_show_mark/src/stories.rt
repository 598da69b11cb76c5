//! The story of a schedule.

ghost use Rattle.std.specs.Prelude.{◌≡◌, IfOk, length, map};
ghost use Rattle.cp_legend.specs.Names.{legend_seen};
ghost use Rattle.cp_run.specs.Code.{answer_of};
ghost use Rattle.cp_story.specs.Views.{wait_of};
ghost use Rattle.cp_walk.specs.Rows.{UsedWithin};
ghost use Rattle.cp_show_mark.specs.Stories as spec;
ghost use Rattle.cp_show_mark.specs.Stories.{IsStoryOf, waits_at_end};

use crate::examinee::Examinee;
use cp_legend::Legend;
use cp_machine::Uncounted;
use cp_run::{Job, OutcomeKind, RunEnd};
use cp_slots::Resolved;
use cp_story::{Story, Wait, tell};
use cp_tool::Options;
use std::alloc::{AllocError, Global};

/// The story of a word within the limits of the options.
pub fn story_of(
    alloc: Global,
    options: &Options,
    program: &Resolved,
    legend: &Legend,
    word: &[u8],
) -> Result<Story, AllocError>
    ensures used { IfOk result (λ story. UsedWithin story.end (length word.now)) }
    ensures so { IfOk result (λ story. IsStoryOf (legend_seen legend.now) program.now options.now.discipline options.now.choices options.now.steps word.now story) }
{
    let choices = options.choices as usize;
    story_within(alloc, options, program, legend, choices, word)
}

// The story of a word, of which at most `choices` choices are taken.
fn story_within(
    alloc: Global,
    options: &Options,
    program: &Resolved,
    legend: &Legend,
    choices: usize,
    word: &[u8],
) -> Result<Story, AllocError>
    ensures used { IfOk result (λ story. UsedWithin story.end (length word.now)) }
    ensures so { IfOk result (λ story. IsStoryOf (legend_seen legend.now) program.now options.now.discipline choices options.now.steps word.now story) }
{
    tell(
        alloc,
        &Job {
            program,
            limits: options.limits(),
        },
        choices,
        legend,
        word,
        &mut Uncounted,
    )
}

/// Who waits where at the end of a word, if all do there.
pub fn waits_of(alloc: Global, examinee: Examinee<'_>, word: &[u8]) -> Result<Vec<Wait>, AllocError>
    ensures { IfOk result (λ waits. map wait_of waits.items ≡ waits_at_end (legend_seen examinee.entry.legend.now) examinee.entry.program.now examinee.entry.options.now.discipline examinee.entry.options.now.steps word.now) }
{
    let Examinee {
        options,
        program,
        legend,
        ..
    } = examinee;
    let story = story_within(alloc, options, program, legend, word.len(), word)?;
    if ends_waiting(&story.end) {
        Ok(story.waits)
    } else {
        Ok(Vec::new(alloc))
    }
}

fn ends_waiting(end: &RunEnd) -> bool
    ensures { result ≡ spec.ends_waiting (answer_of end.now) }
{
    match end {
        RunEnd::Ended { outcome, .. } => matches!(outcome.kind, OutcomeKind::AllWaiting),
        _ => false,
    }
}
