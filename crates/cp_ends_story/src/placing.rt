//! Where processes are at the end of a word.

use crate::subject::Telling;
use cp_machine::{Signals, Uncounted};
use cp_run::{Job, OutcomeKind, RunEnd};
use cp_story::{Happening, OpenCall, Story, Wait, tell};
use std::alloc::AllocError;

/// The story of a word that is told to its end; none where the run was stopped by how much it displayed.
pub fn whole_story(telling: Telling<'_>, word: &[u8]) -> Result<Option<Story>, AllocError> {
    let story = story_of(telling, word)?;
    Ok(if is_full(&story) { None } else { Some(story) })
}

fn story_of(telling: Telling<'_>, word: &[u8]) -> Result<Story, AllocError> {
    let Telling { alloc, subject, .. } = telling;
    tell(
        alloc,
        &Job {
            program: subject.program,
            limits: subject.limits,
        },
        word.len(),
        subject.legend,
        word,
        &mut Uncounted,
    )
}

// Whether a run was stopped by how much it displayed: then its story ends too early.
fn is_full(story: &Story) -> bool {
    match &story.end {
        RunEnd::Ended { outcome, .. } => outcome.kind == OutcomeKind::OutputLimit,
        _ => false,
    }
}

/// Where a process waits at the end of a story.
pub fn wait_of(story: &Story, process: u8) -> Option<&Wait> {
    story.waits.iter().find(|wait| wait.process == process)
}

/// The outermost call of a monitor that a process has not returned from, at the end of a story.
pub fn outermost_call(story: &Story, process: u8) -> Option<OpenCall> {
    let mut first = None;
    let mut depth = 0usize;
    for event in &story.events {
        if event.plain.process == process {
            match &event.happening {
                Happening::Enter { call, .. } => {
                    if depth == 0 {
                        first = Some(*call);
                    }
                    depth = depth.saturating_add(1);
                }
                Happening::Leave(_) | Happening::Continue(_, _, Signals::Return) => {
                    depth = depth.saturating_sub(1);
                }
                _ => {}
            }
        }
    }
    if depth > 0 { first } else { None }
}
