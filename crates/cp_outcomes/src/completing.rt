//! What is known where there is too much.

ghost use Rattle.std.specs.Prelude.{◌<◌, IfOk, IfSome};
ghost use Rattle.cp_run.specs.Slots.{slots};
ghost use Rattle.cp_outcomes.specs.Findings.{IsKnownOf};

use crate::known::Known;
use cp_merged::{MergeFault, explore_merged_with};
use cp_progress::ObserveProgress;
use cp_walk::Job;
use std::alloc::{AllocError, Global};

/// The outcomes for the greatest number of choices, less than those of the job, for which there is not too much; none where there is
/// too much without a choice. With more choices there is never less. An observer is told how far each search has come.
pub fn greatest_known<O: ObserveProgress>(
    alloc: Global,
    job: Job,
    most: u32,
    observer: &mut O,
) -> Result<Option<Known>, AllocError>
    ensures { IfOk result (λ known. IfSome known (IsKnownOf (slots job.entry.program.now job.entry.limits.discipline) job.entry.limits.choices job.entry.limits.steps)) }
{
    let mut known = None;
    let mut low = 0u8;
    let mut high = job.limits.choices;
    for _ in 0..100 {
        if low >= high {
            return Ok(known);
        }
        // Few choices are tried first, since many take long.
        let choices = (low + (high - low) / 2).min(low.saturating_mul(2));
        match merge_with(alloc, job, most, choices, observer)? {
            Some(found) => {
                known = Some(found);
                low = choices.saturating_add(1);
            }
            None => high = choices,
        }
    }
    Ok(known)
}

// The outcomes for so many choices, if there is not too much.
fn merge_with<O: ObserveProgress>(
    alloc: Global,
    job: Job,
    most: u32,
    choices: u8,
    observer: &mut O,
) -> Result<Option<Known>, AllocError>
    requires { choices < job.limits.choices }
    ensures { IfOk result (λ known. IfSome known (IsKnownOf (slots job.entry.program.now job.entry.limits.discipline) job.entry.limits.choices job.entry.limits.steps)) }
{
    let limits = job.limits.with_choices(choices);
    let fewer = Job {
        program: job.program,
        limits,
    };
    match explore_merged_with(alloc, fewer, most as usize, observer) {
        Ok(tallies) => Ok(Some(Known { choices, tallies })),
        Err(MergeFault::Memory) => Err(AllocError),
        Err(_) => Ok(None),
    }
}
