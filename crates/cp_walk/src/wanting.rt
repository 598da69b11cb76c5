//! What the run of a word wants.

ghost use Rattle.std.specs.Prelude.{◌≡◌, ◌≤◌, length, IfOk, option_map};
ghost use Rattle.cp_run.specs.Run.{run};
ghost use Rattle.cp_run.specs.Slots.{slots};
ghost use Rattle.cp_walk.specs.Cutting.{wanted_in};

use arrayvec::ArrayVec;
use cp_machine::Uncounted;
use cp_run::{Job, RunEnd, run};
use std::alloc::{AllocError, Global};

/// The numbers that a word's run wants, or None where it ends.
pub fn numbers_wanted_after(
    alloc: Global,
    job: &Job<'_>,
    word: &[u8],
) -> Result<Option<ArrayVec<u8, 16>>, AllocError>
    requires { length word.now ≤ 20 }
    ensures { IfOk result (λ o. option_map (λ r. r.items) o ≡ wanted_in (run (slots job.now.program.now job.now.limits.discipline) job.now.limits.choices job.now.limits.steps word.now)) }
{
    let RunEnd::Wants { ready } = run(alloc, job, word, &mut Uncounted)? else {
        return Ok(None);
    };
    Ok(Some(ready))
}
