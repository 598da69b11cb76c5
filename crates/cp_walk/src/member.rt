//! The rows that begin with a member of a cutting.

ghost use Rattle.std.specs.Prelude.{◌≡◌, ◌<◌, ◌≤◌, length, map, IfOk, IfErr};
ghost use Rattle.cp_run.specs.Slots.{slots};
ghost use Rattle.cp_walk.specs.Cutting.{rows_behind};
ghost use Rattle.cp_walk.specs.Rows.{line_of, IsTooMany};

use crate::fault::ExploreFault;
use crate::observer::ObserveWalk;
use crate::one_thread::walk_on;
use crate::row::Row;
use cp_machine::{State, Uncounted, Unwatched};
use cp_run::{Job, choose, is_over, may, open};
use std::alloc::Global;

/// The rows of a table that begin with a word, which is replayed once.
pub fn member_rows<N: ObserveWalk>(
    alloc: Global,
    job: &Job<'_>,
    word: &[u8],
    observer: &mut N,
) -> Result<Vec<Row>, ExploreFault>
    requires short { length word.now ≤ 20 }
    requires few { job.now.limits.choices ≤ 20 }
    ensures rows { IfOk result (λ v. map line_of v.items ≡ rows_behind (slots job.now.program.now job.now.limits.discipline) job.now.limits.choices job.now.limits.steps word.now) }
    ensures few { IfOk result (λ v. length v.items ≤ 50000) }
    ensures many { IfErr result (λ e. IsTooMany e → 50000 < length (rows_behind (slots job.now.program.now job.now.limits.discipline) job.now.limits.choices job.now.limits.steps word.now)) }
{
    let Ok(mut state) = State::start(alloc, job.program, job.limits.discipline) else {
        return Err(ExploreFault::Memory);
    };
    let mut halt = open(job, &mut state, &mut Uncounted, &mut Uncounted);
    for (place, process) in word.iter().enumerate() {
        if is_over(job.limits.choices as usize, halt, place) {
            return Ok(Vec::new(alloc));
        }
        if !may(job, &state, *process) {
            return Ok(Vec::new(alloc));
        }
        halt = choose(
            job,
            &mut state,
            *process,
            &mut Unwatched,
            &mut Uncounted,
            &mut Uncounted,
        );
    }
    walk_on(alloc, job, &mut state, halt, word, &mut Uncounted, observer)
}
