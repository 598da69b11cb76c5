//! The exploration of all schedules.

ghost use Rattle.std.specs.Prelude.{◌≡◌, ◌<◌, ◌≤◌, ◌+◌, ◌-◌, length, map, All, IfOk, IfErr};
ghost use Rattle.cp_machine.specs.System.{machine_of, IsStateOf};
ghost use Rattle.cp_run.specs.Code.{node_of};
ghost use Rattle.cp_run.specs.Slots.{slots};
ghost use Rattle.cp_run.specs.Table.{table};
ghost use Rattle.cp_walk.specs.Beginnings.{beginnings, words_in, words_of_rows};
ghost use Rattle.cp_walk.specs.Rows.{line_of, IsTooMany};
ghost use Rattle.cp_walk.specs.Walk.{behind, IsDue};
ghost use Rattle.cp_walk.specs.Walking.{node_rows};

use crate::fault::ExploreFault;
use crate::found::Found;
use crate::memo::Walked;
use crate::observer::ObserveWalk;
use crate::row::{Row, Rows, Table};
use crate::walk::Walk;
use crate::word::word_of;
use cp_machine::{Count, State, Uncounted};
use cp_progress::Unobserved;
use cp_run::{Halt, Job, OutcomeKind, open};
use cp_slots::Resolved;
use std::alloc::{AllocError, Global};

/// The table of a job, by one walk over the tree of words. `calls` is raised by one by each call of `choose` and `open`; no word is replayed.
pub fn walk_on_one_thread<C: Count>(
    alloc: Global,
    job: &Job<'_>,
    calls: &mut C,
) -> Result<Table, ExploreFault>
    requires { job.now.limits.choices ≤ 20 }
    ensures table { IfOk result (λ t. map line_of t.rows ≡ table (slots job.now.program.now job.now.limits.discipline) job.now.limits.choices job.now.limits.steps) }
    ensures few { IfOk result (λ t. length t.rows ≤ 50000) }
    ensures many { IfErr result (λ e. IsTooMany e → 50000 < length (table (slots job.now.program.now job.now.limits.discipline) job.now.limits.choices job.now.limits.steps)) }
    ensures calls { IfOk result (λ t. C.count calls.new ≤ C.count calls.old + beginnings (words_of_rows t.rows)) }
{
    let Ok(mut first) = State::start(alloc, job.program, job.limits.discipline) else {
        return Err(ExploreFault::Memory);
    };
    let halt = open(job, &mut first, &mut Uncounted, calls);
    let rows = walk_on(alloc, job, &mut first, halt, &[], calls, &mut Unobserved)?;
    Ok(Table {
        rows: Rows::new(rows),
    })
}

/// Walks from a node on, of which no states are known: the rows of the node at the end of `word`.
pub fn walk_on<C: Count, N: ObserveWalk>(
    alloc: Global,
    job: &Job<'_>,
    state: &mut State,
    halt: Halt<OutcomeKind>,
    word: &[u8],
    calls: &mut C,
    observer: &mut N,
) -> Result<Vec<Row>, ExploreFault>
    requires own { IsStateOf job.now.program.now state.old }
    requires room { length word.now ≤ job.now.limits.choices }
    requires short { job.now.limits.choices ≤ 20 }
    requires due { IsDue (slots job.now.program.now job.now.limits.discipline) (node_of halt (machine_of state.old)) }
    ensures rows { IfOk result (λ v. map line_of v.items ≡ map (behind word.now) (node_rows job.now.program.now job.now.limits (job.now.limits.choices - length word.now) (node_of halt (machine_of state.old)))) }
    ensures few { IfOk result (λ v. length v.items ≤ 50000) }
    ensures many { IfErr result (λ e. IsTooMany e → 50000 < length (node_rows job.now.program.now job.now.limits (job.now.limits.choices - length word.now) (node_of halt (machine_of state.old)))) }
    ensures calls { IfOk result (λ _. C.count calls.new + 1 ≤ C.count calls.old + beginnings (words_in (node_rows job.now.program.now job.now.limits (job.now.limits.choices - length word.now) (node_of halt (machine_of state.old))))) }
{
    let left = job.limits.choices - word.len() as u8;
    let Ok(mut kept) = copies(alloc, job.program, state, left) else {
        return Err(ExploreFault::Memory);
    };
    let Ok(walked) = Walked::new(alloc, state) else {
        return Err(ExploreFault::Memory);
    };
    let rows = Vec::new(alloc);
    let path = word_of(word);
    let mut walk = Walk {
        alloc,
        word: path,
        found: Found { rows, walked },
        observer,
    };
    walk.walk_from(job, state, halt, kept.as_mut_slice(), calls)?;
    let found = walk.found;
    Ok(found.rows)
}

// So many copies of a state.
fn copies(
    alloc: Global,
    program: &Resolved,
    state: &State,
    count: u8,
) -> Result<Vec<State>, AllocError>
    requires { IsStateOf program.now state.now }
    ensures count { IfOk result (λ v. length v.items ≡ count) }
    ensures own { IfOk result (λ v. All (IsStateOf program.now) v.items) }
{
    let mut states = Vec::with_capacity(alloc, count as usize)?;
    for _ in 0..count {
        states.push(state.copy(alloc)?)?;
    }
    Ok(states)
}
