//! The mark of a program, also where expectations name who waits.

ghost use Rattle.std.specs.Prelude.{◌≡◌, ℕ, List, false, true, map, IfOk};
ghost use Rattle.cp_run.specs.Slots.{slots};
ghost use Rattle.cp_run.specs.Table.{Line, table};
ghost use Rattle.cp_walk.specs.Report.{outcomes_of, same_outcome};
ghost use Rattle.cp_endless_laws.specs.Silent.{waits_on_slots};
ghost use Rattle.cp_merged.specs.Code.{tally_of};
ghost use Rattle.cp_merged.specs.Tallies.{tally};
ghost use Rattle.cp_verdict.specs.Judged as judged_by_rows;
ghost use Rattle.cp_verdict.specs.Judged.{line_of};
ghost use Rattle.cp_verdict.specs.Marked as by_rows;
ghost use Rattle.cp_verdict.specs.Marked.{OneForEach};
ghost use Rattle.cp_verdict.specs.Meant as meant_by_rows;
ghost use Rattle.cp_verdict.specs.endless.Naming.{processes_of};
ghost use Rattle.cp_verdict.specs.waiting.Asking as asking;
ghost use Rattle.cp_verdict.specs.waiting.Judged.{IsJudgedAny};
ghost use Rattle.cp_verdict.specs.waiting.Marked as spec;
ghost use Rattle.cp_verdict.specs.waiting.Meant.{IsMeantMark, IsSlotMark};
ghost use Rattle.cp_verdict.specs.waiting.Rows.{AreEndsIn, AreRowsOf, HaveShortEnds, HaveShortWords};
ghost use Rattle.cp_verdict.specs.waiting.Who.{who_at};

use crate::judging::{Judgement, judge};
use crate::marking::mark_of;
use crate::program::{MarkFault, Marked, outcomes_of, seen_of, stops_of};
use crate::seen::Seen;
use crate::waiting::asking::{name_who, names_who};
use crate::waiting::rows::{SeenWaiting, first_rows, rows_of};
use cp_expectation::Expectation;
use cp_legend::Legend;
use cp_merged::Tally;
use cp_progress::ObserveProgress;
use cp_slots::Resolved;
use cp_waiting_ends::{WaitingEnds, find_waiting};
use cp_walk::Job;
use std::alloc::{AllocError, Global};

/// What the outcomes of all schedules of a job say of some expectations, and who waits at their ends, where one asks for it. A layer may have so
/// many states. An observer is told how far the searches have come.
///
/// # Errors
/// What there is too much of; or memory was refused.
pub fn mark_named<O: ObserveProgress>(
    alloc: Global,
    job: Job,
    legend: &Legend,
    states: u32,
    expectations: &[Expectation],
    observer: &mut O,
) -> Result<Marked, MarkFault>
    ensures mark { IfOk result (λ m. IsSlotMark job.entry.program.now (processes_of legend.now) job.entry.limits.discipline job.entry.limits.choices job.entry.limits.steps expectations.now m) }
    ensures meaning { IfOk result (λ m. IsMeantMark job.entry.program.now (processes_of legend.now) job.entry.limits.discipline job.entry.limits.choices job.entry.limits.steps expectations.now m) }
    ensures rows { asking.name_who expectations.now ≡ false → IfOk result (λ m. by_rows.IsMarked job.entry.program.now.names expectations.now (table (slots job.entry.program.now job.entry.limits.discipline) job.entry.limits.choices job.entry.limits.steps) m) }
    ensures rows_meant { asking.name_who expectations.now ≡ false → IfOk result (λ m. meant_by_rows.IsMeantMark job.entry.program.now job.entry.limits.discipline job.entry.limits.choices job.entry.limits.steps expectations.now m) }
{
    let tallies = outcomes_of(alloc, job, states, observer)?;
    let list = tallies.as_slice();
    mark_known(alloc, job, legend, states, expectations, list, observer)
}

/// The same of a table whose outcomes are known.
///
/// # Errors
/// There are too many states; or memory was refused.
pub fn mark_known<O: ObserveProgress>(
    alloc: Global,
    job: Job,
    legend: &Legend,
    states: u32,
    expectations: &[Expectation],
    tallies: &[Tally],
    observer: &mut O,
) -> Result<Marked, MarkFault>
    ensures mark { IfOk result (λ m. map tally_of tallies.now ≡ tally same_outcome (table (slots job.entry.program.now job.entry.limits.discipline) job.entry.limits.choices job.entry.limits.steps) → IsSlotMark job.entry.program.now (processes_of legend.now) job.entry.limits.discipline job.entry.limits.choices job.entry.limits.steps expectations.now m) }
    ensures rows { asking.name_who expectations.now ≡ false → IfOk result (λ m. (lines : List Line) → map tally_of tallies.now ≡ tally same_outcome lines → by_rows.IsMarked job.entry.program.now.names expectations.now lines m) }
{
    let ends = ends_asked(alloc, job, states, expectations, observer)?;
    let marked = mark_rows(alloc, job.program, legend, expectations, tallies, &ends)?;
    Ok(marked)
}

// Who waits at the ends of all schedules of a job, where somebody is named.
fn ends_asked<O: ObserveProgress>(
    alloc: Global,
    job: Job,
    states: u32,
    expectations: &[Expectation],
    observer: &mut O,
) -> Result<WaitingEnds, MarkFault>
    ensures short { IfOk result (λ ends. HaveShortEnds ends) }
    ensures ends { asking.name_who expectations.now ≡ true → IfOk result (λ ends. AreEndsIn (who_at (slots job.entry.program.now job.entry.limits.discipline) waits_on_slots job.entry.limits.choices job.entry.limits.steps) (table (slots job.entry.program.now job.entry.limits.discipline) job.entry.limits.choices job.entry.limits.steps) ends) }
{
    if !name_who(expectations) {
        return Ok(WaitingEnds::none(alloc));
    }
    let noted = find_waiting(alloc, &job, states, observer)?;
    if noted.choices < job.limits.choices {
        return Err(MarkFault::TooManyStates);
    }
    Ok(noted.note)
}

// What the table with these outcomes says of some expectations, and with these ends at which all wait of those that name somebody.
fn mark_rows(
    alloc: Global,
    program: &Resolved,
    legend: &Legend,
    expectations: &[Expectation],
    tallies: &[Tally],
    ends: &WaitingEnds,
) -> Result<Marked, AllocError>
    requires { HaveShortEnds ends.now }
    ensures marked { IfOk result (λ m. (who : List ℕ → List ℕ) (lines : List Line) → map tally_of tallies.now ≡ tally same_outcome lines → (asking.name_who expectations.now ≡ true → AreEndsIn who lines ends.now) → spec.IsMarked program.now.names (processes_of legend.now) who expectations.now lines m) }
    ensures rows { asking.name_who expectations.now ≡ false → IfOk result (λ m. (lines : List Line) → map tally_of tallies.now ≡ tally same_outcome lines → by_rows.IsMarked program.now.names expectations.now lines m) }
{
    let seen = seen_of(alloc, tallies)?;
    let rows = rows_of(alloc, &seen, ends)?;
    let judgements = judge_each(alloc, program, legend, expectations, &seen, &rows)?;
    let mark = mark_of(&judgements);
    let stops = stops_of(&seen);
    Ok(Marked {
        judgements,
        mark,
        stops,
    })
}

// What it says of each expectation.
fn judge_each(
    alloc: Global,
    program: &Resolved,
    legend: &Legend,
    expectations: &[Expectation],
    seen: &[Seen],
    rows: &[SeenWaiting],
) -> Result<Vec<Judgement>, AllocError>
    requires { HaveShortWords rows.now }
    ensures { IfOk result (λ js. (who : List ℕ → List ℕ) (lines : List Line) → map line_of seen.now ≡ outcomes_of lines → (asking.name_who expectations.now ≡ true → AreRowsOf who lines rows.now) → OneForEach (IsJudgedAny program.now.names (processes_of legend.now) who lines) expectations.now js.items) }
{
    let mut judgements = Vec::new(alloc);
    for expectation in expectations {
        let judgement = judge_any(alloc, program, legend, expectation, seen, rows)?;
        judgements.push(judgement)?;
    }
    Ok(judgements)
}

fn judge_any(
    alloc: Global,
    program: &Resolved,
    legend: &Legend,
    expectation: &Expectation,
    seen: &[Seen],
    rows: &[SeenWaiting],
) -> Result<Judgement, AllocError>
    requires { HaveShortWords rows.now }
    ensures { IfOk result (λ j. (who : List ℕ → List ℕ) (lines : List Line) → map line_of seen.now ≡ outcomes_of lines → (asking.names_who expectation.now ≡ true → AreRowsOf who lines rows.now) → IsJudgedAny program.now.names (processes_of legend.now) who lines expectation.now j) }
{
    if names_who(expectation) {
        judge(alloc, program, legend, expectation, seen, rows)
    } else {
        judge_plainly(alloc, program, legend, expectation, seen)
    }
}

// By the first rows of the outcomes, where nobody is named.
fn judge_plainly(
    alloc: Global,
    program: &Resolved,
    legend: &Legend,
    expectation: &Expectation,
    seen: &[Seen],
) -> Result<Judgement, AllocError>
    ensures { asking.names_who expectation.now ≡ false → IfOk result (λ j. (lines : List Line) → map line_of seen.now ≡ outcomes_of lines → judged_by_rows.IsJudged program.now.names expectation.now lines j) }
{
    let first = first_rows(alloc, seen)?;
    judge(alloc, program, legend, expectation, seen, &first)
}
