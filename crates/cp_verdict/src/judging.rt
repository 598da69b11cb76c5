//! Whether an expectation holds of all schedules.

ghost use Rattle.std.specs.Prelude.{◌≡◌, ℕ, List, false, find, map, IfOk, option_map};
ghost use Rattle.cp_run.specs.Table.{Line};
ghost use Rattle.cp_walk.specs.Report.{outcomes_of};
ghost use Rattle.cp_verdict.specs.Expectations.{is_one_of};
ghost use Rattle.cp_verdict.specs.Judged as spec;
ghost use Rattle.cp_verdict.specs.endless.Naming.{processes_of};
ghost use Rattle.cp_verdict.specs.waiting.Asking.{names_who};
ghost use Rattle.cp_verdict.specs.waiting.Judged as by_who;
ghost use Rattle.cp_verdict.specs.waiting.Matching.{settles};
ghost use Rattle.cp_verdict.specs.waiting.Rows.{AreRowsOf, HaveShortWords, waiting_line};

use crate::matching::is_open;
use crate::seen::{Seen, SeenRow};
use crate::waiting::matching::settles;
use crate::waiting::rows::SeenWaiting;
use cp_expectation::{Claim, Expectation};
use cp_legend::Legend;
use cp_slots::Resolved;
use std::alloc::{AllocError, Global};

/// What a table says of an expectation.
#[derive(Drop)]
pub enum Judgement {
    /// It is true of the whole table, and no schedule that a limit stopped could change that.
    Holds,
    /// Some schedule was to be so, and this is the first that is.
    Shown(SeenRow),
    /// This is the first schedule against it.
    Against(SeenRow),
    /// Some schedule was to be so. None is, and no schedule ended at a limit.
    Missing,
    /// No schedule settles it, and some that ended at a limit might.
    Unsettled,
}

// The first of the rows that settles an expectation. Each schedule has at most 100 numbers.
fn first_settling(
    alloc: Global,
    program: &Resolved,
    legend: &Legend,
    expectation: &Expectation,
    rows: &[SeenWaiting],
) -> Result<Option<SeenRow>, AllocError>
    requires { HaveShortWords rows.now }
    ensures { IfOk result (λ found. option_map spec.row_line found ≡ option_map waiting_line (find (λ x. settles program.now.names (processes_of legend.now) expectation.now x.who.now x.outcome.now) rows.now)) }
{
    for one in rows {
        if settles(alloc, program, legend, expectation, one.who, one.outcome)? {
            let row = one.row(alloc)?;
            return Ok(Some(row));
        }
    }
    Ok(None)
}

// Whether a limit stopped some run that might settle an expectation.
fn has_open(
    alloc: Global,
    program: &Resolved,
    expectation: &Expectation,
    seen: &[Seen],
) -> Result<bool, AllocError>
    ensures { IfOk result (λ b. b ≡ spec.has_open expectation.now.claim (is_one_of program.now.names expectation.now.topics.items) (map spec.line_of seen.now)) }
{
    for one in seen {
        if is_open(alloc, program, expectation, one.outcome)? {
            return Ok(true);
        }
    }
    Ok(false)
}

// The judgement by the first row that settles an expectation, and whether some run that a limit stopped might.
fn settle(claim: Claim, found: Option<SeenRow>, left_open: bool) -> Judgement
    ensures { result ≡ spec.judgement_of claim found left_open }
{
    match (claim, found) {
        (Claim::Sometimes, Some(shown)) => Judgement::Shown(shown),
        (_, Some(against)) => Judgement::Against(against),
        (_, None) if left_open => Judgement::Unsettled,
        (Claim::Sometimes, None) => Judgement::Missing,
        (_, None) => Judgement::Holds,
    }
}

/// What a table with these outcomes, in the order of their first rows, says of an expectation: by its rows with who waits at their ends, or, where it names
/// nobody, by the first rows of its outcomes.
pub fn judge(
    alloc: Global,
    program: &Resolved,
    legend: &Legend,
    expectation: &Expectation,
    seen: &[Seen],
    rows: &[SeenWaiting],
) -> Result<Judgement, AllocError>
    requires { HaveShortWords rows.now }
    ensures who { IfOk result (λ j. (who : List ℕ → List ℕ) (lines : List Line) → map spec.line_of seen.now ≡ outcomes_of lines → AreRowsOf who lines rows.now → by_who.IsJudged program.now.names (processes_of legend.now) who expectation.now lines j) }
    ensures rows { names_who expectation.now ≡ false → map waiting_line rows.now ≡ map spec.line_of seen.now → IfOk result (λ j. (lines : List Line) → map spec.line_of seen.now ≡ outcomes_of lines → spec.IsJudged program.now.names expectation.now lines j) }
{
    let left_open = has_open(alloc, program, expectation, seen)?;
    let found = first_settling(alloc, program, legend, expectation, rows)?;
    Ok(settle(expectation.claim, found, left_open))
}
