//! The rows of a table by who waits at their ends.

ghost use Rattle.std.specs.Prelude.{◌≡◌, ◌≤◌, ◌++◌, ℕ, List, IfOk, length, map};
ghost use Rattle.cp_run.specs.Table.{Line};
ghost use Rattle.cp_walk.specs.Report.{outcomes_of};
ghost use Rattle.cp_verdict.specs.Judged.{line_of, row_line};
ghost use Rattle.cp_verdict.specs.waiting.Rows.{AreEndsIn, AreRowsOf, HaveShortEnds, HaveShortWords, end_row, other_row, others_in, row_seen, waiting_line};

use crate::seen::{Seen, SeenRow};
use crate::waiting::matching::is_waiting;
use cp_merged::word::word_of;
use cp_run::{Outcome, Output};
use cp_waiting_ends::WaitingEnds;
use std::alloc::{AllocError, Global};

/// An outcome, who waits at the end if all do, and a schedule that ends so.
#[derive(Clone, Copy, Drop)]
pub struct SeenWaiting<'a> {
    pub who: &'a [u8],
    pub outcome: &'a Outcome,
    pub first: &'a [u8],
}

impl SeenWaiting<'_> {
    /// The schedule with its outcome, apart from the table.
    pub fn row(self, alloc: Global) -> Result<SeenRow, AllocError>
        requires { length self.first.now ≤ 100 }
        ensures { IfOk result (λ r. row_line r ≡ waiting_line self.entry) }
    {
        let output = Output::of(alloc, self.outcome.output.as_slice())?;
        Ok(SeenRow {
            schedule: word_of(self.first),
            outcome: Outcome {
                kind: self.outcome.kind,
                output,
            },
        })
    }
}

/// The first rows of some outcomes, where nobody asks who waits.
pub fn first_rows<'a>(
    alloc: Global,
    seen: &'a [Seen<'a>],
) -> Result<Vec<SeenWaiting<'a>>, AllocError>
    ensures short { IfOk result (λ rows. HaveShortWords rows.items) }
    ensures rows { IfOk result (λ rows. map waiting_line rows.items ≡ map line_of seen.entry.now) }
{
    let mut rows = Vec::new(alloc);
    for one in seen {
        rows.push(SeenWaiting {
            who: &[],
            outcome: one.outcome,
            first: one.first.as_slice(),
        })?;
    }
    Ok(rows)
}

/// The rows of other outcomes, and in place of those at whose ends all wait these ends, in the order of their schedules.
pub fn rows_of<'a>(
    alloc: Global,
    seen: &'a [Seen<'a>],
    ends: &'a WaitingEnds,
) -> Result<Vec<SeenWaiting<'a>>, AllocError>
    requires { HaveShortEnds ends.now }
    ensures short { IfOk result (λ rows. HaveShortWords rows.items) }
    ensures rows { IfOk result (λ rows. (who : List ℕ → List ℕ) (lines : List Line) → map line_of seen.entry.now ≡ outcomes_of lines → AreEndsIn who lines ends.entry.now → AreRowsOf who lines rows.items) }
{
    let mut rows = Vec::new(alloc);
    push_others(seen, &mut rows)?;
    push_ends(ends, &mut rows)?;
    rows.sort_unstable_by(|one, other| one.first.cmp(other.first));
    Ok(rows)
}

// Appends the rows at whose ends not all wait.
fn push_others<'a>(seen: &'a [Seen<'a>], rows: &mut Vec<SeenWaiting<'a>>) -> Result<(), AllocError>
    ensures rows { IfOk result (λ _. map row_seen rows.new.items ≡ map row_seen rows.old.items ++ map other_row (others_in seen.entry.now)) }
    ensures short { IfOk result (λ _. HaveShortWords rows.old.items → HaveShortWords rows.new.items) }
{
    for one in seen {
        if !is_waiting(one.outcome) {
            rows.push(SeenWaiting {
                who: &[],
                outcome: one.outcome,
                first: one.first.as_slice(),
            })?;
        }
    }
    Ok(())
}

// Appends the ends at which all wait.
fn push_ends<'a>(ends: &'a WaitingEnds, rows: &mut Vec<SeenWaiting<'a>>) -> Result<(), AllocError>
    requires { HaveShortEnds ends.now }
    ensures rows { IfOk result (λ _. map row_seen rows.new.items ≡ map row_seen rows.old.items ++ map end_row ends.entry.now.known.entries) }
    ensures short { IfOk result (λ _. HaveShortWords rows.old.items → HaveShortWords rows.new.items) }
{
    for number in 0..ends.len() {
        if let Some((end, word)) = ends.get(number) {
            rows.push(SeenWaiting {
                who: &end.who,
                outcome: &end.key.outcome,
                first: word,
            })?;
        }
    }
    Ok(())
}
