//! The report of tallies.

ghost use Rattle.std.specs.Prelude.{◌≡◌, ◌<◌, ◌++◌, ◌^◌, List, false, map, IfOk, string_bytes};
ghost use Rattle.cp_run.specs.Table.{Line, each};
ghost use Rattle.cp_walk.specs.Groups.{tally_text};
ghost use Rattle.cp_walk.specs.Report.{report_text, same_outcome};
ghost use Rattle.cp_merged.specs.Code.{tally_of};
ghost use Rattle.cp_merged.specs.Tallies.{tally};
ghost use Rattle.cp_merged.specs.Told.{rows_in, told_text};

use crate::tallies::Tallies;
use crate::tally::Tally;
use cp_natural::{Natural, push_natural};
use cp_slots::Resolved;
use cp_walk::text::{push_count, push_outcome, push_word};
use cp_walk::{Report, Text};
use std::alloc::{AllocError, Global};

/// How many words the tallies are of.
fn words_in(tallies: &[Tally]) -> Natural
    requires { rows_in (map tally_of tallies.now) < 10 ^ 126 }
    ensures { result ≡ rows_in (map tally_of tallies.now) }
{
    let mut sum = Natural::zero();
    for tally in tallies {
        sum = sum.plus(&tally.count);
    }
    sum
}

fn push_tally(text: &mut String, program: &Resolved, tally: &Tally) -> Result<(), AllocError>
    ensures { IfOk result (λ _. string_bytes text.new ≡ string_bytes text.old ++ tally_text program.now.names (tally_of tally.now)) }
{
    push_natural(text, &tally.count)?;
    text.push_str(" first ")?;
    push_word(text, tally.first.as_slice())?;
    text.push_str(" ")?;
    push_outcome(text, program, &tally.outcome)?;
    text.push_str("\n")
}

fn push_tallies(text: &mut String, program: &Resolved, tallies: &[Tally]) -> Result<(), AllocError>
    ensures { IfOk result (λ _. string_bytes text.new ≡ string_bytes text.old ++ each (tally_text program.now.names) (map tally_of tallies.now)) }
{
    for tally in tallies {
        push_tally(text, program, tally)?;
    }
    Ok(())
}

fn report_of(alloc: Global, program: &Resolved, tallies: &Tallies) -> Result<Report, AllocError>
    ensures { IfOk result (λ r. r.text ≡ told_text program.now.names (map tally_of tallies.now)) }
{
    let all = tallies.as_slice();
    let mut lines = String::new(alloc);
    lines.push_str("schedules ")?;
    push_natural(&mut lines, &words_in(all))?;
    lines.push_str("\noutcomes ")?;
    push_count(&mut lines, all.len())?;
    lines.push_str("\n")?;
    push_tallies(&mut lines, program, all)?;
    Ok(Report {
        text: Text::new(lines),
    })
}

/// The text of tallies: how many words and outcomes there are, and a line for each outcome with its count and first word. Of the
/// tallies of a table it is the report of the table without its rows.
pub fn merged_report(
    alloc: Global,
    program: &Resolved,
    tallies: &Tallies,
) -> Result<Report, AllocError>
    ensures told { IfOk result (λ r. r.text ≡ told_text program.now.names (map tally_of tallies.now)) }
    ensures report { IfOk result (λ r. (lines : List Line) → map tally_of tallies.now ≡ tally same_outcome lines → r.text ≡ report_text program.now.names lines false) }
{
    let report = report_of(alloc, program, tallies)?;
    Ok(report)
}
