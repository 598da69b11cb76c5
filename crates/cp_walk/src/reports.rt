//! The report of a table.

ghost use Rattle.std.specs.Prelude.{◌≡◌, ◌++◌, [], map, IfOk, if◌then◌else◌, length, string_bytes, codes};
ghost use Rattle.indexmap.specs.IndexMap.{index_map_len, values};
ghost use Rattle.cp_natural.specs.Decimal.{number_text};
ghost use Rattle.cp_run.specs.Table.{each};
ghost use Rattle.cp_walk.specs.Groups.{tally, tally_text};
ghost use Rattle.cp_walk.specs.Report.{report_text, row_text, rows_text};
ghost use Rattle.cp_walk.specs.Rows.{line_of};

use crate::groups::{RowGroup, group_rows};
use crate::key::OutcomeKey;
use crate::printed::{Report, Text};
use crate::row::{Row, Table};
use crate::text::{push_count, push_outcome, push_word};
use cp_slots::Resolved;
use indexmap::IndexMap;
use std::alloc::{AllocError, Global};

fn push_row(text: &mut String, program: &Resolved, row: &Row) -> Result<(), AllocError>
    ensures { IfOk result (λ _. string_bytes text.new ≡ string_bytes text.old ++ row_text program.now.names (line_of row.now)) }
{
    text.push_str("row ")?;
    push_word(text, row.word.as_slice())?;
    text.push_str(" ")?;
    push_outcome(text, program, &row.outcome)?;
    text.push_str("\n")
}

fn push_rows(text: &mut String, program: &Resolved, rows: &[Row]) -> Result<(), AllocError>
    ensures { IfOk result (λ _. string_bytes text.new ≡ string_bytes text.old ++ rows_text program.now.names (map line_of rows.now)) }
{
    for row in rows {
        push_row(text, program, row)?;
    }
    Ok(())
}

fn push_group(text: &mut String, program: &Resolved, group: &RowGroup) -> Result<(), AllocError>
    ensures { IfOk result (λ _. string_bytes text.new ≡ string_bytes text.old ++ tally_text program.now.names (tally group.now)) }
{
    push_count(text, group.count)?;
    text.push_str(" first ")?;
    push_word(text, group.first.word.as_slice())?;
    text.push_str(" ")?;
    push_outcome(text, program, &group.first.outcome)?;
    text.push_str("\n")
}

fn push_groups(
    text: &mut String,
    program: &Resolved,
    groups: &IndexMap<OutcomeKey, RowGroup>,
) -> Result<(), AllocError>
    ensures { IfOk result (λ _. string_bytes text.new ≡ string_bytes text.old ++ each (tally_text program.now.names) (map tally (values groups.now))) }
{
    for group in groups.values() {
        push_group(text, program, group)?;
    }
    Ok(())
}

fn push_line(text: &mut String, name: &str, number: usize) -> Result<(), AllocError>
    ensures { IfOk result (λ _. string_bytes text.new ≡ string_bytes text.old ++ name.now ++ number_text number ++ codes "\n") }
{
    text.push_str(name)?;
    push_count(text, number)?;
    text.push_str("\n")
}

// The lines of the rows, if they are wanted, and of the outcomes. Borrows these, which are let go in one place.
fn push_parts(
    text: &mut String,
    program: &Resolved,
    all: &[Row],
    groups: &IndexMap<OutcomeKey, RowGroup>,
    rows: bool,
) -> Result<(), AllocError>
    ensures { IfOk result (λ _. string_bytes text.new ≡ string_bytes text.old ++ (if rows then rows_text program.now.names (map line_of all.now) else []) ++ codes "schedules " ++ number_text (length all.now) ++ codes "\n" ++ codes "outcomes " ++ number_text (index_map_len groups.now) ++ codes "\n" ++ each (tally_text program.now.names) (map tally (values groups.now))) }
{
    if rows {
        push_rows(text, program, all)?;
    }
    push_line(text, "schedules ", all.len())?;
    push_line(text, "outcomes ", groups.len())?;
    push_groups(text, program, groups)
}

fn push_report(
    alloc: Global,
    text: &mut String,
    program: &Resolved,
    all: &[Row],
    rows: bool,
) -> Result<(), AllocError>
    ensures { IfOk result (λ _. string_bytes text.new ≡ string_bytes text.old ++ report_text program.now.names (map line_of all.now) rows) }
{
    let groups = group_rows(alloc, all)?;
    push_parts(text, program, all, &groups, rows)
}

/// The text of a table: with `rows` a line for each row, and then the distinct outcomes in order of their first rows, each with its
/// count and first word.
pub fn report(
    alloc: Global,
    program: &Resolved,
    table: &Table,
    rows: bool,
) -> Result<Report, AllocError>
    ensures { IfOk result (λ r. r.text ≡ report_text program.now.names (map line_of table.now.rows) rows) }
{
    let mut lines = String::new(alloc);
    push_report(alloc, &mut lines, program, table.rows.as_slice(), rows)?;
    Ok(Report {
        text: Text::new(lines),
    })
}
