//! Columns of text.

ghost use Rattle.std.specs.Prelude.{◌≡◌, ◌++◌, [], map, take, drop, IfOk, OnOk, slice_get};
ghost use Rattle.std.specs.String.{string_bytes};
ghost use Rattle.cp_run.specs.Table.{each};
ghost use Rattle.cp_story.specs.Columns as spec;
ghost use Rattle.cp_story.specs.Columns.{row_seen};

use std::alloc::{AllocError, Global};

/// How many columns a table has.
const COLUMNS: usize = 6;

/// A line of a table.
#[derive(Drop)]
pub struct TableRow {
    pub cells: Vec<String>,
}

impl TableRow {
    // How wide its cell of a column is, if it has one.
    fn width(&self, column: usize) -> usize
        ensures { result ≡ spec.width_of (slice_get (row_seen self.now) column) }
    {
        self.cells.get(column).map_or(0, |cell| cell.len())
    }
}

/// Appends the rows, each column as wide as its widest cell, two spaces apart. No line ends with a space. The row with which a round begins
/// stands below a heading.
pub fn push_rows(
    alloc: Global,
    text: &mut String,
    rows: &[TableRow],
    again: Option<usize>,
) -> Result<(), AllocError>
    ensures { OnOk result (string_bytes text.new ≡ string_bytes text.old ++ spec.rows_text again (map row_seen rows.now)) }
{
    let widths = widths(alloc, rows)?;
    match again {
        Some(first) => {
            push_lines(alloc, text, &widths, rows_before(rows, first))?;
            text.push_str("again and again:\n")?;
            push_lines(alloc, text, &widths, rows_from(rows, first))
        }
        None => push_lines(alloc, text, &widths, rows),
    }
}

fn rows_before(rows: &[TableRow], first: usize) -> &[TableRow]
    ensures { result.now ≡ take first rows.now }
{
    rows.get(..first).unwrap_or(rows)
}

#[tactic(auto, using(crate::proofs::Rows::none_left))]
fn rows_from(rows: &[TableRow], first: usize) -> &[TableRow]
    ensures { result.now ≡ drop first rows.now }
{
    match rows.get(first..) {
        Some(rest) => rest,
        None => &[],
    }
}

// Appends rows whose columns are so wide.
#[tactic(auto, using(crate::proofs::Rows::each_step, crate::proofs::Rows::each_none))]
fn push_lines(
    alloc: Global,
    text: &mut String,
    widths: &[usize],
    rows: &[TableRow],
) -> Result<(), AllocError>
    ensures { OnOk result (string_bytes text.new ≡ string_bytes text.old ++ each (spec.row_text widths.now) (map row_seen rows.now)) }
{
    for row in rows {
        push_cells(alloc, text, widths, &row.cells)?;
        text.push_str("\n")?;
    }
    Ok(())
}

#[tactic(auto, using(crate::proofs::Rows::cells_step, crate::proofs::Rows::cells_none))]
fn push_cells(
    alloc: Global,
    text: &mut String,
    widths: &[usize],
    cells: &[String],
) -> Result<(), AllocError>
    ensures { OnOk result (string_bytes text.new ≡ string_bytes text.old ++ spec.cells_text widths.now 0 [] (map string_bytes cells.now)) }
{
    let mut before = String::new(alloc);
    for (column, cell) in cells.iter().enumerate() {
        push_cell(text, &mut before, cell.as_str())?;
        let width = widths.get(column).copied().unwrap_or(0);
        push_gap(&mut before, width, cell.as_str())?;
    }
    Ok(())
}

// Appends a cell behind the spaces that stand before it; where there is no text, they stand before the next one.
fn push_cell(text: &mut String, before: &mut String, cell: &str) -> Result<(), AllocError>
    ensures text { OnOk result (string_bytes text.new ≡ string_bytes text.old ++ spec.cell_text (string_bytes before.old) cell.now) }
    ensures before { OnOk result (string_bytes before.new ≡ spec.left_before (string_bytes before.old) cell.now) }
{
    if cell.is_empty() {
        return Ok(());
    }
    text.push_str(before.as_str())?;
    text.push_str(cell)?;
    before.clear();
    Ok(())
}

fn push_gap(before: &mut String, width: usize, cell: &str) -> Result<(), AllocError>
    ensures { OnOk result (string_bytes before.new ≡ string_bytes before.old ++ spec.gap width cell.now) }
{
    push_blanks(before, width.saturating_sub(cell.len()))?;
    before.push_str(if width == 0 { "" } else { "  " })
}

#[tactic(auto, unfolding(crate::specs::Columns::blanks))]
fn push_blanks(text: &mut String, count: usize) -> Result<(), AllocError>
    ensures { OnOk result (string_bytes text.new ≡ string_bytes text.old ++ spec.blanks count) }
{
    for _ in 0..count {
        text.push_str(" ")?;
    }
    Ok(())
}

#[tactic(auto, using(crate::proofs::Rows::each_number, crate::proofs::Rows::no_number))]
fn widths(alloc: Global, rows: &[TableRow]) -> Result<Vec<usize>, AllocError>
    ensures { IfOk result (λ v. v.items ≡ spec.widths (map row_seen rows.now)) }
{
    let mut widths = Vec::new(alloc);
    for column in 0..COLUMNS {
        widths.push(width(rows, column))?;
    }
    Ok(widths)
}

// The width of the widest cell of a column.
#[tactic(auto, using(crate::proofs::Rows::wider, crate::proofs::Rows::widest_is))]
fn width(rows: &[TableRow], column: usize) -> usize
    ensures { result ≡ spec.width (map row_seen rows.now) column }
{
    let mut widest = 0usize;
    for row in rows {
        widest = widest.max(row.width(column));
    }
    widest
}
