//! The rows of a table by their outcomes.

ghost use Rattle.std.specs.Prelude.{◌≡◌, ◌<◌, map, IfOk, IfSome, length, option_map};
ghost use Rattle.std.specs.Map.{lookup};
ghost use Rattle.cp_walk.specs.Text.{Spellings};
ghost use Rattle.cp_run.specs.Table.{each};
ghost use Rattle.indexmap.specs.IndexMap.{index_map_len, insert_entry, values};
ghost use Rattle.cp_walk.specs.Groups.{tally, tally_text, tally_with};
ghost use Rattle.cp_walk.specs.Report.{groups_text, outcomes_of, same_outcome};
ghost use Rattle.cp_walk.specs.Rows.{line_of};
ghost use Rattle.cp_walk.specs.declared.groups.RowGroup.{RowGroup};

use crate::key::OutcomeKey;
use crate::row::Row;
use indexmap::IndexMap;
use std::alloc::{AllocError, Global};

/// The rows of one outcome: the first, and how many there are.
#[derive(Clone, Copy, Drop)]
pub struct RowGroup<'a> {
    pub first: &'a Row,
    pub count: usize,
}

/// Counts a row, with which there are at most `most`.
fn count_row<'a>(
    groups: &mut IndexMap<OutcomeKey<'a>, RowGroup<'a>>,
    row: &'a Row,
    most: usize,
) -> Result<(), AllocError>
    requires { IfSome (lookup (λ k. same_outcome row.now.outcome k.row.now.outcome) groups.old.entries) (λ g. g.count < most) }
    ensures { IfOk result (λ _. (g : RowGroup) × ((groups.new.entries ≡ insert_entry (λ x y. same_outcome x.row.now.outcome y.row.now.outcome) groups.old.entries (record { row = row.entry }) g) × (tally g ≡ tally_with (option_map tally (lookup (λ k. same_outcome row.now.outcome k.row.now.outcome) groups.old.entries)) (line_of row.now)))) }
{
    let group = groups.entry(OutcomeKey { row })?.or_insert(RowGroup {
        first: row,
        count: 0,
    });
    group.count += 1;
    Ok(())
}

/// The distinct outcomes in order of their first rows.
pub fn group_rows<'a>(
    alloc: Global,
    rows: &'a [Row],
) -> Result<IndexMap<OutcomeKey<'a>, RowGroup<'a>>, AllocError>
    ensures count { IfOk result (λ m. index_map_len m ≡ length (outcomes_of (map line_of rows.now))) }
    ensures texts { IfOk result (λ m. (names : Spellings) → each (tally_text names) (map tally (values m)) ≡ groups_text names (map line_of rows.now) (outcomes_of (map line_of rows.now))) }
{
    let mut groups = IndexMap::new(alloc);
    for row in rows {
        count_row(&mut groups, row, rows.len())?;
    }
    Ok(groups)
}
