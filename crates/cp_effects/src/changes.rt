//! What a leg changed of a row.

ghost use Rattle.std.specs.Prelude.{◌≡◌, ◌+◌, ◌<◌, ℕ, length, true, All, IfOk, IfSome};
ghost use Rattle.cp_states.specs.Numbers.{number_at};
ghost use Rattle.cp_effects.specs.Changes.{AreChanges, AreChangesBelow, part_position, written};
ghost use Rattle.cp_effects.specs.Noting.{among};

use crate::touched::Touched;
use cp_parts::PlaceTable;
use std::alloc::{AllocError, Global};

/// A number that a row has afterwards, and where.
#[derive(Clone, Copy, Drop)]
pub struct Write {
    pub position: u32,
    pub number: u32,
}

/// The numbers that a row has afterwards and had not before. `None` where one of them is that of a place that was not touched.
pub fn changes_of(
    alloc: Global,
    table: &PlaceTable,
    touched: &Touched,
    before: &[u32],
    after: &[u32],
) -> Result<Option<Vec<Write>>, AllocError>
    requires { length after.now ≡ length before.now }
    ensures { IfOk result (λ changes. IfSome changes (λ writes. AreChanges table.now touched.now.places.items before.now after.now writes.items)) }
{
    let mut writes = Vec::new(alloc);
    for position in 0..before.len() {
        if !add_change(table, touched, before, after, position, &mut writes)? {
            return Ok(None);
        }
    }
    Ok(Some(writes))
}

// What changed at one position more. Tells whether it may change.
fn add_change(
    table: &PlaceTable,
    touched: &Touched,
    before: &[u32],
    after: &[u32],
    position: usize,
    writes: &mut Vec<Write>,
) -> Result<bool, AllocError>
    requires long { length after.now ≡ length before.now }
    requires position { position < length before.now }
    requires below { AreChangesBelow table.now touched.now.places.items before.now after.now writes.old.items position }
    ensures { IfOk result (λ may. may ≡ true → AreChangesBelow table.now touched.now.places.items before.now after.now writes.new.items (position + 1)) }
{
    let number = after[position];
    if number == before[position] {
        return Ok(true);
    }
    if !may_change(table, touched, position) {
        return Ok(false);
    }
    if position > u32::MAX as usize {
        return Ok(false);
    }
    let position = position as u32;
    writes.push(Write { position, number })?;
    Ok(true)
}

// Whether it is not the part of another place than these that stands there.
fn may_change(table: &PlaceTable, touched: &Touched, position: usize) -> bool
    ensures { result ≡ true → (place : ℕ) → position ≡ part_position table.now place → among touched.now.places.items place ≡ true }
{
    let pending = table.pending_position();
    if position <= pending {
        return true;
    }
    touched.has(position - pending - 1)
}

/// The number at a position of a row.
pub fn number_in(row: &[u32], position: usize) -> u32
    ensures { result ≡ number_at row.now position }
{
    match row.get(position) {
        Some(number) => *number,
        None => 0,
    }
}

/// A row has these numbers.
pub fn write_row(row: &mut [u32], writes: &[Write])
    requires { All (λ w. w.position < length row.old) writes.now }
    ensures { row.new ≡ written writes.now row.old }
{
    for write in writes {
        row[write.position as usize] = write.number;
    }
}
