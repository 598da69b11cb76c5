//! Pieces are put together.

ghost use Rattle.std.specs.Prelude.{◌≡◌, ◌<◌, None, [], Ok, Err, IfOk, IfErr, length, replicate, reverse};
ghost use Rattle.cp_walk.specs.Gather.{placed, placed_one, joined, gathered, IsGatherFault};

use crate::fault::GatherFault;
use crate::row::{Row, RowPiece, Rows, Table};
use crate::walk::MOST_ROWS;
use std::alloc::{AllocError, Global};

/// The rows of piece 0, piece 1 and so on. Double and Stranger are answered for the first such piece in the order given, then Missing
/// for the least task without a piece, and TooManyRows last.
pub fn gather(alloc: Global, tasks: u32, pieces: Vec<RowPiece>) -> Result<Table, GatherFault>
    ensures rows { IfOk result (λ t. gathered tasks pieces.items ≡ Ok t.rows) }
    ensures fault { IfErr result (λ e. IsGatherFault e → gathered tasks pieces.items ≡ Err e) }
{
    let slots = place_all(alloc, tasks, pieces)?;
    join_all(alloc, tasks, slots)
}

fn empty_slots(alloc: Global, tasks: u32) -> Result<Vec<Option<Rows>>, AllocError>
    ensures { IfOk result (λ v. v.items ≡ replicate tasks None) }
{
    let mut slots = Vec::new(alloc);
    for _ in 0..tasks {
        slots.push(None)?;
    }
    Ok(slots)
}

fn place(slots: &mut Vec<Option<Rows>>, piece: RowPiece) -> Result<(), GatherFault>
    ensures slots { IfOk result (λ _. placed_one slots.old.items piece ≡ Ok slots.new.items) }
    ensures fault { IfErr result (λ e. placed_one slots.old.items piece ≡ Err e) }
{
    let RowPiece { task, rows } = piece;
    let at = task as usize;
    if at >= slots.len() {
        return Err(GatherFault::Stranger(task));
    }
    if slots[at].is_some() {
        return Err(GatherFault::Double(task));
    }
    slots[at] = Some(rows);
    Ok(())
}

fn place_all(
    alloc: Global,
    tasks: u32,
    mut pieces: Vec<RowPiece>,
) -> Result<Vec<Option<Rows>>, GatherFault>
    ensures slots { IfOk result (λ v. placed (replicate tasks None) pieces.items ≡ Ok v.items) }
    ensures count { IfOk result (λ v. length v.items ≡ tasks) }
    ensures fault { IfErr result (λ e. IsGatherFault e → placed (replicate tasks None) pieces.items ≡ Err e) }
{
    let Ok(mut slots) = empty_slots(alloc, tasks) else {
        return Err(GatherFault::Memory);
    };
    // The first is popped first.
    pieces.reverse();
    while let Some(piece) = pieces.pop() {
        place(&mut slots, piece)?;
    }
    Ok(slots)
}

fn join_all(alloc: Global, tasks: u32, mut slots: Vec<Option<Rows>>) -> Result<Table, GatherFault>
    requires { length slots.items ≡ tasks }
    ensures rows { IfOk result (λ t. joined 0 [] slots.items ≡ Ok t.rows) }
    ensures fault { IfErr result (λ e. IsGatherFault e → joined 0 [] slots.items ≡ Err e) }
{
    let _ = tasks;
    let mut all: Vec<Row> = Vec::new(alloc);
    let mut task = 0;
    slots.reverse();
    while let Some(slot) = slots.pop() {
        let Some(rows) = slot else {
            return Err(GatherFault::Missing(task));
        };
        let mut rows = rows.into_vec();
        if all.append(&mut rows).is_err() {
            return Err(GatherFault::Memory);
        }
        task += 1;
    }
    if all.len() > MOST_ROWS {
        return Err(GatherFault::TooManyRows);
    }
    Ok(Table {
        rows: Rows::new(all),
    })
}
