//! Rows of a node like one that was walked.

ghost use Rattle.std.specs.Prelude.{◌≡◌, ◌<◌, ◌≤◌, ◌+◌, ◌-◌, ◌++◌, length, map, drop, IfOk, IfErr};
ghost use Rattle.cp_machine.specs.System.{machine_of, output_of};
ghost use Rattle.cp_walk.specs.Rows.{line_of, IsTooMany};
ghost use Rattle.cp_walk.specs.Walked.{begun, within_span};

use crate::fault::ExploreFault;
use crate::memo::Span;
use crate::row::Row;
use crate::walk::MOST_ROWS;
use arrayvec::ArrayVec;
use cp_machine::{Shown, State};
use cp_run::{Outcome, Output};
use std::alloc::{AllocError, Global};

// What is left of a list after its beginning.
#[inline(always)]
fn after<T>(list: &[T], count: usize) -> &[T]
    ensures { result.now ≡ drop count list.now }
{
    match list.get(count..) {
        Some(rest) => rest,
        None => &[],
    }
}

fn word_with_prefix(word: &[u8], theirs: &[u8]) -> ArrayVec<u8, 20>
    requires mine { length word.now ≤ 20 }
    requires theirs { length theirs.now ≤ 20 }
    ensures { result.items ≡ word.now ++ drop (length word.now) theirs.now }
{
    let mut begun = ArrayVec::new();
    let _ = begun.try_extend_from_slice(word);
    let _ = begun.try_extend_from_slice(after(theirs, word.len()));
    begun
}

fn row_with_prefix(
    alloc: Global,
    word: &[u8],
    output: &[Shown],
    row: &Row,
) -> Result<Row, AllocError>
    requires { length word.now ≤ 20 }
    ensures { IfOk result (λ r. line_of r ≡ begun word.now output.now (line_of row.now)) }
{
    let theirs = after(row.outcome.output.as_slice(), output.len());
    Ok(Row {
        word: word_with_prefix(word, row.word.as_slice()),
        outcome: Outcome {
            kind: row.outcome.kind,
            output: Output::join(alloc, output, theirs)?,
        },
    })
}

/// Appends rows that are there already, with another beginning of their words and of what was displayed: that of a node like theirs.
#[inline(never)]
pub fn add_replayed(
    alloc: Global,
    state: &State,
    span: Span,
    word: &[u8],
    rows: &mut Vec<Row>,
) -> Result<(), ExploreFault>
    requires word { length word.now ≤ 20 }
    requires some { span.first ≤ span.end }
    requires within { span.end ≤ length rows.old.items }
    ensures rows { IfOk result (λ _. map line_of rows.new.items ≡ map line_of rows.old.items ++ map (begun word.now (output_of (machine_of state.now))) (within_span span (map line_of rows.old.items))) }
    ensures few { IfOk result (λ _. length rows.new.items ≤ 50000) }
    ensures many { IfErr result (λ e. IsTooMany e → 50000 < length rows.old.items + (span.end - span.first)) }
{
    let count = span.end - span.first;
    if count > MOST_ROWS || rows.len() > MOST_ROWS - count {
        return Err(ExploreFault::TooManyRows);
    }
    if rows.reserve(count).is_err() {
        return Err(ExploreFault::Memory);
    }
    for at in span.first..span.end {
        let Ok(row) = row_with_prefix(alloc, word, state.output(), &rows[at]) else {
            return Err(ExploreFault::Memory);
        };
        rows.push_reserved(row);
    }
    Ok(())
}
