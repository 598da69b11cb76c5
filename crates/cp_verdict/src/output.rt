//! Whether values are an expected output.

ghost use Rattle.std.specs.Prelude.{◌≡◌, ◌++◌, ℕ, IfOk, List, Bool, map, string_bytes};
ghost use Rattle.cp_verdict.specs.Marks as marks;
ghost use Rattle.cp_verdict.specs.Outputs as spec;

use cp_expectation::OutputItem;
use std::alloc::{AllocError, Global};

/// Whether printed values are such an output: each is the value at its place, and `..` stands for any.
#[tactic(auto, using(crate::proofs::Marks::some_first, crate::proofs::Marks::marked_last))]
pub fn reads_as(alloc: Global, items: &[OutputItem], printed: &[String]) -> Result<bool, AllocError>
    ensures { IfOk result (λ b. b ≡ spec.reads_as items.now (map string_bytes printed.now)) }
{
    // A mark for each number of values that the items so far can be.
    let mut counts = Vec::new(alloc);
    counts.push(true)?;
    for item in items {
        counts = match item {
            OutputItem::Value(text) => after_value(alloc, &counts, text.as_str(), printed)?,
            OutputItem::Rest => after_rest(alloc, &counts, printed)?,
        };
    }
    Ok(is_marked(&counts, printed.len()))
}

fn is_marked(counts: &[bool], number: usize) -> bool
    ensures { result ≡ marks.is_marked counts.now number }
{
    match counts.get(number) {
        Some(mark) => *mark,
        None => false,
    }
}

/// The marks after one value more, which is printed so.
#[tactic(auto, using(crate::proofs::Marks::value_more))]
fn after_value(
    alloc: Global,
    counts: &[bool],
    text: &str,
    printed: &[String],
) -> Result<Vec<bool>, AllocError>
    ensures { IfOk result (λ v. (rest : List (List ℕ) → Bool) → marks.some_rest v.items rest (map string_bytes printed.now) ≡ marks.some_rest counts.now (spec.begins text.now rest) (map string_bytes printed.now)) }
{
    let mut after = Vec::new(alloc);
    after.push(false)?;
    push_value(&mut after, counts, text, printed)?;
    Ok(after)
}

fn push_value(
    after: &mut Vec<bool>,
    counts: &[bool],
    text: &str,
    printed: &[String],
) -> Result<(), AllocError>
    ensures { IfOk result (λ _. after.new.items ≡ after.old.items ++ marks.after_value text.now counts.now (map string_bytes printed.now)) }
{
    let Some((mark, other_counts)) = counts.split_first() else {
        return Ok(());
    };
    let Some((first, others)) = printed.split_first() else {
        return Ok(());
    };
    after.push(*mark && first.as_bytes() == text.as_bytes())?;
    push_value(after, other_counts, text, others)
}

/// The marks after any values more.
#[tactic(auto, using(crate::proofs::Marks::rest_more))]
fn after_rest(alloc: Global, counts: &[bool], printed: &[String]) -> Result<Vec<bool>, AllocError>
    ensures { IfOk result (λ v. (rest : List (List ℕ) → Bool) → marks.some_rest v.items rest (map string_bytes printed.now) ≡ marks.some_rest counts.now (spec.from_some rest) (map string_bytes printed.now)) }
{
    let mut after = Vec::new(alloc);
    push_rest(&mut after, false, counts, printed)?;
    Ok(after)
}

fn push_rest(
    after: &mut Vec<bool>,
    before: bool,
    counts: &[bool],
    printed: &[String],
) -> Result<(), AllocError>
    ensures { IfOk result (λ _. after.new.items ≡ after.old.items ++ marks.after_rest before counts.now (map string_bytes printed.now)) }
{
    let so_far = before || first_mark(counts);
    after.push(so_far)?;
    let Some((_, others)) = printed.split_first() else {
        return Ok(());
    };
    push_rest(after, so_far, other_marks(counts), others)
}

fn first_mark(counts: &[bool]) -> bool
    ensures { result ≡ marks.first_mark counts.now }
{
    match counts.split_first() {
        Some((mark, _)) => *mark,
        None => false,
    }
}

fn other_marks(counts: &[bool]) -> &[bool]
    ensures { result.now ≡ marks.other_marks counts.now }
{
    match counts.split_first() {
        Some((_, others)) => others,
        None => counts,
    }
}
