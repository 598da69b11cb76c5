//! Pieces of text: blanks, columns and counts.

ghost use Rattle.std.specs.Prelude.{◌≡◌, ◌++◌, ◌==◌, IfOk, string_bytes};
ghost use Rattle.cp_outcomes.specs.Text as spec;

use cp_natural::{Natural, push_natural};
use cp_walk::text::push_count;
use std::alloc::AllocError;

/// Appends so many blanks.
#[tactic(auto, unfolding(crate::specs::Text::blanks))]
pub fn push_blanks(text: &mut String, count: usize) -> Result<(), AllocError>
    ensures { IfOk result (λ _. string_bytes text.new ≡ string_bytes text.old ++ spec.blanks count) }
{
    for _ in 0..count {
        text.push_str(" ")?;
    }
    Ok(())
}

/// Appends a piece at the right of a column.
pub fn push_right(text: &mut String, width: usize, piece: &str) -> Result<(), AllocError>
    ensures { IfOk result (λ _. string_bytes text.new ≡ string_bytes text.old ++ spec.right_text width piece.now) }
{
    push_blanks(text, width.saturating_sub(piece.len()))?;
    text.push_str(piece)
}

/// Appends how many there are, and then what one of them is called or some are.
pub fn push_counted(
    text: &mut String,
    count: usize,
    one: &str,
    some: &str,
) -> Result<(), AllocError>
    ensures { IfOk result (λ _. string_bytes text.new ≡ string_bytes text.old ++ spec.counted_text count one.now some.now) }
{
    push_count(text, count)?;
    text.push_str(if count == 1 { one } else { some })
}

/// Appends how many schedules there are.
pub fn push_schedules(text: &mut String, count: &Natural) -> Result<(), AllocError>
    ensures { IfOk result (λ _. string_bytes text.new ≡ string_bytes text.old ++ spec.schedules_text count.now) }
{
    push_natural(text, count)?;
    text.push_str(if is_one(count) {
        " schedule"
    } else {
        " schedules"
    })
}

fn is_one(count: &Natural) -> bool
    ensures { result ≡ (count.now == 1) }
{
    matches!(count.to_u64(), Some(1))
}
