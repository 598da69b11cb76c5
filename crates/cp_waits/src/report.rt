//! The report of who may wait for ever.

ghost use Rattle.std.specs.Prelude.{◌≡◌, ◌++◌, ℕ, Option, IfOk, codes, decimal, string_bytes};
ghost use Rattle.cp_slots.specs.Tables.{Tables};
ghost use Rattle.cp_run.specs.Table.{each};
ghost use Rattle.cp_ends.specs.Holds.{Holds, SlotFindings};
ghost use Rattle.cp_ends.specs.Told.{IsDepth, ends_text};
ghost use Rattle.cp_waits.specs.Told.{how_text, line_text, lines_text, waits_text};

use crate::waiting::{How, Waiting, Waits};
use cp_ends::{Found, ends_report};
use cp_slots::Resolved;
use cp_walk::text::{push_count, push_number, push_word};
use cp_walk::{Report, Text};
use std::alloc::{AllocError, Global};

/// The report of a search, and after it a line for each process that may wait for ever.
pub fn waits_report(
    alloc: Global,
    program: &Resolved,
    found: &Found,
    waits: &Waits,
) -> Result<Report, AllocError>
    ensures { IfOk result (λ report. (r : Tables) (f : SlotFindings) (depth : Option ℕ) → Holds r found.now f → IsDepth f found.now.stopped depth → report.text ≡ ends_text program.now.names f depth ++ waits_text waits.now) }
{
    let ends = ends_report(alloc, program, found)?;
    let mut text = String::new(alloc);
    text.push_str(ends.text.as_str())?;
    push_waits(&mut text, waits)?;
    Ok(Report {
        text: Text::new(text),
    })
}

fn push_waits(text: &mut String, waits: &Waits) -> Result<(), AllocError>
    ensures { IfOk result (λ _. string_bytes text.new ≡ string_bytes text.old ++ waits_text waits.now) }
{
    match waits {
        Waits::Known(list) => push_lines(text, list),
        Waits::NotSettled(process) => push_not_settled(text, *process),
    }
}

fn push_not_settled(text: &mut String, process: u8) -> Result<(), AllocError>
    ensures { IfOk result (λ _. string_bytes text.new ≡ string_bytes text.old ++ (codes "waits not settled process " ++ decimal process ++ codes "\n")) }
{
    text.push_str("waits not settled process ")?;
    push_number(text, u64::from(process))?;
    text.push_str("\n")?;
    Ok(())
}

fn push_lines(text: &mut String, list: &[Waiting]) -> Result<(), AllocError>
    ensures { IfOk result (λ _. string_bytes text.new ≡ string_bytes text.old ++ lines_text list.now) }
{
    text.push_str("waits ")?;
    push_count(text, list.len())?;
    text.push_str("\n")?;
    push_each(text, list)
}

// A line for each process.
fn push_each(text: &mut String, list: &[Waiting]) -> Result<(), AllocError>
    ensures { IfOk result (λ _. string_bytes text.new ≡ string_bytes text.old ++ each line_text list.now) }
{
    for waiting in list {
        push_line(text, waiting)?;
    }
    Ok(())
}

fn push_line(text: &mut String, waiting: &Waiting) -> Result<(), AllocError>
    ensures { IfOk result (λ _. string_bytes text.new ≡ string_bytes text.old ++ line_text waiting.now) }
{
    text.push_str("process ")?;
    push_number(text, u64::from(waiting.process))?;
    text.push_str(" first ")?;
    push_word(text, waiting.first.as_slice())?;
    text.push_str(" again ")?;
    push_word(text, waiting.again.as_slice())?;
    text.push_str(how_text(waiting.how))
}

fn how_text(how: How) -> &'static str
    ensures { result.now ≡ how_text how }
{
    match how {
        How::Throughout => "\n",
        How::ForGood => " for good\n",
        How::InItsCall => " in its call\n",
    }
}
