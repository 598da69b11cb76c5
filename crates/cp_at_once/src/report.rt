//! The report of a search.

ghost use Rattle.std.specs.Prelude.{◌≡◌, ◌++◌, ℕ, List, [], codes, if◌then◌else◌, map, nat_lt, take, IfOk};
ghost use Rattle.std.specs.String.{string_bytes};
ghost use Rattle.cp_slots.specs.Tables.{Tables};
ghost use Rattle.cp_machine.specs.System.{Machine};
ghost use Rattle.cp_run.specs.Table.{each};
ghost use Rattle.cp_walk.specs.Text.{word_text};
ghost use Rattle.cp_ends.specs.Holds.{SlotFindings};
ghost use Rattle.cp_ends.specs.Told.{EndsWithWords, ValuesWithWords, count_line, listed};
ghost use Rattle.cp_at_once.specs.Holds.{AreStates};
ghost use Rattle.cp_at_once.specs.Told.{HasFound, HaveWords, at_once_text, end_line, end_origin, head_text, value_line, value_origin, values_text};

use crate::found::{EndAtOnce, FoundAtOnce, ValueAtOnce};
use crate::kept::Kept;
use cp_ends::End;
use cp_ends::found::MOST_VALUES;
use cp_ends::report::push_end;
use cp_machine::Shown;
use cp_slots::Resolved;
use cp_walk::text::{push_count, push_output, push_word};
use cp_walk::{Report, Text};
use std::alloc::{AllocError, Global};

/// The report of a search: how many states are kept, or that there are too many; then the ends and the values, each with a word that leads there.
pub fn at_once_report(
    alloc: Global,
    program: &Resolved,
    found: &FoundAtOnce,
) -> Result<Report, AllocError>
    ensures { IfOk result (λ report. (r : Tables) (f : SlotFindings) → HasFound r found.now f → report.text ≡ at_once_text program.now.names f found.now.is_whole) }
{
    let mut text = String::new(alloc);
    push_head(&mut text, found.is_whole, found.kept.len())?;
    push_ends(alloc, &mut text, &found.kept, &found.ends)?;
    push_values(alloc, &mut text, program, &found.kept, &found.values)?;
    push_cut(&mut text, found.has_cut())?;
    Ok(Report {
        text: Text::new(text),
    })
}

fn push_head(text: &mut String, is_whole: bool, states: usize) -> Result<(), AllocError>
    ensures { IfOk result (λ _. string_bytes text.new ≡ string_bytes text.old ++ head_text is_whole states) }
{
    if !is_whole {
        return text.push_str("too many states\n");
    }
    text.push_str("states ")?;
    push_count(text, states)?;
    text.push_str(" at once\n")
}

// Whether a stretch was cut.
fn push_cut(text: &mut String, has_cut: bool) -> Result<(), AllocError>
    ensures { IfOk result (λ _. string_bytes text.new ≡ string_bytes text.old ++ (if has_cut then codes "not settled: step-limit\n" else [])) }
{
    if has_cut {
        return text.push_str("not settled: step-limit\n");
    }
    Ok(())
}

fn push_count_line(text: &mut String, name: &str, count: usize) -> Result<(), AllocError>
    ensures { IfOk result (λ _. string_bytes text.new ≡ string_bytes text.old ++ count_line name.now count) }
{
    text.push_str(name)?;
    push_count(text, count)?;
    text.push_str("\n")
}

fn push_ends(
    alloc: Global,
    text: &mut String,
    kept: &Kept,
    ends: &[EndAtOnce],
) -> Result<(), AllocError>
    ensures { IfOk result (λ _. (r : Tables) (states : List (Machine × List ℕ)) (fs : EndsWithWords) → AreStates r kept.now.known.entries states → HaveWords states (map end_origin ends.now) fs → string_bytes text.new ≡ string_bytes text.old ++ listed (codes "ends ") end_line fs) }
{
    push_count_line(text, "ends ", ends.len())?;
    push_end_lines(alloc, text, kept, ends)?;
    Ok(())
}

// A line for each end.
fn push_end_lines(
    alloc: Global,
    text: &mut String,
    kept: &Kept,
    ends: &[EndAtOnce],
) -> Result<(), AllocError>
    ensures { IfOk result (λ _. (r : Tables) (states : List (Machine × List ℕ)) (fs : EndsWithWords) → AreStates r kept.now.known.entries states → HaveWords states (map end_origin ends.now) fs → string_bytes text.new ≡ string_bytes text.old ++ each (λ x. end_line x.0 x.1) fs) }
{
    for end in ends {
        let word = kept.word(alloc, &end.origin)?;
        push_end_line(text, word.as_slice(), end.end)?;
    }
    Ok(())
}

fn push_values(
    alloc: Global,
    text: &mut String,
    program: &Resolved,
    kept: &Kept,
    values: &[ValueAtOnce],
) -> Result<(), AllocError>
    ensures { IfOk result (λ _. (r : Tables) (states : List (Machine × List ℕ)) (fs : ValuesWithWords) → AreStates r kept.now.known.entries states → HaveWords states (map value_origin values.now) fs → string_bytes text.new ≡ string_bytes text.old ++ values_text program.now.names fs) }
{
    let first = first_values(values);
    push_count_line(text, "shown ", first.len())?;
    push_value_lines(alloc, text, program, kept, first)?;
    push_more(text, values.len())?;
    Ok(())
}

// Those that are told.
fn first_values(values: &[ValueAtOnce]) -> &[ValueAtOnce]
    ensures { result.now ≡ take MOST_VALUES values.now }
{
    values.get(..MOST_VALUES).unwrap_or(values)
}

// Whether there are more values than are told.
fn push_more(text: &mut String, count: usize) -> Result<(), AllocError>
    ensures { IfOk result (λ _. string_bytes text.new ≡ string_bytes text.old ++ (if nat_lt MOST_VALUES count then codes "more\n" else [])) }
{
    if count > MOST_VALUES {
        return text.push_str("more\n");
    }
    Ok(())
}

// A line for each value.
fn push_value_lines(
    alloc: Global,
    text: &mut String,
    program: &Resolved,
    kept: &Kept,
    values: &[ValueAtOnce],
) -> Result<(), AllocError>
    ensures { IfOk result (λ _. (r : Tables) (states : List (Machine × List ℕ)) (fs : ValuesWithWords) → AreStates r kept.now.known.entries states → HaveWords states (map value_origin values.now) fs → string_bytes text.new ≡ string_bytes text.old ++ each (λ x. value_line program.now.names x.0 x.1) fs) }
{
    for value in values {
        let word = kept.word(alloc, &value.origin)?;
        push_value_line(text, program, word.as_slice(), value.value)?;
    }
    Ok(())
}

fn push_by(text: &mut String, word: &[u8]) -> Result<(), AllocError>
    ensures { IfOk result (λ _. string_bytes text.new ≡ string_bytes text.old ++ (codes "by " ++ word_text word.now)) }
{
    text.push_str("by ")?;
    push_word(text, word)
}

fn push_end_line(text: &mut String, word: &[u8], end: End) -> Result<(), AllocError>
    ensures { IfOk result (λ _. string_bytes text.new ≡ string_bytes text.old ++ end_line end word.now) }
{
    push_by(text, word)?;
    text.push_str(" ")?;
    push_end(text, end)?;
    text.push_str("\n")
}

fn push_value_line(
    text: &mut String,
    program: &Resolved,
    word: &[u8],
    value: Shown,
) -> Result<(), AllocError>
    ensures { IfOk result (λ _. string_bytes text.new ≡ string_bytes text.old ++ value_line program.now.names value word.now) }
{
    push_by(text, word)?;
    text.push_str(" shows ")?;
    push_output(text, program, [value].as_slice())?;
    text.push_str("\n")
}
