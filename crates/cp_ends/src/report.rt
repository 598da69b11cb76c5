//! The report of a search.

ghost use Rattle.std.specs.Prelude.{◌≡◌, ◌<◌, ◌++◌, ℕ, List, Option, [], codes, decimal, if◌then◌else◌, map, nat_lt, IfOk};
ghost use Rattle.std.specs.String.{string_bytes};
ghost use Rattle.cp_slots.specs.Tables.{Tables};
ghost use Rattle.cp_machine.specs.System.{Machine};
ghost use Rattle.cp_walk.specs.Text.{kind_text, word_text};
ghost use Rattle.cp_ends.specs.Holds.{AreFound, AreStates, Holds, SlotFindings, end_origin, value_origin};
ghost use Rattle.cp_ends.specs.Told.{AreFirstLines, AreLines, EndsWithWords, IsDepth, ValuesWithWords, count_line, end_line, end_text, ends_text, head_text, is_told, listed, told, value_line, values_text};

use crate::end::End;
use crate::found::{Found, FoundEnd, FoundValue, MOST_VALUES};
use crate::states::States;
use cp_run::OutcomeKind;
use cp_slots::Resolved;
use cp_walk::text::{error_name, push_count, push_number, push_output, push_word};
use cp_walk::{Report, Text};
use std::alloc::{AllocError, Global};

// Lines, and how many there are to tell.
#[derive(Drop)]
struct Lines {
    text: String,
    count: usize,
}

/// The report of a search: how many states there are, or how many choices were looked at where there are too many; then ends and values,
/// each with the first word that leads there.
pub fn ends_report(alloc: Global, program: &Resolved, found: &Found) -> Result<Report, AllocError>
    ensures { IfOk result (λ report. (r : Tables) (f : SlotFindings) (depth : Option ℕ) → Holds r found.now f → IsDepth f found.now.stopped depth → report.text ≡ ends_text program.now.names f depth) }
{
    let depth = depth_of(alloc, found)?;
    let mut text = String::new(alloc);
    push_head(&mut text, found.states.len(), depth)?;
    push_ends(alloc, &mut text, &found.states, &found.ends, depth)?;
    push_values(
        alloc,
        &mut text,
        program,
        &found.states,
        &found.values,
        depth,
    )?;
    Ok(Report {
        text: Text::new(text),
    })
}

// How many choices each word may have that is told, if they are bounded.
fn depth_of(alloc: Global, found: &Found) -> Result<Option<usize>, AllocError>
    ensures { IfOk result (λ depth. (r : Tables) (f : SlotFindings) (other : Option ℕ) → Holds r found.now f → IsDepth f found.now.stopped other → depth ≡ other) }
{
    let Some(stopped) = found.stopped else {
        return Ok(None);
    };
    let origin = found.states.origin(stopped);
    let word = found.states.word(alloc, origin)?;
    Ok(Some(word.len()))
}

fn push_head(text: &mut String, states: usize, depth: Option<usize>) -> Result<(), AllocError>
    ensures { IfOk result (λ _. string_bytes text.new ≡ string_bytes text.old ++ head_text states depth) }
{
    match depth {
        None => push_count_line(text, "states ", states),
        Some(choices) => push_count_line(text, "too many states\nchoices ", choices),
    }
}

fn push_count_line(text: &mut String, name: &str, count: usize) -> Result<(), AllocError>
    ensures { IfOk result (λ _. string_bytes text.new ≡ string_bytes text.old ++ count_line name.now count) }
{
    text.push_str(name)?;
    push_count(text, count)?;
    text.push_str("\n")
}

fn push_ends(
    alloc: Global,
    text: &mut String,
    states: &States,
    ends: &[FoundEnd],
    depth: Option<usize>,
) -> Result<(), AllocError>
    ensures { IfOk result (λ _. (r : Tables) (found : List (Machine × List ℕ)) (fs : EndsWithWords) → AreStates r states.now found → AreFound found (map end_origin ends.now) fs → string_bytes text.new ≡ string_bytes text.old ++ listed (codes "ends ") end_line (told depth fs)) }
{
    let lines = end_lines(alloc, states, ends, depth)?;
    push_count_line(text, "ends ", lines.count)?;
    text.push_str(lines.text.as_str())?;
    Ok(())
}

// A line for each end that is told.
fn end_lines(
    alloc: Global,
    states: &States,
    ends: &[FoundEnd],
    depth: Option<usize>,
) -> Result<Lines, AllocError>
    ensures { IfOk result (λ lines. (r : Tables) (found : List (Machine × List ℕ)) (fs : EndsWithWords) → AreStates r states.now found → AreFound found (map end_origin ends.now) fs → AreLines lines end_line (told depth fs)) }
{
    let mut text = String::new(alloc);
    let mut count = 0usize;
    for end in ends {
        let word = states.word(alloc, end.origin)?;
        if is_told(word.as_slice(), depth) {
            push_end_line(&mut text, word.as_slice(), end.end)?;
            count += 1;
        }
    }
    Ok(Lines { text, count })
}

fn is_told(word: &[u8], depth: Option<usize>) -> bool
    ensures { result ≡ is_told depth word.now }
{
    match depth {
        None => true,
        Some(choices) => word.len() <= choices,
    }
}

fn push_values(
    alloc: Global,
    text: &mut String,
    program: &Resolved,
    states: &States,
    values: &[FoundValue],
    depth: Option<usize>,
) -> Result<(), AllocError>
    ensures { IfOk result (λ _. (r : Tables) (found : List (Machine × List ℕ)) (fs : ValuesWithWords) → AreStates r states.now found → AreFound found (map value_origin values.now) fs → string_bytes text.new ≡ string_bytes text.old ++ values_text program.now.names (told depth fs)) }
{
    let lines = value_lines(alloc, program, states, values, depth)?;
    push_count_line(text, "shown ", MOST_VALUES.min(lines.count))?;
    text.push_str(lines.text.as_str())?;
    push_more(text, lines.count)?;
    Ok(())
}

// Whether there are more values than are told.
fn push_more(text: &mut String, count: usize) -> Result<(), AllocError>
    ensures { IfOk result (λ _. string_bytes text.new ≡ string_bytes text.old ++ (if nat_lt MOST_VALUES count then codes "more\n" else [])) }
{
    if count > MOST_VALUES {
        return text.push_str("more\n");
    }
    Ok(())
}

// A line for each of the first values that are told.
fn value_lines(
    alloc: Global,
    program: &Resolved,
    states: &States,
    values: &[FoundValue],
    depth: Option<usize>,
) -> Result<Lines, AllocError>
    ensures { IfOk result (λ lines. (r : Tables) (found : List (Machine × List ℕ)) (fs : ValuesWithWords) → AreStates r states.now found → AreFound found (map value_origin values.now) fs → AreFirstLines lines (value_line program.now.names) (told depth fs)) }
{
    let mut text = String::new(alloc);
    let mut count = 0usize;
    for value in values {
        let word = states.word(alloc, value.origin)?;
        if is_told(word.as_slice(), depth) {
            push_early(&mut text, program, word.as_slice(), value, count)?;
            count += 1;
        }
    }
    Ok(Lines { text, count })
}

// The line of a value before which there are so many, if it is one of the first.
fn push_early(
    text: &mut String,
    program: &Resolved,
    word: &[u8],
    value: &FoundValue,
    before: usize,
) -> Result<(), AllocError>
    ensures { IfOk result (λ _. string_bytes text.new ≡ string_bytes text.old ++ (if nat_lt before MOST_VALUES then value_line program.now.names value.now.value word.now else [])) }
{
    if before < MOST_VALUES {
        return push_value_line(text, program, word, value);
    }
    Ok(())
}

fn push_first(text: &mut String, word: &[u8]) -> Result<(), AllocError>
    ensures { IfOk result (λ _. string_bytes text.new ≡ string_bytes text.old ++ (codes "first " ++ word_text word.now)) }
{
    text.push_str("first ")?;
    push_word(text, word)
}

fn push_value_line(
    text: &mut String,
    program: &Resolved,
    word: &[u8],
    value: &FoundValue,
) -> Result<(), AllocError>
    ensures { IfOk result (λ _. string_bytes text.new ≡ string_bytes text.old ++ value_line program.now.names value.now.value word.now) }
{
    push_first(text, word)?;
    text.push_str(" shows ")?;
    push_output(text, program, [value.value].as_slice())?;
    text.push_str("\n")
}

fn push_end_line(text: &mut String, word: &[u8], end: End) -> Result<(), AllocError>
    ensures { IfOk result (λ _. string_bytes text.new ≡ string_bytes text.old ++ end_line end word.now) }
{
    push_first(text, word)?;
    text.push_str(" ")?;
    push_end(text, end)?;
    text.push_str("\n")
}

/// Appends an end.
pub fn push_end(text: &mut String, end: End) -> Result<(), AllocError>
    ensures { IfOk result (λ _. string_bytes text.new ≡ string_bytes text.old ++ end_text end) }
{
    match end {
        End::Over(kind) => push_kind(text, kind),
        End::Alone(pid) => push_process(text, "alone", pid),
        End::Spins(pid) => push_process(text, "spins", pid),
    }
}

fn push_process(text: &mut String, what: &str, pid: u8) -> Result<(), AllocError>
    ensures { IfOk result (λ _. string_bytes text.new ≡ string_bytes text.old ++ (what.now ++ codes " process " ++ decimal pid)) }
{
    text.push_str(what)?;
    text.push_str(" process ")?;
    push_number(text, u64::from(pid))
}

fn push_kind(text: &mut String, kind: OutcomeKind) -> Result<(), AllocError>
    ensures { IfOk result (λ _. string_bytes text.new ≡ string_bytes text.old ++ kind_text kind) }
{
    match kind {
        OutcomeKind::Finished => text.push_str("finished"),
        OutcomeKind::AllWaiting => text.push_str("all-waiting"),
        OutcomeKind::RunError {
            name,
            process,
            line,
        } => {
            text.push_str("run-error ")?;
            push_process(text, error_name(name), process)?;
            text.push_str(" line ")?;
            push_number(text, u64::from(line))
        }
        OutcomeKind::ChoiceLimit => text.push_str("choice-limit"),
        OutcomeKind::StepLimit => text.push_str("step-limit"),
        OutcomeKind::OutputLimit => text.push_str("output-limit"),
    }
}
