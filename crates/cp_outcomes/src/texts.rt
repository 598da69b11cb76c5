//! Outcomes as lines of text.

ghost use Rattle.std.specs.Prelude.{◌≡◌, ◌<◌, ◌^◌, ◌++◌, ◌==◌, ◌||◌, if◌then◌else◌, not, IfOk, codes, length, map, option_copied, string_bytes};
ghost use Rattle.cp_natural.specs.Decimal.{number_text};
ghost use Rattle.cp_run.specs.Table.{each};
ghost use Rattle.cp_merged.specs.Code.{tally_of};
ghost use Rattle.cp_merged.specs.Told.{rows_in};
ghost use Rattle.cp_walk.specs.Text.{word_text};
ghost use Rattle.cp_outcomes.specs.Shares.{share_in, share_text};
ghost use Rattle.cp_outcomes.specs.Stops.{rows_at, stops};
ghost use Rattle.cp_outcomes.specs.Text as spec;
ghost use Rattle.cp_outcomes.specs.Told.{setting_of, told_of};
ghost use Rattle.cp_outcomes.specs.Written.{IsTextOf};

use crate::pieces::{push_blanks, push_counted, push_right, push_schedules};
use crate::share::share_of;
use crate::simples::Simples;
use crate::stopped::{Limit, schedules_in, schedules_stopped_at};
use crate::subject::{Excess, Subject};
use crate::told::{ToldOutcome, end_lines, tell_outcomes};
use cp_machine::Signals;
use cp_merged::{Tallies, Tally};
use cp_natural::Natural;
use cp_run::{Limits, MOST_CHOICES, MOST_STEPS};
use cp_simplest::SimplestSchedule;
use cp_walk::text::{push_count, push_outcome, push_word};
use std::alloc::{AllocError, Global};

/// How wide a share is at most: `> 99.9 %`.
const SHARE_WIDTH: usize = 8;

/// How wide a share is with what stands before and after it.
const MARGIN: usize = 11;

/// The outcomes: first those of runs that ended, each with its share, then those of runs that a limit stopped. The last line says
/// whether these are all.
pub fn text(
    alloc: Global,
    subject: Subject<'_>,
    tallies: &Tallies,
    simples: &Simples,
) -> Result<String, AllocError>
    ensures { IfOk result (λ t. IsTextOf (setting_of subject.entry subject.entry.limits.choices) (map tally_of tallies.now) (string_bytes t)) }
{
    let all = tallies.as_slice();
    let told = tell_outcomes(alloc, subject, all, simples)?;
    outcomes_text(alloc, subject, all, &told, simples.is_searched())
}

// The text of these outcomes, told so.
fn outcomes_text(
    alloc: Global,
    subject: Subject<'_>,
    tallies: &[Tally],
    told: &[ToldOutcome<'_>],
    is_searched: bool,
) -> Result<String, AllocError>
    requires { rows_in (map tally_of tallies.now) < 10 ^ 126 }
    ensures { IfOk result (λ t. string_bytes t ≡ spec.outcomes_text (setting_of subject.entry subject.entry.limits.choices) is_searched (map tally_of tallies.now) (map told_of told.now)) }
{
    let whole = schedules_in(tallies);
    let mut text = String::new(alloc);
    let signals = subject.limits.discipline.signals;
    push_heading(&mut text, &whole, tallies.len(), signals)?;
    push_outcomes(alloc, &mut text, subject, &whole, told)?;
    push_searched(&mut text, subject.states, is_searched)?;
    push_closing(&mut text, subject.limits, tallies)?;
    Ok(text)
}

fn push_heading(
    text: &mut String,
    schedules: &Natural,
    outcomes: usize,
    signals: Signals,
) -> Result<(), AllocError>
    ensures { IfOk result (λ _. string_bytes text.new ≡ string_bytes text.old ++ spec.heading_text schedules.now outcomes signals) }
{
    push_schedules(text, schedules)?;
    text.push_str(", ")?;
    push_counted(text, outcomes, " outcome", " outcomes")?;
    text.push_str(signals_words(signals))?;
    text.push_str("\n\n")
}

// Who goes on after a `continue`, where that is not by the book.
fn signals_words(signals: Signals) -> &'static str
    ensures { result.now ≡ spec.signals_text signals }
{
    match signals {
        Signals::Return => "",
        Signals::Continue => ", signals continue",
        Signals::Wait => ", signals wait",
    }
}

// The outcomes, with their numbers.
fn push_outcomes(
    alloc: Global,
    text: &mut String,
    subject: Subject<'_>,
    whole: &Natural,
    told: &[ToldOutcome<'_>],
) -> Result<(), AllocError>
    requires { whole.now < 10 ^ 126 }
    ensures { IfOk result (λ _. string_bytes text.new ≡ string_bytes text.old ++ spec.numbered_text (setting_of subject.entry subject.entry.limits.choices) (length (number_text (length told.now))) whole.now 1 (map told_of told.now)) }
{
    let mut last = String::new(alloc);
    push_count(&mut last, told.len())?;
    let width = last.len();
    for (index, outcome) in told.iter().enumerate() {
        push_outcome_told(alloc, text, subject, width, whole, index + 1, outcome)?;
    }
    Ok(())
}

// An outcome: its number, its share, its schedules, and its end.
#[tactic(auto, unfolding(crate::specs::Text::told_text, crate::specs::Text::line_text))]
fn push_outcome_told(
    alloc: Global,
    text: &mut String,
    subject: Subject<'_>,
    width: usize,
    whole: &Natural,
    number: usize,
    told: &ToldOutcome<'_>,
) -> Result<(), AllocError>
    requires { whole.now < 10 ^ 126 }
    ensures { IfOk result (λ _. string_bytes text.new ≡ string_bytes text.old ++ spec.told_text (setting_of subject.entry subject.entry.limits.choices) width whole.now number (told_of told.now)) }
{
    let tally = told.tally;
    push_figures(alloc, text, width, number, &tally.count, whole)?;
    push_outcome(text, subject.program, &tally.outcome)?;
    text.push_str("\n")?;
    push_indent(text, width)?;
    push_first(text, tally)?;
    push_simple(text, tally.first.as_slice(), told.simple)?;
    text.push_str("\n")?;
    let ends = end_lines(alloc, subject, tally)?;
    push_lines(text, width, &ends)
}

// The number of an outcome, as wide as any, and its share.
fn push_figures(
    alloc: Global,
    text: &mut String,
    width: usize,
    number: usize,
    count: &Natural,
    whole: &Natural,
) -> Result<(), AllocError>
    requires { whole.now < 10 ^ 126 }
    ensures { IfOk result (λ _. string_bytes text.new ≡ string_bytes text.old ++ (spec.right_text width (number_text number) ++ codes "." ++ spec.share_column (share_text (share_in count.now whole.now)))) }
{
    let mut digits = String::new(alloc);
    push_count(&mut digits, number)?;
    push_right(text, width, digits.as_str())?;
    text.push_str(".")?;
    let mut share = String::new(alloc);
    share_of(count, whole).push_to(&mut share)?;
    push_share(text, share.as_str())
}

// A share in its column, with a blank before it and after it in any case.
fn push_share(text: &mut String, share: &str) -> Result<(), AllocError>
    ensures { IfOk result (λ _. string_bytes text.new ≡ string_bytes text.old ++ spec.share_column share.now) }
{
    if share.len() < SHARE_WIDTH {
        push_right(text, SHARE_WIDTH, share)?;
        text.push_str("  ")
    } else {
        text.push_str(" ")?;
        text.push_str(share)?;
        text.push_str(" ")
    }
}

// How many schedules have an outcome, and the first of them.
fn push_first(text: &mut String, tally: &Tally) -> Result<(), AllocError>
    ensures { IfOk result (λ _. string_bytes text.new ≡ string_bytes text.old ++ (spec.schedules_text tally.now.count ++ codes ", first " ++ word_text tally.now.first.items)) }
{
    push_schedules(text, &tally.count)?;
    text.push_str(", first ")?;
    push_word(text, tally.first.as_slice())
}

// The simplest schedule, if there is one, where it is another one than the first.
fn push_simple(
    text: &mut String,
    first: &[u8],
    simple: Option<&SimplestSchedule>,
) -> Result<(), AllocError>
    ensures { IfOk result (λ _. string_bytes text.new ≡ string_bytes text.old ++ spec.simple_text first.now (option_copied simple.entry)) }
{
    match simple {
        Some(simple) if simple.word.as_slice() != first => push_simplest(text, simple),
        _ => Ok(()),
    }
}

fn push_simplest(text: &mut String, simple: &SimplestSchedule) -> Result<(), AllocError>
    ensures { IfOk result (λ _. string_bytes text.new ≡ string_bytes text.old ++ spec.simplest_text simple.now) }
{
    text.push_str(", simplest ")?;
    push_word(text, simple.word.as_slice())?;
    text.push_str(", ")?;
    push_counted(text, simple.switches as usize, " switch", " switches")
}

// Begins a line below the first of an outcome, whose number is so wide.
fn push_indent(text: &mut String, width: usize) -> Result<(), AllocError>
    ensures { IfOk result (λ _. string_bytes text.new ≡ string_bytes text.old ++ (spec.blanks width ++ spec.blanks 11)) }
{
    push_blanks(text, width)?;
    push_blanks(text, MARGIN)
}

fn push_lines(text: &mut String, width: usize, lines: &[String]) -> Result<(), AllocError>
    ensures { IfOk result (λ _. string_bytes text.new ≡ string_bytes text.old ++ each (spec.line_text width) (map string_bytes lines.now)) }
{
    for line in lines {
        push_line(text, width, line.as_str())?;
    }
    Ok(())
}

#[tactic(auto, unfolding(crate::specs::Text::line_text))]
fn push_line(text: &mut String, width: usize, line: &str) -> Result<(), AllocError>
    ensures { IfOk result (λ _. string_bytes text.new ≡ string_bytes text.old ++ spec.line_text width line.now) }
{
    push_indent(text, width)?;
    text.push_str(line)?;
    text.push_str("\n")
}

fn push_searched(text: &mut String, states: u32, is_searched: bool) -> Result<(), AllocError>
    ensures { IfOk result (λ _. string_bytes text.new ≡ string_bytes text.old ++ spec.searched_text states is_searched) }
{
    if is_searched {
        return Ok(());
    }
    text.push_str("\nsimplest schedules: not searched, with more than ")?;
    push_count(text, states as usize)?;
    text.push_str(" states\n")
}

// Whether these are all outcomes; if not, what to try.
fn push_closing(text: &mut String, limits: Limits, tallies: &[Tally]) -> Result<(), AllocError>
    requires { rows_in (map tally_of tallies.now) < 10 ^ 126 }
    ensures { IfOk result (λ _. string_bytes text.new ≡ string_bytes text.old ++ spec.closing_text (λ l. spec.stop_text limits.choices limits.steps (rows_at l (map tally_of tallies.now)) l) (stops (map tally_of tallies.now))) }
{
    let begun = push_stop(text, limits, tallies, Limit::Choices, false)?;
    let begun = push_stop(text, limits, tallies, Limit::Steps, begun)?;
    let begun = push_stop(text, limits, tallies, Limit::Output, begun)?;
    text.push_str(last_words(begun))
}

// How the last line begins, or goes on.
fn first_words(begun: bool) -> &'static str
    ensures { result.now ≡ (if begun then codes ", " else codes "\nnot complete: ") }
{
    if begun { ", " } else { "\nnot complete: " }
}

// How the last line ends; where nothing began it, it says that these are all.
fn last_words(begun: bool) -> &'static str
    ensures { result.now ≡ (if begun then codes "\n" else codes "\ncomplete: the same for every greater number of choices and of steps\n") }
{
    if begun {
        "\n"
    } else {
        "\ncomplete: the same for every greater number of choices and of steps\n"
    }
}

// How many schedules ended at a limit, if any did; and whether the last line was begun, now or before.
fn push_stop(
    text: &mut String,
    limits: Limits,
    tallies: &[Tally],
    limit: Limit,
    begun: bool,
) -> Result<bool, AllocError>
    requires { rows_in (map tally_of tallies.now) < 10 ^ 126 }
    ensures begun { IfOk result (λ now. now ≡ (begun || not (rows_at limit (map tally_of tallies.now) == 0))) }
    ensures text { IfOk result (λ _. string_bytes text.new ≡ string_bytes text.old ++ spec.begun_text begun (rows_at limit (map tally_of tallies.now)) (spec.stop_text limits.choices limits.steps (rows_at limit (map tally_of tallies.now)) limit)) }
{
    let count = schedules_stopped_at(limit, tallies);
    if count.is_zero() {
        return Ok(begun);
    }
    text.push_str(first_words(begun))?;
    push_stopped(text, limits, limit, &count)?;
    Ok(true)
}

fn push_stopped(
    text: &mut String,
    limits: Limits,
    limit: Limit,
    count: &Natural,
) -> Result<(), AllocError>
    ensures { IfOk result (λ _. string_bytes text.new ≡ string_bytes text.old ++ spec.stop_text limits.choices limits.steps count.now limit) }
{
    push_schedules(text, count)?;
    text.push_str(" ended as ")?;
    text.push_str(limit.name())?;
    text.push_str(advice(limit, limits))
}

/// What to try where runs ended at a limit.
pub fn advice(limit: Limit, limits: Limits) -> &'static str
    ensures { result.now ≡ spec.advice_text limits.choices limits.steps limit }
{
    match limit {
        Limit::Choices => {
            if limits.choices < MOST_CHOICES {
                " (try greater --choices)"
            } else {
                " (./show ends tells of schedules of any length)"
            }
        }
        Limit::Steps => {
            if limits.steps < MOST_STEPS {
                " (try greater --steps, or ./show ends for a loop that never ends)"
            } else {
                " (./show ends tells a loop that never ends)"
            }
        }
        Limit::Output => " (a run displays at most 1000 values)",
    }
}

/// What there is too much of, and what to try.
pub fn excess_text(alloc: Global, excess: Excess) -> Result<String, AllocError>
    ensures { IfOk result (λ t. string_bytes t ≡ spec.excess_text excess) }
{
    let mut text = String::new(alloc);
    push_excess(&mut text, excess)?;
    Ok(text)
}

/// The same, and what is told of all schedules of a smaller number of choices.
pub fn excess_and_known(
    alloc: Global,
    excess: Excess,
    choices: u8,
    told: &str,
) -> Result<String, AllocError>
    ensures { IfOk result (λ t. string_bytes t ≡ spec.excess_text excess ++ spec.known_text choices told.now) }
{
    let mut text = String::new(alloc);
    push_excess(&mut text, excess)?;
    push_known(&mut text, choices, told)?;
    Ok(text)
}

fn push_excess(text: &mut String, excess: Excess) -> Result<(), AllocError>
    ensures { IfOk result (λ _. string_bytes text.new ≡ string_bytes text.old ++ spec.excess_text excess) }
{
    match excess {
        Excess::States(most) => {
            text.push_str("too many states: a layer may have ")?;
            push_count(text, most as usize)?;
            text.push_str("\ntry greater --states, or ./show ends\n")
        }
        Excess::Outcomes => {
            text.push_str("too many outcomes: there may be 50000\ntry smaller --choices\n")
        }
    }
}

fn push_known(text: &mut String, choices: u8, told: &str) -> Result<(), AllocError>
    ensures { IfOk result (λ _. string_bytes text.new ≡ string_bytes text.old ++ spec.known_text choices told.now) }
{
    text.push_str("\nof all schedules of at most ")?;
    push_count(text, choices as usize)?;
    text.push_str(" choices:\n\n")?;
    text.push_str(told)
}
