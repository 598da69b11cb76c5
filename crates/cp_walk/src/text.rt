//! The texts of numbers, words and outcomes.

ghost use Rattle.std.specs.Prelude.{◌≡◌, ◌++◌, IfOk, string_bytes, decimal};
ghost use Rattle.std.specs.Fmt.{signed_decimal};
ghost use Rattle.cp_natural.specs.Decimal.{number_text};
ghost use Rattle.cp_walk.specs.Text.{word_text, char_text, shown_text, output_text, error_text, kind_text, outcome_text};

use cp_machine::{ErrorName, Shown};
use cp_run::{Outcome, OutcomeKind};
use cp_slots::Resolved;
use itoa::Buffer;
use std::alloc::AllocError;

/// Appends a number in decimal.
#[inline(always)]
pub fn push_number(text: &mut String, number: u64) -> Result<(), AllocError>
    ensures { IfOk result (λ _. string_bytes text.new ≡ string_bytes text.old ++ decimal number) }
{
    // Most numbers have one digit.
    if number < 10 {
        return text.push(char::from(b'0' + number as u8));
    }
    push_long(text, number)
}

// A number of more digits: apart, so that one digit is written where it stands.
#[inline(never)]
fn push_long(text: &mut String, number: u64) -> Result<(), AllocError>
    ensures { IfOk result (λ _. string_bytes text.new ≡ string_bytes text.old ++ decimal number) }
{
    text.push_str(Buffer::new().format(number))
}

/// Appends a count in decimal.
pub fn push_count(text: &mut String, count: usize) -> Result<(), AllocError>
    ensures { IfOk result (λ _. string_bytes text.new ≡ string_bytes text.old ++ number_text count) }
{
    push_number(text, count as u64)
}

/// Appends a word: its numbers joined by periods, or a hyphen.
pub fn push_word(text: &mut String, word: &[u8]) -> Result<(), AllocError>
    ensures { IfOk result (λ _. string_bytes text.new ≡ string_bytes text.old ++ word_text word.now) }
{
    let Some((first, rest)) = word.split_first() else {
        return text.push_str("-");
    };
    push_number(text, u64::from(*first))?;
    for number in rest {
        text.push('.')?;
        push_number(text, u64::from(*number))?;
    }
    Ok(())
}

#[inline(always)]
fn push_signed(text: &mut String, number: i16) -> Result<(), AllocError>
    ensures { IfOk result (λ _. string_bytes text.new ≡ string_bytes text.old ++ signed_decimal number) }
{
    if number >= 0 {
        return push_number(text, u64::from(number.unsigned_abs()));
    }
    push_negative(text, number)
}

#[inline(never)]
fn push_negative(text: &mut String, number: i16) -> Result<(), AllocError>
    ensures { IfOk result (λ _. string_bytes text.new ≡ string_bytes text.old ++ signed_decimal number) }
{
    text.push_str(Buffer::new().format(number))
}

#[inline(never)]
fn push_char(text: &mut String, code: u8) -> Result<(), AllocError>
    ensures { IfOk result (λ _. string_bytes text.new ≡ string_bytes text.old ++ char_text code) }
{
    if code >= 33 && code <= 126 && code != 39 {
        text.push_str("'")?;
        text.push(char::from(code))?;
        text.push_str("'")
    } else {
        text.push_str("'(:")?;
        push_number(text, u64::from(code))?;
        text.push_str(":)'")
    }
}

#[inline(always)]
fn push_shown(text: &mut String, program: &Resolved, value: Shown) -> Result<(), AllocError>
    ensures { IfOk result (λ _. string_bytes text.new ≡ string_bytes text.old ++ shown_text program.now.names value) }
{
    match value {
        Shown::Integer(number) => push_signed(text, number),
        Shown::Char(code) => push_char(text, code),
        Shown::Truth(true) => text.push_str("true"),
        Shown::Truth(false) => text.push_str("false"),
        Shown::Constant(number) => text.push_str(program.name(number)),
    }
}

/// Appends what was displayed: the values joined by spaces, or a hyphen.
pub fn push_output(
    text: &mut String,
    program: &Resolved,
    values: &[Shown],
) -> Result<(), AllocError>
    ensures { IfOk result (λ _. string_bytes text.new ≡ string_bytes text.old ++ output_text program.now.names values.now) }
{
    let Some((first, rest)) = values.split_first() else {
        return text.push_str("-");
    };
    push_shown(text, program, *first)?;
    for value in rest {
        text.push(' ')?;
        push_shown(text, program, *value)?;
    }
    Ok(())
}

/// A run error as a report names it.
pub fn error_name(name: ErrorName) -> &'static str
    ensures { result.now ≡ error_text name }
{
    match name {
        ErrorName::Overflow => "overflow",
        ErrorName::ZeroDivisor => "zero-divisor",
        ErrorName::Range => "range",
        ErrorName::NoCase => "no-case",
        ErrorName::QueueInUse => "queue-in-use",
        ErrorName::NotInit => "not-init",
        ErrorName::InitTwice => "init-twice",
        ErrorName::Assertion => "assertion",
        ErrorName::Invariant => "invariant",
    }
}

fn push_kind(text: &mut String, kind: OutcomeKind) -> Result<(), AllocError>
    ensures { IfOk result (λ _. string_bytes text.new ≡ string_bytes text.old ++ kind_text kind) }
{
    match kind {
        OutcomeKind::Finished => text.push_str("finished"),
        OutcomeKind::AllWaiting => text.push_str("all-waiting"),
        OutcomeKind::RunError {
            name,
            process,
            line,
        } => {
            text.push_str("run-error ")?;
            text.push_str(error_name(name))?;
            text.push_str(" process ")?;
            push_number(text, u64::from(process))?;
            text.push_str(" line ")?;
            push_number(text, u64::from(line))
        }
        OutcomeKind::ChoiceLimit => text.push_str("choice-limit"),
        OutcomeKind::StepLimit => text.push_str("step-limit"),
        OutcomeKind::OutputLimit => text.push_str("output-limit"),
    }
}

/// Appends an outcome: its kind and what was displayed.
pub fn push_outcome(
    text: &mut String,
    program: &Resolved,
    outcome: &Outcome,
) -> Result<(), AllocError>
    ensures { IfOk result (λ _. string_bytes text.new ≡ string_bytes text.old ++ outcome_text program.now.names outcome.now) }
{
    push_kind(text, outcome.kind)?;
    text.push_str(" output ")?;
    push_output(text, program, outcome.output.as_slice())
}
