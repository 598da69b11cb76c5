//! What a run error is of, in words.

ghost use Rattle.std.specs.Prelude.{◌≡◌, ◌++◌, option_map, slice_get, string_bytes, IfOk, OnOk};
ghost use Rattle.std.specs.Fmt.{signed_decimal};
ghost use Rattle.cp_legend.specs.Names.{legend_seen, path_in};
ghost use Rattle.cp_story.specs.CauseText as spec;

use crate::cause::Cause;
use crate::integers::{Known, is_integer};
use crate::words::{error_words, push_cell_queue, push_process};
use cp_legend::Legend;
use cp_machine::ErrorName;
use cp_slots::Arithmetic;
use std::alloc::{AllocError, Global};

/// What a run error is of: `32000 + 800`, `7 is not in 0..5`. The empty text where that is not known for sure.
pub fn cause_text(alloc: Global, legend: &Legend, cause: Cause) -> Result<String, AllocError>
    ensures { IfOk result (λ t. string_bytes t ≡ spec.cause_text (legend_seen legend.now) cause) }
{
    let mut text = String::new(alloc);
    push_cause(alloc, legend, &mut text, cause)?;
    Ok(text)
}

/// An error with what it is of, `range: 7 is not in 0..5`; none where that is not known for sure.
pub fn cause_line(
    alloc: Global,
    legend: &Legend,
    name: ErrorName,
    cause: Option<Cause>,
) -> Result<Option<String>, AllocError>
    ensures { IfOk result (λ line. option_map string_bytes line ≡ spec.cause_line (legend_seen legend.now) name cause) }
{
    let Some(cause) = cause else {
        return Ok(None);
    };
    let detail = cause_text(alloc, legend, cause)?;
    named_detail(alloc, name, detail.as_str())
}

// An error with a text behind a colon, if there is some.
fn named_detail(alloc: Global, name: ErrorName, detail: &str) -> Result<Option<String>, AllocError>
    ensures { IfOk result (λ line. option_map string_bytes line ≡ spec.named_detail name detail.now) }
{
    if detail.is_empty() {
        return Ok(None);
    }
    let mut text = String::from_str(alloc, error_words(name))?;
    text.push_str(": ")?;
    text.push_str(detail)?;
    Ok(Some(text))
}

fn push_cause(
    alloc: Global,
    legend: &Legend,
    text: &mut String,
    cause: Cause,
) -> Result<(), AllocError>
    ensures { OnOk result (string_bytes text.new ≡ string_bytes text.old ++ spec.cause_text (legend_seen legend.now) cause) }
{
    match cause {
        Cause::Operation(operator, left, right) => push_operation(text, operator, left, right),
        Cause::Sign(value) => push_operand(text, "-(", value),
        Cause::Absolute(value) => push_operand(text, "abs(", value),
        Cause::Last => text.push_str("the last value has no succ"),
        Cause::First => text.push_str("the first value has no pred"),
        Cause::Outside(value, low, high) => push_outside(legend, text, value, low, high),
        Cause::NoLabel(value) => push_unlabelled(legend, text, value),
        Cause::InUse(process, cell) => {
            push_process(legend, text, process)?;
            text.push_str(" waits in ")?;
            push_cell_queue(alloc, legend, text, cell)
        }
        Cause::NotInitialised(component) => {
            text.push_str(component_path(legend, component))?;
            text.push_str(" is not initialised")
        }
        Cause::InitialisedTwice(component) => {
            text.push_str("a second init of ")?;
            text.push_str(component_path(legend, component))
        }
        Cause::Untold => Ok(()),
    }
}

/// The sign of an operation.
pub fn sign_of(operator: Arithmetic) -> &'static str
    ensures { result.now ≡ spec.sign_of operator }
{
    match operator {
        Arithmetic::Add => "+",
        Arithmetic::Subtract => "-",
        Arithmetic::Multiply => "*",
        Arithmetic::Divide => "div",
        Arithmetic::Modulo => "mod",
    }
}

/// The path of a component.
pub fn component_path(legend: &Legend, component: usize) -> &str
    ensures { result.now ≡ path_in (slice_get (legend_seen legend.now).components component) }
{
    legend
        .components
        .get(component)
        .map_or("", |component| component.path.as_str())
}

fn push_outside(
    legend: &Legend,
    text: &mut String,
    value: i16,
    low: i16,
    high: i16,
) -> Result<(), AllocError>
    ensures { OnOk result (string_bytes text.new ≡ string_bytes text.old ++ spec.outside_text (legend_seen legend.now) value low high) }
{
    let is_known = is_integer(legend, Known::Bounds(low, high));
    push_bounds(text, is_known, value, low, high)
}

// A value and the bounds that it is outside of, if they are known to be integers.
fn push_bounds(
    text: &mut String,
    is_known: bool,
    value: i16,
    low: i16,
    high: i16,
) -> Result<(), AllocError>
    ensures { OnOk result (string_bytes text.new ≡ string_bytes text.old ++ spec.bounds_text is_known value low high) }
{
    if is_known {
        push_three(text, value, " is not in ", low, "..", high)
    } else {
        Ok(())
    }
}

// Three numbers with texts between them.
fn push_three(
    text: &mut String,
    first: i16,
    behind_first: &str,
    second: i16,
    behind_second: &str,
    third: i16,
) -> Result<(), AllocError>
    ensures { OnOk result (string_bytes text.new ≡ string_bytes text.old ++ (signed_decimal first ++ behind_first.now ++ signed_decimal second ++ behind_second.now ++ signed_decimal third)) }
{
    push_two(text, first, behind_first, second)?;
    push_behind(text, behind_second, third)
}

fn push_two(text: &mut String, first: i16, between: &str, second: i16) -> Result<(), AllocError>
    ensures { OnOk result (string_bytes text.new ≡ string_bytes text.old ++ (signed_decimal first ++ between.now ++ signed_decimal second)) }
{
    write!(text, "{first}")?;
    push_behind(text, between, second)
}

fn push_operation(
    text: &mut String,
    operator: Arithmetic,
    left: i16,
    right: i16,
) -> Result<(), AllocError>
    ensures { OnOk result (string_bytes text.new ≡ string_bytes text.old ++ spec.operation_text operator left right) }
{
    write!(text, "{left}")?;
    text.push_str(" ")?;
    text.push_str(sign_of(operator))?;
    text.push_str(" ")?;
    write!(text, "{right}")
}

// An operand in parentheses.
fn push_operand(text: &mut String, before: &str, value: i16) -> Result<(), AllocError>
    ensures { OnOk result (string_bytes text.new ≡ string_bytes text.old ++ spec.operand_text before.now value) }
{
    text.push_str(before)?;
    write!(text, "{value}")?;
    text.push_str(")")
}

fn push_unlabelled(legend: &Legend, text: &mut String, value: i16) -> Result<(), AllocError>
    ensures { OnOk result (string_bytes text.new ≡ string_bytes text.old ++ spec.unlabelled_text (legend_seen legend.now) value) }
{
    let is_known = is_integer(legend, Known::Value(value));
    push_label(text, is_known, value)
}

fn push_label(text: &mut String, is_known: bool, value: i16) -> Result<(), AllocError>
    ensures { OnOk result (string_bytes text.new ≡ string_bytes text.old ++ spec.label_text is_known value) }
{
    if is_known {
        push_behind(text, "no label is ", value)
    } else {
        Ok(())
    }
}

fn push_behind(text: &mut String, before: &str, value: i16) -> Result<(), AllocError>
    ensures { OnOk result (string_bytes text.new ≡ string_bytes text.old ++ (before.now ++ signed_decimal value)) }
{
    text.push_str(before)?;
    write!(text, "{value}")
}
