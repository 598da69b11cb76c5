//! What no schedule comes to, as lines of text.

use crate::gaps::{Gaps, UnreachedLine};
use std::alloc::{AllocError, Global};

/// What no schedule comes to: a heading that says of which schedules it is so, and then the lines that are not reached, the annotations,
/// the queues and the gates.
pub fn cover_text(alloc: Global, gaps: &Gaps) -> Result<String, AllocError> {
    let mut text = String::new(alloc);
    push_heading(&mut text, gaps)?;
    push_lines(
        &mut text,
        &gaps.lines,
        "never reached",
        "every statement is reached",
    )?;
    push_annotations(&mut text, gaps)?;
    push_unused(&mut text, gaps.has_queues, &gaps.queues, "in", "queue")?;
    let gates = &gaps.gates;
    push_unused(&mut text, gaps.has_gates, gates, "at the gate of", "entry")?;
    Ok(text)
}

fn push_heading(text: &mut String, gaps: &Gaps) -> Result<(), AllocError> {
    if gaps.is_whole {
        return text.push_str("coverage by all schedules:\n");
    }
    let choices = gaps.choices;
    let ending = if choices == 1 { "" } else { "s" };
    write!(
        text,
        "coverage by the schedules of at most {choices} choice{ending}, some of which a limit stopped:\n"
    )
}

// The annotations, if there are any.
fn push_annotations(text: &mut String, gaps: &Gaps) -> Result<(), AllocError> {
    if gaps.has_assertions {
        push_lines(
            text,
            &gaps.assertions,
            "assertions that are never reached",
            "every assertion is reached",
        )?;
    }
    if gaps.has_invariants {
        push_lines(
            text,
            &gaps.invariants,
            "invariants that are never looked at",
            "every invariant is looked at",
        )?;
    }
    Ok(())
}

// The lines of what is not reached; that there are none.
fn push_lines(
    text: &mut String,
    lines: &[UnreachedLine],
    heading: &str,
    all: &str,
) -> Result<(), AllocError> {
    if lines.is_empty() {
        return write!(text, "  {all}\n");
    }
    write!(text, "  {heading}: ")?;
    let mut before = "";
    for line in lines {
        text.push_str(before)?;
        if line.is_part {
            text.push_str("part of ")?;
        }
        write!(text, "line {}", line.line)?;
        before = ", ";
    }
    text.push('\n')
}

// The names of those where nobody ever waits; that there is none such, if there are any at all.
fn push_unused(
    text: &mut String,
    has_any: bool,
    unused: &[String],
    place: &str,
    one: &str,
) -> Result<(), AllocError> {
    for name in unused {
        write!(text, "  nobody ever waits {place} {name}\n")?;
    }
    if has_any && unused.is_empty() {
        write!(text, "  somebody waits {place} every {one}\n")?;
    }
    Ok(())
}
