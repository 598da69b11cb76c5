//! The text of a trace.

ghost use Rattle.std.specs.Prelude.{◌≡◌, ◌++◌, IfOk, string_bytes, length, decimal};
ghost use Rattle.cp_run.specs.Code.{answer_of};
ghost use Rattle.cp_run.specs.Table.{each};
ghost use Rattle.cp_walk.specs.Rows.{UsedWithin};
ghost use Rattle.cp_walk.specs.Text.{behind_each};
ghost use Rattle.cp_walk.specs.TraceText.{event_text, holder_text, trace_line_text, end_text, trace_text};

use crate::printed::{Report, Text};
use crate::text::{push_number, push_outcome, push_word};
use cp_machine::Kernel;
use cp_run::{RunEnd, TraceEvent, TraceLine};
use cp_slots::Resolved;
use std::alloc::{AllocError, Global};

fn event_name(event: TraceEvent) -> &'static str
    ensures { result.now ≡ event_text event }
{
    match event {
        TraceEvent::Kernel(Kernel::Enter) => "enter",
        TraceEvent::Kernel(Kernel::Leave) => "leave",
        TraceEvent::Kernel(Kernel::Delay) => "delay",
        TraceEvent::Kernel(Kernel::Continue) => "continue",
        TraceEvent::Kernel(Kernel::StartProcess) => "init",
        TraceEvent::Kernel(Kernel::Display) => "display",
        TraceEvent::End => "end",
        TraceEvent::Admit => "admit",
    }
}

fn push_holder(text: &mut String, holder: Option<u8>) -> Result<(), AllocError>
    ensures { IfOk result (λ _. string_bytes text.new ≡ string_bytes text.old ++ holder_text holder) }
{
    match holder {
        None => text.push_str("free"),
        Some(process) => push_number(text, u64::from(process)),
    }
}

fn push_holders(text: &mut String, holders: &[Option<u8>]) -> Result<(), AllocError>
    ensures { IfOk result (λ _. string_bytes text.new ≡ string_bytes text.old ++ behind_each 32 holder_text holders.now) }
{
    for holder in holders {
        text.push_str(" ")?;
        push_holder(text, *holder)?;
    }
    Ok(())
}

fn push_numbers(text: &mut String, numbers: &[u8]) -> Result<(), AllocError>
    ensures { IfOk result (λ _. string_bytes text.new ≡ string_bytes text.old ++ behind_each 32 decimal numbers.now) }
{
    for number in numbers {
        text.push_str(" ")?;
        push_number(text, u64::from(*number))?;
    }
    Ok(())
}

fn push_line(text: &mut String, line: &TraceLine) -> Result<(), AllocError>
    ensures { IfOk result (λ _. string_bytes text.new ≡ string_bytes text.old ++ trace_line_text line.now) }
{
    text.push_str("process ")?;
    push_number(text, u64::from(line.process))?;
    text.push_str(" ")?;
    text.push_str(event_name(line.event))?;
    text.push_str(" holders")?;
    push_holders(text, line.holders.as_slice())?;
    text.push_str("\n")
}

fn push_lines(text: &mut String, lines: &[TraceLine]) -> Result<(), AllocError>
    ensures { IfOk result (λ _. string_bytes text.new ≡ string_bytes text.old ++ each trace_line_text lines.now) }
{
    for line in lines {
        push_line(text, line)?;
    }
    Ok(())
}

fn push_end(
    text: &mut String,
    program: &Resolved,
    end: &RunEnd,
    word: &[u8],
) -> Result<(), AllocError>
    requires { UsedWithin end.now (length word.now) }
    ensures { IfOk result (λ _. string_bytes text.new ≡ string_bytes text.old ++ end_text program.now.names word.now (answer_of end.now)) }
{
    match end {
        RunEnd::Ended { outcome, used } => {
            text.push_str("ended ")?;
            push_word(text, &word[..*used])?;
            text.push_str(" ")?;
            push_outcome(text, program, outcome)?;
        }
        RunEnd::Wants { ready } => {
            text.push_str("wants")?;
            push_numbers(text, ready.as_slice())?;
        }
        RunEnd::NotReady { place } => {
            text.push_str("not-ready ")?;
            push_number(text, *place as u64)?;
        }
    }
    text.push_str("\n")
}

/// The text of a trace of a word: its lines and the run's end.
pub fn trace_report(
    alloc: Global,
    program: &Resolved,
    lines: &[TraceLine],
    end: &RunEnd,
    word: &[u8],
) -> Result<Report, AllocError>
    requires { UsedWithin end.now (length word.now) }
    ensures { IfOk result (λ r. r.text ≡ trace_text program.now.names lines.now (answer_of end.now) word.now) }
{
    let mut text = String::new(alloc);
    push_lines(&mut text, lines)?;
    push_end(&mut text, program, end, word)?;
    Ok(Report {
        text: Text::new(text),
    })
}
