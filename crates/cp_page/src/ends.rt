//! How a schedule ends.

ghost use Rattle.cp_machine.specs.System.{IsStateOf};

use crate::json::Json;
use crate::register::Register;
use crate::views::next_line;
use cp_ends::End;
use cp_legend::Legend;
use cp_machine::State;
use cp_run::OutcomeKind;
use cp_slots::Resolved;
use cp_story::{
    Annotation, cause_of_kind, cause_text, error_words, kind_words, push_callers, push_continuing,
    reasons_in, violation_of_kind, violation_words,
};
use std::alloc::AllocError;

/// An end where a stretch came to it: `[kind, error, process, line]`. Of a limit, and of a stretch that goes on for ever, it is said who was
/// going on, and where; and of a run error what it is of, as a fifth member, if that is known. Of an annotation the
/// monitor follows whose invariant is broken, or -1. Where all wait, the fifth member is why each process that waits in a queue is not woken.
pub fn end_row(
    register: &Register<'_>,
    program: &Resolved,
    state: &State,
    end: End,
    going: u8,
) -> Result<Json, AllocError>
    requires { IsStateOf program.now state.now }
{
    let mut row = Json::new(register.alloc);
    row.open();
    match end {
        End::Over(OutcomeKind::StepLimit) | End::Over(OutcomeKind::OutputLimit) => {
            put_going(&mut row, program, state, end, going);
        }
        End::Alone(process) | End::Spins(process) => {
            put_going(&mut row, program, state, end, process);
        }
        End::Over(OutcomeKind::AllWaiting) => {
            put_members(&mut row, end);
            put_reasons(&mut row, register, program, state)?;
        }
        End::Over(kind) => {
            put_members(&mut row, end);
            put_detail(&mut row, register, program, state, kind)?;
        }
    }
    row.close();
    Ok(row)
}

// Of each process that waits in a queue `[process, who continues the queue, who could do so and waits]`, in words. Since when, and when that was in
// vain, depends on the way.
fn put_reasons(
    row: &mut Json,
    register: &Register<'_>,
    program: &Resolved,
    state: &State,
) -> Result<(), AllocError> {
    let Register { alloc, legend, .. } = *register;
    row.open();
    for reason in &reasons_in(alloc, program, legend, state)? {
        let mut continuing = String::new(alloc);
        push_continuing(alloc, legend, &mut continuing, reason)?;
        let mut callers = String::new(alloc);
        push_callers(alloc, legend, &mut callers, reason)?;
        row.open();
        row.put_plain(reason.process);
        row.put_quoted(continuing.as_str());
        row.put_quoted(callers.as_str());
        row.close();
    }
    row.close();
    Ok(())
}

// What a run error is of, if that is known.
fn put_detail(
    row: &mut Json,
    register: &Register<'_>,
    program: &Resolved,
    state: &State,
    kind: OutcomeKind,
) -> Result<(), AllocError>
    requires { IsStateOf program.now state.now }
{
    let Register { alloc, legend, .. } = *register;
    if let Some(cause) = cause_of_kind(program, state, kind) {
        let detail = cause_text(alloc, legend, cause)?;
        row.put_quoted(detail.as_str());
    }
    if let Some(violation) = violation_of_kind(alloc, legend, program, state, kind)? {
        let detail = violation_words(alloc, legend, &violation)?;
        row.put_quoted(detail.as_str());
        put_monitor(row, broken_monitor(legend, violation.annotation));
    }
    Ok(())
}

fn put_monitor(row: &mut Json, monitor: Option<u8>) {
    match monitor {
        Some(monitor) => row.put_plain(monitor),
        None => row.put_plain("-1"),
    }
}

// The monitor of an invariant, or the one that its class is a part of.
fn broken_monitor(legend: &Legend, annotation: Annotation) -> Option<u8> {
    match annotation {
        Annotation::Invariant(component, _) => legend.components.get(component)?.monitor,
        Annotation::Assertion => None,
    }
}

// An end with who goes on, and where.
fn put_going(row: &mut Json, program: &Resolved, state: &State, end: End, process: u8)
    requires { IsStateOf program.now state.now }
{
    let line = next_line(program, state, process);
    put_end(row, end_words(end), "", process, line);
}

/// Appends an end as it is told of schedules: `[kind, error, process, line]`.
pub fn put_plain_end(json: &mut Json, end: End) {
    json.open();
    put_members(json, end);
    json.close();
}

fn put_members(json: &mut Json, end: End) {
    let (error, process, line) = match end {
        End::Over(
            OutcomeKind::RunError {
                name,
                process,
                line,
            },
        ) => (error_words(name), process, line),
        End::Over(_) => ("", 0, 0),
        End::Alone(process) | End::Spins(process) => ("", process, 0),
    };
    put_end(json, end_words(end), error, process, line);
}

fn end_words(end: End) -> &'static str {
    match end {
        End::Over(kind) => kind_words(kind),
        End::Alone(_) => "alone",
        End::Spins(_) => "spins",
    }
}

fn put_end(json: &mut Json, kind: &str, error: &str, process: u8, line: u32) {
    json.put_quoted(kind);
    json.put_quoted(error);
    json.put_plain(process);
    json.put_plain(line);
}
