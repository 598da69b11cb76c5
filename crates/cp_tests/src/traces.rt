//! Traces: their lines, with the holder of each monitor, and how they end.

ghost use Rattle.std.specs.Prelude.{◌≡◌};

use crate::programs::{
    BUFFER, CONTINUED, CONTINUES, FIRST, INNER_DELAY, SIGNALLED, THREE_CALLERS, TWO_DISPLAYS,
    WAITS, WantedEnd, has_ended, limits_of, numbers_of, program_of,
};
use cp_drops::drop_program;
use cp_machine::{Discipline, Gates, Kernel, Shown, Ticks};
use cp_run::{Job, Limits, OutcomeKind, RunEnd, TraceEvent, TraceLine, trace};
use std::alloc::Global;
use std::marker::Brand;
use std::sync::ledger::{Blank, Ledger};

/// A trace, and how it ends.
type Trace = (Vec<TraceLine>, RunEnd);

/// The trace of a word; none where the word is too long, or memory was refused.
fn trace_of(alloc: Global, job: &Job<'_>, word: &[u8]) -> Option<Trace> {
    trace_counted::<Brand>(alloc, job, word, Blank::new(1))
}

fn trace_counted<L: Ledger>(
    alloc: Global,
    job: &Job<'_>,
    word: &[u8],
    blank: Blank,
) -> Option<Trace>
    requires name { blank.name ≡ L.name }
    requires parts { blank.parts ≡ L.parts }
    requires one { L.parts ≡ 1 }
{
    let mut ticks: Ticks<L> = Ticks::new(blank);
    if word.len() > 20 {
        return None;
    }
    trace(alloc, job, word, &mut ticks).ok()
}

/// The trace of a word of a source's program; none where there is no program, or memory was refused.
fn trace_at(alloc: Global, source: &str, limits: Limits, word: &[u8]) -> Option<Trace> {
    match program_of(alloc, source) {
        Some(program) => {
            let traced = trace_of(
                alloc,
                &Job {
                    program: &program,
                    limits,
                },
                word,
            );
            drop_program(program);
            traced
        }
        None => None,
    }
}

/// A process, what it did, and who is inside each monitor then.
type Told = (u8, TraceEvent, &'static [Option<u8>]);

const START: TraceEvent = TraceEvent::Kernel(Kernel::StartProcess);

const ENTER: TraceEvent = TraceEvent::Kernel(Kernel::Enter);

const LEAVE: TraceEvent = TraceEvent::Kernel(Kernel::Leave);

const DELAY: TraceEvent = TraceEvent::Kernel(Kernel::Delay);

const CONTINUE: TraceEvent = TraceEvent::Kernel(Kernel::Continue);

const DISPLAY: TraceEvent = TraceEvent::Kernel(Kernel::Display);

const END: TraceEvent = TraceEvent::End;

/// A program with a word, the lines of its trace, and how it ends.
struct Traced {
    source: &'static str,
    choices: u8,
    discipline: Discipline,
    word: &'static str,
    lines: &'static [Told],
    end: WantedEnd,
}

static TRACES: [Traced; 7] = [
    Traced {
        source: BUFFER,
        choices: 8,
        discipline: FIRST,
        word: "0.0.2.2.1",
        lines: &[
            (0, START, &[None]),
            (0, START, &[None]),
            (0, END, &[None]),
            (2, ENTER, &[Some(2)]),
            (2, DELAY, &[None]),
            (1, ENTER, &[Some(1)]),
            (1, CONTINUE, &[Some(2)]),
            (1, END, &[Some(2)]),
            (2, CONTINUE, &[None]),
            (2, DISPLAY, &[None]),
            (2, END, &[None]),
        ],
        end: WantedEnd::Ended(OutcomeKind::Finished, &[Shown::Integer(7)]),
    },
    Traced {
        source: CONTINUED,
        choices: 8,
        discipline: FIRST,
        word: "0.0.1.2.2.1",
        lines: &[
            (0, START, &[None]),
            (0, START, &[None]),
            (0, END, &[None]),
            (1, ENTER, &[Some(1)]),
            (2, ENTER, &[Some(1)]),
            (1, DISPLAY, &[Some(1)]),
            (1, CONTINUE, &[Some(2)]),
            (2, DISPLAY, &[Some(2)]),
            (1, END, &[Some(2)]),
            (2, CONTINUE, &[None]),
            (2, END, &[None]),
        ],
        end: WantedEnd::Ended(
            OutcomeKind::Finished,
            &[Shown::Integer(1), Shown::Integer(2)],
        ),
    },
    // The first holder is that of the inner monitor.
    Traced {
        source: INNER_DELAY,
        choices: 11,
        discipline: FIRST,
        word: "0.0.0.1.1.1.2.1.1.3.1",
        lines: &[
            (0, START, &[None, None]),
            (0, START, &[None, None]),
            (0, START, &[None, None]),
            (0, END, &[None, None]),
            (1, ENTER, &[None, Some(1)]),
            (1, ENTER, &[Some(1), Some(1)]),
            (1, DELAY, &[None, Some(1)]),
            (2, ENTER, &[None, Some(1)]),
            (3, ENTER, &[Some(3), Some(1)]),
            (3, CONTINUE, &[Some(1), Some(1)]),
            (1, LEAVE, &[None, Some(1)]),
            (1, LEAVE, &[None, Some(2)]),
            (3, END, &[None, Some(2)]),
            (1, END, &[None, Some(2)]),
            (2, ENTER, &[Some(2), Some(2)]),
            (2, DELAY, &[None, Some(2)]),
        ],
        end: WantedEnd::Ended(OutcomeKind::AllWaiting, &[]),
    },
    // Who continues goes on, and who was resumed comes to the end of the line; or the other goes on, and it comes to the front.
    Traced {
        source: SIGNALLED,
        choices: 11,
        discipline: CONTINUES,
        word: "0.0.0.1.1.2.3.2.1.1.1",
        lines: &[
            (0, START, &[None]),
            (0, START, &[None]),
            (0, START, &[None]),
            (0, END, &[None]),
            (1, ENTER, &[Some(1)]),
            (1, DELAY, &[None]),
            (2, ENTER, &[Some(2)]),
            (3, ENTER, &[Some(2)]),
            (2, DISPLAY, &[Some(2)]),
            (2, CONTINUE, &[Some(2)]),
            (2, DISPLAY, &[Some(2)]),
            (2, LEAVE, &[Some(3)]),
            (2, END, &[Some(3)]),
            (3, DISPLAY, &[Some(3)]),
            (3, LEAVE, &[Some(1)]),
            (1, DISPLAY, &[Some(1)]),
            (1, LEAVE, &[None]),
            (1, END, &[None]),
            (3, END, &[None]),
        ],
        end: WantedEnd::Ended(
            OutcomeKind::Finished,
            &[
                Shown::Integer(2),
                Shown::Integer(4),
                Shown::Integer(3),
                Shown::Integer(1),
            ],
        ),
    },
    Traced {
        source: SIGNALLED,
        choices: 9,
        discipline: WAITS,
        word: "0.0.0.1.1.2.3.1.2",
        lines: &[
            (0, START, &[None]),
            (0, START, &[None]),
            (0, START, &[None]),
            (0, END, &[None]),
            (1, ENTER, &[Some(1)]),
            (1, DELAY, &[None]),
            (2, ENTER, &[Some(2)]),
            (3, ENTER, &[Some(2)]),
            (2, DISPLAY, &[Some(2)]),
            (2, CONTINUE, &[Some(1)]),
            (1, DISPLAY, &[Some(1)]),
            (1, LEAVE, &[Some(2)]),
            (1, END, &[Some(2)]),
            (2, DISPLAY, &[Some(2)]),
            (2, LEAVE, &[Some(3)]),
            (2, END, &[Some(3)]),
            (3, DISPLAY, &[Some(3)]),
            (3, LEAVE, &[None]),
            (3, END, &[None]),
        ],
        end: WantedEnd::Ended(
            OutcomeKind::Finished,
            &[
                Shown::Integer(2),
                Shown::Integer(1),
                Shown::Integer(4),
                Shown::Integer(3),
            ],
        ),
    },
    // A trace stops where its word is used up, and where a number may not be chosen.
    Traced {
        source: TWO_DISPLAYS,
        choices: 8,
        discipline: FIRST,
        word: "none",
        lines: &[(0, START, &[])],
        end: WantedEnd::Wants(&[0, 1]),
    },
    Traced {
        source: TWO_DISPLAYS,
        choices: 8,
        discipline: FIRST,
        word: "2",
        lines: &[(0, START, &[])],
        end: WantedEnd::NotReady(0),
    },
];

fn is_told(line: &TraceLine, told: &Told) -> bool {
    line.process == told.0 && line.event == told.1 && line.holders.as_slice() == told.2
}

fn are_told(lines: &[TraceLine], told: &[Told]) -> bool {
    let mut are_told = lines.len() == told.len();
    for (line, told) in lines.iter().zip(told) {
        are_told = are_told && is_told(line, told);
    }
    are_told
}

/// Whether these are the lines of the first of `TRACES`.
pub fn is_first_trace(lines: &[TraceLine]) -> bool {
    are_told(lines, TRACES[0].lines)
}

/// Whether a run has the trace that is told, and ends so.
fn is_traced(alloc: Global, traced: &Traced) -> bool {
    let word = numbers_of(traced.word);
    let Some(limits) = Limits::new(traced.choices, 1000, traced.discipline) else {
        return false;
    };
    match trace_at(alloc, traced.source, limits, word.as_slice()) {
        Some((lines, end)) => {
            are_told(&lines, traced.lines) && has_ended(&end, word.len(), &traced.end)
        }
        None => false,
    }
}

#[test]
fn worked_traces(rt: HostRuntime) {
    for traced in &TRACES {
        assert!(rt; is_traced(rt.alloc(), traced), "{}", traced.word);
    }
}

/// A word, and the process that it lets in at a gate.
struct GateWord {
    word: &'static str,
    process: u8,
}

static ADMISSIONS: [GateWord; 2] = [
    GateWord {
        word: "0.0.0.1.2.3.2.2.2.3.3.1.2",
        process: 2,
    },
    GateWord {
        word: "0.0.0.1.2.3.3.3.3.2.2.1.2",
        process: 3,
    },
];

/// Whether one line tells of an admission, which is of this process and lets it in.
fn is_admitted_once(lines: &[TraceLine], process: u8) -> bool {
    let holders = [Some(process)];
    let mut count = 0usize;
    let mut is_right = true;
    for line in lines {
        if line.event == TraceEvent::Admit {
            count = count.saturating_add(1);
            is_right = line.process == process && line.holders.as_slice() == holders.as_slice();
        }
    }
    count == 1 && is_right
}

/// Whether one line of the trace of a word tells of an admission under the gates Any, of this process.
fn admits_once(alloc: Global, admission: &GateWord) -> bool {
    let word = numbers_of(admission.word);
    let limits = limits_of(13, Gates::Any);
    match trace_at(alloc, THREE_CALLERS, limits, word.as_slice()) {
        Some((lines, _end)) => is_admitted_once(&lines, admission.process),
        None => false,
    }
}

/// Where the gate wants a choice, one line tells of it.
#[test]
fn one_line_of_an_admission(rt: HostRuntime) {
    for admission in &ADMISSIONS {
        assert!(rt; admits_once(rt.alloc(), admission), "{}", admission.word);
    }
}
