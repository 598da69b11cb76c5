//! Runs that end by an error or a limit, and what they display before it.

use crate::programs::{TWO_IN_A_QUEUE, WantedEnd, end_at, has_ended};
use cp_machine::{Discipline, ErrorName, Gates, Shown};
use cp_prose::Prose;
use cp_run::{Limits, OutcomeKind, RunEnd};
use std::alloc::Global;

/// A source, the steps of a stretch, a word that its run uses wholly, and how it ends, with this many times 1 displayed.
struct RunEnding {
    source: &'static str,
    steps: u32,
    word: &'static [u8],
    kind: OutcomeKind,
    ones: usize,
}

static ENDINGS: [RunEnding; 13] = [
    RunEnding {
        source: "begin end.",
        steps: 2,
        word: &[],
        kind: OutcomeKind::Finished,
        ones: 0,
    },
    RunEnding {
        source: "begin end.",
        steps: 1,
        word: &[],
        kind: OutcomeKind::StepLimit,
        ones: 0,
    },
    RunEnding {
        source: "begin cycle display(1) end end.",
        steps: 100,
        word: &[],
        kind: OutcomeKind::StepLimit,
        ones: 50,
    },
    RunEnding {
        source: "begin cycle display(1) end end.",
        steps: 2001,
        word: &[],
        kind: OutcomeKind::StepLimit,
        ones: 1000,
    },
    RunEnding {
        source: "begin cycle display(1) end end.",
        steps: 2002,
        word: &[],
        kind: OutcomeKind::OutputLimit,
        ones: 1000,
    },
    RunEnding {
        source: "begin\ndisplay(1 div 0) end.",
        steps: 1000,
        word: &[],
        kind: OutcomeKind::RunError {
            name: ErrorName::ZeroDivisor,
            process: 0,
            line: 2,
        },
        ones: 0,
    },
    RunEnding {
        source: "begin\n\ndisplay(32767 + 1) end.",
        steps: 1000,
        word: &[],
        kind: OutcomeKind::RunError {
            name: ErrorName::Overflow,
            process: 0,
            line: 3,
        },
        ones: 0,
    },
    RunEnding {
        source: "var a: set of 0..9;\nbegin\ndisplay(1);\na := [10]\nend.",
        steps: 1000,
        word: &[],
        kind: OutcomeKind::RunError {
            name: ErrorName::Range,
            process: 0,
            line: 4,
        },
        ones: 1,
    },
    RunEnding {
        source: "type p = process(n: integer); begin\ncase n of\n1: end end;\nvar a: p; begin init a(2) end.",
        steps: 1000,
        word: &[1],
        kind: OutcomeKind::RunError {
            name: ErrorName::NoCase,
            process: 1,
            line: 2,
        },
        ones: 0,
    },
    RunEnding {
        source: TWO_IN_A_QUEUE,
        steps: 1000,
        word: &[0, 0, 1, 1],
        kind: OutcomeKind::RunError {
            name: ErrorName::QueueInUse,
            process: 2,
            line: 2,
        },
        ones: 0,
    },
    RunEnding {
        source: "type m = monitor; procedure entry e; begin end; begin end; var x: m; begin x.e end.",
        steps: 1000,
        word: &[],
        kind: OutcomeKind::RunError {
            name: ErrorName::NotInit,
            process: 0,
            line: 1,
        },
        ones: 0,
    },
    RunEnding {
        source: "type c = class; begin end; var k: c; begin init k, k end.",
        steps: 1000,
        word: &[],
        kind: OutcomeKind::RunError {
            name: ErrorName::InitTwice,
            process: 0,
            line: 1,
        },
        ones: 0,
    },
    RunEnding {
        source: "type p = process; begin end; var a: p; begin init a,\na end.",
        steps: 1000,
        word: &[0],
        kind: OutcomeKind::RunError {
            name: ErrorName::InitTwice,
            process: 0,
            line: 2,
        },
        ones: 0,
    },
];

fn are_ones(output: &[Shown], count: usize) -> bool {
    let mut are_ones = output.len() == count;
    for shown in output {
        are_ones = are_ones && *shown == Shown::Integer(1);
    }
    are_ones
}

fn is_as_wanted(end: &RunEnd, ending: &RunEnding) -> bool {
    match end {
        RunEnd::Ended { outcome, used } => {
            *used == ending.word.len()
                && outcome.kind == ending.kind
                && are_ones(outcome.output.as_slice(), ending.ones)
        }
        _ => false,
    }
}

/// How the run of a word ends with stretches of so many steps; none where there is no program, or memory was refused.
fn end_within(alloc: Global, source: &str, steps: u32, word: &[u8]) -> Option<RunEnd> {
    match Limits::new(8, steps, Discipline::by_gates(Gates::First)) {
        Some(limits) => end_at(alloc, source, limits, word),
        None => None,
    }
}

fn ends_as_wanted(alloc: Global, ending: &RunEnding) -> bool {
    match end_within(alloc, ending.source, ending.steps, ending.word) {
        Some(end) => is_as_wanted(&end, ending),
        None => false,
    }
}

#[test]
fn errors_and_limits(rt: HostRuntime) {
    for ending in &ENDINGS {
        assert!(rt; ends_as_wanted(rt.alloc(), ending), "{}", ending.source);
    }
}

/// A procedure that calls the one before twice.
fn put_doubling(source: &mut Prose, number: u32) {
    let before = number.saturating_sub(1);
    source.put("procedure f");
    source.put_display(number);
    source.put("; begin f");
    source.put_display(before);
    source.put("; f");
    source.put_display(before);
    source.put(" end; ");
}

/// Whether the steps of thirty procedures, each of which calls the one before twice, come to their limit.
fn doubles_to_the_limit(alloc: Global) -> bool {
    let mut source = Prose::new(alloc);
    source.put("procedure f1; begin end; ");
    for number in 2..31u32 {
        put_doubling(&mut source, number);
    }
    source.put("begin f30 end.");
    match source.as_str() {
        Ok(source) => is_stopped(alloc, source),
        Err(_) => false,
    }
}

fn is_stopped(alloc: Global, source: &str) -> bool {
    match end_within(alloc, source, 100_000, &[]) {
        Some(end) => has_ended(&end, 0, &WantedEnd::Ended(OutcomeKind::StepLimit, &[])),
        None => false,
    }
}

#[test]
fn doubling_calls(rt: HostRuntime) {
    assert!(rt; doubles_to_the_limit(rt.alloc()));
}
