//! Programs of the worked rows, resolved, and what is asked of them by words.

ghost use Rattle.std.specs.Prelude.{◌≡◌, ◌≤◌};

use arrayvec::ArrayVec;
use cp_check::{CheckFault, Checked, check};
use cp_drops::{drop_checked, drop_program, drop_tree};
use cp_machine::{Discipline, Gates, Shown, Signals, Ticks};
use cp_resolved::resolve;
use cp_run::{Job, Limits, OutcomeKind, RunEnd, run};
use cp_slots::Resolved;
use cp_text::scan;
use cp_tree::{Tree, parse};
use std::alloc::Global;
use std::marker::Brand;
use std::sync::ledger::{Blank, Ledger};

pub const TWO_DISPLAYS: &str =
    "type p = process(n: integer); begin display(n) end; var a, b: p; begin init a(1), b(2) end.";

pub const TWO_CYCLES: &str =
    "type p = process; begin cycle display(1) end end; var a: p; begin init a; cycle display(2) end end.";

pub const DELAYED: &str =
    "type m = monitor; var q: queue; procedure entry hold; begin delay(q) end; begin end; p = process(x: m); begin x.hold end; var x: m; a: p; begin init x, a(x) end.";

pub const THREE_CALLERS: &str =
    "type m = monitor; var q: queue; procedure entry go(n: integer); begin display(n); continue(q) end; begin end; p = process(x: m; n: integer); begin x.go(n) end; var x: m; a, b, c: p; begin init x, a(x, 1), b(x, 2), c(x, 3) end.";

pub const TWO_IN_A_QUEUE: &str =
    "type m = monitor; var q: queue; procedure entry hold; begin\ndelay(q) end; begin end; p = process(x: m); begin x.hold end; var x: m; a, b: p; begin init x, a(x), b(x) end.";

pub const CONTINUED: &str =
    "type m = monitor; var q: queue; procedure entry go(n: integer); begin display(n); continue(q) end; begin end; p = process(x: m; n: integer); begin x.go(n) end; var x: m; a, b: p; begin init x, a(x, 1), b(x, 2) end.";

pub const RESUMED: &str =
    "type m = monitor; var q: queue; procedure entry hold; begin delay(q); display(1) end; procedure entry go; begin display(2); continue(q) end; procedure entry look; begin display(3) end; begin end; a = process(x: m); begin x.hold end; b = process(x: m); begin x.go end; c = process(x: m); begin x.look end; var x: m; r: a; s: b; t: c; begin init x, r(x), s(x), t(x) end.";

pub const SIGNALLED: &str =
    "type m = monitor; var q: queue; procedure entry hold; begin delay(q); display(1) end; procedure entry go; begin display(2); continue(q); display(4) end; procedure entry look; begin display(3) end; begin end; a = process(x: m); begin x.hold end; b = process(x: m); begin x.go end; c = process(x: m); begin x.look end; var x: m; r: a; s: b; t: c; begin init x, r(x), s(x), t(x) end.";

pub const BUFFER: &str =
    "type buffer = monitor; var full: boolean; slot: integer; sender, receiver: queue; procedure entry put(x: integer); begin if full then delay(sender); slot := x; full := true; continue(receiver) end; procedure entry get(var x: integer); begin if not full then delay(receiver); x := slot; full := false; continue(sender) end; begin full := false end; producer = process(b: buffer); begin b.put(7) end; consumer = process(b: buffer); var v: integer; begin b.get(v); display(v) end; var b: buffer; p: producer; c: consumer; begin init b, p(b), c(b) end.";

pub const INNER_DELAY: &str =
    "type inner = monitor; var q: queue; procedure entry hold; begin delay(q) end; procedure entry free; begin continue(q) end; begin end; outer = monitor(i: inner); procedure entry go; begin i.hold end; begin end; a = process(o: outer); begin o.go end; b = process(i: inner); begin i.free end; var i: inner; o: outer; p, r: a; s: b; begin init i, o(i), p(o), r(o), s(i) end.";

/// The discipline of the book.
pub const FIRST: Discipline = Discipline {
    gates: Gates::First,
    signals: Signals::Return,
};

pub const ANY: Discipline = Discipline {
    gates: Gates::Any,
    signals: Signals::Return,
};

pub const CONTINUES: Discipline = Discipline {
    gates: Gates::First,
    signals: Signals::Continue,
};

pub const CONTINUES_ANY: Discipline = Discipline {
    gates: Gates::Any,
    signals: Signals::Continue,
};

pub const WAITS: Discipline = Discipline {
    gates: Gates::First,
    signals: Signals::Wait,
};

/// The tree of a source; none where it is no program, or memory was refused.
pub fn tree_of(alloc: Global, source: &str) -> Option<Tree> {
    match scan(alloc, source.as_bytes()) {
        Ok(tokens) => parse(alloc, &tokens).ok(),
        Err(_) => None,
    }
}

/// The program of an accepted source; none where it is not accepted, or memory was refused.
pub fn program_of(alloc: Global, source: &str) -> Option<Resolved> {
    match check(alloc, tree_of(alloc, source)?) {
        Ok(checked) => {
            let program = resolve(alloc, &checked);
            drop_checked(checked);
            program.ok()
        }
        Err((_fault, tree)) => {
            drop_tree(tree);
            None
        }
    }
}

/// The fault that a check found, if any.
pub fn fault_of(checked: Result<Checked, (CheckFault, Tree)>) -> Option<CheckFault> {
    match checked {
        Ok(checked) => {
            drop_checked(checked);
            None
        }
        Err((fault, tree)) => {
            drop_tree(tree);
            Some(fault)
        }
    }
}

/// Limits with 1,000 steps, and no more choices than tables have.
pub fn limits_of(choices: u8, gates: Gates) -> Limits
    ensures { result.choices ≤ 20 }
{
    let Some(limits) = Limits::new(choices.min(20), 1000, Discipline::by_gates(gates)) else {
        unreachable!()
    };
    limits
}

/// How the run of a word ends; none where the word is too long, or memory was refused.
fn end_of(alloc: Global, job: &Job<'_>, word: &[u8]) -> Option<RunEnd> {
    end_counted::<Brand>(alloc, job, word, Blank::new(1))
}

fn end_counted<L: Ledger>(alloc: Global, job: &Job<'_>, word: &[u8], blank: Blank) -> Option<RunEnd>
    requires name { blank.name ≡ L.name }
    requires parts { blank.parts ≡ L.parts }
    requires one { L.parts ≡ 1 }
{
    let mut ticks: Ticks<L> = Ticks::new(blank);
    if word.len() > 20 {
        return None;
    }
    run(alloc, job, word, &mut ticks).ok()
}

/// How the run of a word of a source's program ends; none where there is no program, or memory was refused.
pub fn end_at(alloc: Global, source: &str, limits: Limits, word: &[u8]) -> Option<RunEnd> {
    match program_of(alloc, source) {
        Some(program) => {
            let end = end_of(
                alloc,
                &Job {
                    program: &program,
                    limits,
                },
                word,
            );
            drop_program(program);
            end
        }
        None => None,
    }
}

/// How a run ends that is wanted.
pub enum WantedEnd {
    /// In this way, after its whole word, with this displayed.
    Ended(OutcomeKind, &'static [Shown]),
    /// By the want of a choice among these processes.
    Wants(&'static [u8]),
    /// At this number of its word, which may not be chosen.
    NotReady(usize),
}

/// Whether the run of a word of this length ended as is wanted.
pub fn has_ended(end: &RunEnd, length: usize, wanted: &WantedEnd) -> bool {
    match (end, wanted) {
        (RunEnd::Ended { outcome, used }, WantedEnd::Ended(kind, output)) => {
            *used == length && outcome.kind == *kind && outcome.output.as_slice() == *output
        }
        (RunEnd::Wants { ready }, WantedEnd::Wants(numbers)) => ready.as_slice() == *numbers,
        (RunEnd::NotReady { place }, WantedEnd::NotReady(number)) => *place == *number,
        _ => false,
    }
}

/// The numbers of a word as it is printed: one digit each, joined by periods.
pub fn numbers_of(word: &str) -> ArrayVec<u8, 20> {
    let mut numbers = ArrayVec::new();
    for byte in word.as_bytes() {
        if byte.is_ascii_digit() {
            let _ = numbers.try_push(*byte - b'0');
        }
    }
    numbers
}
