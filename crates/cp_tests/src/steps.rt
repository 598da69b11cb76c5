//! Steps of process 0 alone: how many succeed, the last event, and what is displayed.

ghost use Rattle.std.specs.Prelude.{◌≡◌};
ghost use Rattle.cp_machine.specs.System.{IsStateOf};

use crate::programs::{limits_of, program_of};
use cp_drops::drop_program;
use cp_machine::{ErrorName, Event, Gates, RunError, Shown, State, Ticks, step};
use cp_run::{Job, may};
use std::alloc::{AllocError, Global};
use std::marker::Brand;
use std::sync::ledger::{Blank, Ledger};

/// How many steps of a process succeed, and the last event. Before each step a copy of the state is made and dropped, or memory for it
/// is refused.
#[derive(Clone, Copy)]
struct Done {
    steps: u32,
    last: Event,
    refused_copies: u32,
}

/// What process 0 does alone, and where the state is then.
#[derive(Drop)]
pub struct Alone {
    done: Done,
    state: State,
}

impl Alone {
    pub fn refused_copies(&self) -> u32 {
        self.done.refused_copies
    }
}

/// One step of process 0, where it is ready and nothing is pending.
fn step_of_first<L: Ledger>(job: &Job<'_>, state: &mut State, ticks: &mut Ticks<L>) -> Option<Event>
    requires { IsStateOf job.now.program.now state.old }
    ensures { IsStateOf job.now.program.now state.new }
{
    if state.pending().is_some() {
        return None;
    }
    if !may(job, state, 0) {
        return None;
    }
    Some(step(job.program, state, 0, ticks))
}

fn is_over(event: Event) -> bool {
    matches!(event, Event::Ended | Event::Fault(_) | Event::OutputFull)
}

/// What process 0 of a program does alone.
pub fn step_alone<L: Ledger>(
    alloc: Global,
    job: &Job<'_>,
    blank: Blank,
) -> Result<Alone, AllocError>
    requires name { blank.name ≡ L.name }
    requires parts { blank.parts ≡ L.parts }
    requires one { L.parts ≡ 1 }
{
    let mut ticks: Ticks<L> = Ticks::new(blank);
    let mut state = State::start(alloc, job.program, job.limits.discipline)?;
    let done = step_to_the_end(alloc, job, &mut state, &mut ticks);
    Ok(Alone { done, state })
}

/// The steps of process 0 from a state on.
fn step_to_the_end<L: Ledger>(
    alloc: Global,
    job: &Job<'_>,
    state: &mut State,
    ticks: &mut Ticks<L>,
) -> Done
    requires { IsStateOf job.now.program.now state.old }
    ensures { IsStateOf job.now.program.now state.new }
{
    let mut done = Done {
        steps: 0,
        last: Event::Local,
        refused_copies: 0,
    };
    for turn in 0..1000u32 {
        if state.copy(alloc).is_err() {
            done.refused_copies = done.refused_copies.saturating_add(1);
        }
        let Some(event) = step_of_first(job, state, ticks) else {
            return done;
        };
        done.last = event;
        if !matches!(event, Event::Fault(_) | Event::OutputFull) {
            done.steps = turn + 1;
        }
        if is_over(event) {
            return done;
        }
    }
    done
}

/// What process 0 of a source's program does alone; none where there is no program, or memory was refused.
fn what_is_done_alone(alloc: Global, source: &str) -> Option<Alone> {
    match program_of(alloc, source) {
        Some(program) => {
            let limits = limits_of(8, Gates::First);
            let alone = step_alone::<Brand>(
                alloc,
                &Job {
                    program: &program,
                    limits,
                },
                Blank::new(1),
            );
            drop_program(program);
            alone.ok()
        }
        None => None,
    }
}

/// A source, how many steps of process 0 succeed, its last event, and what is displayed.
pub struct StepRow {
    pub source: &'static str,
    steps: u32,
    last: LastStep,
    output: &'static [Shown],
}

impl StepRow {
    pub fn tells_of(&self, alone: &Alone) -> bool {
        alone.done.steps == self.steps
            && alone.done.last == self.last.event()
            && alone.state.output() == self.output
    }
}

/// The last event of process 0: this one, or its run error on this line.
pub enum LastStep {
    Event(Event),
    Error(ErrorName, u32),
}

impl LastStep {
    fn event(&self) -> Event {
        match self {
            LastStep::Event(event) => *event,
            LastStep::Error(name, line) => Event::Fault(RunError {
                name: *name,
                process: 0,
                line: *line,
            }),
        }
    }
}

static STEPS: [StepRow; 19] = [
    StepRow {
        source: "begin end.",
        steps: 2,
        last: LastStep::Event(Event::Ended),
        output: &[],
    },
    StepRow {
        source: "var x: integer; begin x := 1; display(x) end.",
        steps: 3,
        last: LastStep::Event(Event::Ended),
        output: &[Shown::Integer(1)],
    },
    StepRow {
        source: "var i, x: integer; begin for i := 1 to 2 do x := i end.",
        steps: 6,
        last: LastStep::Event(Event::Ended),
        output: &[],
    },
    StepRow {
        source: "procedure f; begin end; begin f end.",
        steps: 4,
        last: LastStep::Event(Event::Ended),
        output: &[],
    },
    StepRow {
        source: "var a, b: boolean; x: integer; begin a := true; if a then if b then x := 1 else x := 2; display(x) end.",
        steps: 6,
        last: LastStep::Event(Event::Ended),
        output: &[Shown::Integer(2)],
    },
    StepRow {
        source: "type t = (red, green); var e: t; begin e := succ(red); display(chr(65)); display(e); display(true); display(-7 div 2); display(-7 mod 2); display('(:10:)') end.",
        steps: 8,
        last: LastStep::Event(Event::Ended),
        output: &[
            Shown::Char(65),
            Shown::Constant(1),
            Shown::Truth(true),
            Shown::Integer(-3),
            Shown::Integer(-1),
            Shown::Char(10),
        ],
    },
    StepRow {
        source: "var n: integer; function f: integer; begin n := n + 1; f := n end; begin display(n + f) end.",
        steps: 6,
        last: LastStep::Event(Event::Ended),
        output: &[Shown::Integer(2)],
    },
    StepRow {
        source: "var i: 1..3; begin for i := 1 to 3 do display(i) end.",
        steps: 8,
        last: LastStep::Event(Event::Ended),
        output: &[Shown::Integer(1), Shown::Integer(2), Shown::Integer(3)],
    },
    StepRow {
        source: "begin display(1 div 0) end.",
        steps: 0,
        last: LastStep::Error(ErrorName::ZeroDivisor, 1),
        output: &[],
    },
    StepRow {
        source: "begin display(32767 + 1) end.",
        steps: 0,
        last: LastStep::Error(ErrorName::Overflow, 1),
        output: &[],
    },
    StepRow {
        source: "var i: integer; a: array [1..2] of integer; begin a[i] := 1 div 0 end.",
        steps: 0,
        last: LastStep::Error(ErrorName::ZeroDivisor, 1),
        output: &[],
    },
    StepRow {
        source: "type c = class; begin end; var k: c; begin init k, k end.",
        steps: 3,
        last: LastStep::Error(ErrorName::InitTwice, 1),
        output: &[],
    },
    StepRow {
        source: "var a: set of 0..9;\nbegin\n;\na := [10]\nend.",
        steps: 1,
        last: LastStep::Error(ErrorName::Range, 4),
        output: &[],
    },
    StepRow {
        source: "var a: set of 0..9; begin a := [10, 1 div 0] end.",
        steps: 0,
        last: LastStep::Error(ErrorName::ZeroDivisor, 1),
        output: &[],
    },
    StepRow {
        source: "var x: integer;\nbegin x := 2;\ncase x of\n1: end end.",
        steps: 1,
        last: LastStep::Error(ErrorName::NoCase, 3),
        output: &[],
    },
    StepRow {
        source: "type m = monitor; procedure entry e; begin end; begin end;\nvar x: m;\nbegin x.e end.",
        steps: 0,
        last: LastStep::Error(ErrorName::NotInit, 3),
        output: &[],
    },
    StepRow {
        source: "var x: integer;\nbegin\nrepeat\nx := x + 1\nuntil\n1 div (x - 1) = 0 end.",
        steps: 2,
        last: LastStep::Error(ErrorName::ZeroDivisor, 6),
        output: &[],
    },
    StepRow {
        source: "var i: 1..3;\nbegin\nfor i := 2 to\n4 do\ndisplay(i) end.",
        steps: 4,
        last: LastStep::Error(ErrorName::Range, 3),
        output: &[Shown::Integer(2), Shown::Integer(3)],
    },
    StepRow {
        source: "begin cycle end end.",
        steps: 1000,
        last: LastStep::Event(Event::Local),
        output: &[],
    },
];

/// Each item that a process meets without a monitor; its statements take 1, 1, 1, 1, 2, 2, 2, 3, 3, 5, 3, 3, 3 and 1 steps.
pub static LAST_STEPS: StepRow = StepRow {
    source: "type c = class; procedure entry e; begin end; begin end; var k: c; x, i: integer; a, b: array [1..2] of integer; s: set of 0..9; procedure f; begin end; begin ; x := 1; b := a; s := [1]; begin x := 2 end; if x = 2 then x := 3 else x := 4; case x of 3: x := 5; 4: end; while x > 4 do x := x - 1; repeat x := x + 1 until x = 5; for i := 1 to 2 do x := i; f; init k; k.e; display(x) end.",
    steps: 32,
    last: LastStep::Event(Event::Ended),
    output: &[Shown::Integer(2)],
};

fn is_told(alloc: Global, row: &StepRow) -> bool {
    match what_is_done_alone(alloc, row.source) {
        Some(alone) => row.tells_of(&alone),
        None => false,
    }
}

#[test]
fn steps_of_one_process(rt: HostRuntime) {
    for row in &STEPS {
        assert!(rt; is_told(rt.alloc(), row), "{}", row.source);
    }
    assert!(rt; is_told(rt.alloc(), &LAST_STEPS));
}
