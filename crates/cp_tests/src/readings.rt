//! Readings of a state after the choices of a word, where each gate wants a choice, and the length of its key.

ghost use Rattle.std.specs.Prelude.{◌≡◌};
ghost use Rattle.cp_machine.specs.System.{machine_of, opening, IsStateOf};

use crate::programs::{THREE_CALLERS, limits_of, program_of};
use cp_drops::drop_program;
use cp_key::{freeze_core, most_bytes};
use cp_machine::{Gates, State, Ticks, Unwatched};
use cp_run::{Halt, Job, choose, may, open};
use cp_slots::Resolved;
use std::alloc::Global;
use std::marker::Brand;
use std::sync::ledger::{Blank, Ledger};

/// The state after the choices of a word, under the gates Any; none where they may not be made, or memory was refused.
fn state_at(alloc: Global, program: &Resolved, word: &[u8]) -> Option<State> {
    state_after::<Brand, Brand>(alloc, program, word, Blank::new(1), Blank::new(1))
}

fn state_after<S: Ledger, C: Ledger>(
    alloc: Global,
    program: &Resolved,
    word: &[u8],
    blank: Blank,
    other: Blank,
) -> Option<State>
    requires name { blank.name ≡ S.name }
    requires parts { (blank.parts ≡ S.parts) × (S.parts ≡ 1) }
    requires other_name { other.name ≡ C.name }
    requires other_parts { (other.parts ≡ C.parts) × (C.parts ≡ 1) }
{
    let limits = limits_of(13, Gates::Any);
    let mut steps: Ticks<S> = Ticks::new(blank);
    let mut calls: Ticks<C> = Ticks::new(other);
    match State::start(alloc, program, limits.discipline) {
        Ok(mut state) => {
            if choose_all(
                &Job { program, limits },
                &mut state,
                word,
                &mut steps,
                &mut calls,
            ) {
                Some(state)
            } else {
                None
            }
        }
        Err(_) => None,
    }
}

/// Whether the choices of a word can be made, from the opening state on.
fn choose_all<S: Ledger, C: Ledger>(
    job: &Job<'_>,
    state: &mut State,
    word: &[u8],
    steps: &mut Ticks<S>,
    calls: &mut Ticks<C>,
) -> bool
    requires own { IsStateOf job.now.program.now state.old }
    requires start { machine_of state.old ≡ opening job.now.program.now job.now.limits.discipline }
{
    let mut halt = open(job, state, steps, calls);
    for process in word {
        if !matches!(halt, Halt::Choice) {
            return false;
        }
        if !may(job, state, *process) {
            return false;
        }
        halt = choose(job, state, *process, &mut Unwatched, steps, calls);
    }
    true
}

/// A word, and what is read off the state after it, of monitor 0.
struct ReadingRow {
    word: &'static [u8],
    pending: Option<u8>,
    holder: Option<u8>,
    ready: &'static [u8],
    waiting: &'static [u8],
    waits: bool,
}

fn holder_of(state: &State) -> Option<u8> {
    if state.guards.is_empty() {
        None
    } else {
        state.holder(0)
    }
}

impl ReadingRow {
    fn tells(&self, state: &State) -> bool {
        state.pending() == self.pending
            && holder_of(state) == self.holder
            && state.ready().as_slice() == self.ready
            && state.waiting(0).as_slice() == self.waiting
            && state.waits() == self.waits
    }
}

static READING_ROWS: [ReadingRow; 4] = [
    ReadingRow {
        word: &[],
        pending: None,
        holder: None,
        ready: &[0, 1],
        waiting: &[],
        waits: false,
    },
    ReadingRow {
        word: &[0, 0, 0, 1, 2],
        pending: None,
        holder: Some(1),
        ready: &[1, 3],
        waiting: &[2],
        waits: true,
    },
    ReadingRow {
        word: &[0, 0, 0, 1, 2, 3],
        pending: Some(0),
        holder: None,
        ready: &[1],
        waiting: &[2, 3],
        waits: true,
    },
    ReadingRow {
        word: &[0, 0, 0, 1, 2, 3, 3],
        pending: None,
        holder: Some(3),
        ready: &[1, 3],
        waiting: &[2],
        waits: true,
    },
];

fn is_read(alloc: Global, row: &ReadingRow) -> bool {
    match program_of(alloc, THREE_CALLERS) {
        Some(program) => {
            let state = state_at(alloc, &program, row.word);
            drop_program(program);
            match state {
                Some(state) => row.tells(&state),
                None => false,
            }
        }
        None => false,
    }
}

#[test]
fn readings_of_a_state(rt: HostRuntime) {
    for (number, row) in READING_ROWS.iter().enumerate() {
        assert!(rt; is_read(rt.alloc(), row), "{number}");
    }
}

/// Numbers of more than one byte in a monitor, in processes and in arguments, and calls inside of calls.
const LONG_NUMBERS: &str =
    "type m = monitor; var q: queue; t: array [1..3] of integer; procedure inner(var v: integer; n: integer); begin v := n; t[1] := n; display(n); if n < 0 then delay(q) end; procedure entry go(var v: integer; n: integer); begin inner(v, n) end; begin t[1] := -1; t[2] := -300; t[3] := 300 end; p = process(x: m; n: integer); var v, w: integer; begin for w := 1 to 2 do x.go(v, n) end; var x: m; a, b: p; begin init x, a(x, -1), b(x, 32767) end.";

/// A source, and a word.
struct KeyRow {
    source: &'static str,
    word: &'static [u8],
}

static KEY_ROWS: [KeyRow; 3] = [
    KeyRow {
        source: LONG_NUMBERS,
        word: &[0, 0, 1, 1, 1],
    },
    KeyRow {
        source: LONG_NUMBERS,
        word: &[0, 0, 2, 2, 2, 2, 1],
    },
    KeyRow {
        source: THREE_CALLERS,
        word: &[0, 0, 0, 1, 2, 3, 3],
    },
];

/// Whether the key of a state fits its room.
fn fits_its_room(alloc: Global, state: &State) -> bool {
    let mut key = Vec::new(alloc);
    freeze_core(state, &mut key).is_ok() && key.len() <= most_bytes(state)
}

/// Whether the key of the state after the choices of a word fits its room.
fn has_room(alloc: Global, program: &Resolved, word: &[u8]) -> bool {
    match state_at(alloc, program, word) {
        Some(state) => fits_its_room(alloc, &state),
        None => false,
    }
}

/// Whether the keys of the states after the beginnings of a word fit their rooms.
fn have_room(alloc: Global, program: &Resolved, word: &[u8]) -> bool {
    let mut have_room = true;
    for count in 0..word.len() + 1 {
        have_room = have_room && has_room(alloc, program, &word[..count]);
    }
    have_room
}

fn has_room_for_each_key(alloc: Global, row: &KeyRow) -> bool {
    match program_of(alloc, row.source) {
        Some(program) => {
            let have_room = have_room(alloc, &program, row.word);
            drop_program(program);
            have_room
        }
        None => false,
    }
}

/// No clause says it: a key that outgrew its room would take memory in the middle of a walk.
#[test]
fn room_for_each_key(rt: HostRuntime) {
    for (number, row) in KEY_ROWS.iter().enumerate() {
        assert!(rt; has_room_for_each_key(rt.alloc(), row), "{number}");
    }
}
