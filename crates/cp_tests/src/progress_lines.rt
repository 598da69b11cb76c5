//! When the line that tells how far work has come is written, what it says, and that it goes.

use cp_progress::{ObserveProgress, ObserveWork, Progress, ProgressLine, WalkProgress};
use std::alloc::Global;
use std::cell::Cell;
use std::io::{Error, ErrorKind, Result as IoResult, Write};
use std::time::{Clock, Duration};

/// Shows a hundred milliseconds more each time that it is read.
#[derive(Drop)]
struct TickingClock {
    reads: Cell<u32>,
}

impl Clock for TickingClock {
    fn monotonic(&self) -> IoResult<Duration> {
        let reads = self.reads.get().saturating_add(1);
        self.reads.set(reads);
        Ok(Duration::from_millis(7_000 + u64::from(reads) * 100))
    }

    fn since_1970(&self) -> IoResult<Duration> {
        self.monotonic()
    }
}

/// Keeps what is written, or refuses it.
#[derive(Drop)]
struct FakeTerminal {
    taken: Vec<u8>,
    is_broken: bool,
}

impl FakeTerminal {
    fn new(alloc: Global, is_broken: bool) -> FakeTerminal {
        FakeTerminal {
            taken: Vec::new(alloc),
            is_broken,
        }
    }
}

impl Write for FakeTerminal {
    fn write(&mut self, bytes: &[u8]) -> IoResult<usize> {
        if self.is_broken {
            return Err(Error::from(ErrorKind::Other));
        }
        match self.taken.extend_from_slice(bytes) {
            Ok(()) => Ok(bytes.len()),
            Err(_) => Err(Error::from(ErrorKind::OutOfMemory)),
        }
    }

    fn flush(&mut self) -> IoResult<()> {
        Ok(())
    }
}

// What a terminal is told of so many layers, of which each takes a hundred milliseconds.
fn lines_told(alloc: Global, layers: u32, is_broken: bool) -> FakeTerminal {
    let clock = TickingClock {
        reads: Cell::new(0),
    };
    let mut line = ProgressLine::new(
        alloc,
        clock,
        Some(FakeTerminal::new(alloc, is_broken)),
        "outcomes",
    );
    line.observe_begin();
    for layer in 0..layers {
        line.observe_progress(Progress {
            choices: layer,
            states: if layer < 21 { 1_000_000 } else { 7 },
            outcomes: Some(3),
        });
    }
    line.observe_end();
    line.observe_end();
    line.into_terminal()
        .unwrap_or(FakeTerminal::new(alloc, false))
}

#[test]
fn short_work_tells_nothing(rt: HostRuntime) {
    assert!(rt; lines_told(rt.alloc(), 0, false).taken.is_empty());
    assert!(rt; lines_told(rt.alloc(), 19, false).taken.is_empty());
}

#[test]
fn the_line_comes_and_goes(rt: HostRuntime) {
    let terminal = lines_told(rt.alloc(), 20, false);
    let wanted =
        "\rchoices done: 19, states: 1000000, outcomes so far: 3\r                                                     \r";
    assert!(rt; terminal.taken.as_slice() == wanted.as_bytes());
}

#[test]
fn a_shorter_line_hides_a_longer_one(rt: HostRuntime) {
    let terminal = lines_told(rt.alloc(), 24, false);
    let wanted =
        "\rchoices done: 19, states: 1000000, outcomes so far: 3\rchoices done: 22, states: 7, outcomes so far: 3      \r                                               \r";
    assert!(rt; terminal.taken.as_slice() == wanted.as_bytes());
}

#[test]
fn a_broken_terminal_changes_nothing(rt: HostRuntime) {
    assert!(rt; lines_told(rt.alloc(), 24, true).taken.is_empty());
}

#[test]
fn without_a_terminal_nothing_is_told(rt: HostRuntime) {
    let clock = TickingClock {
        reads: Cell::new(0),
    };
    let nowhere: Option<FakeTerminal> = None;
    let mut line = ProgressLine::new(rt.alloc(), clock, nowhere, "ends");
    line.observe_begin();
    for choices in 0..30 {
        line.observe_progress(Progress {
            choices,
            states: 7,
            outcomes: Some(3),
        });
    }
    line.observe_end();
    assert!(rt; line.into_terminal().is_none());
}

#[test]
fn time_before_the_work_does_not_count(rt: HostRuntime) {
    let clock = TickingClock {
        reads: Cell::new(0),
    };
    let terminal = FakeTerminal::new(rt.alloc(), false);
    let mut line = ProgressLine::new(rt.alloc(), clock, Some(terminal), "ends");
    for choices in 0..30 {
        line.observe_progress(Progress {
            choices,
            states: 7,
            outcomes: Some(3),
        });
    }
    line.observe_end();
    let taken = line.into_terminal().map(|terminal| terminal.taken.len());
    assert!(rt; taken == Some(0));
}

#[test]
fn what_is_not_looked_for_is_not_told(rt: HostRuntime) {
    let clock = TickingClock {
        reads: Cell::new(0),
    };
    let terminal = FakeTerminal::new(rt.alloc(), false);
    let mut line = ProgressLine::new(rt.alloc(), clock, Some(terminal), "outcomes");
    line.observe_begin();
    for _layer in 0..20 {
        line.observe_progress(Progress {
            choices: 4,
            states: 7,
            outcomes: None,
        });
    }
    let terminal = line
        .into_terminal()
        .unwrap_or(FakeTerminal::new(rt.alloc(), false));
    assert!(rt; terminal.taken.as_slice() == "\rchoices done: 4, states: 7".as_bytes());
}

// What a terminal is told last of a walk from so many beginnings.
fn terminal_of_walk(alloc: Global, beginnings: u32) -> FakeTerminal {
    let clock = TickingClock {
        reads: Cell::new(0),
    };
    let terminal = FakeTerminal::new(alloc, false);
    let mut line = ProgressLine::new(alloc, clock, Some(terminal), "outcomes");
    line.observe_begin();
    for done in 0..20 {
        line.observe_walk(WalkProgress {
            schedules: 1_200,
            done,
            beginnings,
        });
    }
    line.into_terminal()
        .unwrap_or(FakeTerminal::new(alloc, false))
}

#[test]
fn a_walk_tells_its_schedules(rt: HostRuntime) {
    let terminal = terminal_of_walk(rt.alloc(), 1);
    assert!(rt; terminal.taken.as_slice() == "\rschedules so far: 1200".as_bytes());
}

#[test]
fn a_walk_from_beginnings_tells_how_many_are_done(rt: HostRuntime) {
    let terminal = terminal_of_walk(rt.alloc(), 40);
    let wanted = "\rschedules so far: 1200, beginnings done: 19 of 40";
    assert!(rt; terminal.taken.as_slice() == wanted.as_bytes());
}
