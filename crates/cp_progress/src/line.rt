//! What long work is at, told on one line of a terminal that is taken away at the end.

ghost use Rattle.std.specs.Duration.{as_nanos};
ghost use Rattle.std.specs.Prelude.{◌≡◌, ◌<◌, false, IfSome};

use crate::{ObserveProgress, ObserveWork, Progress, WalkProgress};
use std::alloc::{AllocError, Global};
use std::io::{IsTerminal, Write};
use std::time::{Clock, Duration};

/// A line of a terminal that tells what work of more than two seconds is at. Where a write or the clock fails, the line is not written, and nothing
/// else comes of it.
#[derive(Drop)]
pub struct ProgressLine<C: Drop, W: Drop> {
    alloc: Global,
    clock: C,
    // Without one nothing is ever written.
    terminal: Option<W>,
    // What is counted beside choices and states.
    counted: &'static str,
    began: Option<Duration>,
    written: Option<Duration>,
    width: usize,
}

impl<C: Clock + Drop, W: Write + Drop> ProgressLine<C, W> {
    /// No work has begun.
    pub fn new(
        alloc: Global,
        clock: C,
        terminal: Option<W>,
        counted: &'static str,
    ) -> ProgressLine<C, W> {
        ProgressLine {
            alloc,
            clock,
            terminal,
            counted,
            began: None,
            written: None,
            width: 0,
        }
    }

    /// Gives the terminal back.
    pub fn into_terminal(self) -> Option<W> {
        self.terminal
    }

    // The time, if the line is to be written now.
    fn time_to_write(&self) -> Option<Duration> {
        let Some(began) = self.began else {
            return None;
        };
        let Ok(now) = self.clock.monotonic() else {
            return None;
        };
        let since_written = match self.written {
            Some(written) => Some(now.saturating_sub(written)),
            None => None,
        };
        if is_due(now.saturating_sub(began), since_written) {
            Some(now)
        } else {
            None
        }
    }

    // Where a text is due, and there is one, it stands on the line from now on.
    fn show(&mut self, now: Duration, text: Result<String, AllocError>) {
        let Ok(text) = text else {
            return;
        };
        let Ok(line) = line_over(self.alloc, text.as_str(), self.width) else {
            return;
        };
        self.write(line.as_str());
        self.width = text.len();
        self.written = Some(now);
    }

    fn write(&mut self, text: &str) {
        match &mut self.terminal {
            Some(terminal) => {
                let _ = terminal.write_all(text.as_bytes());
            }
            None => {}
        }
    }
}

impl<C: Clock + Drop, W: Write + Drop> ObserveProgress for ProgressLine<C, W> {
    fn observe_progress(&mut self, progress: Progress) {
        if let Some(now) = self.time_to_write() {
            self.show(now, text_of(self.alloc, self.counted, progress));
        }
    }

    fn observe_walk(&mut self, progress: WalkProgress) {
        if let Some(now) = self.time_to_write() {
            self.show(now, walk_text(self.alloc, progress));
        }
    }
}

impl<C: Clock + Drop, W: Write + Drop> ObserveWork for ProgressLine<C, W> {
    fn observe_begin(&mut self) {
        if self.terminal.is_none() {
            return;
        }
        self.began = match self.clock.monotonic() {
            Ok(now) => Some(now),
            Err(_) => None,
        };
    }

    fn observe_end(&mut self) {
        if self.width == 0 {
            return;
        }
        // Where memory is refused, the terminal is asked to empty the line.
        match line_over(self.alloc, "", self.width) {
            Ok(line) => {
                self.write(line.as_str());
                self.write("\r");
            }
            Err(_) => self.write("\r\x1b[K"),
        }
        self.width = 0;
    }
}

/// A stream, where it is a terminal.
pub fn terminal_of<W: IsTerminal + Drop>(stream: W) -> Option<W> {
    if stream.is_terminal() {
        Some(stream)
    } else {
        None
    }
}

// Whether the line is due so long after the work began, and after the line was written last: after two seconds, and four times a second.
fn is_due(since_begin: Duration, since_written: Option<Duration>) -> bool
    ensures late { as_nanos since_begin < 2_000_000_000 → result ≡ false }
    ensures seldom { IfSome since_written (λ since. as_nanos since < 250_000_000 → result ≡ false) }
{
    if since_begin.as_nanos() < 2_000_000_000 {
        return false;
    }
    match since_written {
        Some(since) => since.as_nanos() >= 250_000_000,
        None => true,
    }
}

fn text_of(alloc: Global, counted: &'static str, progress: Progress) -> Result<String, AllocError> {
    let Progress {
        choices,
        states,
        outcomes,
    } = progress;
    match outcomes {
        Some(found) => {
            format!(in alloc;
                "choices done: {choices}, states: {states}, {counted} so far: {found}"
            )
        }
        None => format!(in alloc; "choices done: {choices}, states: {states}"),
    }
}

// One beginning is the whole, and is done when all is.
fn walk_text(alloc: Global, progress: WalkProgress) -> Result<String, AllocError> {
    let WalkProgress {
        schedules,
        done,
        beginnings,
    } = progress;
    if beginnings > 1 {
        format!(in alloc; "schedules so far: {schedules}, beginnings done: {done} of {beginnings}")
    } else {
        format!(in alloc; "schedules so far: {schedules}")
    }
}

// A text at the beginning of the line, with blanks over what else stood there.
fn line_over(alloc: Global, text: &str, width: usize) -> Result<String, AllocError> {
    let mut line = String::from_str(alloc, "\r")?;
    line.push_str(text)?;
    for _column in text.len()..width {
        line.push(' ')?;
    }
    Ok(line)
}
