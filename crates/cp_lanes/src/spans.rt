//! What lasts longer than an event: stays in monitors, waits, and who holds what.

use crate::pictures::Scene;
use crate::plan::TOP;
use crate::sheet::Sheet;
use cp_machine::Signals;
use cp_story::{Happening, OpenCall, StoryEvent};
use std::alloc::{AllocError, Global};

/// A stay of a process inside a monitor.
#[derive(Clone, Copy, Drop)]
pub struct Stay {
    pub process: u8,
    pub call: OpenCall,
    pub top: f64,
    pub bottom: f64,
    /// How many monitors it is inside of besides.
    pub depth: usize,
    /// The event that let it go on, where that is another one's.
    pub resumed: Option<usize>,
}

/// A wait of a process.
#[derive(Clone, Copy, Drop)]
pub struct Pause {
    pub process: u8,
    pub monitor: u8,
    /// The call that it is in.
    pub call: OpenCall,
    pub at_gate: bool,
    pub top: f64,
    pub bottom: f64,
    /// Whether it lasts when the run stops.
    pub lasts: bool,
}

/// The time for which a process holds a monitor.
#[derive(Clone, Copy, Drop)]
pub struct Hold {
    pub monitor: u8,
    pub process: u8,
    pub top: f64,
    pub bottom: f64,
}

/// The time from the start of a process to its end.
#[derive(Clone, Copy, Drop)]
pub struct Life {
    pub process: u8,
    pub top: f64,
    pub bottom: f64,
}

/// All of these.
#[derive(Drop)]
pub struct Spans {
    pub stays: Vec<Stay>,
    pub pauses: Vec<Pause>,
    pub holds: Vec<Hold>,
    pub lives: Vec<Life>,
}

/// What is open in the lane of a process.
#[derive(Drop)]
struct Open {
    stays: Vec<Stay>,
    pause: Option<Pause>,
    life: Option<f64>,
}

/// The spans so far, as far as they are seen, and whether memory was refused for one of them, which is told at the end.
#[derive(Drop)]
struct SeenSpans {
    spans: Spans,
    low: f64,
    high: f64,
    is_refused: bool,
}

#[derive(Drop)]
struct SpanBuilder {
    seen: SeenSpans,
    open: Vec<Open>,
    holders: Vec<Option<Hold>>,
}

/// The spans of a story, as far as its rows are drawn.
pub fn spans_of(scene: Scene<'_>, sheet: &Sheet) -> Result<Spans, AllocError> {
    let mut builder = SpanBuilder::new(scene.alloc, sheet);
    for process in 0..scene.legend.processes() {
        builder.add_process(scene.alloc, process);
    }
    for _ in 0..scene.legend.monitors() {
        builder.add_monitor();
    }
    for (row, event) in scene.story.events.iter().enumerate() {
        let y = sheet.middle(row);
        builder.event(row, event, y);
        builder.hold(event, y);
    }
    builder.finish(sheet.end + if sheet.after > 0 { 200.0 } else { 22.0 })
}

// Whether a stay is drawn where the last one is.
fn is_covered(stays: &[Stay], other: &Stay) -> bool {
    match stays.last() {
        Some(stay) => {
            stay.process == other.process
                && stay.call.monitor == other.call.monitor
                && stay.top <= other.top
                && other.bottom <= stay.bottom
        }
        None => false,
    }
}

// Whether a hold is drawn where the last one is.
fn is_held(holds: &[Hold], other: &Hold) -> bool {
    match holds.last() {
        Some(hold) => {
            hold.monitor == other.monitor
                && hold.process == other.process
                && hold.top <= other.top
                && other.bottom <= hold.bottom
        }
        None => false,
    }
}

impl SeenSpans {
    // Nothing is seen where rows are left out.
    fn new(alloc: Global, sheet: &Sheet) -> SeenSpans {
        SeenSpans {
            spans: Spans {
                stays: Vec::new(alloc),
                pauses: Vec::new(alloc),
                holds: Vec::new(alloc),
                lives: Vec::new(alloc),
            },
            low: if sheet.before > 0 { TOP + 10.0 } else { 0.0 },
            high: sheet.end + if sheet.after > 0 { 14.0 } else { 22.0 },
            is_refused: false,
        }
    }

    // Memory was refused for a span.
    fn refuse(&mut self) {
        self.is_refused = true;
    }

    // What is folded is seen once.
    fn add_stay(&mut self, stay: Stay) {
        let seen = Stay {
            top: stay.top.max(self.low),
            bottom: stay.bottom.min(self.high),
            ..stay
        };
        if seen.top + 8.0 < seen.bottom
            && !is_covered(&self.spans.stays, &seen)
            && self.spans.stays.push(seen).is_err()
        {
            self.is_refused = true;
        }
    }

    fn add_pause(&mut self, pause: Pause) {
        let seen = Pause {
            top: pause.top.max(self.low),
            bottom: pause.bottom.min(self.high),
            ..pause
        };
        if seen.top < seen.bottom && self.spans.pauses.push(seen).is_err() {
            self.is_refused = true;
        }
    }

    fn add_hold(&mut self, hold: Hold) {
        let seen = Hold {
            top: hold.top.max(self.low),
            bottom: hold.bottom.min(self.high),
            ..hold
        };
        if seen.top + 8.0 < seen.bottom
            && !is_held(&self.spans.holds, &seen)
            && self.spans.holds.push(seen).is_err()
        {
            self.is_refused = true;
        }
    }

    fn add_life(&mut self, process: u8, top: f64, bottom: f64) {
        let seen = Life {
            process,
            top: top.max(self.low),
            bottom: bottom.min(self.high),
        };
        if seen.top < seen.bottom && self.spans.lives.push(seen).is_err() {
            self.is_refused = true;
        }
    }

    // What is still open when the run stops.
    fn add_open(&mut self, process: u8, open: &Open, bottom: f64) {
        for stay in &open.stays {
            self.add_stay(Stay { bottom, ..*stay });
        }
        if let Some(pause) = open.pause {
            self.add_pause(Pause {
                bottom,
                lasts: true,
                ..pause
            });
        }
        if let Some(top) = open.life {
            self.add_life(process, top, bottom);
        }
    }
}

impl SpanBuilder {
    fn new(alloc: Global, sheet: &Sheet) -> SpanBuilder {
        SpanBuilder {
            seen: SeenSpans::new(alloc, sheet),
            open: Vec::new(alloc),
            holders: Vec::new(alloc),
        }
    }

    fn add_process(&mut self, alloc: Global, process: u8) {
        let open = Open {
            stays: Vec::new(alloc),
            pause: None,
            life: if process == 0 { Some(98.0) } else { None },
        };
        if self.open.push(open).is_err() {
            self.seen.refuse();
        }
    }

    fn add_monitor(&mut self) {
        if self.holders.push(None).is_err() {
            self.seen.refuse();
        }
    }

    fn event(&mut self, row: usize, event: &StoryEvent, y: f64) {
        let process = event.plain.process;
        self.happen(process, &event.happening, y);
        for other in event.woken.as_slice() {
            self.wake(process, *other, &event.happening, row, y);
        }
        for other in event.let_in.as_slice() {
            self.go_on(*other, y + 13.0, Some(row));
        }
    }

    fn happen(&mut self, process: u8, happening: &Happening, y: f64) {
        match happening {
            Happening::Enter { call, waits, .. } => {
                if *waits {
                    self.pause(process, call.monitor, true, *call, y);
                } else {
                    self.stay(process, *call, y - 12.0, None);
                }
            }
            Happening::Leave(_) | Happening::Continue(_, _, Signals::Return) => {
                self.go_out(process, y);
            }
            Happening::Delay(queue, call) => {
                self.go_out(process, y);
                self.pause(process, queue.monitor, false, *call, y);
            }
            Happening::Start(started) => self.begin(*started, y),
            Happening::Display(_) | Happening::Continue(..) => {}
            Happening::End => self.end_life(process, y),
            Happening::Admit(_) => self.go_on(process, y - 12.0, None),
        }
    }

    fn begin(&mut self, process: u8, y: f64) {
        if let Some(open) = self.open.get_mut(process as usize) {
            open.life = Some(y);
        }
    }

    fn end_life(&mut self, process: u8, bottom: f64) {
        if let Some(open) = self.open.get_mut(process as usize) {
            if let Some(top) = open.life.take() {
                self.seen.add_life(process, top, bottom);
            }
        }
    }

    fn stay(&mut self, process: u8, call: OpenCall, top: f64, resumed: Option<usize>) {
        if let Some(open) = self.open.get_mut(process as usize) {
            let stay = Stay {
                process,
                call,
                top,
                bottom: top,
                depth: open.stays.len(),
                resumed,
            };
            if open.stays.push(stay).is_err() {
                self.seen.refuse();
            }
        }
    }

    fn go_out(&mut self, process: u8, y: f64) {
        if let Some(open) = self.open.get_mut(process as usize) {
            if let Some(stay) = open.stays.pop() {
                self.seen.add_stay(Stay {
                    bottom: y + 12.0,
                    ..stay
                });
            }
        }
    }

    fn pause(&mut self, process: u8, monitor: u8, at_gate: bool, call: OpenCall, y: f64) {
        if let Some(open) = self.open.get_mut(process as usize) {
            open.pause = Some(Pause {
                process,
                monitor,
                call,
                at_gate,
                top: y + 8.0,
                bottom: y + 8.0,
                lasts: false,
            });
        }
    }

    // Who waited in a queue goes into the monitor that another one leaves; or it comes to the gate; or the two change places.
    fn wake(&mut self, process: u8, other: u8, happening: &Happening, row: usize, y: f64) {
        match happening {
            Happening::Continue(queue, call, Signals::Wait) => {
                self.go_out(process, y);
                self.pause(process, queue.monitor, true, *call, y);
                self.go_on(other, y + 13.0, Some(row));
            }
            Happening::Continue(queue, _, Signals::Continue) => {
                if let Some(pause) = self.end_pause(other, y + 13.0) {
                    self.pause(other, queue.monitor, true, pause.call, y + 5.0);
                }
            }
            _ => self.go_on(other, y + 13.0, Some(row)),
        }
    }

    // A process that waited goes into the monitor.
    fn go_on(&mut self, process: u8, top: f64, resumed: Option<usize>) {
        if let Some(pause) = self.end_pause(process, top) {
            self.stay(process, pause.call, top, resumed);
        }
    }

    fn end_pause(&mut self, process: u8, bottom: f64) -> Option<Pause> {
        let pause = self.open.get_mut(process as usize)?.pause.take()?;
        self.seen.add_pause(Pause { bottom, ..pause });
        Some(pause)
    }

    // The holders after an event.
    fn hold(&mut self, event: &StoryEvent, y: f64) {
        for (monitor, holder) in event.plain.holders.as_slice().iter().enumerate() {
            self.hold_one(monitor, *holder, event.plain.process, y);
        }
    }

    // The holder of a monitor after an event of a process.
    fn hold_one(&mut self, monitor: usize, holder: Option<u8>, process: u8, y: f64) {
        if let Some(held) = self.holders.get_mut(monitor) {
            if holder_of(held) != holder {
                if let Some(hold) = *held {
                    self.seen.add_hold(Hold {
                        bottom: y + 11.0,
                        ..hold
                    });
                }
                *held = begin_hold(monitor, holder, process, y);
            }
        }
    }

    // What is still open when the run stops.
    fn end(&mut self, bottom: f64) {
        for (number, open) in self.open.iter().enumerate() {
            let process = u8::try_from(number).unwrap_or(0);
            self.seen.add_open(process, open, bottom);
        }
        for held in &self.holders {
            if let Some(hold) = held {
                self.seen.add_hold(Hold { bottom, ..*hold });
            }
        }
    }

    fn finish(self, bottom: f64) -> Result<Spans, AllocError> {
        let mut builder = self;
        builder.end(bottom);
        if builder.seen.is_refused {
            return Err(AllocError);
        }
        Ok(builder.seen.spans)
    }
}

fn holder_of(held: &Option<Hold>) -> Option<u8> {
    match held {
        Some(hold) => Some(hold.process),
        None => None,
    }
}

// The hold that begins with an event of a process.
fn begin_hold(monitor: usize, holder: Option<u8>, process: u8, y: f64) -> Option<Hold> {
    let holder = holder?;
    let top = if holder == process {
        y - 12.0
    } else {
        y + 13.0
    };
    Some(Hold {
        monitor: u8::try_from(monitor).unwrap_or(0),
        process: holder,
        top,
        bottom: top,
    })
}
