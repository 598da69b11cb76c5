//! What changed, in words.

use crate::labels::WIDTH;
use crate::pictures::Scene;
use crate::wrapping::LineRoom;
use cp_prose::Prose;
use cp_story::{Change, StoryEvent};
use std::alloc::AllocError;
use std::mem;

/// The width of the sign in a monitor's colour before such a line, with the space after it.
pub const SWATCH: f64 = 11.0;

/// A line of what changed in a monitor.
#[derive(Drop)]
pub struct ChangeLine {
    pub monitor: u8,
    pub words: String,
}

/// What changed in some events: `count := 1`, with the monitor before it where there is more than one.
pub fn changes_words(scene: Scene<'_>, events: &[StoryEvent]) -> Result<String, AllocError> {
    let lines = changes_in_lines(scene, events, f64::INFINITY)?;
    let mut text = Prose::new(scene.alloc);
    let mut before = "";
    for line in &lines {
        text.put(before);
        text.put(line.words.as_str());
        before = ", ";
    }
    text.finish()
}

/// What changed in some events, in lines as wide as their column. Each monitor begins a line. The row of a stop has no events: there it is what changed
/// since the last one.
pub fn changes_in_lines(
    scene: Scene<'_>,
    events: &[StoryEvent],
    width: f64,
) -> Result<Vec<ChangeLine>, AllocError> {
    let mut lines = ChangeLines {
        lines: Vec::new(scene.alloc),
        width,
        monitor: None,
        words: Prose::new(scene.alloc),
        is_refused: false,
    };
    for (place, event) in events.iter().enumerate() {
        let later = events.get(place.saturating_add(1)..).unwrap_or(&[]);
        for change in &event.changes {
            if !is_changed(later, change) {
                lines.put(scene, change);
            }
        }
    }
    if events.is_empty() {
        for change in &scene.story.last_changes {
            lines.put(scene, change);
        }
    }
    lines.finish(scene)
}

// Whether the same variable is changed in one of these events.
fn is_changed(events: &[StoryEvent], change: &Change) -> bool {
    for event in events {
        for other in &event.changes {
            if other.monitor == change.monitor && other.name.as_str() == change.name.as_str() {
                return true;
            }
        }
    }
    false
}

// Lines that are written change by change, with what changed in the last monitor, which is no line yet. Whether memory was refused for some part of
// them is told at the end.
#[derive(Drop)]
struct ChangeLines {
    lines: Vec<ChangeLine>,
    width: f64,
    monitor: Option<u8>,
    words: Prose,
    is_refused: bool,
}

impl ChangeLines {
    fn put(&mut self, scene: Scene<'_>, change: &Change) {
        if self.monitor == Some(change.monitor) {
            self.words.put(", ");
        } else {
            self.end_monitor(scene);
            self.monitor = Some(change.monitor);
            if scene.legend.monitors() > 1 {
                self.words.put(scene.legend.monitor_name(change.monitor));
                self.words.put(": ");
            }
        }
        self.words.put(change.name.as_str());
        self.words.put(" := ");
        self.words.put_made(change.value.text(scene.alloc));
    }

    // Breaks what changed in the last monitor into lines.
    fn end_monitor(&mut self, scene: Scene<'_>) {
        if let Some(monitor) = self.monitor.take() {
            let words = mem::replace(&mut self.words, Prose::new(scene.alloc));
            match break_words(scene, words, self.width) {
                Ok(lines) => self.push_all(monitor, lines),
                Err(_) => self.is_refused = true,
            }
        }
    }

    fn push_all(&mut self, monitor: u8, lines: Vec<String>) {
        for words in lines {
            if self.lines.push(ChangeLine { monitor, words }).is_err() {
                self.is_refused = true;
            }
        }
    }

    fn finish(self, scene: Scene<'_>) -> Result<Vec<ChangeLine>, AllocError> {
        let mut changes = self;
        changes.end_monitor(scene);
        if changes.is_refused {
            return Err(AllocError);
        }
        Ok(changes.lines)
    }
}

fn break_words(scene: Scene<'_>, words: Prose, width: f64) -> Result<Vec<String>, AllocError> {
    LineRoom::new(scene.alloc, width, 10.5 * WIDTH).wrap(words.as_str()?)
}
