//! What stands above the columns: the heading, and the schedule.

use crate::labels::{BOLD, WIDTH, bold_width, plain_width, points};
use crate::palette::{GREY, INK};
use crate::pictures::Scene;
use crate::svg::{BOLD_TYPE, Style, Svg};
use crate::title::sentence;
use crate::wrapping::LineRoom;
use cp_machine::Signals;
use cp_story::Story;
use std::alloc::AllocError;

/// The most lines of a heading, after which it is cut at a word.
const MOST_LINES: usize = 2;

/// The heading of a picture, and its schedule, in lines.
#[derive(Drop)]
pub struct PictureHeading {
    /// The whole heading.
    pub title: String,
    lines: Vec<String>,
    schedule: Vec<String>,
    /// Whether the schedule stands beside the heading.
    is_beside: bool,
}

/// The heading of what is drawn.
pub fn heading_of(scene: Scene<'_>, width: f64) -> Result<PictureHeading, AllocError> {
    let mut heading = PictureHeading {
        title: sentence(scene.alloc, scene.source)?,
        lines: Vec::new(scene.alloc),
        schedule: Vec::new(scene.alloc),
        is_beside: false,
    };
    heading.break_all(scene, width - 40.0)?;
    Ok(heading)
}

fn schedule_in_lines(scene: Scene<'_>, room: f64) -> Result<Vec<String>, AllocError> {
    let words = if !scene.is_plain {
        schedule_words(scene)?
    } else if let Some(signals) = signals_words(scene.story) {
        String::from_str(scene.alloc, signals)?
    } else {
        return Ok(Vec::new(scene.alloc));
    };
    LineRoom::new(scene.alloc, room, 12.5 * WIDTH).break_at(words.as_str(), '.')
}

/// The schedule, and the discipline where it is another one than `return`.
pub fn schedule_words(scene: Scene<'_>) -> Result<String, AllocError> {
    let (alloc, schedule) = (scene.alloc, scene.schedule);
    match signals_words(scene.story) {
        Some(signals) => format!(in alloc; "schedule {schedule}, {signals}"),
        None => format!(in alloc; "schedule {schedule}"),
    }
}

fn signals_words(story: &Story) -> Option<&'static str> {
    match story.signals {
        Signals::Return => None,
        Signals::Continue => Some("signals continue"),
        Signals::Wait => Some("signals wait"),
    }
}

// Whether a line of the heading and one of the schedule have room side by side.
fn fits_beside(lines: &[String], schedule: &[String], room: f64) -> bool {
    match (lines.first(), schedule.first()) {
        (Some(line), Some(word)) if lines.len() == 1 && schedule.len() == 1 => {
            bold_width(line.as_str(), 16.0) + 22.0 + plain_width(word.as_str(), 12.5) <= room
        }
        _ => false,
    }
}

impl PictureHeading {
    // Breaks the heading and the schedule into lines for which there is room.
    fn break_all(&mut self, scene: Scene<'_>, room: f64) -> Result<(), AllocError> {
        if !self.title.is_empty() {
            let line = LineRoom::new(scene.alloc, room, 16.0 * BOLD);
            self.lines = line.wrap_in_lines(self.title.as_str(), MOST_LINES, " ..")?;
        }
        self.schedule = schedule_in_lines(scene, room)?;
        self.is_beside = fits_beside(&self.lines, &self.schedule, room);
        Ok(())
    }

    // How many lines there are.
    fn count(&self) -> usize {
        if self.is_beside {
            1
        } else {
            self.lines.len().saturating_add(self.schedule.len())
        }
    }

    /// How much room it wants beyond that of one line.
    pub fn extra(&self) -> f64 {
        points(self.count().saturating_sub(1)) * 22.0
    }
}

/// Draws the heading and the schedule above the columns.
pub fn draw_heading(svg: &mut Svg, heading: &PictureHeading) {
    let mut y = 28.0 - heading.extra();
    for line in &heading.lines {
        svg.words(20.0, y, Style::new(16.0, INK, BOLD_TYPE), line.as_str());
        y += 22.0;
    }
    let mut x = 20.0;
    if heading.is_beside {
        y -= 22.0;
        if let Some(line) = heading.lines.first() {
            x += bold_width(line.as_str(), 16.0) + 22.0;
        }
    }
    for line in &heading.schedule {
        svg.words(x, y, Style::new(12.5, GREY, ""), line.as_str());
        y += 22.0;
    }
}
