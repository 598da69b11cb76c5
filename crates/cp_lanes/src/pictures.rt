//! The whole picture.

use crate::changes::{SWATCH, changes_words};
use crate::draw::spans_drawn;
use crate::frame::{
    draw_again, draw_edges, draw_end, draw_ground, draw_heads, draw_patterns, end_lines,
};
use crate::heading::{PictureHeading, draw_heading, heading_of};
use crate::key::{draw_key, signs_of};
use crate::labels::{FIXED, plain_width, points, text_width};
use crate::plan::{Plan, Widths, plan_of};
use crate::rows::draw_rows;
use crate::sheet::{Sheet, SheetExtent, sheet_of};
use crate::spans::{Spans, spans_of};
use crate::stops::{height_of_stop, line_of_check};
use crate::svg::Svg;
use cp_legend::Legend;
use cp_story::{AbruptEnd, Story, StoryEvent};
use std::alloc::{AllocError, Global};

/// What of a schedule is drawn, and how.
#[derive(Clone, Copy)]
pub struct PictureView {
    pub extent: SheetExtent,
    /// Whether source, schedule and key are left out, and letters are larger.
    pub is_plain: bool,
}

/// A schedule, how it is drawn, and where memory comes from.
#[derive(Clone, Copy)]
pub struct Scene<'a> {
    pub alloc: Global,
    pub legend: &'a Legend,
    pub story: &'a Story,
    /// The schedule as a word.
    pub schedule: &'a str,
    /// The last line of the plain trace.
    pub end: &'a str,
    /// The outcome as that line has it; the line itself, where the run has not ended.
    pub outcome: &'a str,
    pub source: &'a [String],
    /// The event with which a round begins that can be gone again and again.
    pub again: Option<usize>,
    pub extent: SheetExtent,
    pub is_plain: bool,
}

/// Where everything stands.
#[derive(Clone, Copy)]
pub struct Layout<'a> {
    pub plan: &'a Plan,
    pub sheet: &'a Sheet,
    pub spans: &'a Spans,
}

/// How much larger a plain picture is.
const LARGER: f64 = 1.4;

/// The lanes of a story, or of a part of it, as SVG.
pub fn picture(scene: Scene<'_>) -> Result<String, AllocError> {
    let mut sheet = sheet_of(scene)?;
    sheet.label(scene)?;
    draw_sheet(scene, &mut sheet)
}

// Each part of the picture is let go where it was made, and what comes next borrows it.
fn draw_sheet(scene: Scene<'_>, sheet: &mut Sheet) -> Result<String, AllocError> {
    let plan = plan_of(scene, sheet, widths(scene, sheet)?)?;
    sheet.place(scene, plan.changes.width - SWATCH)?;
    if let Some(stop) = &scene.story.stop {
        let height = stop_height(scene, sheet, &plan, stop)?;
        sheet.heighten_stop(scene.story, height);
    }
    draw_planned(scene, sheet, &plan)
}

// The height that the last row needs, if that is the one of the stop.
fn stop_height(
    scene: Scene<'_>,
    sheet: &Sheet,
    plan: &Plan,
    stop: &AbruptEnd,
) -> Result<f64, AllocError> {
    let spans = spans_of(scene, sheet)?;
    let layout = Layout {
        plan,
        sheet,
        spans: &spans,
    };
    match sheet.rows.last() {
        Some(row) => height_of_stop(scene, layout, row, stop),
        None => Ok(0.0),
    }
}

fn draw_planned(scene: Scene<'_>, sheet: &Sheet, plan: &Plan) -> Result<String, AllocError> {
    let spans = spans_of(scene, sheet)?;
    let heading = heading_of(scene, plan.width)?;
    let layout = Layout {
        plan,
        sheet,
        spans: &spans,
    };
    draw_parts(scene, layout, &heading)
}

fn draw_parts(
    scene: Scene<'_>,
    layout: Layout<'_>,
    heading: &PictureHeading,
) -> Result<String, AllocError> {
    let Layout { plan, sheet, .. } = layout;
    let bottom = sheet.bottom() + 34.0;
    let lines = end_lines(scene, plan.width)?;
    let key = bottom + 54.0 + points(lines.len()) * 20.0;
    let signs = signs_of(scene, layout);
    let height = key
        + if scene.is_plain {
            0.0
        } else {
            signs.height(plan.width)
        };
    let scale = if scene.is_plain { LARGER } else { 1.0 };
    let mut svg = Svg::new(scene.alloc, plan.width, heading.extra(), height, scale);
    draw_patterns(&mut svg, scene, heading.title.as_str());
    draw_ground(&mut svg, layout, heading.extra(), height);
    draw_heading(&mut svg, heading);
    draw_heads(&mut svg, scene, layout);
    spans_drawn(&mut svg, scene, layout);
    draw_rows(&mut svg, scene, layout);
    draw_around(&mut svg, scene, layout);
    draw_end(&mut svg, scene, plan, bottom, &lines);
    if !scene.is_plain {
        draw_key(&mut svg, signs, plan.width, key);
    }
    svg.finish()
}

// What says that rows are gone again and again, or are left out.
fn draw_around(svg: &mut Svg, scene: Scene<'_>, layout: Layout<'_>) {
    if let Some(event) = scene.again {
        draw_again(svg, layout, event);
    }
    draw_edges(svg, scene, layout);
}

// How wide what changed is, and the source.
fn widths(scene: Scene<'_>, sheet: &Sheet) -> Result<Widths, AllocError> {
    let mut widths = Widths {
        changes: 0.0,
        longest_word: 0.0,
        source: 0.0,
    };
    for row in &sheet.rows {
        let events = row.events(scene.story);
        let text = changes_words(scene, events)?;
        if !text.is_empty() {
            widths.changes = widths
                .changes
                .max(plain_width(text.as_str(), 10.5) + SWATCH + 1.0);
        }
        for word in text.as_str().split(' ') {
            let width = plain_width(word, 10.5) + SWATCH + 1.0;
            widths.longest_word = widths.longest_word.max(width);
        }
        for line in [
            line_of(scene.story, events),
            check_beside(scene.story, events),
        ] {
            widths.source = widths.source.max(source_width(scene, line));
        }
    }
    if widths.changes > 0.0 {
        widths.changes = widths.changes.max(118.0).min(260.0);
    }
    widths.source = if scene.is_plain {
        0.0
    } else {
        widths.source.min(330.0)
    };
    Ok(widths)
}

fn source_width(scene: Scene<'_>, line: Option<u32>) -> f64 {
    match line {
        Some(line) => text_width(source_line(scene.source, line), 10.5, FIXED) + 1.0,
        None => 0.0,
    }
}

// The line before which an invariant is broken, in the row of the stop.
fn check_beside(story: &Story, events: &[StoryEvent]) -> Option<u32> {
    if events.is_empty() {
        line_of_check(story)
    } else {
        None
    }
}

// The line of the first of a row's events, or of the stop where there is none.
fn line_of(story: &Story, events: &[StoryEvent]) -> Option<u32> {
    match (events.first(), &story.stop) {
        (Some(event), _) => event.line,
        (None, Some(stop)) => stop.line,
        (None, None) => None,
    }
}

/// The text of a line of the source, without the spaces around it.
pub fn source_line(source: &[String], line: u32) -> &str {
    let place = (line as usize).saturating_sub(1);
    match source.get(place) {
        Some(text) => text.as_str().trim(),
        None => "",
    }
}
