//! The row of a run error or of a limit.

use crate::labels::{Face, PictureLabel, bold_width, points};
use crate::palette::RED;
use crate::pictures::{Layout, Scene};
use crate::plan::Plan;
use crate::rows::{
    draw_changes, draw_choice, draw_number, draw_source, halo_of, room_beside, write_changes,
};
use crate::sheet::{LINE, PictureRow};
use crate::spans::Spans;
use crate::svg::{BOLD_TYPE, Block, LABEL_LINE, Style, Svg};
use crate::wrapping::{label_lines, whole_label_lines};
use crate::written::expression_at;
use cp_run::{OutcomeKind, RunEnd};
use cp_story::{AbruptEnd, Annotation, Moment, Story, Violation, error_words, stop_words};
use std::alloc::AllocError;

/// Draws the row of a run error or of a limit.
pub fn draw_stop(
    svg: &mut Svg,
    scene: Scene<'_>,
    layout: Layout<'_>,
    row: &PictureRow,
    stop: &AbruptEnd,
) {
    let plan = layout.plan;
    let y = row.middle();
    svg.begin_title();
    svg.escape_made(words_of_stop(scene, stop));
    write_changes(svg, scene, &[]);
    svg.end_title();
    draw_number(svg, scene, row);
    if let Some(choice) = &scene.story.last_choice {
        draw_choice(svg, choice, y);
    }
    let x = plan.dot(stop.process);
    let red = "stroke-width=\"3\"";
    svg.line((x - 5.0, y - 5.0), (x + 5.0, y + 5.0), RED, red);
    svg.line((x - 5.0, y + 5.0), (x + 5.0, y - 5.0), RED, red);
    if let Some(monitor) = broken_monitor(scene) {
        draw_broken(svg, layout, monitor, y);
    }
    let left = plan.lane(stop.process).left + 31.0;
    let lines = stop_lines(scene, layout, stop, y);
    let face = if scene.story.violation.is_some() {
        halo_of(Face::Bold)
    } else {
        BOLD_TYPE
    };
    svg.lines_made(left, y, Style::new(10.5, RED, face), lines);
    draw_changes(svg, plan, row);
    draw_stop_source(svg, scene, plan, stop, y);
    svg.close();
}

/// How the run stopped, and what its error is of: of an annotation also which one, when, and with which values.
pub fn words_of_stop(scene: Scene<'_>, stop: &AbruptEnd) -> Result<String, AllocError> {
    let story = scene.story;
    stop_words(
        scene.alloc,
        scene.legend,
        stop,
        story.cause,
        &story.violation,
    )
}

// The line of the stop, and above it the one before which an invariant is looked at.
fn draw_stop_source(svg: &mut Svg, scene: Scene<'_>, plan: &Plan, stop: &AbruptEnd, y: f64) {
    match line_of_check(scene.story) {
        Some(line) => {
            draw_source(svg, scene, plan, Some(line), y - LINE / 2.0);
            draw_source(svg, scene, plan, stop.line, y + LINE / 2.0);
        }
        None => draw_source(svg, scene, plan, stop.line, y),
    }
}

/// The line of the `delay` or `continue` before which an invariant is broken.
pub fn line_of_check(story: &Story) -> Option<u32> {
    match &story.violation {
        Some(
            Violation {
                annotation: Annotation::Invariant(_, moment),
                ..
            },
        ) => line_of_moment(*moment),
        _ => None,
    }
}

fn line_of_moment(moment: Moment) -> Option<u32> {
    match moment {
        Moment::Delay(line) | Moment::Continue(line) => Some(line),
        Moment::Return(_) | Moment::Initialised => None,
    }
}

/// How high the row of a stop has to be for its label, and for the lines of the source.
pub fn height_of_stop(
    scene: Scene<'_>,
    layout: Layout<'_>,
    row: &PictureRow,
    stop: &AbruptEnd,
) -> Result<f64, AllocError> {
    let lines = stop_lines(scene, layout, stop, row.middle())?;
    let label = points(lines.len()) * LABEL_LINE + 8.0;
    let has_both = !scene.is_plain && line_of_check(scene.story).is_some();
    Ok(label.max(if has_both { 2.0 * LINE + 8.0 } else { 0.0 }))
}

// The monitor of an invariant that is broken, or the one that its class is a part of.
fn broken_monitor(scene: Scene<'_>) -> Option<u8> {
    match &scene.story.violation {
        Some(
            Violation {
                annotation: Annotation::Invariant(component, _),
                ..
            },
        ) => scene.legend.components.get(*component)?.monitor,
        _ => None,
    }
}

// A red edge of a monitor's bar; where nobody is inside there is none but that.
fn draw_broken(svg: &mut Svg, layout: Layout<'_>, monitor: u8, y: f64) {
    let bar = layout.plan.bar(monitor);
    let left = bar.left + bar.width / 2.0 - 12.0;
    let (top, bottom) = held_around(layout.spans, monitor, y).unwrap_or((y - 12.0, y + 12.0));
    svg.block(Block {
        radius: 5.0,
        stroke: RED,
        stroke_width: 3.0,
        ..Block::plain(left, top, 24.0, bottom - top, "none")
    });
}

// From where to where the bar goes that a monitor has at a point.
fn held_around(spans: &Spans, monitor: u8, y: f64) -> Option<(f64, f64)> {
    for hold in &spans.holds {
        if hold.monitor == monitor && hold.top <= y && y <= hold.bottom {
            return Some((hold.top, hold.bottom));
        }
    }
    None
}

// What is said of the stop; the expression of an annotation is never cut.
fn stop_lines(
    scene: Scene<'_>,
    layout: Layout<'_>,
    stop: &AbruptEnd,
    y: f64,
) -> Result<Vec<String>, AllocError> {
    let room = layout.plan.lane(stop.process).width - 36.0;
    let beside = room_beside(layout, stop.process, y);
    let label = stop_label(scene, stop)?;
    if scene.story.violation.is_some() {
        whole_label_lines(scene.alloc, &label, room, beside)
    } else {
        label_lines(scene.alloc, &label, room, beside)
    }
}

// The expression of an annotation, or the words for another stop.
fn stop_label(scene: Scene<'_>, stop: &AbruptEnd) -> Result<PictureLabel, AllocError> {
    if let (Some(_), Some(line)) = (&scene.story.violation, stop.line) {
        let expression = expression_at(scene.alloc, scene.source, line)?;
        return Ok(PictureLabel::new(expression, Face::Bold));
    }
    let mut label = PictureLabel::new(stop.words.clone()?, Face::Bold);
    label.brief = Some(String::from_str(scene.alloc, stop_name(scene, stop))?);
    Ok(label)
}

// The name of a run error, or which limit it is.
fn stop_name<'a>(scene: Scene<'_>, stop: &'a AbruptEnd) -> &'a str {
    let RunEnd::Ended { outcome, .. } = &scene.story.end else {
        return stop.words.as_str();
    };
    match outcome.kind {
        OutcomeKind::RunError { name, .. } => error_words(name),
        OutcomeKind::StepLimit => "limit of steps",
        _ => stop.words.as_str(),
    }
}

/// The width of what is said of the stop in the lane of a process; 0 where it is not there.
pub fn stop_width(scene: Scene<'_>, process: u8) -> Result<f64, AllocError> {
    match &scene.story.stop {
        Some(stop) if stop.process == process => {
            let words = bold_width(stop.words.as_str(), 11.5);
            Ok(31.0 + words.max(expression_width(scene, stop)?) + 12.0)
        }
        _ => Ok(0.0),
    }
}

// The width of the expression of an annotation in two lines; 0 of another stop.
fn expression_width(scene: Scene<'_>, stop: &AbruptEnd) -> Result<f64, AllocError> {
    match (&scene.story.violation, stop.line) {
        (Some(_), Some(line)) => {
            let expression = expression_at(scene.alloc, scene.source, line)?;
            Ok(bold_width(expression.as_str(), 10.5) * 0.6)
        }
        _ => Ok(0.0),
    }
}
