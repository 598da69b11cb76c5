//! Lanes: lives, stays, waits and holds.

use crate::key::draw_hopeless;
use crate::labels::{Face, PictureLabel, points, put_routine};
use crate::palette::{INK, RED, hue_of};
use crate::pictures::{Layout, Scene};
use crate::plan::Plan;
use crate::spans::{Hold, Life, Pause, Stay};
use crate::svg::{BOLD_MIDDLE, Block, Style, Svg};
use crate::wrapping::label_lines;
use cp_prose::Prose;
use cp_run::{OutcomeKind, RunEnd};
use cp_story::{Story, push_call};
use std::alloc::AllocError;

/// How many monitors a process is drawn inside of at once.
const DEEPEST: usize = 16;

/// Draws what lasts longer than an event.
pub fn spans_drawn(svg: &mut Svg, scene: Scene<'_>, layout: Layout<'_>) {
    let Layout { plan, spans, .. } = layout;
    for life in &spans.lives {
        draw_life(svg, plan, life);
    }
    for depth in 0..DEEPEST {
        for stay in &spans.stays {
            if stay.depth == depth {
                draw_stay(svg, scene, plan, stay);
            }
        }
    }
    let is_stuck = all_wait(scene.story);
    for pause in &spans.pauses {
        draw_pause(svg, scene, plan, pause, is_stuck);
    }
    for hold in &spans.holds {
        draw_hold(svg, scene, plan, hold);
    }
}

/// Whether nobody is left who could wake the others.
pub fn all_wait(story: &Story) -> bool {
    match &story.end {
        RunEnd::Ended { outcome, .. } => outcome.kind == OutcomeKind::AllWaiting,
        RunEnd::Wants { .. } | RunEnd::NotReady { .. } => false,
    }
}

fn draw_life(svg: &mut Svg, plan: &Plan, life: &Life) {
    let x = plan.dot(life.process);
    let thin = "stroke-width=\"1.6\"";
    svg.line((x, life.top), (x, life.bottom), "#9aa5b1", thin);
}

/// Writes which process it is, by number and name.
pub fn write_process(svg: &mut Svg, scene: Scene<'_>, process: u8) {
    svg.digits(u32::from(process));
    svg.raw(" ");
    svg.escape(scene.legend.process_name(process));
}

fn draw_stay(svg: &mut Svg, scene: Scene<'_>, plan: &Plan, stay: &Stay) {
    let lane = plan.lane(stay.process);
    let hue = hue_of(stay.call.monitor);
    let inset = points(stay.depth) * 8.0;
    svg.begin_title();
    write_process(svg, scene, stay.process);
    svg.raw(" is inside ");
    svg.escape_made(call_words(scene, stay));
    svg.end_title();
    let left = lane.left + 1.0 + inset;
    let width = lane.width - 2.0 - inset - inset;
    svg.block(Block {
        radius: 7.0,
        stroke: hue.strong,
        stroke_width: 1.5,
        ..Block::plain(left, stay.top, width, stay.bottom - stay.top, hue.stay)
    });
    svg.close();
}

fn call_words(scene: Scene<'_>, stay: &Stay) -> Result<String, AllocError> {
    let mut words = String::new(scene.alloc);
    push_call(scene.legend, &mut words, stay.call, &[])?;
    Ok(words)
}

fn draw_pause(svg: &mut Svg, scene: Scene<'_>, plan: &Plan, pause: &Pause, is_stuck: bool) {
    let hue = hue_of(pause.monitor);
    let is_hopeless = pause.lasts && is_stuck;
    svg.begin_title();
    write_process(svg, scene, pause.process);
    svg.raw(if pause.at_gate {
        " waits at the gate of "
    } else {
        " waits in a queue of "
    });
    svg.escape(scene.legend.monitor_name(pause.monitor));
    if is_hopeless {
        svg.raw(", and nobody is left who could end it");
    }
    svg.end_title();
    let left = plan.dot(pause.process) - 9.0;
    let height = (pause.bottom - pause.top).max(6.0);
    let fill = if pause.at_gate { hue.gate } else { hue.queue };
    svg.block(Block {
        radius: 5.0,
        stroke: if is_hopeless { RED } else { hue.strong },
        stroke_width: if is_hopeless { 2.0 } else { 1.2 },
        ..Block::plain(left, pause.top, 18.0, height, fill)
    });
    if is_hopeless {
        draw_hopeless(svg, left + 9.0, pause.bottom - 10.0);
    }
    svg.close();
}

fn draw_hold(svg: &mut Svg, scene: Scene<'_>, plan: &Plan, hold: &Hold) {
    let bar = plan.bar(hold.monitor);
    let middle = bar.left + bar.width / 2.0;
    svg.begin_title();
    svg.escape(scene.legend.monitor_name(hold.monitor));
    svg.raw(" is held by ");
    write_process(svg, scene, hold.process);
    svg.end_title();
    let height = (hold.bottom - hold.top).max(14.0);
    let hue = hue_of(hold.monitor);
    svg.block(Block {
        radius: 5.0,
        ..Block::plain(middle - 12.0, hold.top, 24.0, height, hue.bar)
    });
    let y = (hold.top + hold.bottom) / 2.0;
    if hue.is_hatched {
        svg.circle(middle, y, 9.0, hue.strong, "");
    }
    let style = Style::new(11.0, hue.letters, BOLD_MIDDLE);
    svg.number(middle, y + 4.0, style, u32::from(hold.process));
    svg.close();
}

/// Draws where a process goes on whom another one let go on, if no event of its own follows at once.
pub fn draw_resumed(svg: &mut Svg, scene: Scene<'_>, layout: Layout<'_>, stay: &Stay) {
    let Some(event) = stay.resumed else {
        return;
    };
    let event = event.saturating_add(1);
    let next = match (scene.story.events.get(event), &scene.story.stop) {
        (Some(event), _) => Some(event.plain.process),
        (None, Some(stop)) => Some(stop.process),
        (None, None) => None,
    };
    let Some(row) = layout.sheet.row_of(event) else {
        return;
    };
    let y = row.middle();
    if next == Some(stay.process) || y > stay.bottom {
        return;
    }
    let lane = layout.plan.lane(stay.process);
    let style = Style::new(10.5, INK, "font-style=\"italic\"");
    let lines = resumed_lines(scene, stay, lane.width - 36.0);
    svg.lines_made(lane.left + 31.0, y, style, lines);
}

// Where a process goes on, in lines.
fn resumed_lines(scene: Scene<'_>, stay: &Stay, room: f64) -> Result<Vec<String>, AllocError> {
    let label = PictureLabel::new(resumed_words(scene, stay)?, Face::Plain);
    label_lines(scene.alloc, &label, room, room)
}

fn resumed_words(scene: Scene<'_>, stay: &Stay) -> Result<String, AllocError> {
    let mut words = Prose::new(scene.alloc);
    words.put("in ");
    put_routine(scene, &mut words, stay.call, &[]);
    words.finish()
}
