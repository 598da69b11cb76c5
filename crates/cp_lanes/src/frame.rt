//! What stands around the lanes: patterns, ground, heads, the end and the key.

use crate::draw::all_wait;
use crate::heading::schedule_words;
use crate::labels::{BOLD, WIDTH, bold_width, plain_width, points};
use crate::palette::{FAINT, GREEN, GREY, Hue, INK, PALE, PATTERNS, RED, SLATE, WHITE, hue_of};
use crate::pictures::{Layout, Scene};
use crate::plan::{Column, Plan, TOP};
use crate::sheet::EDGE;
use crate::stops::words_of_stop;
use crate::svg::{BOLD_MIDDLE, BOLD_TYPE, Block, Style, Svg};
use crate::wrapping::LineRoom;
use cp_prose::Prose;
use cp_run::{OutcomeKind, RunEnd};
use cp_story::{Story, end_words, reason_text, unused_words, wait_words};
use std::alloc::{AllocError, Global};

const SLANTED: &str = " patternTransform=\"rotate(45)\"";

// The width and the height of a stripe, in a pattern of 7 by 7.
const STRIPE: (&str, &str) = ("2.2", "7");

const CROSSING: (&str, &str) = ("7", "1.4");

const BROAD: (&str, &str) = ("7", "2.6");

const BRACKET: &str = "stroke-width=\"2\"";

const MARKER: &str =
    "<marker id=\"arrow\" markerWidth=\"9\" markerHeight=\"8\" refX=\"7.5\" refY=\"4\" orient=\"auto\" markerUnits=\"userSpaceOnUse\"><path d=\"M0,0.5 L8,4 L0,7.5 z\" fill=\"#1f2933\"/></marker>\n";

/// The picture's title, the patterns of the monitors' colours, and the point of an arrow.
pub fn draw_patterns(svg: &mut Svg, scene: Scene<'_>, title: &str) {
    svg.raw("<title>");
    if !title.is_empty() {
        svg.escape(title);
        svg.raw(", ");
    }
    if let RunEnd::Ended { .. } = scene.story.end {
        svg.escape_made(end_words(scene.alloc, scene.story));
        svg.raw(", ");
    }
    svg.escape_made(schedule_words(scene));
    svg.raw("</title>\n<desc>");
    svg.escape(scene.end);
    svg.raw("</desc>\n<defs>\n");
    for number in 0..scene.legend.monitors().max(1).min(PATTERNS) {
        draw_patterns_of(svg, number, hue_of(number));
    }
    svg.raw(MARKER);
    svg.raw("</defs>\n");
}

// The patterns of a monitor: stripes for its gate and dots for its queues. A hatch crosses them, and boxes and bars have it too.
fn draw_patterns_of(svg: &mut Svg, number: u8, hue: Hue) {
    let ground = if hue.is_hatched { hue.soft } else { WHITE };
    svg.begin_pattern("gate", number, SLANTED, ground);
    svg.stripe(STRIPE, hue.strong, ".6");
    if hue.is_hatched {
        svg.stripe(CROSSING, hue.strong, ".6");
    }
    svg.end_pattern();
    svg.begin_pattern("queue", number, "", ground);
    svg.dot(hue.strong);
    if hue.is_hatched {
        svg.stripe(CROSSING, hue.strong, ".6");
    }
    svg.end_pattern();
    if hue.is_hatched {
        svg.begin_pattern("stay", number, SLANTED, hue.soft);
        svg.stripe(BROAD, WHITE, ".9");
        svg.end_pattern();
        svg.begin_pattern("bar", number, SLANTED, hue.strong);
        svg.stripe(CROSSING, WHITE, ".9");
        svg.end_pattern();
    }
}

/// White, and every other row shaded.
pub fn draw_ground(svg: &mut Svg, layout: Layout<'_>, above: f64, height: f64) {
    let width = layout.plan.width;
    svg.block(Block::plain(0.0, 0.0 - above, width, height + above, "#fff"));
    for (place, row) in layout.sheet.rows.iter().enumerate() {
        if place % 2 == 0 {
            svg.block(Block::plain(14.0, row.top, width - 28.0, row.height, "#f5f7fa"));
        }
    }
}

/// The heads of the columns.
pub fn draw_heads(svg: &mut Svg, scene: Scene<'_>, layout: Layout<'_>) {
    let plan = layout.plan;
    svg.words(20.0, 71.0, FAINT, "who may go on");
    for process in 0..scene.legend.processes() {
        draw_lane_head(svg, scene, plan, process);
    }
    for monitor in 0..scene.legend.monitors() {
        draw_bar_head(svg, scene, layout, monitor);
    }
    if plan.changes.width > 0.0 {
        svg.words(plan.changes.left, 71.0, FAINT, "what changed inside");
    }
    if scene.is_plain {
        return;
    }
    svg.words(plan.numbers - 20.0, 71.0, FAINT, "line");
}

fn draw_lane_head(svg: &mut Svg, scene: Scene<'_>, plan: &Plan, process: u8) {
    let lane = plan.lane(process);
    let name = scene.legend.process_name(process);
    let type_name = scene.legend.process_type(process);
    open_lane(svg, process, name, type_name);
    svg.block(Block {
        radius: 6.0,
        ..Block::plain(lane.left, 52.0, lane.width, 30.0, "#eaeef2")
    });
    svg.circle(lane.left + 17.0, 67.0, 10.0, INK, "");
    let white = Style::new(11.5, "#fff", BOLD_MIDDLE);
    svg.number(lane.left + 17.0, 71.0, white, u32::from(process));
    draw_names(svg, scene, lane, name, type_name);
    svg.close();
}

fn open_lane(svg: &mut Svg, process: u8, name: &str, type_name: &str) {
    svg.begin_title();
    svg.raw("process ");
    svg.digits(u32::from(process));
    svg.raw(": ");
    svg.escape(name);
    if !type_name.is_empty() {
        svg.raw(" ");
        svg.escape(type_name);
    }
    svg.end_title();
}

// The name of a process and its type, one below the other where there is no room for both in a line.
fn draw_names(svg: &mut Svg, scene: Scene<'_>, lane: Column, name: &str, type_name: &str) {
    let room = lane.width - 36.0;
    let left = lane.left + 33.0;
    let used = bold_width(name, 12.0) + 9.0;
    if room < 30.0 {
        return;
    }
    if used + plain_width(type_name, 12.0) <= room {
        svg.words(left, 71.0, bold(12.0, INK), name);
        svg.words(left + used, 71.0, light(12.0), type_name);
        return;
    }
    if bold_width(name, 11.0) <= room {
        svg.words(left, 65.0, bold(11.0, INK), name);
        let type_name = LineRoom::new(scene.alloc, room, 10.0 * WIDTH).cut(type_name);
        svg.words_made(left, 77.5, light(10.0), type_name);
        return;
    }
    draw_halves(svg, scene, left, bold(10.0, INK), room, name);
}

fn bold(size: f64, fill: &'static str) -> Style<'static> {
    Style::new(size, fill, BOLD_TYPE)
}

fn light(size: f64) -> Style<'static> {
    Style::new(size, GREY, "")
}

fn draw_bar_head(svg: &mut Svg, scene: Scene<'_>, layout: Layout<'_>, monitor: u8) {
    let bar = layout.plan.bar(monitor);
    let middle = bar.left + bar.width / 2.0;
    let name = scene.legend.monitor_name(monitor);
    let hue = hue_of(monitor);
    svg.begin_title();
    svg.raw("monitor ");
    svg.escape(name);
    svg.raw(" ");
    svg.escape(scene.legend.monitor_type(monitor));
    svg.end_title();
    svg.block(Block {
        radius: 6.0,
        ..Block::plain(bar.left, 52.0, bar.width, 30.0, hue.strong)
    });
    if hue.is_hatched {
        svg.block(Block::plain(bar.left, 84.0, bar.width, 7.0, hue.bar));
    }
    draw_bar_name(svg, scene, middle, bar.width - 6.0, hue.letters, name);
    let bottom = layout.sheet.end + 4.0;
    let thin = "stroke-width=\"1\"";
    svg.line((middle, 98.0), (middle, bottom), "#c9d1d9", thin);
    svg.close();
}

// The name of a monitor in one line or in two.
fn draw_bar_name(
    svg: &mut Svg,
    scene: Scene<'_>,
    middle: f64,
    room: f64,
    letters: &str,
    name: &str,
) {
    let style = Style::new(10.5, letters, BOLD_MIDDLE);
    if bold_width(name, 10.5) <= room {
        svg.words(middle, 71.0, style, name);
        return;
    }
    let small = Style { size: 9.5, ..style };
    draw_halves(svg, scene, middle, small, room, name);
}

// A name in two lines, of which the second one is cut where there is no room.
fn draw_halves(svg: &mut Svg, scene: Scene<'_>, x: f64, style: Style<'_>, room: f64, name: &str) {
    let mut first = Prose::new(scene.alloc);
    let mut rest = Prose::new(scene.alloc);
    let mut count = 0usize;
    for character in name.chars() {
        if points(count) * style.size * BOLD + bold_width("m", style.size) <= room {
            first.put_char(character);
            count = count.saturating_add(1);
        } else {
            rest.put_char(character);
        }
    }
    svg.words_made(x, 64.5, style, first.finish());
    svg.words_made(x, 77.0, style, cut_rest(scene, rest, room, style.size));
}

fn cut_rest(scene: Scene<'_>, rest: Prose, room: f64, size: f64) -> Result<String, AllocError> {
    LineRoom::new(scene.alloc, room, size * BOLD).cut(rest.as_str()?)
}

/// A bracket from a row to the last one, which says that they can be gone again and again.
pub fn draw_again(svg: &mut Svg, layout: Layout<'_>, event: usize) {
    let Layout { plan, sheet, .. } = layout;
    let top = match sheet.row_of(event) {
        Some(row) => row.top,
        None => TOP,
    };
    let bottom = sheet.end;
    svg.open("again and again");
    svg.line((10.0, top), (16.0, top), INK, BRACKET);
    svg.line((10.0, top), (10.0, bottom), INK, BRACKET);
    svg.line((10.0, bottom), (16.0, bottom), INK, BRACKET);
    let broken = "stroke-width=\"1\" stroke-dasharray=\"4 3\"";
    svg.line((16.0, top), (plan.width - 14.0, top), INK, broken);
    let below = sheet.bottom() + 16.0;
    svg.words(10.0, below, bold(12.0, INK), "again and again");
    svg.close();
}

/// Broken edges where rows are left out before the first or after the last.
pub fn draw_edges(svg: &mut Svg, scene: Scene<'_>, layout: Layout<'_>) {
    let Layout { plan, sheet, .. } = layout;
    if sheet.before > 0 {
        draw_edge(svg, scene, plan, TOP, sheet.before);
    }
    if sheet.after > 0 {
        draw_edge(svg, scene, plan, sheet.end, sheet.after);
    }
}

fn edge_words(alloc: Global, count: usize) -> Result<String, AllocError> {
    if count == 1 {
        return String::from_str(alloc, "1 row is left out");
    }
    format!(in alloc; "{count} rows are left out")
}

// A broken edge, which says how many rows are left out.
fn draw_edge(svg: &mut Svg, scene: Scene<'_>, plan: &Plan, top: f64, count: usize) {
    match edge_words(scene.alloc, count) {
        Ok(words) => draw_edge_with(svg, plan, top, words.as_str()),
        Err(_) => svg.refuse(),
    }
}

fn draw_edge_with(svg: &mut Svg, plan: &Plan, top: f64, words: &str) {
    svg.open(words);
    let middle = top + EDGE / 2.0;
    let right = plan.width - 14.0;
    svg.block(Block::plain(14.0, top + 2.0, plan.width - 28.0, EDGE - 4.0, "#fff"));
    svg.zigzag((14.0, middle), right, PALE);
    let width = plain_width(words, 10.5) + 16.0;
    svg.block(Block::plain(40.0, top + 2.0, width, EDGE - 4.0, "#fff"));
    svg.words(48.0, middle + 4.0, FAINT, words);
    svg.close();
}

/// What stands below the rows: how the run stops, and lines about it.
pub fn draw_end(svg: &mut Svg, scene: Scene<'_>, plan: &Plan, top: f64, lines: &[EndLine]) {
    match end_words(scene.alloc, scene.story) {
        Ok(words) => draw_outcome(svg, scene, plan, top, words.as_str()),
        Err(_) => svg.refuse(),
    }
    let mut y = top + 46.0;
    for line in lines {
        svg.words(
            26.0,
            y,
            Style::new(12.0, line.fill, ""),
            line.words.as_str().trim(),
        );
        y += 20.0;
    }
}

/// A line below the badge.
#[derive(Drop)]
pub struct EndLine {
    words: String,
    fill: &'static str,
}

/// What stands below the badge of a picture of this width: what a run error is of, who waits and why they are not woken, and that numbers of the
/// schedule are not used.
pub fn end_lines(scene: Scene<'_>, width: f64) -> Result<Vec<EndLine>, AllocError> {
    let room = LineRoom::new(scene.alloc, width - 46.0, 12.0 * WIDTH);
    let mut lines = Vec::new(scene.alloc);
    if let Some(words) = failure_words(scene)? {
        push_lines(&mut lines, room.wrap(words.as_str()), INK)?;
    }
    let fill = if all_wait(scene.story) { RED } else { INK };
    for wait in &scene.story.waits {
        let words = wait_words(scene.alloc, scene.legend, wait)?;
        lines.push(EndLine { words, fill })?;
    }
    for reason in &scene.story.reasons {
        let words = reason_text(scene.alloc, scene.legend, reason)?;
        push_lines(&mut lines, room.wrap(words.as_str()), INK)?;
    }
    if let Some(words) = unused_words(scene.alloc, scene.story.left)? {
        push_lines(&mut lines, room.wrap(words.as_str()), INK)?;
    }
    Ok(lines)
}

fn push_lines(
    lines: &mut Vec<EndLine>,
    more: Result<Vec<String>, AllocError>,
    fill: &'static str,
) -> Result<(), AllocError> {
    for words in more? {
        lines.push(EndLine { words, fill })?;
    }
    Ok(())
}

// What a run error is of, where the label of the stop does not say so.
fn failure_words(scene: Scene<'_>) -> Result<Option<String>, AllocError> {
    let Some(stop) = &scene.story.stop else {
        return Ok(None);
    };
    let words = words_of_stop(scene, stop)?;
    if words.as_str() == stop.words.as_str() {
        return Ok(None);
    }
    Ok(Some(words))
}

// How the run stops, with the last line of the trace beside it.
fn draw_outcome(svg: &mut Svg, scene: Scene<'_>, plan: &Plan, top: f64, words: &str) {
    let width = bold_width(words, 12.5) + 26.0;
    svg.open(scene.end);
    svg.block(Block {
        radius: 13.0,
        ..Block::plain(20.0, top, width, 26.0, end_colour(scene.story))
    });
    svg.words(33.0, top + 17.5, bold(12.5, "#fff"), words);
    let beside = 20.0 + width + 14.0;
    let room = LineRoom::new(scene.alloc, plan.width - beside - 20.0, 12.0 * WIDTH);
    svg.words_made(beside, top + 17.5, light(12.0), room.cut(scene.outcome));
    svg.close();
}

fn end_colour(story: &Story) -> &'static str {
    let RunEnd::Ended { outcome, .. } = &story.end else {
        return SLATE;
    };
    match outcome.kind {
        OutcomeKind::Finished => GREEN,
        OutcomeKind::AllWaiting | OutcomeKind::RunError { .. } => RED,
        OutcomeKind::ChoiceLimit | OutcomeKind::StepLimit | OutcomeKind::OutputLimit => SLATE,
    }
}
