//! Rows: what happened, who could be chosen, what changed, and where it stands in the source.

use crate::changes::{SWATCH, changes_words};
use crate::draw::{draw_resumed, write_process};
use crate::key::{BROKEN, FULL, draw_lost, draw_square};
use crate::labels::{FIXED, Face, PictureLabel, pill_width, points};
use crate::palette::{FAINT, GREY, INK, hue_of};
use crate::pictures::{Layout, Scene, source_line};
use crate::plan::{Column, Plan, ROW};
use crate::sheet::{Fold, LINE, PictureRow};
use crate::spans::Spans;
use crate::stops::draw_stop;
use crate::svg::{AT_END, BOLD_MIDDLE, BOLD_TYPE, Block, MIDDLE, Style, Svg};
use crate::wrapping::{LineRoom, label_lines};
use cp_story::{Choice, Happening, StoryEvent, happening_words};

/// The free space between two lanes, into which a label may reach.
pub const GAP: f64 = 12.0;

/// Draws the rows.
pub fn draw_rows(svg: &mut Svg, scene: Scene<'_>, layout: Layout<'_>) {
    for stay in &layout.spans.stays {
        draw_resumed(svg, scene, layout, stay);
    }
    for row in &layout.sheet.rows {
        draw_row(svg, scene, layout, row);
    }
}

fn draw_row(svg: &mut Svg, scene: Scene<'_>, layout: Layout<'_>, row: &PictureRow) {
    if let (Some(first), Some(label)) = (row.events(scene.story).first(), &row.label) {
        open_row(svg, scene, row);
        draw_number(svg, scene, row);
        draw_event(svg, scene, layout, row, first, label);
        draw_changes(svg, layout.plan, row);
        draw_source(svg, scene, layout.plan, first.line, row.middle());
        svg.close();
        return;
    }
    match &scene.story.stop {
        Some(stop) => draw_stop(svg, scene, layout, row, stop),
        None => {}
    }
}

// What happened in a row, of which this is the first event.
fn draw_event(
    svg: &mut Svg,
    scene: Scene<'_>,
    layout: Layout<'_>,
    row: &PictureRow,
    event: &StoryEvent,
    label: &PictureLabel,
) {
    let plan = layout.plan;
    let y = row.middle();
    match row.fold {
        Fold::None => {
            if let Some(choice) = &event.choice {
                draw_choice(svg, choice, y);
            }
            draw_dot(svg, plan, event, y);
        }
        Fold::Starts | Fold::Rounds(_) => draw_folded(svg, scene, plan, row, event),
    }
    for event in row.events(scene.story) {
        draw_arrows(svg, plan, event, label, y);
    }
    let room = room_of_label(layout, event, row);
    let lane = plan.lane(event.plain.process);
    draw_label(svg, scene, lane, label, room, y);
}

// How often a process was chosen whose events are folded, and a dot that stands for several.
fn draw_folded(svg: &mut Svg, scene: Scene<'_>, plan: &Plan, row: &PictureRow, event: &StoryEvent) {
    let process = event.plain.process;
    let y = row.middle();
    let mut count = 0u32;
    for event in row.events(scene.story) {
        if event.choice.is_some() {
            count = count.saturating_add(1);
        }
    }
    if count > 0 {
        draw_option(svg, 54.0, y, process, true, false);
        svg.words(68.0, y + 3.8, FAINT, "×");
        svg.number(77.0, y + 3.8, FAINT, count);
    }
    let x = plan.dot(process);
    svg.circle(x, y - 5.0, 2.2, INK, "");
    svg.circle(x, y, 2.2, INK, "");
    svg.circle(x, y + 5.0, 2.2, INK, "");
}

// How much room a label has, with that of the lanes beside it in which there is nothing but the line of a life.
fn room_of_label(layout: Layout<'_>, event: &StoryEvent, row: &PictureRow) -> f64 {
    let process = event.plain.process;
    match row.fold {
        Fold::None if !points_right(event) => room_beside(layout, process, row.middle()),
        _ => layout.plan.lane(process).width - 36.0,
    }
}

// Whether an arrow of an event lies over the lanes on the right.
fn points_right(event: &StoryEvent) -> bool {
    let process = event.plain.process;
    match event.happening {
        Happening::Start(started) if started > process => true,
        _ => is_below_one(process, event.woken.as_slice())
            || is_below_one(process, event.let_in.as_slice()),
    }
}

fn is_below_one(process: u8, others: &[u8]) -> bool {
    for other in others {
        if process < *other {
            return true;
        }
    }
    false
}

/// The room in the lane of a process and in the free ones beside it.
pub fn room_beside(layout: Layout<'_>, process: u8, y: f64) -> f64 {
    let plan = layout.plan;
    let mut room = plan.lane(process).width - 36.0 + GAP;
    for number in usize::from(process).saturating_add(1)..plan.lanes.len() {
        let other = u8::try_from(number).unwrap_or(0);
        if is_busy(layout.spans, other, y) {
            return room;
        }
        room += plan.lane(other).width + 16.0;
    }
    room
}

// Whether a process is inside of a monitor there, or waits.
fn is_busy(spans: &Spans, process: u8, y: f64) -> bool {
    for stay in &spans.stays {
        if stay.process == process && stay.top - ROW / 2.0 <= y && y <= stay.bottom + ROW / 2.0 {
            return true;
        }
    }
    for pause in &spans.pauses {
        if pause.process == process && pause.top - ROW / 2.0 <= y && y <= pause.bottom + ROW / 2.0 {
            return true;
        }
    }
    false
}

// Begins a row with a title: what happened, and what changed.
fn open_row(svg: &mut Svg, scene: Scene<'_>, row: &PictureRow) {
    let events = row.events(scene.story);
    svg.begin_title();
    let mut is_first = true;
    for event in events {
        if !is_first {
            svg.raw("; ");
        }
        is_first = false;
        write_event(svg, scene, event);
    }
    write_changes(svg, scene, events);
    svg.end_title();
}

fn write_event(svg: &mut Svg, scene: Scene<'_>, event: &StoryEvent) {
    write_process(svg, scene, event.plain.process);
    if let Some(line) = event.line {
        svg.raw(", line ");
        svg.digits(line);
    }
    svg.raw(": ");
    svg.escape_made(happening_words(scene.alloc, scene.legend, event));
}

/// Writes what changed, behind what happened.
pub fn write_changes(svg: &mut Svg, scene: Scene<'_>, events: &[StoryEvent]) {
    match changes_words(scene, events) {
        Ok(changes) => {
            svg.raw(if changes.is_empty() { "" } else { "; " });
            svg.escape(changes.as_str());
        }
        Err(_) => svg.refuse(),
    }
}

/// Draws the number of a row, or the first and the last of those that are folded.
pub fn draw_number(svg: &mut Svg, scene: Scene<'_>, row: &PictureRow) {
    let alloc = scene.alloc;
    let style = Style::new(9.5, GREY, AT_END);
    let y = row.middle() + 3.5;
    let first = row.first.saturating_add(1);
    let last = row.first.saturating_add(row.count);
    if first >= last {
        svg.words_made(36.0, y, style, format!(in alloc; "{last}"));
    } else if last < 100 {
        svg.words_made(36.0, y, style, format!(in alloc; "{first}–{last}"));
    } else {
        svg.words_made(36.0, y - 5.0, style, format!(in alloc; "{first}–"));
        svg.words_made(36.0, y + 5.0, style, format!(in alloc; "{last}"));
    }
}

/// Draws circles for those who could go on, squares for those who could be let in; the chosen one is filled.
pub fn draw_choice(svg: &mut Svg, choice: &Choice, y: f64) {
    for (place, option) in choice.options.as_slice().iter().enumerate() {
        let x = 54.0 + points(place) * 22.0;
        let is_chosen = *option == choice.number;
        draw_option(svg, x, y, *option, is_chosen, choice.at_gate);
    }
}

fn draw_option(svg: &mut Svg, x: f64, y: f64, option: u8, is_chosen: bool, at_gate: bool) {
    if at_gate {
        let (fill, edge) = if is_chosen {
            (INK, INK)
        } else {
            ("#fff", "#aab4be")
        };
        draw_square(svg, x - 9.0, y - 9.0, 18.0, fill, edge);
    } else if is_chosen {
        svg.circle(x, y, 9.0, INK, "");
    } else {
        svg.circle(x, y, 8.5, "#fff", "stroke=\"#aab4be\"");
    }
    let style = if is_chosen {
        Style::new(10.5, "#fff", BOLD_MIDDLE)
    } else {
        Style::new(10.5, GREY, MIDDLE)
    };
    svg.number(x, y + 3.8, style, u32::from(option));
}

fn draw_dot(svg: &mut Svg, plan: &Plan, event: &StoryEvent, y: f64) {
    let x = plan.dot(event.plain.process);
    match event.happening {
        Happening::End => svg.block(Block::plain(x - 5.5, y - 5.5, 11.0, 11.0, INK)),
        _ if event.wakes_nobody() => draw_lost(svg, x, y),
        _ => svg.circle(x, y, 4.6, INK, ""),
    }
}

// A label in one line, or in two; what has no room in two is cut at a word.
fn draw_label(
    svg: &mut Svg,
    scene: Scene<'_>,
    lane: Column,
    label: &PictureLabel,
    beside: f64,
    y: f64,
) {
    let x = lane.left + 31.0;
    let pill_room = match &label.pill {
        Some(pill) => pill_width(pill.as_str()) + 10.0,
        None => 0.0,
    };
    let room = (lane.width - 36.0 - pill_room).max(20.0);
    let has_room = label.words_width() <= room;
    let style = style_of(label.face);
    if has_room {
        svg.words(x, y + 4.0, style, label.words.as_str());
    } else if label.pill.is_none() {
        let small = Style::new(10.5, style.fill, halo_of(label.face));
        let beside = (beside - pill_room).max(room);
        svg.lines_made(x, y, small, label_lines(scene.alloc, label, room, beside));
    }
    if let Some(pill) = &label.pill {
        let left = if has_room {
            x + label.words_width() + 10.0
        } else {
            x
        };
        draw_pill(svg, left, y, pill.as_str());
    }
}

fn style_of(face: Face) -> Style<'static> {
    match face {
        Face::Plain => Style::new(11.5, INK, ""),
        Face::Faint => Style::new(11.5, GREY, ""),
        Face::Bold => Style::new(11.5, INK, BOLD_TYPE),
    }
}

/// The attributes of a label that may go beyond its lane: it has white edges, which hide the lines behind it.
pub fn halo_of(face: Face) -> &'static str {
    if face == Face::Bold {
        "font-weight=\"bold\" stroke=\"#fff\" stroke-width=\"3\" stroke-opacity=\".7\" paint-order=\"stroke\""
    } else {
        "stroke=\"#fff\" stroke-width=\"3\" stroke-opacity=\".7\" paint-order=\"stroke\""
    }
}

fn draw_pill(svg: &mut Svg, x: f64, y: f64, value: &str) {
    let width = pill_width(value);
    svg.block(Block {
        radius: 9.5,
        ..Block::plain(x, y - 9.5, width, 19.0, INK)
    });
    let white = Style::new(11.5, "#fff", BOLD_MIDDLE);
    svg.words(x + width / 2.0, y + 4.0, white, value);
}

// Arrows to whom the event moves: full to who is started or woken, broken to who is let in.
fn draw_arrows(svg: &mut Svg, plan: &Plan, event: &StoryEvent, label: &PictureLabel, y: f64) {
    let process = event.plain.process;
    if let Happening::Start(started) = event.happening {
        draw_arrow(svg, plan, process, started, label, y, y, FULL);
    }
    for other in event.woken.as_slice() {
        draw_arrow(svg, plan, process, *other, label, y, y + 13.0, FULL);
    }
    for other in event.let_in.as_slice() {
        draw_arrow(svg, plan, process, *other, label, y, y + 13.0, BROKEN);
    }
}

// An arrow from what a label says to the lane of another process.
fn draw_arrow(
    svg: &mut Svg,
    plan: &Plan,
    from: u8,
    to: u8,
    label: &PictureLabel,
    y: f64,
    end: f64,
    more: &str,
) {
    let target = plan.dot(to);
    if from < to {
        let lane = plan.lane(from);
        let begin = (lane.left + 31.0 + label.width() + 8.0).min(lane.left + lane.width);
        svg.line((begin, y), (target - 11.0, end), INK, more)
    } else {
        svg.line((plan.dot(from) - 8.0, y), (target + 11.0, end), INK, more)
    }
}

/// Draws what changed, in lines; the first of each monitor has a sign in its colour.
pub fn draw_changes(svg: &mut Svg, plan: &Plan, row: &PictureRow) {
    let above = points(row.changes.len().saturating_sub(1)) * LINE / 2.0;
    let mut at = row.middle() + 4.0 - above;
    let left = plan.changes.left;
    let mut last = None;
    for line in &row.changes {
        if last != Some(line.monitor) {
            svg.block(Block::plain(left, at - 8.0, 6.0, 9.0, hue_of(line.monitor).bar));
        }
        last = Some(line.monitor);
        svg.words(
            left + SWATCH,
            at,
            Style::new(10.5, INK, ""),
            line.words.as_str(),
        );
        at += LINE;
    }
}

/// Draws a line of the source, by its number and its text.
pub fn draw_source(svg: &mut Svg, scene: Scene<'_>, plan: &Plan, line: Option<u32>, y: f64) {
    let Some(line) = line else {
        return;
    };
    if scene.is_plain {
        return;
    }
    svg.number(plan.numbers, y + 4.0, Style::new(10.5, GREY, AT_END), line);
    if plan.source.width <= 0.0 {
        return;
    }
    let text = source_line(scene.source, line);
    let monospace = "font-family=\"DejaVu Sans Mono, Menlo, Consolas, monospace\"";
    let style = Style::new(10.5, "#3e4c59", monospace);
    let text = LineRoom::new(scene.alloc, plan.source.width, 10.5 * FIXED).cut(text);
    svg.words_made(plan.source.left, y + 4.0, style, text);
}
