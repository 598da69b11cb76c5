//! The rows of a picture: which events have one of their own, which are folded, and which are left out.

use crate::changes::{ChangeLine, changes_in_lines};
use crate::labels::{PictureLabel, label_of, points};
use crate::pictures::Scene;
use crate::plan::{ROW, TOP};
use cp_story::{Happening, Story, StoryEvent};
use std::alloc::AllocError;

/// How many starts, or rounds of one process alone, are folded at least.
const FEWEST: usize = 3;

/// How many events a round has at most.
const LONGEST: usize = 8;

/// The height of the edge beyond which rows are left out.
pub const EDGE: f64 = 24.0;

/// The height of a line of what changed.
pub const LINE: f64 = 13.0;

/// Which rows are drawn, counted from 1.
#[derive(Clone, Copy)]
pub enum SheetExtent {
    All,
    Between(usize, usize),
    Last(usize),
}

/// Why a row stands for several events.
#[derive(Clone, Copy)]
pub enum Fold {
    None,
    /// Starts at the beginning.
    Starts,
    /// So many rounds of one process alone.
    Rounds(usize),
}

/// A row: an event, the stop after the last one, or some events that are folded.
#[derive(Drop)]
pub struct PictureRow {
    /// The first of its events, counted from 0.
    pub first: usize,
    pub count: usize,
    pub fold: Fold,
    /// None beside a stop.
    pub label: Option<PictureLabel>,
    /// What changed, in lines.
    pub changes: Vec<ChangeLine>,
    pub top: f64,
    pub height: f64,
}

/// The rows with their places.
#[derive(Drop)]
pub struct Sheet {
    pub rows: Vec<PictureRow>,
    /// How many events are left out before and after these.
    pub before: usize,
    pub after: usize,
    /// Where the last row ends.
    pub end: f64,
}

impl PictureRow {
    /// The middle.
    pub fn middle(&self) -> f64 {
        self.top + self.height / 2.0
    }

    /// The events of a story that it stands for.
    pub fn events<'a>(&self, story: &'a Story) -> &'a [StoryEvent] {
        let end = self
            .first
            .saturating_add(self.count)
            .min(story.events.len());
        story.events.get(self.first..end).unwrap_or(&[])
    }
}

impl Sheet {
    /// Where an event stands: above all rows or below them where it is left out.
    pub fn middle(&self, event: usize) -> f64 {
        if event < self.before {
            return TOP - 200.0;
        }
        for row in &self.rows {
            if event < row.first.saturating_add(row.count) {
                return row.middle();
            }
        }
        self.end + 200.0
    }

    /// The row of an event, if it has one of its own.
    pub fn row_of(&self, event: usize) -> Option<&PictureRow> {
        for row in &self.rows {
            if row.first == event && row.count == 1 {
                return Some(row);
            }
        }
        None
    }

    /// Gives each row its label.
    pub fn label(&mut self, scene: Scene<'_>) -> Result<(), AllocError> {
        for row in &mut self.rows {
            row.label = label_of(scene, row.first, row.count, row.fold)?;
        }
        Ok(())
    }

    /// Places the rows, one below the other, by the lines of what changed in each, which are this wide.
    pub fn place(&mut self, scene: Scene<'_>, width: f64) -> Result<(), AllocError> {
        let mut top = if self.before > 0 { TOP + EDGE } else { TOP };
        for row in &mut self.rows {
            row.changes = changes_in_lines(scene, row.events(scene.story), width)?;
            row.top = top;
            row.height = (points(row.changes.len()) * LINE + 8.0).max(ROW);
            top += row.height;
        }
        self.end = top;
        Ok(())
    }

    /// Makes the row of the stop as high as this at least, if it is drawn.
    pub fn heighten_stop(&mut self, story: &Story, height: f64) {
        if let Some(row) = self.rows.last_mut() {
            if row.events(story).is_empty() {
                row.height = row.height.max(height);
                self.end = row.top + row.height;
            }
        }
    }

    /// Where the rows and the edge below them end.
    pub fn bottom(&self) -> f64 {
        if self.after > 0 {
            self.end + EDGE
        } else {
            self.end
        }
    }
}

/// How many rows a story has, folded ones counted as what they stand for.
pub fn row_count(story: &Story) -> usize {
    let count = story.events.len();
    if story.stop.is_some() {
        count.saturating_add(1)
    } else {
        count
    }
}

/// The rows of a story, not placed yet; a row after the events is for its stop. No fold goes beyond the event with which a round begins.
pub fn sheet_of(scene: Scene<'_>) -> Result<Sheet, AllocError> {
    let total = row_count(scene.story);
    let (first, last) = bounds(scene.extent, total);
    let labels = event_labels(scene)?;
    let mut rows = Vec::new(scene.alloc);
    let mut at = first;
    for _ in first..last {
        if at < last {
            let end = match scene.again {
                Some(row) if at < row && row < last => row,
                _ => last,
            };
            at = at.saturating_add(push_rows(scene, &mut rows, &labels, at, end)?);
        }
    }
    Ok(Sheet {
        rows,
        before: first,
        after: total.saturating_sub(last),
        end: TOP,
    })
}

// What each event says.
fn event_labels(scene: Scene<'_>) -> Result<Vec<Option<PictureLabel>>, AllocError> {
    let mut labels = Vec::new(scene.alloc);
    for place in 0..scene.story.events.len() {
        labels.push(label_of(scene, place, 1, Fold::None)?)?;
    }
    Ok(labels)
}

// The first event that is drawn, and the one after the last.
fn bounds(extent: SheetExtent, total: usize) -> (usize, usize) {
    match extent {
        SheetExtent::All => (0, total),
        SheetExtent::Between(first, last) => {
            let first = first.saturating_sub(1).min(total);
            (first, last.min(total).max(first))
        }
        SheetExtent::Last(count) => (total.saturating_sub(count), total),
    }
}

// Appends the rows of the next events, and answers how many these are.
fn push_rows(
    scene: Scene<'_>,
    rows: &mut Vec<PictureRow>,
    labels: &[Option<PictureLabel>],
    at: usize,
    end: usize,
) -> Result<usize, AllocError> {
    let starts = starts_at(scene.story, at, end);
    if starts >= FEWEST {
        rows.push(new_row(scene, at, starts, Fold::Starts))?;
        return Ok(starts);
    }
    let (length, rounds) = rounds_at(scene.story, labels, at, end);
    if rounds < FEWEST {
        rows.push(new_row(scene, at, 1, Fold::None))?;
        return Ok(1);
    }
    for place in 0..length {
        rows.push(new_row(scene, at.saturating_add(place), 1, Fold::None))?;
    }
    let more = rounds.saturating_sub(1);
    let count = length.saturating_mul(more);
    rows.push(new_row(scene, at.saturating_add(length), count, Fold::Rounds(more)))?;
    Ok(length.saturating_mul(rounds))
}

fn new_row(scene: Scene<'_>, first: usize, count: usize, fold: Fold) -> PictureRow {
    PictureRow {
        first,
        count,
        fold,
        label: None,
        changes: Vec::new(scene.alloc),
        top: TOP,
        height: ROW,
    }
}

// How many starts there are at the beginning.
fn starts_at(story: &Story, at: usize, end: usize) -> usize {
    let mut count = 0usize;
    if at > 0 {
        return 0;
    }
    for event in &story.events {
        if count >= end || !matches!(event.happening, Happening::Start(_)) {
            return count;
        }
        count = count.saturating_add(1);
    }
    count
}

// The length of the shortest round that a process goes alone from an event on at least three times, and how often.
fn rounds_at(
    story: &Story,
    labels: &[Option<PictureLabel>],
    at: usize,
    end: usize,
) -> (usize, usize) {
    for length in 1..LONGEST {
        let mut same = 0usize;
        for place in at..end {
            let other = place.saturating_add(length);
            if other >= end
                || !is_same_process(story, at, place)
                || !is_same(story, labels, place, other)
            {
                break;
            }
            same = same.saturating_add(1);
        }
        let rounds = same.checked_div(length).unwrap_or(0).saturating_add(1);
        if rounds >= FEWEST {
            return (length, rounds);
        }
    }
    (1, 1)
}

// Whether two events are of one process.
fn is_same_process(story: &Story, place: usize, other: usize) -> bool {
    match (story.events.get(place), story.events.get(other)) {
        (Some(one), Some(two)) => one.plain.process == two.plain.process,
        _ => false,
    }
}

// Whether two events move one process alone, and say the same on the same line.
fn is_same(story: &Story, labels: &[Option<PictureLabel>], place: usize, other: usize) -> bool {
    let (Some(one), Some(two)) = (story.events.get(place), story.events.get(other)) else {
        return false;
    };
    let says_same = match (labels.get(place), labels.get(other)) {
        (Some(Some(one)), Some(Some(two))) => one.says_same(two),
        _ => false,
    };
    says_same
        && is_same_process(story, place, other)
        && moves_one_alone(one)
        && moves_one_alone(two)
        && one.line == two.line
}

// Whether an event starts, delays and ends nobody, and lets nobody else go on.
fn moves_one_alone(event: &StoryEvent) -> bool {
    let goes_on = match event.happening {
        Happening::Enter { waits, .. } => !waits,
        Happening::Leave(_) | Happening::Continue(..) | Happening::Display(_) => true,
        _ => false,
    };
    goes_on && event.woken.is_empty() && event.let_in.is_empty()
}
