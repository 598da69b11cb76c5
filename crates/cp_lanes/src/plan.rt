//! Where everything stands in the picture.

use crate::labels::{bold_width, plain_width, points};
use crate::pictures::Scene;
use crate::sheet::Sheet;
use crate::stops::stop_width;
use cp_legend::Legend;
use cp_machine::Signals;
use cp_story::{Happening, Story};
use std::alloc::AllocError;

/// How wide a picture is at most, where its lanes can be made narrow enough.
const SCREEN: f64 = 1600.0;

/// How wide a picture is at least, for its key.
const NARROWEST: f64 = 1010.0;

/// The height of a row.
pub const ROW: f64 = 30.0;

/// Where the first row begins.
pub const TOP: f64 = 104.0;

/// What is wider than all names.
const ANY_WIDTH: f64 = 10000.0;

/// A column, by its left edge and its width.
#[derive(Clone, Copy, Drop)]
pub struct Column {
    pub left: f64,
    pub width: f64,
}

const NO_COLUMN: Column = Column {
    left: 0.0,
    width: 0.0,
};

/// What is written in the columns on the right.
#[derive(Clone, Copy)]
pub struct Widths {
    /// What changed.
    pub changes: f64,
    /// The longest word of that, which no line breaks.
    pub longest_word: f64,
    /// The text of the lines of the source.
    pub source: f64,
}

/// The columns of a picture.
#[derive(Drop)]
pub struct Plan {
    pub lanes: Vec<Column>,
    pub bars: Vec<Column>,
    pub changes: Column,
    /// The right edge of the numbers of lines.
    pub numbers: f64,
    /// The text of the source; its width is 0 where there is no room for it.
    pub source: Column,
    pub width: f64,
}

impl Plan {
    pub fn lane(&self, process: u8) -> Column {
        column_at(&self.lanes, process)
    }

    pub fn bar(&self, monitor: u8) -> Column {
        column_at(&self.bars, monitor)
    }

    /// The middle of the dots in the lane of a process.
    pub fn dot(&self, process: u8) -> f64 {
        self.lane(process).left + 17.0
    }
}

fn column_at(columns: &[Column], number: u8) -> Column {
    match columns.get(number as usize) {
        Some(column) => *column,
        None => NO_COLUMN,
    }
}

/// How wide lanes and bars would like to be, with the space after each.
#[derive(Drop)]
struct NaturalWidths {
    lanes: Vec<f64>,
    bars: Vec<f64>,
}

/// The plan of a story whose labels and right columns have these widths.
pub fn plan_of(scene: Scene<'_>, sheet: &Sheet, widths: Widths) -> Result<Plan, AllocError> {
    let mut natural = NaturalWidths {
        lanes: Vec::new(scene.alloc),
        bars: Vec::new(scene.alloc),
    };
    natural.push_lanes(scene, sheet)?;
    natural.push_bars(scene.legend)?;
    plan_within(scene, &natural, widths)
}

// The plan with right columns, and at last lanes, that are narrower where there is no room.
fn plan_within(
    scene: Scene<'_>,
    natural: &NaturalWidths,
    widths: Widths,
) -> Result<Plan, AllocError> {
    // The numbers of lines have a column where there is a source.
    let (beside, numbers, narrowest) = if scene.is_plain {
        (56.0, 0.0, 420.0)
    } else {
        (110.0, 44.0, NARROWEST)
    };
    let left = left_edge(scene.story);
    let wanted = sum(&natural.lanes, ANY_WIDTH);
    let fixed = left + sum(&natural.bars, ANY_WIDTH) + beside;
    let widths = narrow_widths(widths, fixed, wanted);
    let most = fair_share(
        &natural.lanes,
        SCREEN - fixed - widths.changes - widths.source,
    );
    let mut lanes = Vec::new(scene.alloc);
    let at = push_columns(&mut lanes, &natural.lanes, left, most, 16.0)?;
    let mut bars = Vec::new(scene.alloc);
    let at = push_columns(&mut bars, &natural.bars, at + 10.0, ANY_WIDTH, 6.0)? + 14.0;
    let numbers = at + widths.changes + numbers;
    let source = Column {
        left: numbers + 10.0,
        width: widths.source,
    };
    Ok(Plan {
        lanes,
        bars,
        changes: Column {
            left: at,
            width: widths.changes,
        },
        numbers,
        source,
        width: (source.left + source.width + 16.0).max(narrowest),
    })
}

// The widths of the right columns that there is room for beside the lanes.
fn narrow_widths(natural: Widths, fixed: f64, lanes: f64) -> Widths {
    let mut widths = natural;
    if fixed + lanes + widths.changes + widths.source > SCREEN {
        widths.source = (SCREEN - fixed - lanes - widths.changes).max(0.0);
        if widths.source < 150.0 {
            widths.source = 0.0;
        }
    }
    if fixed + lanes + widths.changes > SCREEN {
        widths.changes = widths.changes.min(widths.longest_word.max(170.0));
    }
    widths
}

// Appends columns side by side, each with a space after it, and answers where the next one would begin.
fn push_columns(
    columns: &mut Vec<Column>,
    widths: &[f64],
    left: f64,
    most: f64,
    space: f64,
) -> Result<f64, AllocError> {
    let mut at = left;
    for width in widths {
        let width = width.min(most);
        columns.push(Column {
            left: at,
            width: width - space,
        })?;
        at += width;
    }
    Ok(at)
}

// The sum of some widths, each cut at the most.
fn sum(widths: &[f64], most: f64) -> f64 {
    let mut total = 0.0;
    for width in widths {
        total += width.min(most);
    }
    total
}

// The width at which lanes are cut so that all together have no more than the room: narrow ones leave theirs to the others. Each has room for `continue(`.
fn fair_share(widths: &[f64], room: f64) -> f64 {
    if sum(widths, ANY_WIDTH) <= room {
        return room.max(0.0) + 10000.0;
    }
    let mut share = 108.0;
    for _ in 0..192u8 {
        if sum(widths, share + 4.0) > room {
            break;
        }
        share += 4.0;
    }
    share
}

// The choices stand left of the lanes.
fn left_edge(story: &Story) -> f64 {
    let mut most = 0usize;
    for event in &story.events {
        if let Some(choice) = &event.choice {
            most = most.max(choice.options.as_slice().len());
        }
    }
    if let Some(choice) = &story.last_choice {
        most = most.max(choice.options.as_slice().len());
    }
    (54.0 + points(most) * 22.0).max(112.0)
}

impl NaturalWidths {
    fn push_lanes(&mut self, scene: Scene<'_>, sheet: &Sheet) -> Result<(), AllocError> {
        let story = scene.story;
        for process in 0..scene.legend.processes() {
            let head = head_width(scene.legend, story, process);
            let most = head.max(widest_label(story, sheet, process));
            let most = most.max(stop_width(scene, process)?);
            self.lanes.push(lane_width(story, process, most))?;
        }
        Ok(())
    }

    fn push_bars(&mut self, legend: &Legend) -> Result<(), AllocError> {
        let monitors = legend.monitors();
        let most = if monitors > 6 { 64.0 } else { 130.0 };
        for monitor in 0..monitors {
            let name = bold_width(legend.monitor_name(monitor), 10.5) + 16.0;
            self.bars.push(name.max(40.0).min(most) + 6.0)?;
        }
        Ok(())
    }
}

// The width of the head of a lane; that of a process which is not started has no room for its name.
fn head_width(legend: &Legend, story: &Story, process: u8) -> f64 {
    if !takes_part(story, process) {
        return 50.0;
    }
    let head = 44.0
        + bold_width(legend.process_name(process), 12.0)
        + plain_width(legend.process_type(process), 12.0);
    head.max(100.0)
}

// The width of the widest label in a lane; 0 where there is none.
fn widest_label(story: &Story, sheet: &Sheet, process: u8) -> f64 {
    let mut most: f64 = 0.0;
    for row in &sheet.rows {
        if let (Some(event), Some(label)) = (story.events.get(row.first), &row.label) {
            if event.plain.process == process {
                most = most.max(31.0 + label.width() + 12.0);
            }
        }
    }
    most
}

// The width of a lane in which the widest has this width, with the space after it.
fn lane_width(story: &Story, process: u8, widest: f64) -> f64 {
    let inset = if is_nested(story, process) { 8.0 } else { 0.0 };
    (widest + inset).min(330.0) + 16.0
}

// Whether a process is the program, or is started.
fn takes_part(story: &Story, process: u8) -> bool {
    for event in &story.events {
        if let Happening::Start(started) = event.happening {
            if started == process {
                return true;
            }
        }
    }
    process == 0
}

// Whether a process calls a monitor from inside of another one.
fn is_nested(story: &Story, process: u8) -> bool {
    let mut depth = 0usize;
    for event in &story.events {
        if event.plain.process == process {
            match event.happening {
                Happening::Enter { .. } => depth = depth.saturating_add(1),
                Happening::Leave(_) | Happening::Continue(_, _, Signals::Return) => {
                    depth = depth.saturating_sub(1);
                }
                _ => {}
            }
        }
        if depth > 1 {
            return true;
        }
    }
    false
}
