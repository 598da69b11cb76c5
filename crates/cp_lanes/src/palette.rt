//! Colours. A colour is a monitor. The eight are those that stay apart for the colour-blind; from the ninth monitor on they come with a hatch, again
//! and again.

use crate::svg::Style;

/// The colours of a monitor.
#[derive(Clone, Copy)]
pub struct Hue {
    /// Of edges and patterns.
    pub strong: &'static str,
    /// Of letters on the strong one.
    pub letters: &'static str,
    /// Of boxes, without a hatch.
    pub soft: &'static str,
    /// What boxes and bars are filled with.
    pub stay: &'static str,
    pub bar: &'static str,
    /// The patterns of waiting at the gate and in a queue.
    pub gate: &'static str,
    pub queue: &'static str,
    pub is_hatched: bool,
}

pub const INK: &str = "#1f2933";

pub const GREY: &str = "#4f5a65";

/// The style of what matters less.
pub const FAINT: Style<'static> = Style {
    size: 10.5,
    fill: GREY,
    more: "",
};

/// Of lines that matter less.
pub const PALE: &str = "#98a2ad";

pub const RED: &str = "#b3261e";

pub const GREEN: &str = "#2e7d32";

pub const SLATE: &str = "#52606d";

pub const WHITE: &str = "#fff";

/// How many monitors have colours of their own.
pub const HUES: u8 = 8;

/// How many are told apart, by a colour or a hatch.
pub const PATTERNS: u8 = 16;

/// The colours of a monitor.
pub fn hue_of(monitor: u8) -> Hue {
    if monitor < HUES {
        plain_hue(monitor)
    } else {
        hatched_hue(monitor % HUES)
    }
}

fn plain_hue(number: u8) -> Hue {
    match number {
        0 => plain("#1f5fa8", "#dbe5f1", WHITE, "url(#gate0)", "url(#queue0)"),
        1 => plain("#e2801e", "#f9e6d2", INK, "url(#gate1)", "url(#queue1)"),
        2 => plain("#5fa59e", "#dcebea", INK, "url(#gate2)", "url(#queue2)"),
        3 => plain("#a585ff", "#ebe4ff", INK, "url(#gate3)", "url(#queue3)"),
        4 => plain("#9f4814", "#f0e2d9", WHITE, "url(#gate4)", "url(#queue4)"),
        5 => plain("#686061", "#e1dfdf", WHITE, "url(#gate5)", "url(#queue5)"),
        6 => plain("#1c293b", "#e4e5e7", WHITE, "url(#gate6)", "url(#queue6)"),
        _ => plain("#441b11", "#e5dfde", WHITE, "url(#gate7)", "url(#queue7)"),
    }
}

fn hatched_hue(number: u8) -> Hue {
    let (gate, queue) = waiting_patterns(number);
    let (stay, bar) = filling_patterns(number);
    Hue {
        stay,
        bar,
        gate,
        queue,
        is_hatched: true,
        ..plain_hue(number)
    }
}

// Of waiting at the gate and in a queue, with a hatch.
fn waiting_patterns(number: u8) -> (&'static str, &'static str) {
    match number {
        0 => ("url(#gate8)", "url(#queue8)"),
        1 => ("url(#gate9)", "url(#queue9)"),
        2 => ("url(#gate10)", "url(#queue10)"),
        3 => ("url(#gate11)", "url(#queue11)"),
        4 => ("url(#gate12)", "url(#queue12)"),
        5 => ("url(#gate13)", "url(#queue13)"),
        6 => ("url(#gate14)", "url(#queue14)"),
        _ => ("url(#gate15)", "url(#queue15)"),
    }
}

// Of boxes and bars, with a hatch.
fn filling_patterns(number: u8) -> (&'static str, &'static str) {
    match number {
        0 => ("url(#stay8)", "url(#bar8)"),
        1 => ("url(#stay9)", "url(#bar9)"),
        2 => ("url(#stay10)", "url(#bar10)"),
        3 => ("url(#stay11)", "url(#bar11)"),
        4 => ("url(#stay12)", "url(#bar12)"),
        5 => ("url(#stay13)", "url(#bar13)"),
        6 => ("url(#stay14)", "url(#bar14)"),
        _ => ("url(#stay15)", "url(#bar15)"),
    }
}

fn plain(
    strong: &'static str,
    soft: &'static str,
    letters: &'static str,
    gate: &'static str,
    queue: &'static str,
) -> Hue {
    Hue {
        strong,
        letters,
        soft,
        stay: soft,
        bar: strong,
        gate,
        queue,
        is_hatched: false,
    }
}
