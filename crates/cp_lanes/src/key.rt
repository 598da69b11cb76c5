//! What the signs mean that occur in a picture.

use crate::draw::all_wait;
use crate::labels::plain_width;
use crate::palette::{FAINT, INK, RED, WHITE, hue_of};
use crate::pictures::{Layout, Scene};
use crate::svg::{Block, Svg};
use cp_story::{Choice, Happening, StoryEvent};

/// Which signs occur.
#[derive(Clone, Copy)]
pub struct Signs {
    stays: bool,
    gates: bool,
    queues: bool,
    /// A wait that nobody is left to end.
    hopeless: bool,
    /// A process is chosen, or one of those at a gate.
    chosen: bool,
    admitted: bool,
    full: bool,
    broken: bool,
    lost: bool,
}

/// The attributes of an arrow to who is started or woken, and of one to who is let in.
pub const FULL: &str = "stroke-width=\"1.5\" marker-end=\"url(#arrow)\"";

pub const BROKEN: &str = "stroke-width=\"1.5\" stroke-dasharray=\"4 3\" marker-end=\"url(#arrow)\"";

/// How a sign of the key is drawn.
#[derive(Clone, Copy)]
enum KeySign {
    Stay,
    Gate,
    Queue,
    Hopeless,
    Chosen,
    Admitted,
    Full,
    Broken,
    Lost,
}

/// The signs, how wide each is drawn with the space after it, and what it means.
static KEY: [(KeySign, f64, &str); 9] = [
    (KeySign::Stay, 28.0, "inside a monitor"),
    (KeySign::Gate, 28.0, "waits at its gate"),
    (KeySign::Queue, 28.0, "delayed in a queue of it"),
    (
        KeySign::Hopeless,
        22.0,
        "nobody is left who could end this wait",
    ),
    (KeySign::Chosen, 44.0, "chosen; the other could go on too"),
    (
        KeySign::Admitted,
        44.0,
        "let in; the other waits at the gate too",
    ),
    (KeySign::Full, 34.0, "starts or wakes"),
    (KeySign::Broken, 34.0, "lets in"),
    (KeySign::Lost, 20.0, "continues a queue where nobody waits"),
];

/// The signs that occur in the rows.
pub fn signs_of(scene: Scene<'_>, layout: Layout<'_>) -> Signs {
    let mut signs = Signs {
        stays: !layout.spans.stays.is_empty(),
        gates: false,
        queues: false,
        hopeless: false,
        chosen: false,
        admitted: false,
        full: false,
        broken: false,
        lost: false,
    };
    let is_stuck = all_wait(scene.story);
    for pause in &layout.spans.pauses {
        signs.gates = signs.gates || pause.at_gate;
        signs.queues = signs.queues || !pause.at_gate;
        signs.hopeless = signs.hopeless || pause.lasts && is_stuck;
    }
    for row in &layout.sheet.rows {
        for event in row.events(scene.story) {
            signs.see_event(event);
        }
    }
    signs.see_choice(&scene.story.last_choice);
    signs
}

impl Signs {
    fn see_event(&mut self, event: &StoryEvent) {
        self.see_choice(&event.choice);
        let starts = matches!(event.happening, Happening::Start(_));
        self.full = self.full || starts || !event.woken.is_empty();
        self.broken = self.broken || !event.let_in.is_empty();
        self.lost = self.lost || event.wakes_nobody();
    }

    fn see_choice(&mut self, choice: &Option<Choice>) {
        if let Some(choice) = choice {
            self.chosen = self.chosen || !choice.at_gate;
            self.admitted = self.admitted || choice.at_gate;
        }
    }

    fn has(self, sign: KeySign) -> bool {
        match sign {
            KeySign::Stay => self.stays,
            KeySign::Gate => self.gates,
            KeySign::Queue => self.queues,
            KeySign::Hopeless => self.hopeless,
            KeySign::Chosen => self.chosen,
            KeySign::Admitted => self.admitted,
            KeySign::Full => self.full,
            KeySign::Broken => self.broken,
            KeySign::Lost => self.lost,
        }
    }

    /// How much room the key wants in a picture of a width.
    pub fn height(self, width: f64) -> f64 {
        let mut next = KeyPlace { x: LEFT, y: 36.0 };
        for (sign, drawn, words) in &KEY {
            if self.has(*sign) {
                next.take(whole_width(*drawn, words), width);
            }
        }
        next.y
    }
}

/// The left edge of the key.
const LEFT: f64 = 20.0;

/// Where a sign stands.
#[derive(Clone, Copy)]
struct KeyPlace {
    x: f64,
    y: f64,
}

impl KeyPlace {
    // Where a sign of this width stands, in another line where there is no room for it; the next one stands after it.
    fn take(&mut self, wide: f64, width: f64) -> KeyPlace {
        if self.x > LEFT && self.x + wide > width {
            self.x = LEFT;
            self.y += 24.0;
        }
        let place = *self;
        self.x += wide;
        place
    }
}

// How wide a sign is with what it means, and with the space after that.
fn whole_width(drawn: f64, words: &str) -> f64 {
    drawn + plain_width(words, 10.5) + 24.0
}

/// Draws the signs that occur, with what they mean, in as many lines as they need.
pub fn draw_key(svg: &mut Svg, signs: Signs, width: f64, top: f64) {
    svg.open("what the signs mean");
    let mut next = KeyPlace { x: LEFT, y: top };
    for (sign, drawn, words) in &KEY {
        if signs.has(*sign) {
            let KeyPlace { x, y } = next.take(whole_width(*drawn, words), width);
            draw_sign(svg, *sign, x, y);
            svg.words(x + *drawn, y + 11.0, FAINT, words);
        }
    }
    svg.close();
}

fn draw_sign(svg: &mut Svg, sign: KeySign, x: f64, y: f64) {
    let hue = hue_of(0);
    match sign {
        KeySign::Stay => draw_box(svg, x, y, hue.soft),
        KeySign::Gate => draw_box(svg, x, y, hue.gate),
        KeySign::Queue => draw_box(svg, x, y, hue.queue),
        KeySign::Hopeless => draw_hopeless(svg, x + 8.0, y + 7.0),
        KeySign::Chosen => {
            svg.circle(x + 8.0, y + 7.0, 8.0, INK, "");
            svg.circle(x + 27.0, y + 7.0, 7.5, "#fff", "stroke=\"#aab4be\"")
        }
        KeySign::Admitted => {
            draw_square(svg, x, y - 1.0, 16.0, INK, INK);
            draw_square(svg, x + 19.0, y - 1.0, 16.0, "#fff", "#aab4be")
        }
        KeySign::Full => svg.line((x, y + 7.0), (x + 26.0, y + 7.0), INK, FULL),
        KeySign::Broken => svg.line((x, y + 7.0), (x + 26.0, y + 7.0), INK, BROKEN),
        KeySign::Lost => draw_lost(svg, x + 7.0, y + 7.0),
    }
}

fn draw_box(svg: &mut Svg, x: f64, y: f64, fill: &str) {
    svg.block(Block {
        radius: 5.0,
        stroke: hue_of(0).strong,
        stroke_width: 1.3,
        ..Block::plain(x, y, 22.0, 14.0, fill)
    });
}

/// The square of one of those at a gate.
pub fn draw_square(svg: &mut Svg, left: f64, top: f64, side: f64, fill: &str, stroke: &str) {
    svg.block(Block {
        radius: 2.5,
        stroke,
        stroke_width: 1.0,
        ..Block::plain(left, top, side, side, fill)
    });
}

/// The sign of a wait that nobody is left to end: a red disc with a cross.
pub fn draw_hopeless(svg: &mut Svg, x: f64, y: f64) {
    svg.circle(x, y, 7.5, RED, "");
    let cross = "stroke-width=\"2\"";
    svg.line((x - 3.5, y - 3.5), (x + 3.5, y + 3.5), WHITE, cross);
    svg.line((x - 3.5, y + 3.5), (x + 3.5, y - 3.5), WHITE, cross);
}

/// The sign of a queue that is continued while nobody waits in it: a ring that is struck out.
pub fn draw_lost(svg: &mut Svg, x: f64, y: f64) {
    svg.circle(x, y, 5.6, "#fff", "stroke=\"#1f2933\" stroke-width=\"1.6\"");
    let thin = "stroke-width=\"1.6\"";
    svg.line((x - 4.0, y + 4.0), (x + 4.0, y - 4.0), INK, thin);
}
