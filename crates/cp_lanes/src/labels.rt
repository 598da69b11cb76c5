//! The words beside the events.

use crate::pictures::Scene;
use crate::sheet::Fold;
use cp_legend::SourceValue;
use cp_machine::Signals;
use cp_prose::Prose;
use cp_story::{Happening, OpenCall, Returned, StoryEvent, push_returned, push_shown};
use std::alloc::{AllocError, Global};

/// How wide a character is, for each point of its size.
pub const WIDTH: f64 = 0.57;

/// The same in bold type.
pub const BOLD: f64 = 0.63;

/// The same in type of one width.
pub const FIXED: f64 = 0.605;

/// The face of a label.
#[derive(Clone, Copy, PartialEq, Eq)]
pub enum Face {
    Plain,
    /// Of what matters less.
    Faint,
    Bold,
}

/// The words beside an event, and a displayed value in a pill.
#[derive(Drop)]
pub struct PictureLabel {
    pub words: String,
    /// What matters of the words, where these have no room.
    pub brief: Option<String>,
    pub face: Face,
    pub pill: Option<String>,
}

/// A count as a number of points.
pub fn points(count: usize) -> f64 {
    f64::from(u32::try_from(count).unwrap_or(u32::MAX))
}

/// How wide words of a size are, where a character has this width for each point of it.
pub fn text_width(words: &str, size: f64, factor: f64) -> f64 {
    points(words.chars().count()) * size * factor
}

pub fn plain_width(words: &str, size: f64) -> f64 {
    text_width(words, size, WIDTH)
}

pub fn bold_width(words: &str, size: f64) -> f64 {
    text_width(words, size, BOLD)
}

/// The label of a row of these events, where it is none of a stop.
pub fn label_of(
    scene: Scene<'_>,
    first: usize,
    count: usize,
    fold: Fold,
) -> Result<Option<PictureLabel>, AllocError> {
    let alloc = scene.alloc;
    let label = match fold {
        Fold::None => {
            return match scene.story.events.get(first) {
                Some(event) => event_label(scene, event),
                None => Ok(None),
            };
        }
        Fold::Starts => PictureLabel::new(format!(in alloc; "starts {count}")?, Face::Faint),
        Fold::Rounds(rounds) => {
            let words = format!(in alloc; "the same {rounds} times more: {count} events")?;
            let mut label = PictureLabel::new(words, Face::Faint);
            label.brief = Some(format!(in alloc; "{rounds} times more")?);
            label
        }
    };
    Ok(Some(label))
}

fn event_label(scene: Scene<'_>, event: &StoryEvent) -> Result<Option<PictureLabel>, AllocError> {
    let mut label = PictureLabel::new(event_words(scene, event)?, face_of(event));
    label.brief = Some(brief_words(scene, event)?);
    label.pill = pill_of(scene, event)?;
    Ok(Some(label))
}

// The value that an event displays.
fn pill_of(scene: Scene<'_>, event: &StoryEvent) -> Result<Option<String>, AllocError> {
    let Happening::Display(value) = event.happening else {
        return Ok(None);
    };
    let mut shown = String::new(scene.alloc);
    push_shown(scene.legend, &mut shown, value)?;
    Ok(Some(shown))
}

fn event_words(scene: Scene<'_>, event: &StoryEvent) -> Result<String, AllocError> {
    let mut words = Prose::new(scene.alloc);
    put_words(scene, &mut words, event);
    words.put_made(values_by_name(scene.alloc, &event.returned));
    words.finish()
}

// What matters of what happened: the colour tells the monitor, an arrow who is woken, and a ring that is struck out that nobody is.
fn brief_words(scene: Scene<'_>, event: &StoryEvent) -> Result<String, AllocError> {
    let mut brief = Prose::new(scene.alloc);
    match &event.happening {
        Happening::Enter {
            call,
            arguments,
            waits,
        } => {
            brief.put(if *waits { "at the gate: " } else { "" });
            put_call(scene, &mut brief, *call, arguments);
        }
        Happening::Continue(queue, _, _) => {
            brief.put(if comes_to_gate(event) {
                "at the gate: "
            } else {
                ""
            });
            put_queue(&mut brief, "continue(", queue.name.as_str());
        }
        _ => put_words(scene, &mut brief, event),
    }
    put_values(scene.alloc, &mut brief, &event.returned);
    brief.finish()
}

// What comes back; one value alone without its name, which the row of the call has already.
fn put_values(alloc: Global, words: &mut Prose, returned: &[Returned]) {
    match (returned.len(), returned.first()) {
        (1, Some(one)) => {
            words.put(", = ");
            words.put_made(one.value.text(alloc));
        }
        _ => words.put_made(values_by_name(alloc, returned)),
    }
}

fn values_by_name(alloc: Global, returned: &[Returned]) -> Result<String, AllocError> {
    let mut text = String::new(alloc);
    push_returned(&mut text, returned)?;
    Ok(text)
}

fn face_of(event: &StoryEvent) -> Face {
    match event.happening {
        Happening::Leave(_) if !event.returned.is_empty() => Face::Plain,
        Happening::Leave(_) | Happening::End => Face::Faint,
        Happening::Delay(..) => Face::Bold,
        _ => Face::Plain,
    }
}

fn put_words(scene: Scene<'_>, words: &mut Prose, event: &StoryEvent) {
    match &event.happening {
        Happening::Enter {
            call,
            arguments,
            waits,
        } => {
            put_routine(scene, words, *call, arguments);
            words.put(if *waits { ", at the gate" } else { "" });
        }
        Happening::Leave(_) => words.put("leaves"),
        Happening::Delay(queue, _) => put_queue(words, "delay(", queue.name.as_str()),
        Happening::Continue(queue, _, signals) => {
            put_queue(words, "continue(", queue.name.as_str());
            if event.wakes_nobody() {
                words.put(": nobody waits");
            }
            put_woken(words, event.woken.as_slice(), *signals);
        }
        Happening::Start(process) => {
            words.put("starts ");
            words.put(scene.legend.process_name(*process));
        }
        Happening::Display(_) => words.put("displays"),
        Happening::End => words.put("ends"),
        Happening::Admit(_) => words.put("is let in"),
    }
}

/// Appends a call with its routine first: the colour names the monitor.
pub fn put_routine(scene: Scene<'_>, words: &mut Prose, call: OpenCall, arguments: &[SourceValue]) {
    put_call(scene, words, call, arguments);
    words.put(" in ");
    words.put(scene.legend.monitor_name(call.monitor));
}

fn put_call(scene: Scene<'_>, words: &mut Prose, call: OpenCall, arguments: &[SourceValue]) {
    words.put(scene.legend.routine_name(call.routine));
    let mut before = "(";
    for argument in arguments {
        words.put(before);
        words.put_made(argument.text(scene.alloc));
        before = ", ";
    }
    words.put(if arguments.is_empty() { "" } else { ")" });
}

fn put_queue(words: &mut Prose, before: &str, name: &str) {
    words.put(before);
    words.put(name);
    words.put(")");
}

fn put_woken(words: &mut Prose, woken: &[u8], signals: Signals) {
    let (before, after) = match signals {
        Signals::Return => (" wakes ", ""),
        Signals::Continue => (": ", " to the gate"),
        Signals::Wait => (" wakes ", ", at the gate"),
    };
    for process in woken {
        words.put(before);
        words.put_display(*process);
        words.put(after);
    }
}

// Whether who continues a queue waits at the gate then.
fn comes_to_gate(event: &StoryEvent) -> bool {
    matches!(event.happening, Happening::Continue(_, _, Signals::Wait)) && !event.wakes_nobody()
}

impl PictureLabel {
    /// A label of words alone.
    pub fn new(words: String, face: Face) -> PictureLabel {
        PictureLabel {
            words,
            brief: None,
            face,
            pill: None,
        }
    }

    /// Whether both say the same.
    pub fn says_same(&self, other: &PictureLabel) -> bool {
        let shows_same = match (&self.pill, &other.pill) {
            (Some(pill), Some(other)) => pill.as_str() == other.as_str(),
            (None, None) => true,
            _ => false,
        };
        shows_same && self.words.as_str() == other.words.as_str()
    }

    /// How wide the label is.
    pub fn width(&self) -> f64 {
        let words = self.words_width();
        match &self.pill {
            Some(pill) => words + 10.0 + pill_width(pill.as_str()),
            None => words,
        }
    }

    /// How wide its words are.
    pub fn words_width(&self) -> f64 {
        text_width(self.words.as_str(), 11.5, self.factor())
    }

    /// How wide a character of it is, for each point of its size.
    pub fn factor(&self) -> f64 {
        match self.face {
            Face::Bold => BOLD,
            Face::Plain | Face::Faint => WIDTH,
        }
    }
}

/// How wide the pill of a displayed value is.
pub fn pill_width(value: &str) -> f64 {
    bold_width(value, 11.5) + 18.0
}
