//! One schedule told in names: its events, as text and as JSON.
#![tactic(auto)]

mod ahead;
pub mod aim;
pub mod annotation;
mod annotation_objects;
mod annotation_words;
pub mod cause;
mod cause_objects;
mod cause_words;
mod changes;
pub mod event;
pub mod happening;
pub mod integers;
pub mod laws;
pub mod objects;
pub mod observer;
mod open_calls;
mod reading;
mod reason_objects;
mod reason_words;
pub mod reasons;
mod returned;
pub mod round;
mod statuses;
mod stopping;
pub mod story;
mod tables;
mod texts;
mod told_variables;
mod words;

pub use aim::{Aim, NONE, aim_of};
pub use annotation::{Annotation, Moment, Violation, violation_of_kind};
pub use annotation_objects::put_violation;
pub use annotation_words::{detail_line, violation_words};
pub use cause::{Cause, cause_of_kind};
pub use cause_objects::put_error_cause;
pub use cause_words::cause_text;
pub use event::{Change, Choice, Happening, OpenCall, Queue, Returned, StoryEvent};
pub use happening::arguments;
pub use objects::json;
pub use observer::Observer;
pub use reason_objects::put_reasons;
pub use reason_words::{push_callers, push_continuing, reason_text};
pub use reasons::{Caller, WaitReason, reasons_in};
pub use round::first_of_round;
pub use stopping::AbruptEnd;
pub use story::{Story, Wait, tell};
pub use texts::{stop_words, text};
pub use words::{
    end_words, error_words, happening_words, kind_words, output_words, push_call, push_returned,
    push_shown, refused_words, unused_words, wait_words,
};
