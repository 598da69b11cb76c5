//! The whole page.

use crate::data::data;
use crate::markup::{BEGIN, BETWEEN, BODY, END, HEAD, SCRIPT, SCRIPT_HASH, STYLE_HASH};
use crate::script_brief::BRIEF;
use crate::script_counts::COUNTS;
use crate::script_key::KEY;
use crate::script_lanes::LANES;
use crate::script_moves::MOVES;
use crate::script_panels::PANELS;
use crate::script_play::PLAY;
use crate::script_rounds::ROUNDS;
use crate::script_teach::TEACH;
use crate::style::STYLE;
use crate::subject::PageSubject;
use cp_progress::ObserveProgress;
use std::alloc::{AllocError, Global};

static BEFORE_DATA: [&str; 7] = [BEGIN, STYLE_HASH, BETWEEN, SCRIPT_HASH, HEAD, STYLE, BODY];

static BEHIND_DATA: [&str; 11] = [
    SCRIPT, PLAY, BRIEF, COUNTS, ROUNDS, TEACH, PANELS, KEY, LANES, MOVES, END,
];

/// The page on which a program is played: one file of HTML, which loads nothing.
pub fn page<O: ObserveProgress>(
    alloc: Global,
    subject: PageSubject<'_>,
    observer: &mut O,
) -> Result<String, AllocError> {
    let data = data(alloc, subject, observer)?;
    let mut text = String::new(alloc);
    push_parts(&mut text, &BEFORE_DATA)?;
    text.push_str(data.text()?)?;
    push_parts(&mut text, &BEHIND_DATA)?;
    Ok(text)
}

fn push_parts(text: &mut String, parts: &[&str]) -> Result<(), AllocError> {
    for part in parts {
        text.push_str(part)?;
    }
    Ok(())
}
