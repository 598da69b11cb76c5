//! What is legal, but rarely meant.

mod constant_values;
mod early_starts;
mod empty_bodies;
mod hidden;
mod inner_waits;
mod nearly;
mod never_run;
mod once_tested;
mod outside_indices;
mod starts;
mod unnamed_queues;
mod unset_results;
mod written;

use crate::declared::Declarations;
use crate::extent::Extent;
use crate::hints::written::Written;
use crate::page::{line_of, push_tokens};
use crate::report::{Hint, Hints};
use cp_front::Loaded;
use cp_prose::Prose;
use cp_text::ByteRange;
use cp_tree::{Body, Program};
use std::alloc::{AllocError, Global};
use std::fmt::Display;

/// The most hints that are told.
const MOST_HINTS: usize = 100;

/// A program whose hints are gathered. Memory that is refused for one of them is refused for all.
#[derive(Drop)]
pub struct Gathering<'a, 'b> {
    pub alloc: Global,
    pub source: &'a [u8],
    pub program: &'a Program,
    pub declarations: &'b Declarations<'a>,
    /// What is written in the bodies of the program.
    pub bodies: &'b [Written<'a>],
    /// Whether `continue` ends the call of its entry procedure.
    pub continue_returns: bool,
    hints: Hints,
    is_refused: bool,
}

impl<'a, 'b> Gathering<'a, 'b> {
    /// Adds a hint at a token, or counts it where there are many.
    pub fn add<D: Display + Drop>(&mut self, at: usize, words: D) {
        if let Some(span) = self.declarations.tokens.range(at) {
            self.add_in(span, words);
        }
    }

    /// Adds a hint at some bytes, or counts it.
    pub fn add_in<D: Display + Drop>(&mut self, span: ByteRange, words: D) {
        if self.hints.all.len() >= MOST_HINTS {
            self.hints.more = self.hints.more.saturating_add(1);
            return;
        }
        let mut text = Prose::new(self.alloc);
        text.put_display(words);
        let is_added = match text.finish() {
            Ok(sentence) => self.hints.all.push(Hint { sentence, span }).is_ok(),
            Err(_) => false,
        };
        self.is_refused = self.is_refused || !is_added;
    }

    /// The line of a token.
    pub fn line_of(&self, at: usize) -> u32 {
        line_of(self.declarations.tokens, at)
    }

    /// Some tokens as they are written.
    pub fn text_of(&mut self, extent: Extent) -> String {
        let mut text = Prose::new(self.alloc);
        push_tokens(&mut text, self.source, self.declarations.tokens, extent);
        match text.finish() {
            Ok(text) => text,
            Err(_) => {
                self.is_refused = true;
                String::new(self.alloc)
            }
        }
    }

    /// What is written in a body.
    pub fn written_in(&self, body: &Body) -> Option<&'b Written<'a>> {
        self.bodies.iter().find(|one| one.owned.body.at == body.at)
    }

    /// All hints, kind by kind.
    fn gather(mut self) -> Result<Hints, AllocError> {
        self.add_all()?;
        if self.is_refused {
            return Err(AllocError);
        }
        Ok(self.hints)
    }

    fn add_all(&mut self) -> Result<(), AllocError> {
        for written in self.bodies {
            if self.continue_returns {
                self.add_never_run(written, true);
            } else {
                self.add_once_tested(written);
            }
        }
        self.add_inner_waits()?;
        for written in self.bodies {
            self.add_plain_delays(written);
        }
        self.add_starts();
        self.add_nearly_annotations()?;
        self.add_unnamed_queues()?;
        for written in self.bodies {
            self.add_empty_bodies(written);
        }
        self.add_unset_results();
        self.add_hidden()?;
        self.add_early_starts()?;
        for written in self.bodies {
            self.add_outside_indices(written);
        }
        for written in self.bodies {
            self.add_never_run(written, false);
        }
        Ok(())
    }
}

/// What is written in each body of a program.
fn written_bodies<'a>(
    alloc: Global,
    declarations: &Declarations<'a>,
) -> Result<Vec<Written<'a>>, AllocError> {
    let mut bodies = Vec::new(alloc);
    for one in &declarations.bodies {
        bodies.push(Written::in_body(alloc, *one)?)?;
    }
    Ok(bodies)
}

/// A hint for each thing that is legal, but rarely meant, where `continue` ends the call of its entry procedure, or does not.
pub fn hints(
    alloc: Global,
    source: &[u8],
    loaded: &Loaded,
    continue_returns: bool,
) -> Result<Hints, AllocError> {
    let tree = loaded.checked.tree();
    let declarations = Declarations::of(alloc, &loaded.tokens, tree)?;
    let bodies = written_bodies(alloc, &declarations)?;
    Gathering {
        alloc,
        source,
        program: &tree.program,
        declarations: &declarations,
        bodies: &bodies,
        continue_returns,
        hints: Hints {
            all: Vec::new(alloc),
            more: 0,
        },
        is_refused: false,
    }
    .gather()
}
