//! Things in runs: those of one label stand side by side.

ghost use Rattle.cp_parts.specs.Runs.{AreRuns};

use crate::span::Span;
use std::alloc::{AllocError, Global};

/// The label of each thing, and the things of each label.
#[derive(Drop)]
pub struct Runs {
    pub labels: Vec<usize>,
    pub spans: Vec<Span>,
    pub ghost runs: { AreRuns labels.items spans.items },
}

impl Runs {
    ghost use Rattle.std.specs.Prelude.{◌≡◌, ◌<◌, ◌≤◌, ◌++◌, ◌∷◌, [], length, true, IfOk};
    ghost use Rattle.cp_parts.specs.Runs.{AreFilled, IsOpen, span_at};

    /// No thing has a label, of so many.
    pub fn new(alloc: Global, labels: usize) -> Result<Runs, AllocError>
        ensures none { IfOk result (λ runs. runs.labels.items ≡ []) }
        ensures labels { IfOk result (λ runs. length runs.spans.items ≡ labels) }
    {
        let spans = Vec::from_elem(alloc, Span { first: 0, end: 0 }, labels)?;
        Ok(Runs {
            labels: Vec::new(alloc),
            spans,
        })
    }

    /// The things of a label.
    #[inline(always)]
    pub fn span(&self, label: usize) -> Span
        requires { label < length self.now.spans.items }
        ensures is { result ≡ span_at self.now.spans.items label }
        ensures rising { result.first ≤ result.end }
        ensures within { result.end ≤ length self.now.labels.items }
    {
        self.spans[label]
    }

    /// Whether the next thing may have a label: nothing has it, or the last one.
    pub fn is_open(&self, label: usize) -> bool
        requires { label < length self.now.spans.items }
        ensures { result ≡ true → IsOpen self.now.labels.items self.now.spans.items label }
    {
        let span = self.spans[label];
        span.first == span.end || span.end == self.labels.len()
    }

    /// The next thing has this label.
    pub fn push(&mut self, label: usize) -> Result<(), AllocError>
        requires label { label < length self.old.spans.items }
        requires open { IsOpen self.old.labels.items self.old.spans.items label }
        ensures labels { IfOk result (λ _. self.new.labels.items ≡ self.old.labels.items ++ label ∷ []) }
        ensures open { IfOk result (λ _. IsOpen self.new.labels.items self.new.spans.items label) }
        ensures spans { length self.new.spans.items ≡ length self.old.spans.items }
    {
        let old = self.span(label);
        self.labels.reserve(1)?;
        let count = self.labels.len();
        let first = old.first_with(count);
        self.labels.push_reserved(label);
        self.spans[label] = Span {
            first,
            end: count + 1,
        };
        Ok(())
    }

    /// The next things, up to an end, have this label.
    pub fn extend(&mut self, label: usize, end: usize) -> Result<(), AllocError>
        requires label { label < length self.old.spans.items }
        requires open { IsOpen self.old.labels.items self.old.spans.items label }
        requires end { length self.old.labels.items ≤ end }
        ensures filled { IfOk result (λ _. AreFilled self.old.labels.items self.new.labels.items label end) }
        ensures open { IfOk result (λ _. IsOpen self.new.labels.items self.new.spans.items label) }
        ensures spans { length self.new.spans.items ≡ length self.old.spans.items }
    {
        let more = end - self.labels.len();
        for _ in 0..more {
            self.push(label)?;
        }
        Ok(())
    }
}
