//! What is said of a system type that is named where a component is meant.

use crate::declared::{Declaration, Declared};
use crate::extent::{Extent, Part, between, part_extent, single};
use crate::rules::{is_mark_of, mark_before, name_at};
use crate::saying::Saying;
use crate::teller::Piece;
use cp_scope::ValueType;
use cp_text::Mark;

impl<'a> Saying<'a> {
    /// Says which component may be meant by the name of a system type, and how it is initialised.
    pub fn put_component_meant(&mut self, whole: Extent) {
        let Some(ValueType::Component(_, system)) = self.declarations.type_named_at(whole.from)
        else {
            return;
        };
        let is_argument = is_mark_of(
            self.teller.tokens,
            whole.from.saturating_sub(1),
            &[Mark::OpenParenthesis, Mark::Comma],
        );
        match self.component_seen(system, whole.from) {
            Some(one) if is_argument => self.teller.say(
                ": @ of line @ is a variable of it",
                &[Piece::Tokens(single(one.at)), Piece::Line(one.at)],
            ),
            Some(one)
                if one.is_permanent() && self.declarations.routine_around(whole.from).is_none() => {
                let called = part_extent(self.teller.tokens, whole.from, Part::Factor);
                let arguments = between(whole.to, called.to);
                self.teller.say(
                    ": init takes a variable of it, as in init @@",
                    &[Piece::Tokens(single(one.at)), Piece::Tokens(arguments)],
                );
            }
            _ if is_argument => {}
            _ => self.teller.put(
                ": init takes a variable of it, in the initial statement of the block that declares it",
            ),
        }
    }

    /// The last component of this system type that is visible at a token, of the name to which the value there is assigned.
    fn component_seen(&self, system: usize, at: usize) -> Option<Declaration<'a>> {
        let declarations = &self.declarations;
        let target = match mark_before(self.teller.tokens, at) {
            Some(Mark::Becomes) => name_at(self.teller.tokens, at.saturating_sub(2)),
            _ => "",
        };
        declarations
            .all
            .iter()
            .rev()
            .find(|one| {
                self.is_component_of(one, system)
                    && (target.is_empty() || one.name == target)
                    && matches!(declarations.find(one.name, at), Some(seen) if seen.at == one.at)
            })
            .copied()
    }

    /// Whether a declaration is that of a variable or a parameter of this system type.
    fn is_component_of(&self, one: &Declaration<'a>, system: usize) -> bool {
        !matches!(one.what, Declared::System(_) | Declared::Type(_))
            && matches!(self.declarations.structure_of(one), Some(ValueType::Component(_, found)) if found == system)
    }
}
