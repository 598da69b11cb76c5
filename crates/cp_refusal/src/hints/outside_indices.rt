//! Constant indices that no element has.

use crate::hints::Gathering;
use crate::hints::written::{Written, WrittenName};
use cp_scope::{Base, Meaning, Range, ValueType};
use cp_tree::{Expression, Selector};

impl<'a, 'b> Gathering<'a, 'b> {
    /// Adds a hint on each index that is a constant outside of the bounds of its array.
    pub fn add_outside_indices(&mut self, written: &Written<'a>) {
        for one in &written.names {
            if !one.selectors.is_empty() {
                self.add_outside_of(one);
            }
        }
    }

    fn add_outside_of(&mut self, written: &WrittenName<'a>) {
        let shapes = self.declarations.scopes.shapes();
        let mut whole = match self.declarations.named(written.name) {
            Some(one) => self.declarations.structure_of(&one),
            None => None,
        };
        for selector in written.selectors {
            whole = match (whole, selector) {
                (Some(ValueType::Array(at)), Selector::Index(index)) => match shapes.array(at) {
                    Some(array) => {
                        self.add_if_outside(array.index, index);
                        Some(array.element)
                    }
                    None => None,
                },
                (Some(ValueType::Record(at)), Selector::Field(field)) => {
                    match shapes.field(at, &field.name) {
                        Some(Meaning::Variable(part)) => Some(part),
                        _ => None,
                    }
                }
                _ => None,
            };
        }
    }

    fn add_if_outside(&mut self, bounds: Range, index: &'a Expression) {
        let (low, high) = (bounds.low, bounds.high);
        match (self.declarations.value(index), bounds.base) {
            (None, _) => {}
            (Some(value), _) if low <= value && value <= high => {}
            (Some(value), Base::Integer) => self.add(
                index.at,
                format_args!(
                    "{value} is not in {low}..{high}: where this is evaluated, it is the run error range"
                ),
            ),
            (Some(_), _) => self.add(
                index.at,
                "this is outside of the bounds of the index: where this is evaluated, it is the run error range",
            ),
        }
    }
}
