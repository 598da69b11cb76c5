//! What names with selectors stand for.

ghost use Rattle.std.specs.Prelude.{◌≡◌, map, IfOk};
ghost use Rattle.cp_slots.specs.Code.{expression_seen, place_seen, index_seen};
ghost use Rattle.cp_layout.specs.Values.{designated_seen, a_contained};
ghost use Rattle.cp_layout.specs.Layers.{around_seen, find, names_seen, system_seen, heading_seen};
ghost use Rattle.cp_layout.specs.LaidExpressions as spec;

use crate::layer::{HeadingLayout, SystemCells};
use crate::names::Names;
use crate::surroundings::Surroundings;
use crate::value::{Designated, number, place_at};
use cp_slots::{ComponentPlace, Index, OrdinalExpression, Place};
use cp_symbols::{CellType, LayoutMeaning};
use cp_tree::Identifier;
use std::alloc::{AllocError, Global};

impl<'a> Names<'a> {
    /// What a name stands for.
    pub fn meaning_of(&self, alloc: Global, name: &Identifier) -> Designated
        ensures { designated_seen result ≡ spec.meaning_of (find name.now.name (names_seen self.now)) }
    {
        let Some(meaning) = self.look(name.name.as_str()) else {
            return Designated::Nothing;
        };
        match meaning {
            LayoutMeaning::Constant(base, value) => Designated::Value(number(value, base)),
            LayoutMeaning::Variable(origin, value_type) => {
                Designated::Variable(place_at(alloc, origin), value_type)
            }
            LayoutMeaning::Contained(first, CellType::System(system)) => {
                Designated::Component(ComponentPlace::Contained(first), system)
            }
            LayoutMeaning::Contained(first, value_type) => Designated::Contained(first, value_type),
            LayoutMeaning::Bound(slot, system) => {
                Designated::Component(ComponentPlace::Parameter(slot), system)
            }
            LayoutMeaning::Routine(routine) => Designated::Routine(routine),
            LayoutMeaning::Predeclared(routine) => Designated::Predeclared(routine),
            LayoutMeaning::Kind(_) => Designated::Nothing,
        }
    }
}

impl<'a> Surroundings<'a> {
    /// A field of a record, or a routine of a component.
    pub fn field(&self, whole: Designated, name: &Identifier) -> Designated
        ensures { designated_seen result ≡ spec.field_of_designated (around_seen self.now) (designated_seen whole) name.now.name }
    {
        match whole {
            Designated::Variable(place, value_type) => {
                match self.types.field(value_type, &name.name) {
                    Some(field) => Designated::Variable(
                        with_offset(place, field.offset),
                        field.value_type,
                    ),
                    None => Designated::Nothing,
                }
            }
            Designated::Component(place, system) => match self.entry(system, name.name.as_str()) {
                Some(routine) => Designated::Entry(place, routine),
                None => Designated::Nothing,
            },
            _ => Designated::Nothing,
        }
    }

    // The number of a system type's routine.
    fn entry(&self, system: usize, name: &str) -> Option<usize>
        ensures { result ≡ spec.entry_of (around_seen self.now) system name.now }
    {
        match self.systems.get(system) {
            Some(system) => entry_among(system, &self.headings, name),
            None => None,
        }
    }

    /// An element of an array.
    pub fn element(
        &self,
        alloc: Global,
        whole: Designated,
        index: OrdinalExpression,
    ) -> Result<Designated, AllocError>
        ensures { IfOk result (λ d. designated_seen d ≡ spec.element_of_designated (around_seen self.now) (designated_seen whole) (expression_seen index)) }
    {
        match whole {
            Designated::Variable(place, value_type) => {
                let Some(array) = self.types.array(value_type) else {
                    return Ok(Designated::Nothing);
                };
                let index = Index {
                    at: index,
                    low: array.index.low,
                    high: array.index.high,
                    size: array.element_cells,
                };
                Ok(Designated::Variable(with_index(place, index)?, array.element))
            }
            Designated::Contained(first, value_type) => {
                self.component_element(alloc, first, value_type, index)
            }
            _ => Ok(Designated::Nothing),
        }
    }

    // A component of an array of these.
    fn component_element(
        &self,
        alloc: Global,
        first: usize,
        value_type: CellType,
        index: OrdinalExpression,
    ) -> Result<Designated, AllocError>
        ensures { IfOk result (λ d. designated_seen d ≡ spec.element_of_designated (around_seen self.now) (a_contained first value_type) (expression_seen index)) }
    {
        let Some(array) = self.types.array(value_type) else {
            return Ok(Designated::Nothing);
        };
        let CellType::System(system) = array.element else {
            return Ok(Designated::Nothing);
        };
        let place = ComponentPlace::Element {
            first,
            low: array.index.low,
            high: array.index.high,
            stride: self.component_count(system),
            index: Box::new(alloc, index)?,
        };
        Ok(Designated::Component(place, system))
    }
}

// A part of a variable, this many cells further.
fn with_offset(place: Place, cells: usize) -> Place
    ensures { place_seen result ≡ spec.with_offset (place_seen place) cells }
{
    Place {
        origin: place.origin,
        offset: place.offset.saturating_add(cells),
        indices: place.indices,
    }
}

// An element of a part of a variable.
fn with_index(place: Place, index: Index) -> Result<Place, AllocError>
    ensures { IfOk result (λ p. place_seen p ≡ spec.with_index (place_seen place) (index_seen index)) }
{
    let Place {
        origin,
        offset,
        mut indices,
    } = place;
    indices.push(index)?;
    Ok(Place {
        origin,
        offset,
        indices,
    })
}

// The number of a routine with this heading.
fn entry_among(system: &SystemCells, headings: &[HeadingLayout<'_>], name: &str) -> Option<usize>
    ensures { result ≡ spec.entry_among (system_seen system.now) (map heading_seen headings.now) 0 name.now }
{
    for number in 0..headings.len() {
        let heading = &headings[number];
        if system.first <= number && number < system.initial && heading.name == name {
            return Some(number);
        }
    }
    None
}
