//! What is written at the tokens of a program.

ghost use Rattle.std.specs.Prelude.{◌≡◌, option_map, Some, IfErr, OnOk, [], if◌then◌else◌, is_some, nat_eq};
ghost use Rattle.std.specs.Map.{lookup};
ghost use Rattle.indexmap.specs.IndexMap.{insert_entry};
ghost use Rattle.cp_scope.specs.Scopes as spec;
ghost use Rattle.cp_scope.specs.View.{shape_view, shapes_of};
ghost use Rattle.cp_scope.specs.declared.fault.CheckFault.TheVariants as check_fault;

use crate::count::{Use, plus, times};
use crate::fault::CheckFault;
use crate::shape::{ArrayShape, Census, Heading, TokenShape, plain};
use crate::types::{Meaning, Parameter, ValueType};
use cp_text::Name;
use cp_tree::SystemKind;
use indexmap::IndexMap;
use std::alloc::Global;

// Keeps a value at a number, where nothing was kept. A value that is let go here may be of any type, so its parts are not looked at.
fn keep_first<T: Drop>(
    items: &mut IndexMap<usize, T>,
    at: usize,
    value: T,
) -> Result<(), CheckFault>
    ensures kept { OnOk result (items.new.entries ≡ (if is_some (lookup (nat_eq at) items.old.entries) then items.old.entries else insert_entry nat_eq items.old.entries at value)) }
    ensures memory { IfErr result (λ e. e ≡ check_fault.Memory) }
{
    if !items.contains_key(&at) {
        items.insert(at, value)?;
    }
    Ok(())
}

/// Arrays, records, system types, headings and bodies, by the tokens where they are written.
#[derive(Drop)]
pub struct Shapes {
    items: IndexMap<usize, TokenShape>,
}

impl Shapes {
    /// Nothing.
    #[tactic(auto, unfolding(crate::specs::View::shapes_of))]
    pub fn new(alloc: Global) -> Shapes
        ensures { shapes_of result ≡ [] }
    {
        Shapes {
            items: IndexMap::new(alloc),
        }
    }

    /// What is written at a token.
    #[tactic(auto, using(crate::proofs::Tokens::shape_seen))]
    pub fn at(&self, at: usize) -> Option<&TokenShape>
        ensures { option_map (λ s. shape_view s.now) result ≡ spec.shape_in at (shapes_of self.now) }
    {
        self.items.get(&at)
    }

    /// Keeps what is written at a token, where nothing was kept.
    pub fn keep(&mut self, at: usize, shape: TokenShape) -> Result<(), CheckFault>
        ensures ok { OnOk result (shapes_of self.new ≡ spec.with_shape (shapes_of self.old) at (shape_view shape)) }
        ensures memory { IfErr result (λ e. e ≡ check_fault.Memory) }
    {
        keep_first(&mut self.items, at, shape)
    }

    /// An array's index and elements.
    pub fn array(&self, at: usize) -> Option<ArrayShape>
        ensures { result ≡ spec.as_array (spec.shape_in at (shapes_of self.now)) }
    {
        match self.at(at) {
            Some(TokenShape::Array(array)) => Some(*array),
            _ => None,
        }
    }

    /// A field of a record, as a variable.
    pub fn field(&self, at: usize, name: &Name) -> Option<Meaning>
        ensures { option_map (λ m. Some m) result ≡ spec.as_field name.now (spec.shape_in at (shapes_of self.now)) }
    {
        match self.at(at) {
            Some(TokenShape::Record(fields, _)) => fields.look(name.as_str()),
            _ => None,
        }
    }

    /// What a system type declares by a name.
    pub fn member(&self, at: usize, name: &Name) -> Option<Meaning>
        ensures { option_map (λ m. Some m) result ≡ spec.as_member name.now (spec.shape_in at (shapes_of self.now)) }
    {
        match self.at(at) {
            Some(TokenShape::System(members, _, _, _)) => members.look(name.as_str()),
            _ => None,
        }
    }

    /// Whether the routine is an entry.
    pub fn is_entry(&self, at: usize) -> bool
        ensures { result ≡ (spec.as_heading (spec.shape_in at (shapes_of self.now))).is_entry }
    {
        match self.at(at) {
            Some(TokenShape::Heading(heading, _)) => heading.is_entry,
            Some(TokenShape::System(_, heading, _, _)) => heading.is_entry,
            _ => false,
        }
    }

    /// The type of a function's result.
    pub fn result(&self, at: usize) -> Option<ValueType>
        ensures { result ≡ (spec.as_heading (spec.shape_in at (shapes_of self.now))).result }
    {
        match self.at(at) {
            Some(TokenShape::Heading(heading, _)) => heading.result,
            Some(TokenShape::System(_, heading, _, _)) => heading.result,
            _ => None,
        }
    }

    /// The parameters of a routine or of a system type.
    pub fn parameters(&self, at: usize) -> &[Parameter]
        ensures { result.now ≡ (spec.as_heading (spec.shape_in at (shapes_of self.now))).parameters }
    {
        match self.at(at) {
            Some(TokenShape::Heading(heading, _)) => &heading.parameters,
            Some(TokenShape::System(_, heading, _, _)) => &heading.parameters,
            _ => &[],
        }
    }

    /// What the body of the routine takes whose name stands at a token.
    pub fn body(&self, at: usize) -> Use
        ensures { result ≡ spec.body_of (spec.shape_in at (shapes_of self.now)) (shapes_of self.now) }
    {
        match self.at(at) {
            Some(TokenShape::Heading(_, body)) => self.body_written(*body),
            _ => Use::nothing(),
        }
    }

    fn body_written(&self, at: usize) -> Use
        ensures { result ≡ spec.as_body (spec.shape_in at (shapes_of self.now)) }
    {
        match self.at(at) {
            Some(TokenShape::Body(body)) => *body,
            _ => Use::nothing(),
        }
    }

    /// What the initial statement of a system type takes.
    pub fn initial_need(&self, at: usize) -> u32
        ensures { result ≡ spec.as_need (spec.shape_in at (shapes_of self.now)) }
    {
        match self.at(at) {
            Some(TokenShape::System(_, _, _, need)) => *need,
            _ => 0,
        }
    }

    /// The cells of a variable; component variables take none.
    pub fn cells_of(&self, value_type: ValueType) -> u32
        ensures { result ≡ spec.cells_of value_type (shapes_of self.now) }
    {
        match value_type {
            ValueType::Ordinal(_) => 1,
            ValueType::Queue => 1,
            ValueType::Set(_) => 8,
            ValueType::Array(at) => self.shape_cells(at),
            ValueType::Record(at) => self.shape_cells(at),
            ValueType::Component(_, _) => 0,
        }
    }

    fn shape_cells(&self, at: usize) -> u32
        ensures { result ≡ spec.shape_cells (spec.shape_in at (shapes_of self.now)) }
    {
        match self.at(at) {
            Some(TokenShape::Array(array)) => array.cells,
            Some(TokenShape::Record(_, cells)) => *cells,
            _ => 0,
        }
    }

    /// As many components of a kind.
    fn component_census(&self, number: u32, kind: SystemKind, at: usize) -> Census
        ensures { result ≡ spec.component_census number kind (spec.shape_in at (shapes_of self.now)) }
    {
        match self.at(at) {
            Some(TokenShape::System(_, _, inside, need)) => match kind {
                SystemKind::Process => Census {
                    cells: times(number, inside.cells),
                    components: times(number, plus(inside.components, 1)),
                    processes: number,
                    need: *need,
                },
                _ => Census {
                    cells: times(number, inside.cells),
                    components: times(number, plus(inside.components, 1)),
                    processes: 0,
                    need: 0,
                },
            },
            _ => Census::nothing(),
        }
    }

    fn array_census(&self, at: usize) -> Census
        ensures { result ≡ spec.array_census (spec.as_array (spec.shape_in at (shapes_of self.now))) (shapes_of self.now) }
    {
        match self.array(at) {
            Some(array) => match array.element {
                ValueType::Component(kind, system) => {
                    self.component_census(array.index.count(), kind, system)
                }
                _ => plain(array.cells),
            },
            None => Census::nothing(),
        }
    }

    fn variable_census(&self, value_type: ValueType) -> Census
        ensures { result ≡ spec.variable_census value_type (shapes_of self.now) }
    {
        match value_type {
            ValueType::Component(kind, at) => self.component_census(1, kind, at),
            ValueType::Array(at) => self.array_census(at),
            _ => plain(self.cells_of(value_type)),
        }
    }

    fn parameter_cells(&self, value_type: ValueType) -> u32
        ensures { result ≡ spec.parameter_cells value_type (shapes_of self.now) }
    {
        match value_type {
            ValueType::Component(_, _) => 1,
            _ => self.cells_of(value_type),
        }
    }

    /// What a declared name takes.
    pub fn census_of(&self, meaning: Meaning) -> Census
        ensures { result ≡ spec.census_of (Some meaning) (shapes_of self.now) }
    {
        match meaning {
            Meaning::Variable(value_type) => self.variable_census(value_type),
            Meaning::Parameter(value_type) => plain(self.parameter_cells(value_type)),
            Meaning::Reference(_) => plain(1),
            _ => Census::nothing(),
        }
    }
}
