//! The types of a program, as far as its values are to be written.

ghost use Rattle.std.specs.Prelude.{◌≡◌, length, map, slice_get};
ghost use Rattle.cp_symbols.specs.Kinds as kinds;
ghost use Rattle.cp_symbols.specs.Symbols.{field_symbol_seen, type_symbol_seen};
ghost use Rattle.cp_legend.specs.Names as names;
ghost use Rattle.cp_legend.specs.Values as spec;
ghost use Rattle.cp_legend.specs.Values.{types_seen};

use cp_symbols::{ArrayType, CellRange, CellType, FieldSymbol, TypeSymbol};

/// The cells of a set.
const SET_CELLS: usize = 8;

/// The arrays and records of a program. Each holds earlier ones alone.
#[derive(Drop)]
pub struct LegendTypes {
    pub compounds: Vec<TypeSymbol>,
}

/// The value that comes so many after the least.
pub fn nth(range: CellRange, number: usize) -> i16
    ensures { result ≡ names.nth range number }
{
    let number = number.min(usize::from(u16::MAX)) as u16;
    range.low.saturating_add_unsigned(number)
}

/// The array of a number.
pub fn array_in(types: &[TypeSymbol], number: usize) -> Option<ArrayType>
    ensures { result ≡ spec.as_array (slice_get (map type_symbol_seen types.now) number) }
{
    match types.get(number) {
        Some(TypeSymbol::Array(array)) => Some(*array),
        _ => None,
    }
}

impl LegendTypes {
    /// How many arrays and records there are.
    #[tactic(auto, unfolding(crate::specs::Values::types_seen))]
    pub fn count(&self) -> usize
        ensures { result ≡ length (types_seen self.now) }
    {
        self.compounds.len()
    }

    /// How many cells a value has. A component has none.
    #[tactic(auto, unfolding(crate::specs::Values::types_seen))]
    pub fn cells_of(&self, value_type: CellType) -> usize
        ensures { result ≡ kinds.cells_of (types_seen self.now) value_type }
    {
        match value_type {
            CellType::Ordinal(_) | CellType::Queue => 1,
            CellType::Set(_) => SET_CELLS,
            CellType::Array(number) | CellType::Record(number) => {
                match self.compounds.get(number) {
                    Some(TypeSymbol::Array(array)) => array.cells,
                    Some(TypeSymbol::Record(_, cells)) => *cells,
                    None => 0,
                }
            }
            CellType::System(_) => 0,
        }
    }

    /// The array of a number.
    #[tactic(auto, unfolding(crate::specs::Values::types_seen))]
    pub fn array(&self, number: usize) -> Option<ArrayType>
        ensures { result ≡ spec.as_array (slice_get (types_seen self.now) number) }
    {
        array_in(&self.compounds, number)
    }

    /// The fields of the record of a number.
    #[tactic(auto, unfolding(crate::specs::Values::types_seen))]
    pub fn fields(&self, number: usize) -> &[FieldSymbol]
        ensures { map field_symbol_seen result.now ≡ spec.fields_in (slice_get (types_seen self.now) number) }
    {
        match self.compounds.get(number) {
            Some(TypeSymbol::Record(fields, _)) => fields.as_slice(),
            _ => &[],
        }
    }

    /// Whether a value is made of queues alone.
    pub fn is_queues(&self, value_type: CellType) -> bool
        ensures { result ≡ spec.is_queues (types_seen self.now) value_type }
    {
        match value_type {
            CellType::Queue => true,
            CellType::Array(number) => match self.array(number) {
                Some(array) => matches!(array.element, CellType::Queue),
                None => false,
            },
            _ => false,
        }
    }
}
