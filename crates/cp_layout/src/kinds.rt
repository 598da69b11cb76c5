//! The types of a program, with the cells of their values.

ghost use Rattle.std.specs.Prelude.{◌≡◌, ◌++◌, [], map, option_map, slice_get, IfOk, OnOk};
ghost use Rattle.cp_symbols.specs.Kinds as symbol_kinds;
ghost use Rattle.cp_layout.specs.Kinds as spec;
ghost use Rattle.cp_layout.specs.Kinds.{types_seen, compound_seen, field_seen, fields_seen};
ghost use Rattle.cp_symbols.specs.Symbols.{field_symbol_seen, type_symbol_seen};

use cp_symbols::{ArrayType, CellRange, CellType, FieldSymbol, TypeSymbol};
use cp_text::Name;
use std::alloc::{AllocError, Global};

/// The cells of a set.
const SET_CELLS: usize = 8;

/// A field of a record, with the cells before it.
#[derive(Clone, Copy, Drop)]
pub struct Field<'a> {
    pub name: &'a Name,
    pub value_type: CellType,
    pub offset: usize,
}

#[derive(Drop)]
pub struct RecordType<'a> {
    pub fields: Vec<Field<'a>>,
    pub cells: usize,
}

#[derive(Drop)]
enum Compound<'a> {
    Array(ArrayType),
    Record(RecordType<'a>),
}

fn field_named<'a>(fields: &[Field<'a>], name: &Name) -> Option<Field<'a>>
    ensures { option_map field_seen result ≡ spec.field_in name.now (map field_seen fields.now) }
{
    for field in fields {
        if field.name.as_str() == name.as_str() {
            return Some(*field);
        }
    }
    None
}

fn type_symbol(alloc: Global, compound: &Compound<'_>) -> Result<TypeSymbol, AllocError>
    ensures { IfOk result (λ t. type_symbol_seen t ≡ compound_seen compound.now) }
{
    match compound {
        Compound::Array(array) => Ok(TypeSymbol::Array(*array)),
        Compound::Record(record) => {
            let fields = field_symbols(alloc, &record.fields)?;
            Ok(TypeSymbol::Record(fields, record.cells))
        }
    }
}

#[tactic(auto, using(crate::proofs::SymbolLists::fields_step, crate::proofs::SymbolLists::fields_none))]
fn field_symbols(alloc: Global, fields: &[Field<'_>]) -> Result<Vec<FieldSymbol>, AllocError>
    ensures { IfOk result (λ v. map field_symbol_seen v.items ≡ map field_seen fields.now) }
{
    let mut symbols = Vec::new(alloc);
    for field in fields {
        symbols.push(FieldSymbol {
            name: String::from_str(alloc, field.name.as_str())?,
            value_type: field.value_type,
            offset: field.offset,
        })?;
    }
    Ok(symbols)
}

/// The arrays and records of a program. Each holds earlier ones alone.
#[derive(Drop)]
pub struct Types<'a> {
    compounds: Vec<Compound<'a>>,
}

impl<'a> RecordType<'a> {
    /// The record of no fields.
    pub fn new(alloc: Global) -> RecordType<'a>
        ensures { fields_seen result ≡ spec.no_fields }
    {
        RecordType {
            fields: Vec::new(alloc),
            cells: 0,
        }
    }

    /// Adds a field that takes this many cells.
    pub fn add(
        &mut self,
        name: &'a Name,
        value_type: CellType,
        cells: usize,
    ) -> Result<(), AllocError>
        ensures { OnOk result (fields_seen self.new ≡ spec.with_field (fields_seen self.old) name.now value_type cells) }
    {
        self.fields.push(Field {
            name,
            value_type,
            offset: self.cells,
        })?;
        self.cells = self.cells.saturating_add(cells);
        Ok(())
    }
}

impl<'a> Types<'a> {
    #[tactic(auto, unfolding(crate::specs::Kinds::types_seen))]
    pub fn new(alloc: Global) -> Types<'a>
        ensures { types_seen result ≡ [] }
    {
        Types {
            compounds: Vec::new(alloc),
        }
    }

    /// How many cells a value has. A component has none.
    #[tactic(auto, unfolding(crate::specs::Kinds::types_seen))]
    pub fn cells_of(&self, value_type: CellType) -> usize
        ensures { result ≡ symbol_kinds.cells_of (types_seen self.now) value_type }
    {
        match value_type {
            CellType::Ordinal(_) | CellType::Queue => 1,
            CellType::Set(_) => SET_CELLS,
            CellType::Array(number) | CellType::Record(number) => {
                match self.compounds.get(number) {
                    Some(Compound::Array(array)) => array.cells,
                    Some(Compound::Record(record)) => record.cells,
                    None => 0,
                }
            }
            CellType::System(_) => 0,
        }
    }

    /// An array's index and elements.
    #[tactic(auto, unfolding(crate::specs::Kinds::types_seen))]
    pub fn array(&self, value_type: CellType) -> Option<ArrayType>
        ensures { result ≡ spec.array_of (types_seen self.now) value_type }
    {
        let CellType::Array(number) = value_type else {
            return None;
        };
        match self.compounds.get(number) {
            Some(Compound::Array(array)) => Some(*array),
            _ => None,
        }
    }

    /// A field of a record.
    #[tactic(auto, unfolding(crate::specs::Kinds::types_seen))]
    pub fn field(&self, value_type: CellType, name: &Name) -> Option<Field<'a>>
        ensures { option_map field_seen result ≡ spec.field_of (types_seen self.now) value_type name.now }
    {
        let CellType::Record(number) = value_type else {
            return None;
        };
        let Some(Compound::Record(record)) = self.compounds.get(number) else {
            return None;
        };
        field_named(&record.fields, name)
    }

    /// A new array type.
    #[tactic(auto, unfolding(crate::specs::Kinds::types_seen))]
    pub fn add_array(&mut self, index: CellRange, element: CellType) -> Result<CellType, AllocError>
        ensures { IfOk result (λ t. (t, types_seen self.new) ≡ spec.with_array (types_seen self.old) index element) }
    {
        let element_cells = self.cells_of(element);
        let number = self.compounds.len();
        self.compounds.push(Compound::Array(ArrayType {
            index,
            element,
            element_cells,
            cells: element_cells.saturating_mul(index.count()),
        }))?;
        Ok(CellType::Array(number))
    }

    /// A new record type.
    #[tactic(auto, unfolding(crate::specs::Kinds::types_seen))]
    pub fn add_record(&mut self, whole: RecordType<'a>) -> Result<CellType, AllocError>
        ensures { IfOk result (λ t. (t, types_seen self.new) ≡ spec.with_record (types_seen self.old) (fields_seen whole.entry)) }
    {
        let number = self.compounds.len();
        self.compounds.push(Compound::Record(whole))?;
        Ok(CellType::Record(number))
    }

    /// Adds the cells with which a variable begins.
    #[tactic(auto, unfolding(crate::specs::Kinds::types_seen, crate::specs::Kinds::least))]
    pub fn add_least(&self, cells: &mut Vec<i16>, value_type: CellType) -> Result<(), AllocError>
        ensures { OnOk result (cells.new.items ≡ cells.old.items ++ spec.least (types_seen self.now) value_type) }
    {
        self.add_least_below(cells, value_type, self.compounds.len())
    }

    // The same for a type that holds only this many of the first compound types.
    #[cycle(least)]
    #[tactic(auto, using(crate::proofs::Least::compound_inside, crate::proofs::Least::compound_outside, crate::proofs::Least::nothing_more))]
    fn add_least_below(
        &self,
        cells: &mut Vec<i16>,
        value_type: CellType,
        bound: usize,
    ) -> Result<(), AllocError>
        ensures { OnOk result (cells.new.items ≡ cells.old.items ++ spec.least_below (types_seen self.now) bound value_type) }
    {
        match value_type {
            CellType::Ordinal(range) => cells.push(range.least())?,
            CellType::Queue => cells.push(0)?,
            CellType::Set(_) => cells.extend_from_slice(&[0; SET_CELLS])?,
            CellType::Array(number) | CellType::Record(number) => {
                if number < bound {
                    self.add_compound(cells, number)?;
                }
            }
            CellType::System(_) => {}
        }
        Ok(())
    }

    #[tactic(auto, unfolding(crate::specs::Kinds::types_seen))]
    fn compound(&self, number: usize) -> Option<&Compound<'a>>
        ensures { option_map (λ c. compound_seen c.now) result ≡ slice_get (types_seen self.now) number }
    {
        self.compounds.get(number)
    }

    /// The arrays and records, with names of their own.
    #[tactic(auto, using(crate::proofs::SymbolLists::types_step, crate::proofs::SymbolLists::types_none), unfolding(crate::specs::Kinds::types_seen))]
    pub fn symbols(&self, alloc: Global) -> Result<Vec<TypeSymbol>, AllocError>
        ensures { IfOk result (λ v. map type_symbol_seen v.items ≡ types_seen self.now) }
    {
        let mut types = Vec::new(alloc);
        for compound in &self.compounds {
            types.push(type_symbol(alloc, compound)?)?;
        }
        Ok(types)
    }

    #[cycle(least)]
    fn add_compound(&self, cells: &mut Vec<i16>, number: usize) -> Result<(), AllocError>
        ensures { OnOk result (cells.new.items ≡ cells.old.items ++ spec.compound_least (spec.compound_below (types_seen self.now) number) (slice_get (types_seen self.now) number)) }
    {
        match self.compound(number) {
            Some(Compound::Array(array)) => self.add_elements(cells, array, number),
            Some(Compound::Record(record)) => self.add_fields(cells, &record.fields, number),
            None => Ok(()),
        }
    }

    #[cycle(least)]
    #[tactic(auto, using(crate::proofs::Least::copies_step, crate::proofs::Least::copies_none))]
    fn add_elements(
        &self,
        cells: &mut Vec<i16>,
        array: &ArrayType,
        bound: usize,
    ) -> Result<(), AllocError>
        ensures { OnOk result (cells.new.items ≡ cells.old.items ++ spec.elements_least (spec.compound_below (types_seen self.now) bound) array.now) }
    {
        for _ in 0..array.index.count() {
            self.add_least_below(cells, array.element, bound)?;
        }
        Ok(())
    }

    #[cycle(least)]
    #[tactic(auto, using(crate::proofs::Least::fields_step, crate::proofs::Least::fields_none))]
    fn add_fields(
        &self,
        cells: &mut Vec<i16>,
        fields: &[Field<'a>],
        bound: usize,
    ) -> Result<(), AllocError>
        ensures { OnOk result (cells.new.items ≡ cells.old.items ++ spec.fields_least (spec.compound_below (types_seen self.now) bound) (map field_seen fields.now)) }
    {
        for field in fields {
            self.add_least_below(cells, field.value_type, bound)?;
        }
        Ok(())
    }
}
