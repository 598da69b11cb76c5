//! Values, from cells.

ghost use Rattle.std.specs.Prelude.{◌≡◌, ◌++◌, map, slice_get, IfOk, OnOk};
ghost use Rattle.std.specs.String.{string_bytes};
ghost use Rattle.cp_symbols.specs.Kinds.{count_of};
ghost use Rattle.cp_symbols.specs.Symbols.{field_symbol_seen};
ghost use Rattle.cp_legend.specs.Names as names;
ghost use Rattle.cp_legend.specs.Values as spec;
ghost use Rattle.cp_legend.specs.Values.{types_seen, value_seen};

use crate::legend::Legend;
use crate::types::nth;
use crate::value::{Member, SourceValue};
use cp_symbols::{ArrayType, CellBase, CellRange, CellType, FieldSymbol};
use std::alloc::{AllocError, Global};

/// The values that a cell of a set has a member or none of.
const MEMBERS_OF_A_CELL: u8 = 16;

/// Appends an ordinal value as the source writes it.
pub fn push_ordinal(
    constants: &[String],
    text: &mut String,
    base: CellBase,
    number: i16,
) -> Result<(), AllocError>
    ensures { OnOk result (string_bytes text.new ≡ string_bytes text.old ++ spec.ordinal_text (map string_bytes constants.now) base number) }
{
    match base {
        CellBase::Integer => write!(text, "{number}"),
        CellBase::Boolean => text.push_str(if number == 0 { "false" } else { "true" }),
        CellBase::Char => push_character(text, number),
        CellBase::Enumeration(_, last) if number > last => write!(text, "{number}"),
        CellBase::Enumeration(first, _) => {
            let place = usize::from(first).saturating_add(usize::from(number.unsigned_abs()));
            push_constant(constants, text, place, number)
        }
    }
}

/// Appends the index of an element as the source writes it.
pub fn push_index(
    constants: &[String],
    text: &mut String,
    index: CellRange,
    place: usize,
) -> Result<(), AllocError>
    ensures { OnOk result (string_bytes text.new ≡ string_bytes text.old ++ names.index_text (map string_bytes constants.now) index place) }
{
    text.push('[')?;
    push_ordinal(constants, text, index.base, nth(index, place))?;
    text.push(']')
}

// The constant at a place, or the number where there is none.
fn push_constant(
    constants: &[String],
    text: &mut String,
    place: usize,
    number: i16,
) -> Result<(), AllocError>
    ensures { OnOk result (string_bytes text.new ≡ string_bytes text.old ++ spec.constant_text (slice_get (map string_bytes constants.now) place) number) }
{
    match constants.get(place) {
        Some(name) => text.push_str(name.as_str()),
        None => write!(text, "{number}"),
    }
}

fn push_character(text: &mut String, number: i16) -> Result<(), AllocError>
    ensures { OnOk result (string_bytes text.new ≡ string_bytes text.old ++ spec.character_text number) }
{
    if number >= 33 && number <= 126 && number != 39 {
        let character = char::from(number.unsigned_abs() as u8);
        text.push_str("'")?;
        text.push(character)?;
        text.push_str("'")
    } else {
        write!(text, "'(:{number}:)'")
    }
}

fn cell_at(cells: &[i16], at: usize) -> i16
    ensures { result ≡ spec.cell cells.now at }
{
    cells.get(at).copied().unwrap_or(0)
}

// Whether the bit of a number is 1 in the cells of a set.
fn has_member(cells: &[i16], at: usize, number: u8) -> bool
    ensures { result ≡ spec.has_member cells.now at number }
{
    let further = usize::from(number / MEMBERS_OF_A_CELL);
    let cell = cell_at(cells, at.saturating_add(further)).cast_unsigned();
    (cell >> (number % MEMBERS_OF_A_CELL)) % 2 == 1
}

impl Legend {
    /// The value of a type whose cells begin at a place.
    #[tactic(auto, unfolding(crate::specs::Values::value_of))]
    pub fn value(
        &self,
        alloc: Global,
        shape: CellType,
        cells: &[i16],
        at: usize,
    ) -> Result<SourceValue, AllocError>
        ensures { IfOk result (λ v. value_seen v ≡ spec.value_of (map string_bytes self.now.constants.items) (types_seen self.now.shapes) cells.now shape at) }
    {
        self.value_below(alloc, shape, cells, at, self.shapes.count())
    }

    // The same for a type that holds only the first compound types of this number.
    #[cycle(values)]
    #[tactic(auto, using(crate::proofs::Gathering::compound_inside, crate::proofs::Gathering::compound_outside))]
    fn value_below(
        &self,
        alloc: Global,
        shape: CellType,
        cells: &[i16],
        at: usize,
        bound: usize,
    ) -> Result<SourceValue, AllocError>
        ensures { IfOk result (λ v. value_seen v ≡ spec.value_below (map string_bytes self.now.constants.items) (types_seen self.now.shapes) cells.now bound shape at) }
    {
        match shape {
            CellType::Ordinal(range) => self.ordinal(alloc, range.base, cell_at(cells, at)),
            CellType::Queue => queue_value(alloc, cell_at(cells, at)),
            CellType::Set(range) => self.set(alloc, range, cells, at),
            CellType::Array(number) | CellType::Record(number) => {
                if number < bound {
                    return self.compound(alloc, number, cells, at);
                }
                Ok(no_elements(alloc))
            }
            CellType::System(_) => Ok(SourceValue::Named(String::new(alloc))),
        }
    }

    #[cycle(values)]
    fn compound(
        &self,
        alloc: Global,
        number: usize,
        cells: &[i16],
        at: usize,
    ) -> Result<SourceValue, AllocError>
        ensures { IfOk result (λ v. value_seen v ≡ spec.compound_value (map string_bytes self.now.constants.items) cells.now (spec.compound_below (map string_bytes self.now.constants.items) (types_seen self.now.shapes) cells.now number) (slice_get (types_seen self.now.shapes) number) at) }
    {
        match self.shapes.array(number) {
            Some(array) => self.elements(alloc, array, cells, at, number),
            None => self.members(alloc, self.shapes.fields(number), cells, at, number),
        }
    }

    #[cycle(values)]
    #[tactic(auto, using(crate::proofs::Gathering::fields_step, crate::proofs::Gathering::fields_none))]
    fn members(
        &self,
        alloc: Global,
        fields: &[FieldSymbol],
        cells: &[i16],
        at: usize,
        bound: usize,
    ) -> Result<SourceValue, AllocError>
        ensures { IfOk result (λ v. value_seen v ≡ spec.record_of (spec.members_of (map (spec.field_value (map string_bytes self.now.constants.items) cells.now (spec.compound_below (map string_bytes self.now.constants.items) (types_seen self.now.shapes) cells.now bound) at) (map field_symbol_seen fields.now)))) }
    {
        let mut members = Vec::new(alloc);
        for field in fields {
            let at = at.saturating_add(field.offset);
            members.push(Member {
                name: field.name.clone()?,
                value: self.value_below(alloc, field.value_type, cells, at, bound)?,
            })?;
        }
        Ok(SourceValue::Record(members))
    }

    #[cycle(values)]
    #[tactic(auto, using(crate::proofs::Gathering::elements_step, crate::proofs::Gathering::elements_none))]
    fn elements(
        &self,
        alloc: Global,
        array: ArrayType,
        cells: &[i16],
        at: usize,
        bound: usize,
    ) -> Result<SourceValue, AllocError>
        ensures { IfOk result (λ v. value_seen v ≡ spec.list (spec.values_of (spec.elements_below (map string_bytes self.now.constants.items) cells.now (spec.compound_below (map string_bytes self.now.constants.items) (types_seen self.now.shapes) cells.now bound) array at (count_of array.index)))) }
    {
        let mut items = Vec::new(alloc);
        for place in 0..array.index.count() {
            let further = place.saturating_mul(array.element_cells);
            let at = at.saturating_add(further);
            items.push(self.value_below(alloc, array.element, cells, at, bound)?)?;
        }
        Ok(SourceValue::List(items))
    }

    fn ordinal(&self, alloc: Global, base: CellBase, number: i16) -> Result<SourceValue, AllocError>
        ensures { IfOk result (λ v. value_seen v ≡ spec.ordinal_value (map string_bytes self.now.constants.items) base number) }
    {
        if let CellBase::Integer = base {
            return Ok(SourceValue::Integer(number));
        }
        let mut text = String::new(alloc);
        push_ordinal(&self.constants, &mut text, base, number)?;
        Ok(SourceValue::Named(text))
    }

    // Bit number k of the cells is 1 where k is a member.
    #[tactic(auto, using(crate::proofs::Gathering::members_step, crate::proofs::Gathering::members_none))]
    fn set(
        &self,
        alloc: Global,
        range: CellRange,
        cells: &[i16],
        at: usize,
    ) -> Result<SourceValue, AllocError>
        ensures { IfOk result (λ v. value_seen v ≡ spec.set (spec.values_of (spec.members_below (map string_bytes self.now.constants.items) range.base cells.now at 128))) }
    {
        let mut members = Vec::new(alloc);
        for number in 0..128u8 {
            self.add_member(alloc, &mut members, range.base, cells, at, number)?;
        }
        Ok(SourceValue::Set(members))
    }

    // Adds a number, if it is a member.
    fn add_member(
        &self,
        alloc: Global,
        members: &mut Vec<SourceValue>,
        base: CellBase,
        cells: &[i16],
        at: usize,
        number: u8,
    ) -> Result<(), AllocError>
        ensures { OnOk result (map value_seen members.new.items ≡ map value_seen members.old.items ++ spec.member_value (map string_bytes self.now.constants.items) base cells.now at number) }
    {
        if has_member(cells, at, number) {
            members.push(self.ordinal(alloc, base, i16::from(number))?)?;
        }
        Ok(())
    }
}

// A list of nothing.
fn no_elements(alloc: Global) -> SourceValue
    ensures { value_seen result ≡ spec.list spec.no_values }
{
    SourceValue::List(Vec::new(alloc))
}

fn queue_value(alloc: Global, cell: i16) -> Result<SourceValue, AllocError>
    ensures { IfOk result (λ v. value_seen v ≡ spec.queue_value cell) }
{
    let text = if cell == 0 { "empty" } else { "waited in" };
    Ok(SourceValue::Named(String::from_str(alloc, text)?))
}
