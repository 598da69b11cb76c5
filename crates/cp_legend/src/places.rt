//! Names of places: a variable or a part of one, by its first cell.

ghost use Rattle.std.specs.Prelude.{◌≡◌, ◌++◌, ◌-◌, map, option_map, slice_get, IfOk, OnOk};
ghost use Rattle.std.specs.String.{string_bytes};
ghost use Rattle.cp_symbols.specs.Kinds.{times};
ghost use Rattle.cp_symbols.specs.Symbols.{field_symbol_seen};
ghost use Rattle.cp_legend.specs.Names.{component_seen, routine_names_seen, variable_seen, variables_seen};
ghost use Rattle.cp_legend.specs.Places as spec;
ghost use Rattle.cp_legend.specs.Values.{types_seen};

use crate::legend::{Legend, LegendComponent, Variable};
use crate::values::push_index;
use cp_symbols::{ArrayType, CellType, FieldSymbol};
use std::alloc::{AllocError, Global};

impl Legend {
    /// The permanent variables of a component.
    pub fn variables_of(&self, component: &LegendComponent) -> &[Variable]
        ensures { map variable_seen result.now ≡ spec.variables_at (map variables_seen self.now.permanents.items) component.now.system }
    {
        match self.permanents.get(component.system) {
            Some(variables) => variables.as_slice(),
            None => &[],
        }
    }

    /// The component that a permanent cell belongs to.
    pub fn owner(&self, cell: usize) -> Option<&LegendComponent>
        ensures { option_map (λ c. component_seen c.now) result ≡ spec.owner (map component_seen self.now.components.items) cell }
    {
        let mut found = None;
        for component in &self.components {
            if component.base <= cell {
                found = Some(component);
            }
        }
        found
    }

    /// The monitor that a permanent cell belongs to.
    pub fn monitor_of(&self, cell: usize) -> Option<u8>
        ensures { result ≡ spec.monitor_in (spec.owner (map component_seen self.now.components.items) cell) }
    {
        self.owner(cell)?.monitor
    }

    /// The name, in its component, of what has this many permanent cells from a cell on.
    pub fn permanent_name(
        &self,
        alloc: Global,
        cell: usize,
        cells: usize,
    ) -> Result<String, AllocError>
        ensures { IfOk result (λ t. string_bytes t ≡ spec.permanent_name_in (map string_bytes self.now.constants.items) (types_seen self.now.shapes) (map variables_seen self.now.permanents.items) (spec.owner (map component_seen self.now.components.items) cell) cell cells) }
    {
        match self.owner(cell) {
            Some(component) => {
                let variables = self.variables_of(component);
                self.place_name(alloc, variables, cell.saturating_sub(component.base), cells)
            }
            None => Ok(String::new(alloc)),
        }
    }

    /// The name of what has this many cells from a cell of a frame on.
    pub fn local_name(
        &self,
        alloc: Global,
        routine: usize,
        cell: usize,
        cells: usize,
    ) -> Result<String, AllocError>
        ensures { IfOk result (λ t. string_bytes t ≡ spec.local_name_in (map string_bytes self.now.constants.items) (types_seen self.now.shapes) (slice_get (map routine_names_seen self.now.routines.items) routine) cell cells) }
    {
        match self.routines.get(routine) {
            Some(routine) => self.place_name(alloc, &routine.variables, cell, cells),
            None => Ok(String::new(alloc)),
        }
    }

    fn place_name(
        &self,
        alloc: Global,
        variables: &[Variable],
        cell: usize,
        cells: usize,
    ) -> Result<String, AllocError>
        ensures { IfOk result (λ t. string_bytes t ≡ spec.place_name (map string_bytes self.now.constants.items) (types_seen self.now.shapes) (map variable_seen variables.now) cell cells) }
    {
        for variable in variables {
            if self.has_cell(variable, cell) {
                return self.part_name(alloc, variable, cell, cells);
            }
        }
        Ok(String::new(alloc))
    }

    fn has_cell(&self, variable: &Variable, cell: usize) -> bool
        ensures { result ≡ spec.has_cell (types_seen self.now.shapes) (variable_seen variable.now) cell }
    {
        let all = self.shapes.cells_of(variable.shape);
        variable.slot <= cell && cell.saturating_sub(variable.slot) < all
    }

    fn part_name(
        &self,
        alloc: Global,
        variable: &Variable,
        cell: usize,
        cells: usize,
    ) -> Result<String, AllocError>
        ensures { IfOk result (λ t. string_bytes t ≡ spec.part_name (map string_bytes self.now.constants.items) (types_seen self.now.shapes) (variable_seen variable.now) cell cells) }
    {
        let mut text = String::from_str(alloc, variable.name.as_str())?;
        let whole = PlacePart {
            shape: variable.shape,
            offset: cell.saturating_sub(variable.slot),
        };
        self.push_parts(&mut text, whole, cells, self.shapes.count())?;
        Ok(text)
    }

    // Appends the indices and fields that lead to the part. An array or a record holds earlier ones alone.
    fn push_parts(
        &self,
        text: &mut String,
        part: PlacePart,
        cells: usize,
        steps: usize,
    ) -> Result<(), AllocError>
        ensures { OnOk result (string_bytes text.new ≡ string_bytes text.old ++ spec.parts_text (map string_bytes self.now.constants.items) (types_seen self.now.shapes) cells steps part) }
    {
        if steps == 0 {
            return Ok(());
        }
        if self.shapes.cells_of(part.shape) <= cells {
            return Ok(());
        }
        self.push_step(text, part)?;
        self.push_parts(text, self.inner_part(part), cells, steps - 1)?;
        Ok(())
    }

    // Appends one index or field.
    fn push_step(&self, text: &mut String, part: PlacePart) -> Result<(), AllocError>
        ensures { OnOk result (string_bytes text.new ≡ string_bytes text.old ++ spec.step_text (map string_bytes self.now.constants.items) (types_seen self.now.shapes) part) }
    {
        match part.shape {
            CellType::Array(number) => match self.shapes.array(number) {
                Some(array) => {
                    let place = element_at(array, part.offset);
                    push_index(&self.constants, text, array.index, place)
                }
                None => Ok(()),
            },
            CellType::Record(number) => push_field(text, self.shapes.fields(number), part.offset),
            _ => Ok(()),
        }
    }

    // The part that this index or field leads to.
    fn inner_part(&self, part: PlacePart) -> PlacePart
        ensures { result ≡ spec.inner_part (types_seen self.now.shapes) part }
    {
        match part.shape {
            CellType::Array(number) => match self.shapes.array(number) {
                Some(array) => element_part(array, part.offset),
                None => part,
            },
            CellType::Record(number) => field_part(self.shapes.fields(number), part),
            _ => part,
        }
    }
}

#[derive(Clone, Copy)]
struct PlacePart {
    shape: CellType,
    offset: usize,
}

fn element_at(array: ArrayType, offset: usize) -> usize
    ensures { result ≡ spec.element_at array offset }
{
    if array.element_cells == 0 {
        0
    } else {
        offset / array.element_cells
    }
}

fn element_part(array: ArrayType, offset: usize) -> PlacePart
    ensures { result ≡ spec.part array.element (offset - times (spec.element_at array offset) array.element_cells) }
{
    let before = element_at(array, offset).saturating_mul(array.element_cells);
    PlacePart {
        shape: array.element,
        offset: offset.saturating_sub(before),
    }
}

fn push_field(text: &mut String, fields: &[FieldSymbol], offset: usize) -> Result<(), AllocError>
    ensures { OnOk result (string_bytes text.new ≡ string_bytes text.old ++ spec.field_text (spec.field_at (map field_symbol_seen fields.now) offset)) }
{
    if let Some(field) = field_at(fields, offset) {
        text.push('.')?;
        text.push_str(field.name.as_str())?;
    }
    Ok(())
}

fn field_part(fields: &[FieldSymbol], part: PlacePart) -> PlacePart
    ensures { result ≡ spec.field_part part (spec.field_at (map field_symbol_seen fields.now) part.offset) }
{
    match field_at(fields, part.offset) {
        Some(field) => PlacePart {
            shape: field.value_type,
            offset: part.offset.saturating_sub(field.offset),
        },
        None => part,
    }
}

fn field_at(fields: &[FieldSymbol], offset: usize) -> Option<&FieldSymbol>
    ensures { option_map (λ f. field_symbol_seen f.now) result ≡ spec.field_at (map field_symbol_seen fields.now) offset }
{
    let mut found = None;
    for field in fields {
        if field.offset <= offset {
            found = Some(field);
        }
    }
    found
}
