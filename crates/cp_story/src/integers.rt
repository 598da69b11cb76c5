//! Whether a number can only be an integer, and no value of an enumeration, a character or a truth value.

ghost use Rattle.std.specs.Prelude.{◌≡◌, map};
ghost use Rattle.std.specs.List.{list_any};
ghost use Rattle.cp_symbols.specs.Symbols.{field_symbol_seen, type_symbol_seen};
ghost use Rattle.cp_legend.specs.Names.{legend_seen, routine_names_seen, variable_seen, variables_seen};
ghost use Rattle.cp_story.specs.Integers as spec;

use cp_legend::{Legend, LegendParameter, LegendRoutine, Variable};
use cp_symbols::{CellBase, CellRange, CellType, FieldSymbol, TypeSymbol};

/// What is known of a number.
#[derive(Clone, Copy)]
pub enum Known {
    /// Its type has these bounds, and it is outside.
    Bounds(i16, i16),
    /// It is this one.
    Value(i16),
}

/// Whether it is an integer, since no other type of the program allows what is known.
#[tactic(auto, unfolding(crate::specs::Integers::is_integer, cp_legend::specs::Values::types_seen))]
pub fn is_integer(legend: &Legend, known: Known) -> bool
    ensures { result ≡ spec.is_integer (legend_seen legend.now) known }
{
    if among_permanents(&legend.permanents, known) || among_routines(&legend.routines, known) {
        return false;
    }
    !among_types(&legend.shapes.compounds, known)
}

fn among_permanents(systems: &[Vec<Variable>], known: Known) -> bool
    ensures { result ≡ list_any (spec.among_variables known) (map variables_seen systems.now) }
{
    for variables in systems {
        if among_variables(variables, known) {
            return true;
        }
    }
    false
}

fn among_variables(variables: &[Variable], known: Known) -> bool
    ensures { result ≡ spec.among_variables known (map variable_seen variables.now) }
{
    for variable in variables {
        if may_be_of(variable.shape, known) {
            return true;
        }
    }
    false
}

fn among_routines(routines: &[LegendRoutine], known: Known) -> bool
    ensures { result ≡ list_any (spec.in_routine known) (map routine_names_seen routines.now) }
{
    for routine in routines {
        if among_variables(&routine.variables, known)
            || among_parameters(&routine.parameters, known)
        {
            return true;
        }
    }
    false
}

fn among_parameters(parameters: &[LegendParameter], known: Known) -> bool
    ensures { result ≡ spec.among_parameters known parameters.now }
{
    for parameter in parameters {
        if may_be_of(parameter.shape, known) {
            return true;
        }
    }
    false
}

fn among_types(types: &[TypeSymbol], known: Known) -> bool
    ensures { result ≡ list_any (spec.in_compound known) (map type_symbol_seen types.now) }
{
    for compound in types {
        if in_compound(compound, known) {
            return true;
        }
    }
    false
}

fn in_compound(compound: &TypeSymbol, known: Known) -> bool
    ensures { result ≡ spec.in_compound known (type_symbol_seen compound.now) }
{
    match compound {
        TypeSymbol::Array(array) => {
            may_be_in(array.index, known) || may_be_of(array.element, known)
        }
        TypeSymbol::Record(fields, _) => among_fields(fields, known),
    }
}

fn among_fields(fields: &[FieldSymbol], known: Known) -> bool
    ensures { result ≡ spec.among_fields known (map field_symbol_seen fields.now) }
{
    for field in fields {
        if may_be_of(field.value_type, known) {
            return true;
        }
    }
    false
}

fn may_be_of(value_type: CellType, known: Known) -> bool
    ensures { result ≡ spec.may_be_of known value_type }
{
    match value_type {
        CellType::Ordinal(range) | CellType::Set(range) => may_be_in(range, known),
        _ => false,
    }
}

// Whether a type that is not of integers allows it.
fn may_be_in(range: CellRange, known: Known) -> bool
    ensures { result ≡ spec.may_be_in known range }
{
    !is_of_integers(range.base) && allows(range, known)
}

fn is_of_integers(base: CellBase) -> bool
    ensures { result ≡ spec.is_of_integers base }
{
    match base {
        CellBase::Integer => true,
        CellBase::Boolean | CellBase::Char | CellBase::Enumeration(_, _) => false,
    }
}

// A value is never outside a type that has all values of its base.
fn allows(range: CellRange, known: Known) -> bool
    ensures { result ≡ spec.allows known range }
{
    match known {
        Known::Bounds(low, high) => has_bounds(range, low, high) && !is_whole(range),
        Known::Value(value) => range.low <= value && value <= range.high,
    }
}

fn has_bounds(range: CellRange, low: i16, high: i16) -> bool
    ensures { result ≡ spec.has_bounds low high range }
{
    range.low == low && range.high == high
}

fn is_whole(range: CellRange) -> bool
    ensures { result ≡ spec.is_whole range }
{
    let whole = range.base.whole();
    range.low == whole.low && range.high == whole.high
}
