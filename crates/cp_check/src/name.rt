//! Names with their selectors.

ghost use Rattle.std.specs.Prelude.{◌≡◌};
ghost use Rattle.cp_scope.specs.Judged.{Judges};
ghost use Rattle.cp_scope.specs.View.{scopes_of};
ghost use Rattle.cp_check.specs.Names as spec;
ghost use Rattle.cp_check.specs.declared.operand.Named.TheVariants as named;

use crate::operand::{DesignatedName, Named, Operand};
use crate::operation::is_function;
use cp_scope::{
    CheckFault, Detail, Meaning, Role, Rule, ScopeTable, Use, ValueType, broken_rule, values_of,
};
use cp_text::Name;
use cp_tree::{Identifier, SystemKind};

/// What a name stands for.
#[tactic(auto, unfolding(crate::specs::Names::visible))]
pub fn meaning_of(table: &ScopeTable, at: usize, name: &Name) -> Result<Meaning, CheckFault>
    ensures { Judges (λ m. m) (spec.visible (scopes_of table.now) at name.now) result }
{
    match table.look(name) {
        Some(meaning) => Ok(meaning),
        None => broken_rule(at, Rule::C1),
    }
}

/// What a meaning is without selectors.
fn without_selectors(meaning: Meaning) -> Named
    ensures { result ≡ spec.without_selectors meaning }
{
    match meaning {
        Meaning::Constant(base, _) => Named::Constant(base),
        Meaning::Kind(_) => Named::Kind,
        Meaning::Variable(value_type) => Named::Variable(value_type),
        Meaning::Parameter(value_type) => Named::Parameter(value_type),
        Meaning::Reference(value_type) => Named::Variable(value_type),
        Meaning::Routine(at) => Named::Routine(at),
        Meaning::Predeclared(routine) => Named::Predeclared(routine),
    }
}

/// A name without selectors.
#[tactic(auto, unfolding(crate::specs::Names::meaning_of_name))]
pub fn name_meaning(table: &ScopeTable, name: &Identifier) -> Result<DesignatedName, CheckFault>
    ensures { Judges (λ d. d) (spec.meaning_of_name (scopes_of table.now) name.now) result }
{
    let meaning = meaning_of(table, name.at, &name.name)?;
    Ok(DesignatedName {
        named: without_selectors(meaning),
        name_at: name.at,
        uses: Use::nothing(),
    })
}

/// Whether the routine at a token is a function.
fn routine_role(table: &ScopeTable, routine: usize) -> Role {
    match table.shapes().result(routine) {
        Some(_) => Role::Function,
        None => Role::Procedure,
    }
}

/// What a name stands for, in words.
pub fn role_of(table: &ScopeTable, named: Named) -> Role {
    match named {
        Named::Constant(base) => Role::Value(values_of(base)),
        Named::Variable(value_type) | Named::Parameter(value_type) => Role::Value(value_type),
        Named::Routine(routine) | Named::Entry(routine) => routine_role(table, routine),
        Named::Predeclared(routine) if is_function(routine) => Role::Function,
        Named::Predeclared(_) => Role::Procedure,
        Named::Kind | Named::Nothing => Role::Kind,
    }
}

impl Named {
    /// The type of a variable or a parameter.
    fn value_type(self) -> Option<ValueType>
        ensures { result ≡ spec.type_of self }
    {
        match self {
            Named::Variable(value_type) => Some(value_type),
            Named::Parameter(value_type) => Some(value_type),
            _ => None,
        }
    }

    /// A part of this type.
    fn part(self, value_type: ValueType) -> Named
        ensures { result ≡ spec.part_of self value_type }
    {
        match self {
            Named::Variable(_) => Named::Variable(value_type),
            Named::Parameter(_) => Named::Parameter(value_type),
            _ => Named::Nothing,
        }
    }
}

/// A field of a record.
fn field(
    table: &ScopeTable,
    name: &Identifier,
    whole: DesignatedName,
    written: usize,
) -> Result<DesignatedName, CheckFault>
    ensures { Judges (λ d. d) (spec.field (scopes_of table.now) name.now whole written) result }
{
    let detail = Detail::Member(ValueType::Record(written));
    match table.shapes().field(written, &name.name) {
        Some(Meaning::Variable(value_type)) => Ok(DesignatedName {
            named: whole.named.part(value_type),
            name_at: name.at,
            uses: whole.uses,
        }),
        _ => table.broken_rule(name.at, Rule::C1, detail),
    }
}

/// A routine of a component.
fn entry(
    table: &ScopeTable,
    name: &Identifier,
    whole: DesignatedName,
    kind: SystemKind,
    system: usize,
) -> Result<DesignatedName, CheckFault>
    ensures { Judges (λ d. d) (spec.entry (scopes_of table.now) name.now whole system) result }
{
    let detail = Detail::Member(ValueType::Component(kind, system));
    match table.shapes().member(system, &name.name) {
        Some(Meaning::Routine(at)) => Ok(DesignatedName {
            named: Named::Entry(at),
            name_at: name.at,
            uses: whole.uses,
        }),
        _ => table.broken_rule(name.at, Rule::C8, detail),
    }
}

fn nothing(at: usize, uses: Use) -> DesignatedName
    ensures { result ≡ spec.nothing at uses }
{
    DesignatedName {
        named: Named::Nothing,
        name_at: at,
        uses,
    }
}

/// Notes the first selector that does not fit.
fn note_unfit(table: &ScopeTable, whole: DesignatedName, detail: Detail) {
    match whole.named {
        Named::Nothing => {}
        _ => table.note(detail),
    }
}

/// What follows a period.
pub fn member_of(
    table: &ScopeTable,
    name: &Identifier,
    whole: DesignatedName,
) -> Result<DesignatedName, CheckFault>
    ensures { Judges (λ d. d) (spec.member_of (scopes_of table.now) name.now whole) result }
{
    match whole.named.value_type() {
        Some(ValueType::Record(written)) => field(table, name, whole, written),
        Some(ValueType::Component(kind, system)) => entry(table, name, whole, kind, system),
        _ => {
            note_unfit(
                table,
                whole,
                Detail::Period(role_of(table, whole.named), name.at),
            );
            Ok(nothing(name.at, whole.uses))
        }
    }
}

/// No element, since the index or what stands before it does not fit.
fn no_element(table: &ScopeTable, whole: DesignatedName, index: Operand) -> Named
    ensures { result ≡ named.Nothing }
{
    note_unfit(
        table,
        whole,
        Detail::Index(role_of(table, whole.named), index.as_found()),
    );
    Named::Nothing
}

/// An element of an array.
fn element(table: &ScopeTable, whole: DesignatedName, index: Operand, array: usize) -> Named
    ensures { result ≡ spec.element (scopes_of table.now) whole index array }
{
    match table.shapes().array(array) {
        Some(shape) => {
            if ValueType::Ordinal(shape.index).agrees(index.value_type) {
                whole.named.part(shape.element)
            } else {
                no_element(table, whole, index)
            }
        }
        None => no_element(table, whole, index),
    }
}

/// What an index selects.
pub fn element_of(table: &ScopeTable, whole: DesignatedName, index: Operand) -> DesignatedName
    ensures { result ≡ spec.element_name (scopes_of table.now) whole index }
{
    let named = match whole.named.value_type() {
        Some(ValueType::Array(array)) => element(table, whole, index, array),
        _ => no_element(table, whole, index),
    };
    DesignatedName {
        named,
        name_at: whole.name_at,
        uses: whole.uses.and(index.uses),
    }
}

/// The selectors fit what they select from.
pub fn check_selectors(at: usize, designated: DesignatedName) -> Result<DesignatedName, CheckFault>
    ensures { Judges (λ d. d) (spec.check_selectors at designated) result }
{
    match designated.named {
        Named::Nothing => broken_rule(at, Rule::C5),
        _ => Ok(designated),
    }
}
