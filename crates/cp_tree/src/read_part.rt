//! Reading the parts of a block: constants, types and variables.

ghost use Rattle.std.specs.Prelude.{map, option_map};
ghost use Rattle.cp_tree.specs.Input.{Reads};
ghost use Rattle.cp_tree.specs.ReadingDeclarations as spec;
ghost use Rattle.cp_tree.specs.View.{constant_definition_view, type_definition_view, variable_group_view, part_view};

use crate::cursor::{Cursor, eat_one};
use crate::declaration::{ConstantDefinition, Part, PartKind, TypeDefinition, VariableGroup};
use crate::fault::ParseFault;
use crate::held::{value_before, value_with};
use crate::read_constant::{constant, identifier, identifiers};
use crate::read_type::type_term;
use cp_text::Mark;
use std::alloc::Global;

/// The level of the innermost nodes.
pub const MOST_LEVELS: usize = 50;

#[tactic(auto, unfolding(crate::specs::ReadingDeclarations::constant_item))]
fn constant_definition(
    alloc: Global,
    cursor: &mut Cursor<'_>,
) -> Result<ConstantDefinition, ParseFault>
    ensures { Reads constant_definition_view (spec.constant_item cursor.old) result cursor.new }
{
    let name = identifier(alloc, cursor)?;
    let name = value_before(cursor, name, Mark::Equal)?;
    let (name, value) = value_with(name, constant(alloc, cursor))?;
    value_before(cursor, ConstantDefinition { name, value }, Mark::Semicolon)
}

#[tactic(auto, unfolding(crate::specs::ReadingDeclarations::type_item))]
fn type_definition(alloc: Global, cursor: &mut Cursor<'_>) -> Result<TypeDefinition, ParseFault>
    ensures { Reads type_definition_view (spec.type_item cursor.old) result cursor.new }
{
    let name = identifier(alloc, cursor)?;
    let name = value_before(cursor, name, Mark::Equal)?;
    let (name, value) = value_with(name, type_term(alloc, cursor, MOST_LEVELS))?;
    value_before(cursor, TypeDefinition { name, value }, Mark::Semicolon)
}

#[tactic(auto, unfolding(crate::specs::ReadingDeclarations::variable_item))]
fn variable_group(alloc: Global, cursor: &mut Cursor<'_>) -> Result<VariableGroup, ParseFault>
    ensures { Reads variable_group_view (spec.variable_item cursor.old) result cursor.new }
{
    let names = identifiers(alloc, cursor)?;
    cursor.expect(Mark::Colon)?;
    let variable_type = type_term(alloc, cursor, MOST_LEVELS)?;
    let group = VariableGroup {
        names,
        variable_type,
    };
    value_before(cursor, group, Mark::Semicolon)
}

/// Constant definitions, as long as a name comes next.
#[tactic(auto, using(crate::proofs::Turns::turns), unfolding(crate::specs::ReadingDeclarations::one_or_more))]
pub fn constant_definitions(
    alloc: Global,
    cursor: &mut Cursor<'_>,
) -> Result<Vec<ConstantDefinition>, ParseFault>
    ensures { Reads (λ v. map constant_definition_view v.items) (spec.one_or_more spec.constant_item cursor.old) result cursor.new }
{
    let mut found = Vec::new(alloc);
    found.push(constant_definition(alloc, cursor)?)?;
    for _turn in 0..cursor.tokens_left() {
        if !cursor.sees_name() {
            return Ok(found);
        }
        found.push(constant_definition(alloc, cursor)?)?;
    }
    Ok(found)
}

#[tactic(auto, using(crate::proofs::Turns::turns), unfolding(crate::specs::ReadingDeclarations::one_or_more))]
fn type_definitions(
    alloc: Global,
    cursor: &mut Cursor<'_>,
) -> Result<Vec<TypeDefinition>, ParseFault>
    ensures { Reads (λ v. map type_definition_view v.items) (spec.one_or_more spec.type_item cursor.old) result cursor.new }
{
    let mut found = Vec::new(alloc);
    found.push(type_definition(alloc, cursor)?)?;
    for _turn in 0..cursor.tokens_left() {
        if !cursor.sees_name() {
            return Ok(found);
        }
        found.push(type_definition(alloc, cursor)?)?;
    }
    Ok(found)
}

/// Variables, as long as a name comes next.
#[tactic(auto, using(crate::proofs::Turns::turns), unfolding(crate::specs::ReadingDeclarations::one_or_more))]
pub fn variable_groups(
    alloc: Global,
    cursor: &mut Cursor<'_>,
) -> Result<Vec<VariableGroup>, ParseFault>
    ensures { Reads (λ v. map variable_group_view v.items) (spec.one_or_more spec.variable_item cursor.old) result cursor.new }
{
    let mut found = Vec::new(alloc);
    found.push(variable_group(alloc, cursor)?)?;
    for _turn in 0..cursor.tokens_left() {
        if !cursor.sees_name() {
            return Ok(found);
        }
        found.push(variable_group(alloc, cursor)?)?;
    }
    Ok(found)
}

#[tactic(auto, unfolding(crate::specs::ReadingDeclarations::part_item))]
fn part(alloc: Global, cursor: &mut Cursor<'_>) -> Result<Option<Part>, ParseFault>
    ensures { Reads (λ p. option_map part_view p) (spec.part_item cursor.old) result cursor.new }
{
    let at = cursor.at();
    let kind = eat_one!(cursor, {
        Mark::Const => PartKind::Constants(constant_definitions(alloc, cursor)?),
        Mark::Type => PartKind::Types(type_definitions(alloc, cursor)?),
        Mark::Var => PartKind::Variables(variable_groups(alloc, cursor)?),
        _ => return Ok(None),
    });
    Ok(Some(Part { at, kind }))
}

/// The parts of a routine or a system type.
#[tactic(auto, using(crate::proofs::Turns::turns), unfolding(crate::specs::ReadingDeclarations::parts))]
pub fn parts(alloc: Global, cursor: &mut Cursor<'_>) -> Result<Vec<Part>, ParseFault>
    ensures { Reads (λ v. map part_view v.items) (spec.parts cursor.old) result cursor.new }
{
    let mut found = Vec::new(alloc);
    for _turn in 0..cursor.tokens_left() {
        match part(alloc, cursor)? {
            Some(part) => found.push(part)?,
            None => return Ok(found),
        }
    }
    Ok(found)
}
