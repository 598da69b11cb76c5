//! Reading system types and programs.

ghost use Rattle.std.specs.Prelude.{map, option_map};
ghost use Rattle.cp_tree.specs.Input.{Reads};
ghost use Rattle.cp_tree.specs.Reading as lists;
ghost use Rattle.cp_tree.specs.ReadingDeclarations as spec;
ghost use Rattle.cp_tree.specs.View.{routine_view, system_view, definition_view, system_definition_view, program_part_view, program_view};

use crate::cursor::{Cursor, eat_one};
use crate::declaration::{
    Definition, Program, ProgramPart, ProgramPartKind, Routine, System, SystemDefinition,
    SystemKind,
};
use crate::fault::ParseFault;
use crate::held::{value_before, value_with};
use crate::read_annotation::invariants;
use crate::read_constant::identifier;
use crate::read_part::{MOST_LEVELS, constant_definitions, parts, variable_groups};
use crate::read_routine::{body, groups, routines, routines_after};
use crate::read_type::type_term;
use cp_text::Mark;
use std::alloc::Global;

#[tactic(auto, unfolding(crate::specs::ReadingDeclarations::system_with))]
fn system(
    alloc: Global,
    cursor: &mut Cursor<'_>,
    kind: SystemKind,
    at: usize,
) -> Result<System, ParseFault>
    ensures { Reads system_view (spec.system_with kind at cursor.old) result cursor.new }
{
    let parameters = groups(alloc, cursor)?;
    let has_semicolon = cursor.eat(Mark::Semicolon);
    let parts = parts(alloc, cursor)?;
    let routines = system_routines(alloc, cursor, kind)?;
    let body = body(alloc, cursor)?;
    Ok(System {
        at,
        kind,
        parameters,
        has_semicolon,
        parts,
        routines,
        body,
    })
}

// The routines of a system type, of which the invariants of a class or a monitor are the first.
#[tactic(auto, unfolding(crate::specs::ReadingDeclarations::system_routines))]
fn system_routines(
    alloc: Global,
    cursor: &mut Cursor<'_>,
    kind: SystemKind,
) -> Result<Vec<Routine>, ParseFault>
    ensures { Reads (λ v. map routine_view v.items) (spec.system_routines kind cursor.old) result cursor.new }
{
    match invariants(alloc, cursor, kind)? {
        Some(nameless) => {
            let mut found = Vec::new(alloc);
            found.push(nameless)?;
            routines_after(alloc, cursor, found)
        }
        None => routines_after(alloc, cursor, Vec::new(alloc)),
    }
}

// A type or a system type.
#[tactic(auto, unfolding(crate::specs::ReadingDeclarations::definition))]
fn definition(alloc: Global, cursor: &mut Cursor<'_>) -> Result<Definition, ParseFault>
    ensures { Reads definition_view (spec.definition cursor.old) result cursor.new }
{
    let at = cursor.at();
    eat_one!(cursor, {
        Mark::Class => Ok(Definition::System(system(alloc, cursor, SystemKind::Class, at)?)),
        Mark::Monitor => Ok(Definition::System(system(alloc, cursor, SystemKind::Monitor, at)?)),
        Mark::Process => Ok(Definition::System(system(alloc, cursor, SystemKind::Process, at)?)),
        _ => Ok(Definition::Type(type_term(alloc, cursor, MOST_LEVELS)?)),
    })
}

#[tactic(auto, unfolding(crate::specs::ReadingDeclarations::system_item))]
fn system_definition(alloc: Global, cursor: &mut Cursor<'_>) -> Result<SystemDefinition, ParseFault>
    ensures { Reads system_definition_view (spec.system_item cursor.old) result cursor.new }
{
    let name = identifier(alloc, cursor)?;
    let name = value_before(cursor, name, Mark::Equal)?;
    let (name, value) = value_with(name, definition(alloc, cursor))?;
    value_before(cursor, SystemDefinition { name, value }, Mark::Semicolon)
}

#[tactic(auto, using(crate::proofs::Turns::turns), unfolding(crate::specs::ReadingDeclarations::one_or_more))]
fn system_definitions(
    alloc: Global,
    cursor: &mut Cursor<'_>,
) -> Result<Vec<SystemDefinition>, ParseFault>
    ensures { Reads (λ v. map system_definition_view v.items) (spec.one_or_more spec.system_item cursor.old) result cursor.new }
{
    let mut found = Vec::new(alloc);
    found.push(system_definition(alloc, cursor)?)?;
    for _turn in 0..cursor.tokens_left() {
        if !cursor.sees_name() {
            return Ok(found);
        }
        found.push(system_definition(alloc, cursor)?)?;
    }
    Ok(found)
}

#[tactic(auto, unfolding(crate::specs::ReadingDeclarations::program_part_item))]
fn program_part(alloc: Global, cursor: &mut Cursor<'_>) -> Result<Option<ProgramPart>, ParseFault>
    ensures { Reads (λ p. option_map program_part_view p) (spec.program_part_item cursor.old) result cursor.new }
{
    let at = cursor.at();
    let kind = eat_one!(cursor, {
        Mark::Const => ProgramPartKind::Constants(constant_definitions(alloc, cursor)?),
        Mark::Type => ProgramPartKind::Types(system_definitions(alloc, cursor)?),
        Mark::Var => ProgramPartKind::Variables(variable_groups(alloc, cursor)?),
        _ => return Ok(None),
    });
    Ok(Some(ProgramPart { at, kind }))
}

#[tactic(auto, using(crate::proofs::Turns::turns))]
fn program_parts(alloc: Global, cursor: &mut Cursor<'_>) -> Result<Vec<ProgramPart>, ParseFault>
    ensures { Reads (λ v. map program_part_view v.items) (lists.many spec.program_part_item cursor.old) result cursor.new }
{
    let mut found = Vec::new(alloc);
    for _turn in 0..cursor.tokens_left() {
        match program_part(alloc, cursor)? {
            Some(part) => found.push(part)?,
            None => return Ok(found),
        }
    }
    Ok(found)
}

/// A whole program, with nothing after its period.
#[tactic(auto, unfolding(crate::specs::ReadingDeclarations::program))]
pub fn program(alloc: Global, cursor: &mut Cursor<'_>) -> Result<Program, ParseFault>
    ensures { Reads program_view (spec.program cursor.old) result cursor.new }
{
    let parts = program_parts(alloc, cursor)?;
    let routines = routines(alloc, cursor)?;
    let body = body(alloc, cursor)?;
    let program = Program {
        parts,
        routines,
        body,
        period: cursor.at(),
    };
    let program = value_before(cursor, program, Mark::Period)?;
    if cursor.tokens_left() > 0 {
        return Err(cursor.unexpected_token());
    }
    Ok(program)
}
