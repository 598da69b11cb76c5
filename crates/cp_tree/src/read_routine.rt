//! Reading bodies, parameters and routines.

ghost use Rattle.std.specs.Prelude.{if◌then◌else◌, map, option_map};
ghost use Rattle.cp_tree.specs.Input.{Reads};
ghost use Rattle.cp_tree.specs.Reading as lists;
ghost use Rattle.cp_tree.specs.ReadingDeclarations as spec;
ghost use Rattle.cp_tree.specs.View.{body_view, group_view, parameter_group_view, routine_kind_view, routine_view};
ghost use Rattle.cp_text.specs.declared.token.Mark.TheVariants as mark;

use crate::cursor::{Cursor, eat_one};
use crate::declaration::{Body, Group, ParameterGroup, Routine, RoutineKind};
use crate::fault::ParseFault;
use crate::held::{value_before, value_with};
use crate::read_constant::{identifier, identifiers};
use crate::read_part::{MOST_LEVELS, parts};
use crate::read_statement::statements;
use cp_text::Mark;
use std::alloc::Global;

/// The statements between `begin` and `end`.
#[tactic(auto, unfolding(crate::specs::ReadingDeclarations::body))]
pub fn body(alloc: Global, cursor: &mut Cursor<'_>) -> Result<Body, ParseFault>
    ensures { Reads body_view (spec.body cursor.old) result cursor.new }
{
    let at = cursor.at();
    cursor.expect(Mark::Begin)?;
    let statements = statements(alloc, cursor, MOST_LEVELS)?;
    value_before(cursor, Body { at, statements }, Mark::End)
}

#[tactic(auto, unfolding(crate::specs::ReadingDeclarations::group_item))]
fn group(alloc: Global, cursor: &mut Cursor<'_>) -> Result<Group, ParseFault>
    ensures { Reads group_view (spec.group_item cursor.old) result cursor.new }
{
    let names = identifiers(alloc, cursor)?;
    cursor.expect(Mark::Colon)?;
    let type_name = identifier(alloc, cursor)?;
    Ok(Group { names, type_name })
}

#[tactic(auto, using(crate::proofs::Turns::turns), unfolding(crate::specs::Reading::separated))]
fn group_list(alloc: Global, cursor: &mut Cursor<'_>) -> Result<Vec<Group>, ParseFault>
    ensures { Reads (λ v. map group_view v.items) (lists.separated mark.Semicolon spec.group_item cursor.old) result cursor.new }
{
    let mut found = Vec::new(alloc);
    found.push(group(alloc, cursor)?)?;
    for _turn in 0..cursor.tokens_left() {
        if !cursor.eat(Mark::Semicolon) {
            return Ok(found);
        }
        found.push(group(alloc, cursor)?)?;
    }
    Ok(found)
}

/// Groups in parentheses, or none where no parenthesis opens.
#[tactic(auto, unfolding(crate::specs::ReadingDeclarations::parenthesised))]
pub fn groups(alloc: Global, cursor: &mut Cursor<'_>) -> Result<Vec<Group>, ParseFault>
    ensures { Reads (λ v. map group_view v.items) (spec.parenthesised spec.group_item cursor.old) result cursor.new }
{
    if !cursor.eat(Mark::OpenParenthesis) {
        return Ok(Vec::new(alloc));
    }
    let found = group_list(alloc, cursor)?;
    value_before(cursor, found, Mark::CloseParenthesis)
}

#[tactic(auto, unfolding(crate::specs::ReadingDeclarations::parameter_item))]
fn parameter_group(alloc: Global, cursor: &mut Cursor<'_>) -> Result<ParameterGroup, ParseFault>
    ensures { Reads parameter_group_view (spec.parameter_item cursor.old) result cursor.new }
{
    let at = cursor.at();
    let is_var = cursor.eat(Mark::Var);
    let group = group(alloc, cursor)?;
    Ok(ParameterGroup { at, is_var, group })
}

#[tactic(auto, using(crate::proofs::Turns::turns), unfolding(crate::specs::Reading::separated))]
fn parameter_list(alloc: Global, cursor: &mut Cursor<'_>) -> Result<Vec<ParameterGroup>, ParseFault>
    ensures { Reads (λ v. map parameter_group_view v.items) (lists.separated mark.Semicolon spec.parameter_item cursor.old) result cursor.new }
{
    let mut found = Vec::new(alloc);
    found.push(parameter_group(alloc, cursor)?)?;
    for _turn in 0..cursor.tokens_left() {
        if !cursor.eat(Mark::Semicolon) {
            return Ok(found);
        }
        found.push(parameter_group(alloc, cursor)?)?;
    }
    Ok(found)
}

// Parameters in parentheses, or none where no parenthesis opens.
#[tactic(auto, unfolding(crate::specs::ReadingDeclarations::parenthesised))]
fn parameters(alloc: Global, cursor: &mut Cursor<'_>) -> Result<Vec<ParameterGroup>, ParseFault>
    ensures { Reads (λ v. map parameter_group_view v.items) (spec.parenthesised spec.parameter_item cursor.old) result cursor.new }
{
    if !cursor.eat(Mark::OpenParenthesis) {
        return Ok(Vec::new(alloc));
    }
    let found = parameter_list(alloc, cursor)?;
    value_before(cursor, found, Mark::CloseParenthesis)
}

#[tactic(auto, unfolding(crate::specs::ReadingDeclarations::procedure_kind))]
fn procedure_kind(alloc: Global, cursor: &mut Cursor<'_>) -> Result<RoutineKind, ParseFault>
    ensures { Reads routine_kind_view (spec.procedure_kind cursor.old) result cursor.new }
{
    let parameters = parameters(alloc, cursor)?;
    Ok(RoutineKind::Procedure(parameters))
}

#[tactic(auto, unfolding(crate::specs::ReadingDeclarations::function_kind))]
fn function_kind(alloc: Global, cursor: &mut Cursor<'_>) -> Result<RoutineKind, ParseFault>
    ensures { Reads routine_kind_view (spec.function_kind cursor.old) result cursor.new }
{
    let parameters = groups(alloc, cursor)?;
    cursor.expect(Mark::Colon)?;
    let result_type = identifier(alloc, cursor)?;
    Ok(RoutineKind::Function(parameters, result_type))
}

fn routine_kind(
    alloc: Global,
    cursor: &mut Cursor<'_>,
    is_function: bool,
) -> Result<RoutineKind, ParseFault>
    ensures { Reads routine_kind_view ((if is_function then spec.function_kind else spec.procedure_kind) cursor.old) result cursor.new }
{
    if is_function {
        function_kind(alloc, cursor)
    } else {
        procedure_kind(alloc, cursor)
    }
}

// A routine, after its first word.
#[tactic(auto, unfolding(crate::specs::ReadingDeclarations::routine_with))]
fn named_routine(
    alloc: Global,
    cursor: &mut Cursor<'_>,
    at: usize,
    is_function: bool,
) -> Result<Routine, ParseFault>
    ensures { Reads routine_view (spec.routine_with (if is_function then spec.function_kind else spec.procedure_kind) at cursor.old) result cursor.new }
{
    let is_entry = cursor.eat(Mark::Entry);
    let name = identifier(alloc, cursor)?;
    let heading = value_with(name, routine_kind(alloc, cursor, is_function))?;
    let heading = value_before(cursor, heading, Mark::Semicolon)?;
    let (heading, parts) = value_with(heading, parts(alloc, cursor))?;
    let ((heading, parts), body) = value_with((heading, parts), body(alloc, cursor))?;
    let (name, kind) = heading;
    let routine = Routine {
        at,
        is_entry,
        name,
        kind,
        parts,
        body,
    };
    value_before(cursor, routine, Mark::Semicolon)
}

#[tactic(auto, unfolding(crate::specs::ReadingDeclarations::routine_item))]
fn routine(alloc: Global, cursor: &mut Cursor<'_>) -> Result<Option<Routine>, ParseFault>
    ensures { Reads (λ r. option_map routine_view r) (spec.routine_item cursor.old) result cursor.new }
{
    let at = cursor.at();
    eat_one!(cursor, {
        Mark::Procedure => Ok(Some(named_routine(alloc, cursor, at, false)?)),
        Mark::Function => Ok(Some(named_routine(alloc, cursor, at, true)?)),
        _ => Ok(None),
    })
}

/// The routines that come next.
#[tactic(auto, unfolding(crate::specs::ReadingDeclarations::routines))]
pub fn routines(alloc: Global, cursor: &mut Cursor<'_>) -> Result<Vec<Routine>, ParseFault>
    ensures { Reads (λ v. map routine_view v.items) (spec.routines cursor.old) result cursor.new }
{
    routines_after(alloc, cursor, Vec::new(alloc))
}

/// These routines, and those that come next.
#[tactic(auto, using(crate::proofs::Turns::turns), unfolding(crate::specs::ReadingDeclarations::routines_after))]
pub fn routines_after(
    alloc: Global,
    cursor: &mut Cursor<'_>,
    mut found: Vec<Routine>,
) -> Result<Vec<Routine>, ParseFault>
    ensures { Reads (λ v. map routine_view v.items) (spec.routines_after (map routine_view found.items) cursor.old) result cursor.new }
{
    for _turn in 0..cursor.tokens_left() {
        match routine(alloc, cursor)? {
            Some(routine) => found.push(routine)?,
            None => return Ok(found),
        }
    }
    Ok(found)
}
