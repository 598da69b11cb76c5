//! Reading types. A budget is how many more levels are allowed below.

ghost use Rattle.cp_tree.specs.Input.{Reads};
ghost use Rattle.cp_tree.specs.Reading as lists;
ghost use Rattle.cp_tree.specs.ReadingTypes as spec;
ghost use Rattle.cp_tree.specs.View.{simple_view, type_view, field_group_view, field_groups_view};

use crate::constant::{Constant, ConstantKind};
use crate::cursor::{Cursor, eat_one};
use crate::fault::ParseFault;
use crate::held::{in_box, value_before, value_with};
use crate::read_constant::{constant, identifiers};
use crate::types::{FieldGroup, Simple, SimpleKind, Type, TypeKind};
use cp_text::Mark;
use std::alloc::Global;

#[tactic(auto, unfolding(crate::specs::ReadingTypes::simple_type, crate::specs::ReadingTypes::enumeration_at))]
fn simple(alloc: Global, cursor: &mut Cursor<'_>) -> Result<Simple, ParseFault>
    ensures { Reads simple_view (spec.simple_type cursor.old) result cursor.new }
{
    let at = cursor.at();
    if cursor.eat(Mark::OpenParenthesis) {
        let names = identifiers(alloc, cursor)?;
        cursor.expect(Mark::CloseParenthesis)?;
        return Ok(Simple {
            at,
            kind: SimpleKind::Enumeration(names),
        });
    }
    let first = constant(alloc, cursor)?;
    simple_from(alloc, cursor, at, first)
}

// A constant with no `..` after it names a type.
#[tactic(auto, unfolding(crate::specs::ReadingTypes::simple_from))]
fn simple_from(
    alloc: Global,
    cursor: &mut Cursor<'_>,
    at: usize,
    first: Constant,
) -> Result<Simple, ParseFault>
    ensures { Reads simple_view (spec.simple_from at first cursor.old) result cursor.new }
{
    if cursor.eat(Mark::DoublePeriod) {
        let (first, last) = value_with(first, constant(alloc, cursor))?;
        return Ok(Simple {
            at,
            kind: SimpleKind::Subrange(first, last),
        });
    }
    match first.kind {
        ConstantKind::Name(None, identifier) => Ok(Simple {
            at,
            kind: SimpleKind::Name(identifier.name),
        }),
        _ => Err(cursor.unexpected_token()),
    }
}

/// A type of at most `budget` levels.
#[cycle(types)]
#[tactic(auto, unfolding(crate::specs::ReadingTypes::type_term, crate::specs::ReadingTypes::type_at))]
pub fn type_term(alloc: Global, cursor: &mut Cursor<'_>, budget: usize) -> Result<Type, ParseFault>
    ensures { Reads type_view (spec.type_term budget cursor.old) result cursor.new }
{
    if budget == 0 {
        return Err(ParseFault::TooDeep(cursor.at()));
    }
    type_within(alloc, cursor, budget - 1)
}

// A type whose inner ones have at most `budget` levels.
#[cycle(types)]
#[tactic(auto, unfolding(crate::specs::ReadingTypes::type_at, crate::specs::ReadingTypes::type_with, crate::specs::ReadingTypes::array_at, crate::specs::ReadingTypes::record_at))]
fn type_within(alloc: Global, cursor: &mut Cursor<'_>, budget: usize) -> Result<Type, ParseFault>
    ensures { Reads type_view (spec.type_at budget cursor.old) result cursor.new }
{
    let at = cursor.at();
    eat_one!(cursor, {
        Mark::Array => array(alloc, cursor, budget, at),
        Mark::Set => set(alloc, cursor, at),
        Mark::Record => record(alloc, cursor, budget, at),
        _ => {
            let simple = simple(alloc, cursor)?;
            Ok(Type {
                at,
                kind: TypeKind::Simple(simple),
            })
        },
    })
}

#[tactic(auto, unfolding(crate::specs::ReadingTypes::set_at))]
fn set(alloc: Global, cursor: &mut Cursor<'_>, at: usize) -> Result<Type, ParseFault>
    ensures { Reads type_view (spec.set_at at cursor.old) result cursor.new }
{
    cursor.expect(Mark::Of)?;
    let base = simple(alloc, cursor)?;
    Ok(Type {
        at,
        kind: TypeKind::Set(base),
    })
}

#[cycle(types)]
#[tactic(auto, unfolding(crate::specs::ReadingTypes::array_at, crate::specs::ReadingTypes::array_with))]
fn array(
    alloc: Global,
    cursor: &mut Cursor<'_>,
    budget: usize,
    at: usize,
) -> Result<Type, ParseFault>
    ensures { Reads type_view (spec.array_at budget at cursor.old) result cursor.new }
{
    cursor.expect(Mark::OpenBracket)?;
    let index = simple(alloc, cursor)?;
    let index = value_before(cursor, index, Mark::CloseBracket)?;
    let index = value_before(cursor, index, Mark::Of)?;
    let (index, element) = value_with(index, type_term(alloc, cursor, budget))?;
    let (index, element) = value_with(index, in_box(alloc, element))?;
    Ok(Type {
        at,
        kind: TypeKind::Array(index, element),
    })
}

#[cycle(types)]
#[tactic(auto, unfolding(crate::specs::ReadingTypes::record_at, crate::specs::ReadingTypes::record_with, crate::specs::ReadingTypes::field_group_at))]
fn record(
    alloc: Global,
    cursor: &mut Cursor<'_>,
    budget: usize,
    at: usize,
) -> Result<Type, ParseFault>
    ensures { Reads type_view (spec.record_at budget at cursor.old) result cursor.new }
{
    let (groups, ends_in_semicolon) = field_groups(alloc, cursor, budget)?;
    cursor.expect(Mark::End)?;
    Ok(Type {
        at,
        kind: TypeKind::Record(groups, ends_in_semicolon),
    })
}

// Fields, and whether a semicolon stands before the `end`.
#[cycle(types)]
#[tactic(auto, using(crate::proofs::Turns::ended_turns), unfolding(crate::specs::Reading::ended_list))]
fn field_groups(
    alloc: Global,
    cursor: &mut Cursor<'_>,
    budget: usize,
) -> Result<(Vec<FieldGroup>, bool), ParseFault>
    ensures { Reads (λ r. (field_groups_view r.0.items, r.1)) (lists.ended_list (spec.field_group_at budget) cursor.old) result cursor.new }
{
    let mut found = Vec::new(alloc);
    found.push(field_group(alloc, cursor, budget)?)?;
    for _turn in 0..cursor.tokens_left() {
        if !cursor.eat(Mark::Semicolon) {
            return Ok((found, false));
        }
        if cursor.sees(Mark::End) {
            return Ok((found, true));
        }
        found.push(field_group(alloc, cursor, budget)?)?;
    }
    Ok((found, false))
}

#[cycle(types)]
#[tactic(auto, unfolding(crate::specs::ReadingTypes::field_group_at, crate::specs::ReadingTypes::field_group_with))]
fn field_group(
    alloc: Global,
    cursor: &mut Cursor<'_>,
    budget: usize,
) -> Result<FieldGroup, ParseFault>
    ensures { Reads field_group_view (spec.field_group_at budget cursor.old) result cursor.new }
{
    let names = identifiers(alloc, cursor)?;
    cursor.expect(Mark::Colon)?;
    let field_type = type_term(alloc, cursor, budget)?;
    Ok(FieldGroup { names, field_type })
}
