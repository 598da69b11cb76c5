//! Reading expressions. A budget is how many more levels are allowed below.

ghost use Rattle.std.specs.Prelude.{◌≡◌, Ok, option_map};
ghost use Rattle.cp_tree.specs.Input.{Reads};
ghost use Rattle.cp_tree.specs.Reading as lists;
ghost use Rattle.cp_tree.specs.ReadingExpressions as spec;
ghost use Rattle.cp_tree.specs.View.{expression_view, sum_view, term_view, factor_view, designator_view, selector_view, expressions_view, selectors_view, factors_view, terms_view};

use crate::cursor::{Cursor, eat_one, match_next};
use crate::expression::{
    Addition, Designator, Expression, Factor, FactorKind, Multiplication, Relation, Selector, Sum,
    Term,
};
use crate::fault::{ParseFault, Sought};
use crate::held::{in_box, value_before, value_with};
use crate::read_constant::{identifier, sign};
use cp_text::{Kind, Mark};
use std::alloc::Global;

#[tactic(auto, unfolding(crate::specs::ReadingExpressions::relation))]
fn relation(cursor: &mut Cursor<'_>) -> Option<Relation>
    ensures { spec.relation cursor.old ≡ Ok (result, cursor.new) }
{
    eat_one!(cursor, {
        Mark::Equal => Some(Relation::Equal),
        Mark::NotEqual => Some(Relation::NotEqual),
        Mark::Less => Some(Relation::Less),
        Mark::Greater => Some(Relation::Greater),
        Mark::AtMost => Some(Relation::AtMost),
        Mark::AtLeast => Some(Relation::AtLeast),
        Mark::In => Some(Relation::In),
        _ => None,
    })
}

#[tactic(auto, unfolding(crate::specs::ReadingExpressions::addition))]
fn addition(cursor: &mut Cursor<'_>) -> Option<Addition>
    ensures { spec.addition cursor.old ≡ Ok (result, cursor.new) }
{
    eat_one!(cursor, {
        Mark::Plus => Some(Addition::Plus),
        Mark::Minus => Some(Addition::Minus),
        Mark::Or => Some(Addition::Or),
        _ => None,
    })
}

#[tactic(auto, unfolding(crate::specs::ReadingExpressions::multiplication))]
fn multiplication(cursor: &mut Cursor<'_>) -> Option<Multiplication>
    ensures { spec.multiplication cursor.old ≡ Ok (result, cursor.new) }
{
    eat_one!(cursor, {
        Mark::Times => Some(Multiplication::Times),
        Mark::Div => Some(Multiplication::Div),
        Mark::Mod => Some(Multiplication::Mod),
        Mark::And => Some(Multiplication::And),
        _ => None,
    })
}

/// An expression of at most `budget` levels.
#[cycle(expression)]
#[tactic(auto, unfolding(crate::specs::ReadingExpressions::expression, crate::specs::ReadingExpressions::factor_at))]
pub fn expression(
    alloc: Global,
    cursor: &mut Cursor<'_>,
    budget: usize,
) -> Result<Expression, ParseFault>
    ensures { Reads expression_view (spec.expression budget cursor.old) result cursor.new }
{
    if budget == 0 {
        return Err(ParseFault::TooDeep(cursor.at()));
    }
    expression_within(alloc, cursor, budget - 1)
}

// An expression whose inner ones have at most `budget` levels.
#[cycle(expression)]
#[tactic(auto, unfolding(crate::specs::ReadingExpressions::expression_with, crate::specs::ReadingExpressions::sum_at))]
fn expression_within(
    alloc: Global,
    cursor: &mut Cursor<'_>,
    budget: usize,
) -> Result<Expression, ParseFault>
    ensures { Reads expression_view (spec.expression_with (spec.factor_at budget) cursor.old) result cursor.new }
{
    let at = cursor.at();
    let left = sum(alloc, cursor, budget)?;
    match relation(cursor) {
        Some(relation) => {
            let (left, right) = value_with(left, sum(alloc, cursor, budget))?;
            Ok(Expression {
                at,
                left,
                right: Some((relation, right)),
            })
        }
        None => Ok(Expression {
            at,
            left,
            right: None,
        }),
    }
}

#[cycle(expression)]
#[tactic(auto, unfolding(crate::specs::ReadingExpressions::sum_at, crate::specs::ReadingExpressions::term_at, crate::specs::ReadingExpressions::sum_with))]
fn sum(alloc: Global, cursor: &mut Cursor<'_>, budget: usize) -> Result<Sum, ParseFault>
    ensures { Reads sum_view (spec.sum_at budget cursor.old) result cursor.new }
{
    let at = cursor.at();
    let sign = sign(cursor);
    let first = term(alloc, cursor, budget)?;
    let (first, more) = value_with(first, added_terms(alloc, cursor, budget))?;
    Ok(Sum {
        at,
        sign,
        first,
        more,
    })
}

#[cycle(expression)]
#[tactic(auto, using(crate::proofs::Turns::turns), unfolding(crate::specs::ReadingExpressions::term_at, crate::specs::ReadingExpressions::next_term))]
fn added_terms(
    alloc: Global,
    cursor: &mut Cursor<'_>,
    budget: usize,
) -> Result<Vec<(Addition, Term)>, ParseFault>
    ensures { Reads (λ v. terms_view v.items) (lists.many (spec.next_term (spec.factor_at budget)) cursor.old) result cursor.new }
{
    let mut found = Vec::new(alloc);
    for _turn in 0..cursor.tokens_left() {
        match addition(cursor) {
            Some(operator) => found.push((operator, term(alloc, cursor, budget)?))?,
            None => return Ok(found),
        }
    }
    Ok(found)
}

#[cycle(expression)]
#[tactic(auto, unfolding(crate::specs::ReadingExpressions::term_at, crate::specs::ReadingExpressions::term_with))]
fn term(alloc: Global, cursor: &mut Cursor<'_>, budget: usize) -> Result<Term, ParseFault>
    ensures { Reads term_view (spec.term_at budget cursor.old) result cursor.new }
{
    let at = cursor.at();
    let first = factor(alloc, cursor, budget)?;
    let (first, more) = value_with(first, multiplied_factors(alloc, cursor, budget))?;
    Ok(Term { at, first, more })
}

#[cycle(expression)]
#[tactic(auto, using(crate::proofs::Turns::turns), unfolding(crate::specs::ReadingExpressions::next_factor))]
fn multiplied_factors(
    alloc: Global,
    cursor: &mut Cursor<'_>,
    budget: usize,
) -> Result<Vec<(Multiplication, Factor)>, ParseFault>
    ensures { Reads (λ v. factors_view v.items) (lists.many (spec.next_factor (spec.factor_at budget)) cursor.old) result cursor.new }
{
    let mut found = Vec::new(alloc);
    for _turn in 0..cursor.tokens_left() {
        match multiplication(cursor) {
            Some(operator) => found.push((operator, factor(alloc, cursor, budget)?))?,
            None => return Ok(found),
        }
    }
    Ok(found)
}

#[cycle(expression)]
#[tactic(auto, unfolding(crate::specs::ReadingExpressions::factor_at, crate::specs::ReadingExpressions::factor_with, crate::specs::ReadingExpressions::grouped_at, crate::specs::ReadingExpressions::designator_at, crate::specs::ReadingExpressions::arguments_at, crate::specs::ReadingExpressions::elements_at))]
fn factor(alloc: Global, cursor: &mut Cursor<'_>, budget: usize) -> Result<Factor, ParseFault>
    ensures { Reads factor_view (spec.factor_at budget cursor.old) result cursor.new }
{
    let at = cursor.at();
    let kind = match_next!(cursor, {
        Kind::Number(value) => {
            cursor.advance();
            FactorKind::Number(*value)
        },
        Kind::Character(code) => {
            cursor.advance();
            FactorKind::Character(*code)
        },
        Kind::Name(_) => {
            let designator = designator(alloc, cursor, budget)?;
            let (designator, arguments) = value_with(designator, arguments(alloc, cursor, budget))?;
            FactorKind::Named(designator, arguments)
        },
        Mark::OpenParenthesis => {
            cursor.advance();
            FactorKind::Group(expression_inside(alloc, cursor, budget)?)
        },
        Mark::OpenBracket => {
            cursor.advance();
            FactorKind::Set(elements(alloc, cursor, budget)?)
        },
        Mark::Not => {
            cursor.advance();
            FactorKind::Not(factor_after_not(alloc, cursor, budget)?)
        },
        _ => return Err(cursor.unexpected_token()),
    });
    Ok(Factor { at, kind })
}

// The expression between parentheses, after the first of them.
#[cycle(expression)]
#[tactic(auto, unfolding(crate::specs::ReadingExpressions::grouped_at))]
fn expression_inside(
    alloc: Global,
    cursor: &mut Cursor<'_>,
    budget: usize,
) -> Result<Box<Expression>, ParseFault>
    ensures { Reads (λ e. expression_view e.value) (spec.grouped_at budget cursor.old) result cursor.new }
{
    let inner = expression(alloc, cursor, budget)?;
    let inner = value_before(cursor, inner, Mark::CloseParenthesis)?;
    in_box(alloc, inner)
}

// The factor after `not`.
#[cycle(expression)]
fn factor_after_not(
    alloc: Global,
    cursor: &mut Cursor<'_>,
    budget: usize,
) -> Result<Box<Factor>, ParseFault>
    ensures { Reads (λ f. factor_view f.value) (spec.deeper budget cursor.old) result cursor.new }
{
    let inner = deeper_factor(alloc, cursor, budget)?;
    in_box(alloc, inner)
}

// A factor after `not`.
#[cycle(expression)]
#[tactic(auto, unfolding(crate::specs::ReadingExpressions::deeper, crate::specs::ReadingExpressions::factor_at))]
fn deeper_factor(
    alloc: Global,
    cursor: &mut Cursor<'_>,
    budget: usize,
) -> Result<Factor, ParseFault>
    ensures { Reads factor_view (spec.deeper budget cursor.old) result cursor.new }
{
    if budget == 0 {
        return Err(ParseFault::TooDeep(cursor.at()));
    }
    factor(alloc, cursor, budget - 1)
}

// The elements of a set constructor, after its bracket.
#[cycle(expression)]
#[tactic(auto, unfolding(crate::specs::ReadingExpressions::elements_at, crate::specs::ReadingExpressions::elements_with, crate::specs::ReadingExpressions::expressions_at))]
fn elements(
    alloc: Global,
    cursor: &mut Cursor<'_>,
    budget: usize,
) -> Result<Vec<Expression>, ParseFault>
    ensures { Reads (λ v. expressions_view v.items) (spec.elements_at budget cursor.old) result cursor.new }
{
    if cursor.eat(Mark::CloseBracket) {
        return Ok(Vec::new(alloc));
    }
    let found = expressions(alloc, cursor, budget)?;
    value_before(cursor, found, Mark::CloseBracket)
}

/// The arguments after a name, or none where no parenthesis opens.
#[cycle(expression)]
#[tactic(auto, unfolding(crate::specs::ReadingExpressions::arguments_at, crate::specs::ReadingExpressions::arguments_with, crate::specs::ReadingExpressions::expressions_at))]
pub fn arguments(
    alloc: Global,
    cursor: &mut Cursor<'_>,
    budget: usize,
) -> Result<Vec<Expression>, ParseFault>
    ensures { Reads (λ v. expressions_view v.items) (spec.arguments_at budget cursor.old) result cursor.new }
{
    if !cursor.eat(Mark::OpenParenthesis) {
        return Ok(Vec::new(alloc));
    }
    let found = expressions(alloc, cursor, budget)?;
    value_before(cursor, found, Mark::CloseParenthesis)
}

// Expressions with commas between them.
#[cycle(expression)]
#[tactic(auto, using(crate::proofs::Turns::turns), unfolding(crate::specs::ReadingExpressions::expressions_at, crate::specs::ReadingExpressions::expressions_with, crate::specs::Reading::separated))]
fn expressions(
    alloc: Global,
    cursor: &mut Cursor<'_>,
    budget: usize,
) -> Result<Vec<Expression>, ParseFault>
    ensures { Reads (λ v. expressions_view v.items) (spec.expressions_at budget cursor.old) result cursor.new }
{
    let mut found = Vec::new(alloc);
    found.push(expression(alloc, cursor, budget)?)?;
    for _turn in 0..cursor.tokens_left() {
        if !cursor.eat(Mark::Comma) {
            return Ok(found);
        }
        found.push(expression(alloc, cursor, budget)?)?;
    }
    Ok(found)
}

/// A name with its selectors.
#[cycle(expression)]
#[tactic(auto, unfolding(crate::specs::ReadingExpressions::designator_at, crate::specs::ReadingExpressions::designator_with))]
pub fn designator(
    alloc: Global,
    cursor: &mut Cursor<'_>,
    budget: usize,
) -> Result<Designator, ParseFault>
    ensures { Reads designator_view (spec.designator_at budget cursor.old) result cursor.new }
{
    let name = identifier(alloc, cursor)?;
    let (name, selectors) = value_with(name, selectors(alloc, cursor, budget))?;
    Ok(Designator { name, selectors })
}

#[cycle(expression)]
#[tactic(auto, using(crate::proofs::Turns::turns))]
fn selectors(
    alloc: Global,
    cursor: &mut Cursor<'_>,
    budget: usize,
) -> Result<Vec<Selector>, ParseFault>
    ensures { Reads (λ v. selectors_view v.items) (lists.many (spec.selector_with (spec.expression budget)) cursor.old) result cursor.new }
{
    let mut found = Vec::new(alloc);
    for _turn in 0..cursor.tokens_left() {
        match selector(alloc, cursor, budget)? {
            Some(selector) => found.push(selector)?,
            None => return Ok(found),
        }
    }
    Ok(found)
}

#[cycle(expression)]
#[tactic(auto, unfolding(crate::specs::ReadingExpressions::selector_with))]
fn selector(
    alloc: Global,
    cursor: &mut Cursor<'_>,
    budget: usize,
) -> Result<Option<Selector>, ParseFault>
    ensures { Reads (λ s. option_map selector_view s) (spec.selector_with (spec.expression budget) cursor.old) result cursor.new }
{
    eat_one!(cursor, {
        Mark::Period => Ok(Some(Selector::Field(identifier(alloc, cursor)?))),
        Mark::OpenBracket => {
            let index = expression(alloc, cursor, budget)?;
            let index = value_before(cursor, index, Mark::CloseBracket)?;
            Ok(Some(Selector::Index(index)))
        },
        _ => Ok(None),
    })
}
