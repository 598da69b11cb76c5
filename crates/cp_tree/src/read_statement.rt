//! Reading statements. A budget is how many more levels are allowed below.

ghost use Rattle.std.specs.Prelude.{map};
ghost use Rattle.cp_tree.specs.Input.{Reads, advance};
ghost use Rattle.cp_tree.specs.Reading as lists;
ghost use Rattle.cp_tree.specs.ReadingStatements as spec;
ghost use Rattle.cp_tree.specs.View.{start_view, statement_view, statements_view, arm_view, arms_view};
ghost use Rattle.cp_text.specs.declared.token.Mark.TheVariants as mark;

use crate::constant::Constant;
use crate::cursor::{Cursor, eat_one, match_next};
use crate::fault::{ParseFault, Sought};
use crate::held::{in_box, value_before, value_with};
use crate::read_annotation::{annotations, asserted};
use crate::read_constant::{constant, identifier};
use crate::read_expression::{arguments, designator, expression};
use crate::statement::{Arm, AssertionKind, Direction, Start, Statement, StatementKind};
use cp_text::{Kind, Mark};
use std::alloc::Global;

/// A statement of at most `budget` levels.
#[cycle(statement)]
#[tactic(auto, unfolding(crate::specs::ReadingStatements::statement, crate::specs::ReadingStatements::statement_at))]
pub fn statement(
    alloc: Global,
    cursor: &mut Cursor<'_>,
    budget: usize,
) -> Result<Statement, ParseFault>
    ensures { Reads statement_view (spec.statement budget cursor.old) result cursor.new }
{
    if budget == 0 {
        return Err(ParseFault::TooDeep(cursor.at()));
    }
    statement_within(alloc, cursor, budget - 1)
}

// A statement whose inner ones have at most `budget` levels.
#[cycle(statement)]
#[tactic(auto, using(crate::proofs::Views::asserted_none), unfolding(crate::specs::ReadingStatements::statement_at, crate::specs::ReadingStatements::statement_with, crate::specs::ReadingAnnotations::annotations_with, crate::specs::ReadingAnnotations::annotations_at, crate::specs::ReadingAnnotations::annotation_at, crate::specs::ReadingStatements::plain_at))]
fn statement_within(
    alloc: Global,
    cursor: &mut Cursor<'_>,
    budget: usize,
) -> Result<Statement, ParseFault>
    ensures { Reads statement_view (spec.statement_at budget cursor.old) result cursor.new }
{
    let at = cursor.at();
    let tests = annotations(alloc, cursor, Mark::Assert, budget)?;
    if tests.is_empty() {
        return plain_statement(alloc, cursor, budget);
    }
    let (tests, inner) = value_with(tests, plain_in_box(alloc, cursor, budget))?;
    Ok(asserted(at, AssertionKind::Assertion, tests, inner))
}

// The same without the assertions before it, in a box.
#[cycle(statement)]
fn plain_in_box(
    alloc: Global,
    cursor: &mut Cursor<'_>,
    budget: usize,
) -> Result<Box<Statement>, ParseFault>
    ensures { Reads (λ s. statement_view s.value) (spec.plain_at budget cursor.old) result cursor.new }
{
    let inner = plain_statement(alloc, cursor, budget)?;
    in_box(alloc, inner)
}

// The same without the assertions before it.
#[cycle(statement)]
#[tactic(auto, unfolding(crate::specs::ReadingStatements::plain_at, crate::specs::ReadingStatements::plain_with, crate::specs::ReadingStatements::named_at, crate::specs::ReadingStatements::init_at, crate::specs::ReadingStatements::block_at, crate::specs::ReadingStatements::if_at, crate::specs::ReadingStatements::case_at, crate::specs::ReadingStatements::while_at, crate::specs::ReadingStatements::repeat_at, crate::specs::ReadingStatements::for_at, crate::specs::ReadingStatements::cycle_at))]
fn plain_statement(
    alloc: Global,
    cursor: &mut Cursor<'_>,
    budget: usize,
) -> Result<Statement, ParseFault>
    ensures { Reads statement_view (spec.plain_at budget cursor.old) result cursor.new }
{
    match_next!(cursor, {
        Kind::Name(_) => assignment_or_call(alloc, cursor, budget),
        Mark::Begin => block(alloc, cursor, budget),
        Mark::If => choice(alloc, cursor, budget),
        Mark::Case => case(alloc, cursor, budget),
        Mark::While => while_loop(alloc, cursor, budget),
        Mark::Repeat => repeat_loop(alloc, cursor, budget),
        Mark::For => for_loop(alloc, cursor, budget),
        Mark::Cycle => cycle(alloc, cursor, budget),
        Mark::Init => init(alloc, cursor, budget),
        _ => Ok(Statement {
            at: cursor.at(),
            kind: StatementKind::Empty,
        }),
    })
}

// An assignment or a call.
#[tactic(auto, unfolding(crate::specs::ReadingStatements::named_at, crate::specs::ReadingStatements::named_with, crate::specs::ReadingExpressions::designator_at, crate::specs::ReadingExpressions::arguments_at))]
fn assignment_or_call(
    alloc: Global,
    cursor: &mut Cursor<'_>,
    budget: usize,
) -> Result<Statement, ParseFault>
    ensures { Reads statement_view (spec.named_at budget cursor.old.at cursor.old) result cursor.new }
{
    let at = cursor.at();
    let designator = designator(alloc, cursor, budget)?;
    if cursor.eat(Mark::Becomes) {
        let (designator, value) = value_with(designator, expression(alloc, cursor, budget))?;
        return Ok(Statement {
            at,
            kind: StatementKind::Assign(designator, value),
        });
    }
    let (designator, arguments) = value_with(designator, arguments(alloc, cursor, budget))?;
    Ok(Statement {
        at,
        kind: StatementKind::Call(designator, arguments),
    })
}

/// Statements with semicolons between them.
#[cycle(statement)]
#[tactic(auto, using(crate::proofs::Turns::turns), unfolding(crate::specs::ReadingStatements::statements_at, crate::specs::Reading::separated))]
pub fn statements(
    alloc: Global,
    cursor: &mut Cursor<'_>,
    budget: usize,
) -> Result<Vec<Statement>, ParseFault>
    ensures { Reads (λ v. statements_view v.items) (spec.statements_at budget cursor.old) result cursor.new }
{
    let mut found = Vec::new(alloc);
    found.push(statement(alloc, cursor, budget)?)?;
    for _turn in 0..cursor.tokens_left() {
        if !cursor.eat(Mark::Semicolon) {
            return Ok(found);
        }
        found.push(statement(alloc, cursor, budget)?)?;
    }
    Ok(found)
}

// `begin .. end`, whose word comes next.
#[cycle(statement)]
#[tactic(auto, unfolding(crate::specs::ReadingStatements::block_at, crate::specs::ReadingStatements::block_with, crate::specs::ReadingStatements::statements_at))]
fn block(alloc: Global, cursor: &mut Cursor<'_>, budget: usize) -> Result<Statement, ParseFault>
    ensures { Reads statement_view (spec.block_at budget cursor.old.at (advance cursor.old)) result cursor.new }
{
    let at = cursor.at();
    cursor.advance();
    let inner = statements(alloc, cursor, budget)?;
    cursor.expect(Mark::End)?;
    Ok(Statement {
        at,
        kind: StatementKind::Block(inner),
    })
}

// `cycle .. end`, whose word comes next.
#[cycle(statement)]
#[tactic(auto, unfolding(crate::specs::ReadingStatements::cycle_at, crate::specs::ReadingStatements::cycle_with, crate::specs::ReadingStatements::statements_at))]
fn cycle(alloc: Global, cursor: &mut Cursor<'_>, budget: usize) -> Result<Statement, ParseFault>
    ensures { Reads statement_view (spec.cycle_at budget cursor.old.at (advance cursor.old)) result cursor.new }
{
    let at = cursor.at();
    cursor.advance();
    let inner = statements(alloc, cursor, budget)?;
    cursor.expect(Mark::End)?;
    Ok(Statement {
        at,
        kind: StatementKind::Cycle(inner),
    })
}

// `repeat .. until`, whose word comes next.
#[cycle(statement)]
#[tactic(auto, unfolding(crate::specs::ReadingStatements::repeat_at, crate::specs::ReadingStatements::repeat_with, crate::specs::ReadingStatements::statements_at))]
fn repeat_loop(
    alloc: Global,
    cursor: &mut Cursor<'_>,
    budget: usize,
) -> Result<Statement, ParseFault>
    ensures { Reads statement_view (spec.repeat_at budget cursor.old.at (advance cursor.old)) result cursor.new }
{
    let at = cursor.at();
    cursor.advance();
    let inner = statements(alloc, cursor, budget)?;
    cursor.expect(Mark::Until)?;
    let test = expression(alloc, cursor, budget)?;
    Ok(Statement {
        at,
        kind: StatementKind::Repeat(inner, test),
    })
}

// The statement after a word, as `do`, in a box.
#[cycle(statement)]
#[tactic(auto, unfolding(crate::specs::ReadingStatements::statement_after))]
fn statement_after(
    alloc: Global,
    cursor: &mut Cursor<'_>,
    word: Mark,
    budget: usize,
) -> Result<Box<Statement>, ParseFault>
    ensures { Reads (λ s. statement_view s.value) (spec.statement_after word budget cursor.old) result cursor.new }
{
    cursor.expect(word)?;
    let inner = statement(alloc, cursor, budget)?;
    in_box(alloc, inner)
}

// `if .. then .. else`, whose word comes next.
#[cycle(statement)]
#[tactic(auto, unfolding(crate::specs::ReadingStatements::if_at, crate::specs::ReadingStatements::if_with, crate::specs::ReadingStatements::statement_after, crate::specs::Input::expect, crate::specs::Input::after))]
fn choice(alloc: Global, cursor: &mut Cursor<'_>, budget: usize) -> Result<Statement, ParseFault>
    ensures { Reads statement_view (spec.if_at budget cursor.old.at (advance cursor.old)) result cursor.new }
{
    let at = cursor.at();
    cursor.advance();
    let test = expression(alloc, cursor, budget)?;
    let held = value_with(test, statement_after(alloc, cursor, Mark::Then, budget))?;
    if cursor.sees(Mark::Else) {
        let other = statement_after(alloc, cursor, Mark::Else, budget);
        let both = value_with(held, other)?;
        let ((test, chosen), other) = both;
        return Ok(Statement {
            at,
            kind: StatementKind::If(test, chosen, Some(other)),
        });
    }
    let (test, chosen) = held;
    Ok(Statement {
        at,
        kind: StatementKind::If(test, chosen, None),
    })
}

// `while .. do`, whose word comes next.
#[cycle(statement)]
#[tactic(auto, unfolding(crate::specs::ReadingStatements::while_at, crate::specs::ReadingStatements::while_with, crate::specs::ReadingStatements::statement_after))]
fn while_loop(
    alloc: Global,
    cursor: &mut Cursor<'_>,
    budget: usize,
) -> Result<Statement, ParseFault>
    ensures { Reads statement_view (spec.while_at budget cursor.old.at (advance cursor.old)) result cursor.new }
{
    let at = cursor.at();
    cursor.advance();
    let test = expression(alloc, cursor, budget)?;
    let (test, body) = value_with(test, statement_after(alloc, cursor, Mark::Do, budget))?;
    Ok(Statement {
        at,
        kind: StatementKind::While(test, body),
    })
}

// `for .. do`, whose word comes next.
#[cycle(statement)]
#[tactic(auto, unfolding(crate::specs::ReadingStatements::for_at, crate::specs::ReadingStatements::for_with, crate::specs::ReadingStatements::statement_after))]
fn for_loop(alloc: Global, cursor: &mut Cursor<'_>, budget: usize) -> Result<Statement, ParseFault>
    ensures { Reads statement_view (spec.for_at budget cursor.old.at (advance cursor.old)) result cursor.new }
{
    let at = cursor.at();
    cursor.advance();
    let variable = identifier(alloc, cursor)?;
    let variable = value_before(cursor, variable, Mark::Becomes)?;
    let held = value_with(variable, expression(alloc, cursor, budget))?;
    let (held, direction) = value_with(held, direction(cursor))?;
    let (held, last) = value_with(held, expression(alloc, cursor, budget))?;
    let body = statement_after(alloc, cursor, Mark::Do, budget);
    let ((held, last), body) = value_with((held, last), body)?;
    let (variable, first) = held;
    Ok(Statement {
        at,
        kind: StatementKind::For(variable, first, direction, last, body),
    })
}

#[tactic(auto, unfolding(crate::specs::ReadingStatements::direction))]
fn direction(cursor: &mut Cursor<'_>) -> Result<Direction, ParseFault>
    ensures { Reads (λ d. d) (spec.direction cursor.old) result cursor.new }
{
    eat_one!(cursor, {
        Mark::To => Ok(Direction::To),
        Mark::Downto => Ok(Direction::Downto),
        _ => Err(cursor.unexpected_token()),
    })
}

// `case .. of .. end`, whose word comes next.
#[cycle(statement)]
#[tactic(auto, unfolding(crate::specs::ReadingStatements::case_at, crate::specs::ReadingStatements::case_with, crate::specs::ReadingStatements::arm_at))]
fn case(alloc: Global, cursor: &mut Cursor<'_>, budget: usize) -> Result<Statement, ParseFault>
    ensures { Reads statement_view (spec.case_at budget cursor.old.at (advance cursor.old)) result cursor.new }
{
    let at = cursor.at();
    cursor.advance();
    let selector = expression(alloc, cursor, budget)?;
    let selector = value_before(cursor, selector, Mark::Of)?;
    let held = value_with(selector, arms(alloc, cursor, budget))?;
    let (selector, arms) = value_before(cursor, held, Mark::End)?;
    let (arms, ends_in_semicolon) = arms;
    Ok(Statement {
        at,
        kind: StatementKind::Case(selector, arms, ends_in_semicolon),
    })
}

// Arms, and whether a semicolon stands before the `end`.
#[cycle(statement)]
#[tactic(auto, using(crate::proofs::Turns::ended_turns), unfolding(crate::specs::Reading::ended_list))]
fn arms(
    alloc: Global,
    cursor: &mut Cursor<'_>,
    budget: usize,
) -> Result<(Vec<Arm>, bool), ParseFault>
    ensures { Reads (λ r. (arms_view r.0.items, r.1)) (lists.ended_list (spec.arm_at budget) cursor.old) result cursor.new }
{
    let mut found = Vec::new(alloc);
    found.push(arm(alloc, cursor, budget)?)?;
    for _turn in 0..cursor.tokens_left() {
        if !cursor.eat(Mark::Semicolon) {
            return Ok((found, false));
        }
        if cursor.sees(Mark::End) {
            return Ok((found, true));
        }
        found.push(arm(alloc, cursor, budget)?)?;
    }
    Ok((found, false))
}

#[cycle(statement)]
#[tactic(auto, unfolding(crate::specs::ReadingStatements::arm_at, crate::specs::ReadingStatements::arm_with))]
fn arm(alloc: Global, cursor: &mut Cursor<'_>, budget: usize) -> Result<Arm, ParseFault>
    ensures { Reads arm_view (spec.arm_at budget cursor.old) result cursor.new }
{
    let labels = labels(alloc, cursor)?;
    cursor.expect(Mark::Colon)?;
    let body = statement(alloc, cursor, budget)?;
    Ok(Arm { labels, body })
}

#[tactic(auto, using(crate::proofs::Turns::turns), unfolding(crate::specs::ReadingStatements::labels, crate::specs::Reading::separated))]
fn labels(alloc: Global, cursor: &mut Cursor<'_>) -> Result<Vec<Constant>, ParseFault>
    ensures { Reads (λ v. v.items) (spec.labels cursor.old) result cursor.new }
{
    let mut found = Vec::new(alloc);
    found.push(constant(alloc, cursor)?)?;
    for _turn in 0..cursor.tokens_left() {
        if !cursor.eat(Mark::Comma) {
            return Ok(found);
        }
        found.push(constant(alloc, cursor)?)?;
    }
    Ok(found)
}

// `init ..`, whose word comes next.
#[tactic(auto, unfolding(crate::specs::ReadingStatements::init_at, crate::specs::ReadingStatements::init_with, crate::specs::ReadingStatements::start_at))]
fn init(alloc: Global, cursor: &mut Cursor<'_>, budget: usize) -> Result<Statement, ParseFault>
    ensures { Reads statement_view (spec.init_at budget cursor.old.at (advance cursor.old)) result cursor.new }
{
    let at = cursor.at();
    cursor.advance();
    let starts = starts(alloc, cursor, budget)?;
    Ok(Statement {
        at,
        kind: StatementKind::Init(starts),
    })
}

#[tactic(auto, using(crate::proofs::Turns::turns), unfolding(crate::specs::Reading::separated))]
fn starts(alloc: Global, cursor: &mut Cursor<'_>, budget: usize) -> Result<Vec<Start>, ParseFault>
    ensures { Reads (λ v. map start_view v.items) (lists.separated mark.Comma (spec.start_at budget) cursor.old) result cursor.new }
{
    let mut found = Vec::new(alloc);
    found.push(start(alloc, cursor, budget)?)?;
    for _turn in 0..cursor.tokens_left() {
        if !cursor.eat(Mark::Comma) {
            return Ok(found);
        }
        found.push(start(alloc, cursor, budget)?)?;
    }
    Ok(found)
}

#[tactic(auto, unfolding(crate::specs::ReadingStatements::start_at, crate::specs::ReadingStatements::start_with, crate::specs::ReadingExpressions::designator_at, crate::specs::ReadingExpressions::arguments_at))]
fn start(alloc: Global, cursor: &mut Cursor<'_>, budget: usize) -> Result<Start, ParseFault>
    ensures { Reads start_view (spec.start_at budget cursor.old) result cursor.new }
{
    let target = designator(alloc, cursor, budget)?;
    let (target, arguments) = value_with(target, arguments(alloc, cursor, budget))?;
    Ok(Start { target, arguments })
}
