//! Reading annotations: assertions before a statement, and the invariants of a block.

ghost use Rattle.std.specs.Prelude.{◌≡◌, ◌≤◌, option_map, IfOk, IfErr};
ghost use Rattle.cp_tree.specs.Input.{Reads};
ghost use Rattle.cp_tree.specs.ReadingAnnotations as spec;
ghost use Rattle.cp_tree.specs.ReadingDeclarations as declarations;
ghost use Rattle.cp_tree.specs.Syntax.{nameless};
ghost use Rattle.cp_tree.specs.View.{asserted_of, expression_view, expressions_view, routine_view, statement_view};
ghost use Rattle.cp_tree.specs.declared.fault.ParseFault.TheVariants as fault;

use crate::constant::Identifier;
use crate::cursor::Cursor;
use crate::declaration::{Body, Routine, RoutineKind, SystemKind};
use crate::expression::Expression;
use crate::fault::ParseFault;
use crate::held::{in_box, value_before};
use crate::read_expression::expression;
use crate::read_part::MOST_LEVELS;
use crate::statement::{AssertionKind, Statement, StatementKind};
use cp_text::{Mark, Name};
use std::alloc::{AllocError, Global};

/// The name of a routine without one, which no lexeme has.
pub const NAMELESS: &str = ":";

/// The expressions of the annotations with this opening that come next; they have at most `budget` levels.
#[tactic(auto, using(crate::proofs::Turns::turns), unfolding(crate::specs::ReadingAnnotations::annotations_at))]
pub fn annotations(
    alloc: Global,
    cursor: &mut Cursor<'_>,
    opening: Mark,
    budget: usize,
) -> Result<Vec<Expression>, ParseFault>
    ensures { Reads (λ v. expressions_view v.items) (spec.annotations_at opening budget cursor.old) result cursor.new }
{
    let mut found = Vec::new(alloc);
    for _turn in 0..cursor.tokens_left() {
        match annotation(alloc, cursor, opening, budget)? {
            Some(test) => found.push(test)?,
            None => return Ok(found),
        }
    }
    Ok(found)
}

#[tactic(auto, unfolding(crate::specs::ReadingAnnotations::annotation_at, crate::specs::ReadingAnnotations::annotation_with))]
fn annotation(
    alloc: Global,
    cursor: &mut Cursor<'_>,
    opening: Mark,
    budget: usize,
) -> Result<Option<Expression>, ParseFault>
    ensures { Reads (λ o. option_map expression_view o) (spec.annotation_at opening budget cursor.old) result cursor.new }
{
    if !cursor.eat(opening) {
        return Ok(None);
    }
    let test = expression(alloc, cursor, budget)?;
    Ok(Some(value_before(cursor, test, Mark::Closes)?))
}

/// A statement with what is said before it, which is something.
pub fn asserted(
    at: usize,
    kind: AssertionKind,
    tests: Vec<Expression>,
    inner: Box<Statement>,
) -> Statement
    ensures { statement_view result ≡ asserted_of kind (expressions_view tests.items) (statement_view inner.value) }
{
    Statement {
        at,
        kind: StatementKind::Asserted(kind, tests, inner),
    }
}

/// The routine of the invariants that come next, where there are some; a process has none.
#[tactic(auto, unfolding(crate::specs::ReadingDeclarations::invariants_of))]
pub fn invariants(
    alloc: Global,
    cursor: &mut Cursor<'_>,
    kind: SystemKind,
) -> Result<Option<Routine>, ParseFault>
    ensures { Reads (λ r. option_map routine_view r) (declarations.invariants_of kind cursor.old) result cursor.new }
{
    match kind {
        SystemKind::Class | SystemKind::Monitor => stated(alloc, cursor),
        SystemKind::Process => Ok(None),
    }
}

// The routine of the invariants that come next.
#[tactic(auto, using(crate::proofs::Views::nameless_some, crate::proofs::Views::nameless_none), unfolding(crate::specs::ReadingDeclarations::stated))]
fn stated(alloc: Global, cursor: &mut Cursor<'_>) -> Result<Option<Routine>, ParseFault>
    ensures { Reads (λ r. option_map routine_view r) (declarations.stated cursor.old) result cursor.new }
{
    let at = cursor.at();
    let tests = annotations(alloc, cursor, Mark::Invariant, MOST_LEVELS)?;
    if tests.is_empty() {
        return Ok(None);
    }
    let statement = said(alloc, at, tests, cursor.at())?;
    Ok(Some(nameless_routine(alloc, at, statement)?))
}

// Invariants before the empty statement.
fn said(
    alloc: Global,
    at: usize,
    tests: Vec<Expression>,
    end: usize,
) -> Result<Statement, ParseFault>
    ensures said { IfOk result (λ s. statement_view s ≡ declarations.said (expressions_view tests.items) end) }
    ensures memory { IfErr result (λ e. e ≡ fault.Memory) }
{
    let empty = Statement {
        at: end,
        kind: StatementKind::Empty,
    };
    Ok(asserted(at, AssertionKind::Invariant, tests, in_box(alloc, empty)?))
}

// The routine without a name, of this statement; what is written at a token is kept by the token, so name and body have two.
fn nameless_routine(alloc: Global, at: usize, statement: Statement) -> Result<Routine, AllocError>
    requires { at ≤ 20000 }
    ensures { IfOk result (λ r. routine_view r ≡ declarations.nameless_routine at (statement_view statement)) }
{
    let mut statements = Vec::new(alloc);
    statements.push(statement)?;
    Ok(Routine {
        at,
        is_entry: false,
        name: no_name(alloc, at)?,
        kind: RoutineKind::Invariants,
        parts: Vec::new(alloc),
        body: Body {
            at: at + 1,
            statements,
        },
    })
}

// The name of the routine of invariants.
fn no_name(alloc: Global, at: usize) -> Result<Identifier, AllocError>
    ensures { IfOk result (λ i. i ≡ record { at = at; name = nameless }) }
{
    Ok(Identifier {
        at,
        name: Name::new(String::from_str(alloc, NAMELESS)?),
    })
}
