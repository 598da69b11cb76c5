//! From tokens to a tree.

ghost use Rattle.std.specs.Prelude.{◌≡◌, ◌≢◌, ◌≤◌, ℕ, true, false, length, slice_get, IfOk, Ok, Err};
ghost use Rattle.std.specs.Option.{option_copied};
ghost use Rattle.cp_text.specs.Kinds.{kinds};
ghost use Rattle.cp_text.specs.Lines as texts;
ghost use Rattle.cp_text.specs.Reading.{AreOfText};
ghost use Rattle.cp_tree.specs.Answer as spec;
ghost use Rattle.cp_tree.specs.Spelling.{spell};
ghost use Rattle.cp_tree.specs.SpellingIndexed.{IsIndexed};
ghost use Rattle.cp_tree.specs.SpellingLevel.{IsProper};
ghost use Rattle.cp_tree.specs.Syntax as syntax;
ghost use Rattle.cp_tree.specs.View.{program_view};

use crate::cursor::Cursor;
use crate::declaration::Program;
use crate::fault::{ParseFault, Wanted};
use crate::read_program::program;
use crate::tree::Tree;
use cp_text::{Kind, Mark, Tokens};
use std::alloc::{AllocError, Global};

/// The tree of the program that the tokens spell.
///
/// # Errors
/// `TooDeep` at the first token of a node whose level is over 50, before any other error at that token; `OutsideProfile`
/// at a word left out and `Unexpected` at another token, or at the end of the tokens, that can't stand in its place.
pub fn parse(alloc: Global, tokens: &Tokens) -> Result<Tree, ParseFault>
    ensures proper { IfOk result (λ t. IsProper (program_view t.program) × (kinds tokens.now ≡ spell (program_view t.program))) }
    ensures lines { IfOk result (λ t. t.lines.items ≡ texts.lines tokens.now) }

    // No other program spells them.
    ensures only { IfOk result (λ t. (other : syntax.Program) → IsIndexed other → kinds tokens.now ≡ spell other → program_view t.program ≡ other) }
    ensures one_tree { (p q : syntax.Program) → IsProper p → IsProper q → spell p ≡ spell q → p ≡ q }

    // When each error comes.
    ensures unexpected { (at : ℕ) → result ≡ Err (ParseFault.Unexpected at) → (other : syntax.Program) → IsIndexed other → kinds tokens.now ≢ spell other }
    ensures outside { (at : ℕ) → result ≡ Err (ParseFault.OutsideProfile at) → (other : syntax.Program) → IsIndexed other → kinds tokens.now ≢ spell other }
    ensures too_deep { (at : ℕ) → result ≡ Err (ParseFault.TooDeep at) → (other : syntax.Program) → IsProper other → kinds tokens.now ≢ spell other }
    ensures left_out { (at : ℕ) → result ≡ Err (ParseFault.OutsideProfile at) → spec.is_left_out (slice_get (kinds tokens.now) at) ≡ true }
    ensures not_left_out { (at : ℕ) → result ≡ Err (ParseFault.Unexpected at) → spec.is_left_out (slice_get (kinds tokens.now) at) ≡ false }
    ensures within { (at : ℕ) → result ≡ Err (ParseFault.Unexpected at) → at ≤ length (kinds tokens.now) }

    // Reading from left to right gives this very answer.
    ensures read { spec.Answers (kinds tokens.now) result }
{
    read(alloc, tokens)
}

/// What the parser looks for at a token that it refuses: a message tells it. At the end of the tokens it may be less than could stand there,
/// since no further item of a list is looked for behind the last of them.
pub fn wanted_at(alloc: Global, tokens: &Tokens, at: usize) -> Result<Wanted, AllocError> {
    let mut cursor = Cursor::watching(tokens, Some(at));
    match program(alloc, &mut cursor) {
        Err(ParseFault::Memory) => Err(AllocError),
        _ => Ok(cursor.wanted()),
    }
}

fn read(alloc: Global, tokens: &Tokens) -> Result<Tree, ParseFault>
    ensures read { spec.Answers (kinds tokens.now) result }
    ensures lines { IfOk result (λ t. t.lines.items ≡ texts.lines tokens.now) }
{
    match program(alloc, &mut Cursor::new(tokens)) {
        Ok(program) => Ok(tree_of(alloc, tokens, program)?),
        Err(fault) => Err(fault_to_report(tokens, fault)),
    }
}

fn tree_of(alloc: Global, tokens: &Tokens, program: Program) -> Result<Tree, AllocError>
    requires { spec.answer (kinds tokens.now) ≡ Ok (program_view program) }
    ensures program { IfOk result (λ t. t.program ≡ program) }
    ensures lines { IfOk result (λ t. t.lines.items ≡ texts.lines tokens.now) }
{
    let lines = lines(alloc, tokens)?;
    Ok(Tree { program, lines })
}

// The line of each token.
#[tactic(auto, using(crate::proofs::LineLaws::next_line, crate::proofs::LineLaws::all_lines))]
fn lines(alloc: Global, tokens: &Tokens) -> Result<Vec<u32>, AllocError>
    ensures lines { IfOk result (λ v. v.items ≡ texts.lines tokens.now) }
    ensures text { AreOfText tokens.now }
{
    let mut found = Vec::new(alloc);
    for at in 0..tokens.count() {
        found.push(tokens.line(at))?;
    }
    Ok(found)
}

// An unexpected word that is left out of the language is reported as such.
fn fault_to_report(tokens: &Tokens, fault: ParseFault) -> ParseFault
    ensures { result ≡ spec.told (kinds tokens.now) fault }
{
    match fault {
        ParseFault::Unexpected(at) if is_left_out(tokens.get(at)) => ParseFault::OutsideProfile(at),
        _ => fault,
    }
}

fn is_left_out(kind: Option<&Kind>) -> bool
    ensures { result ≡ spec.is_left_out (option_copied kind.entry) }
{
    matches!(
        kind,
        Some(Kind::Mark(Mark::With | Mark::Univ | Mark::Program))
    )
}
