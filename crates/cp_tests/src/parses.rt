//! The worked rows of the grammar, from source texts to trees and faults.

use crate::programs::tree_of;
use cp_drops::drop_tree;
use cp_prose::Prose;
use cp_text::{Tokens, scan};
use cp_tree::{FactorKind, ParseFault, StatementKind, Tree, parse};
use std::alloc::Global;

// A space stands between any two tokens.
const BUFFER: &str =
    "type buffer = monitor ; var full : boolean ; slot : integer ; sender , receiver : queue ; procedure entry put ( x : integer ) ; begin if full then delay ( sender ) ; slot := x ; full := true ; continue ( receiver ) end ; procedure entry get ( var x : integer ) ; begin if not full then delay ( receiver ) ; x := slot ; full := false ; continue ( sender ) end ; begin full := false end ; producer = process ( b : buffer ) ; begin b . put ( 7 ) end ; consumer = process ( b : buffer ) ; var v : integer ; begin b . get ( v ) ; display ( v ) end ; var b : buffer ; p : producer ; c : consumer ; begin init b , p ( b ) , c ( b ) end .";

/// How the reading of a program ends.
#[derive(Clone, Copy)]
enum ParseEnding {
    Read,
    Unexpected(usize),
    OutsideProfile(usize),
    TooDeep(usize),
}

fn is_fault(fault: &ParseFault, ending: ParseEnding) -> bool {
    match (fault, ending) {
        (ParseFault::Unexpected(at), ParseEnding::Unexpected(wanted)) => *at == wanted,
        (ParseFault::OutsideProfile(at), ParseEnding::OutsideProfile(wanted)) => *at == wanted,
        (ParseFault::TooDeep(at), ParseEnding::TooDeep(wanted)) => *at == wanted,
        _ => false,
    }
}

fn is_ended(alloc: Global, tokens: &Tokens, ending: ParseEnding) -> bool {
    match parse(alloc, tokens) {
        Ok(tree) => {
            drop_tree(tree);
            matches!(ending, ParseEnding::Read)
        }
        Err(fault) => is_fault(&fault, ending),
    }
}

fn ends_so(alloc: Global, source: &str, ending: ParseEnding) -> bool {
    match scan(alloc, source.as_bytes()) {
        Ok(tokens) => is_ended(alloc, &tokens, ending),
        Err(_) => false,
    }
}

// Whether the reading of a text ends so for whose pieces memory was not refused.
fn prose_ends_so(alloc: Global, text: &Prose, ending: ParseEnding) -> bool {
    match text.as_str() {
        Ok(source) => ends_so(alloc, source, ending),
        Err(_) => false,
    }
}

fn put_often(text: &mut Prose, piece: &str, times: usize) {
    for _ in 0..times {
        text.put(piece);
    }
}

// Whether the statements of `begin .. end.` are read so, with this many `begin` before as many `end`.
fn nested_end_so(alloc: Global, levels: usize, ending: ParseEnding) -> bool {
    let mut text = Prose::new(alloc);
    put_often(&mut text, "begin ", levels);
    put_often(&mut text, "end ", levels);
    text.put(".");
    prose_ends_so(alloc, &text, ending)
}

#[test]
fn levels(rt: HostRuntime) {
    assert!(rt; nested_end_so(rt.alloc(), 50, ParseEnding::Read));
    assert!(rt; nested_end_so(rt.alloc(), 51, ParseEnding::TooDeep(51)));
}

// Whether the first tokens of the buffer are read so, with token `at` replaced by `with`.
fn copy_ends_so(alloc: Global, count: usize, at: usize, ending: ParseEnding) -> bool {
    let mut text = Prose::new(alloc);
    for (number, word) in BUFFER.split_whitespace().enumerate() {
        if number < count {
            text.put(if number == at { "with" } else { word });
            text.put(" ");
        }
    }
    prose_ends_so(alloc, &text, ending)
}

// How many tokens the buffer has; none where it is not scanned.
fn count_tokens(alloc: Global) -> usize {
    match scan(alloc, BUFFER.as_bytes()) {
        Ok(tokens) => tokens.count(),
        Err(_) => 0,
    }
}

/// With `with` at each token, and cut before each token.
#[test]
fn broken_at_each_token(rt: HostRuntime) {
    let count = count_tokens(rt.alloc());
    assert!(rt; count > 0);
    for at in 0..count {
        let is_refused = copy_ends_so(rt.alloc(), count, at, ParseEnding::OutsideProfile(at))
            && copy_ends_so(rt.alloc(), at, at, ParseEnding::Unexpected(at));
        assert!(rt; is_refused, "{at}");
    }
}

static ENDINGS: [(&str, ParseEnding); 23] = [
    ("", ParseEnding::Unexpected(0)),
    ("begin with x do end.", ParseEnding::OutsideProfile(1)),
    ("begin cycle end.", ParseEnding::Unexpected(3)),
    ("begin end. with", ParseEnding::OutsideProfile(3)),
    ("const c = -'a'; begin end.", ParseEnding::Unexpected(4)),
    ("begin set end.", ParseEnding::Unexpected(1)),
    ("begin end. begin", ParseEnding::Unexpected(3)),
    ("begin x := 1 = 2 = 3 end.", ParseEnding::Unexpected(6)),
    ("begin x := - - 1 end.", ParseEnding::Unexpected(4)),
    ("begin if x then y; else z end.", ParseEnding::Unexpected(6)),
    ("begin case x of end end.", ParseEnding::Unexpected(4)),
    (
        "begin case x of 1: ; ; end end.",
        ParseEnding::Unexpected(7),
    ),
    ("begin init end.", ParseEnding::Unexpected(2)),
    ("begin x.y[1, 2] := 1 end.", ParseEnding::Unexpected(6)),
    ("begin f() end.", ParseEnding::Unexpected(3)),
    ("type begin end.", ParseEnding::Unexpected(1)),
    (
        "type a = record end; begin end.",
        ParseEnding::Unexpected(4),
    ),
    ("var x: +y; begin end.", ParseEnding::Unexpected(5)),
    ("var x: class; begin end.", ParseEnding::Unexpected(3)),
    (
        "procedure p begin end; begin end.",
        ParseEnding::Unexpected(2),
    ),
    ("begin for i := 1 do end.", ParseEnding::Unexpected(5)),
    (BUFFER, ParseEnding::Read),
    (
        "const c = -1; d = 'a'; type t = (a, b); u = array [t] of set of 1..c; v = record x, y: t; z: 0..+9; end; var q: v; function f(n: t): t; begin end; begin case c of 1, -d: ; 'x': begin end; end; repeat until not [] = [1, 2] * [q.x]; for i := 1 downto 2 do while x in y do; if a then else begin end end.",
        ParseEnding::Read,
    ),
];

#[test]
fn endings_of_sources(rt: HostRuntime) {
    for (source, ending) in &ENDINGS {
        assert!(rt; ends_so(rt.alloc(), source, *ending), "{source}");
    }
}

// Whether the second statement has no `else`, and the `if` in it has one.
fn has_inner_else(tree: &Tree) -> bool {
    match tree.program.body.statements.get(1) {
        Some(outer) => match &outer.kind {
            StatementKind::If(_, chosen, None) => {
                matches!(chosen.kind, StatementKind::If(_, _, Some(_)))
            }
            _ => false,
        },
        None => false,
    }
}

// Whether the first statement assigns a negated group.
fn negates_a_group(tree: &Tree) -> bool {
    match tree.program.body.statements.get(0) {
        Some(statement) => match &statement.kind {
            StatementKind::Assign(_, value) => {
                value.left.sign.is_some()
                    && matches!(value.left.first.first.kind, FactorKind::Group(_))
            }
            _ => false,
        },
        None => false,
    }
}

// Whether an `else` is that of the inner `if`, on the first line.
fn reads_dangling_else(alloc: Global) -> bool {
    let source =
        "var a, b: boolean; x: integer; begin a := true; if a then if b then x := 1 else x := 2; display(x) end.";
    match tree_of(alloc, source) {
        Some(tree) => {
            let is_read = has_inner_else(&tree) && tree.line(3) == 1;
            drop_tree(tree);
            is_read
        }
        None => false,
    }
}

fn reads_negated_group(alloc: Global) -> bool {
    match tree_of(alloc, "begin x := -(1) end.") {
        Some(tree) => {
            let is_read = negates_a_group(&tree) && tree.program.period == 8;
            drop_tree(tree);
            is_read
        }
        None => false,
    }
}

#[test]
fn forms_of_trees(rt: HostRuntime) {
    assert!(rt; reads_dangling_else(rt.alloc()));
    assert!(rt; reads_negated_group(rt.alloc()));
}
