//! The worked rows of the rules, each broken at a token, and a program that breaks none.

use crate::programs::{BUFFER, fault_of, tree_of};
use cp_check::check;
use cp_drops::{drop_checked, drop_tree};
use cp_scope::{CheckFault, Rule};
use std::alloc::Global;

/// A program that breaks a rule, and the token that it is broken at.
pub struct BrokenCheck {
    pub source: &'static str,
    pub at: usize,
    pub rule: Rule,
}

/// Programs that break one rule, the other, and both: of these the first in reading order is answered, whichever it is.
pub static ONE_OR_BOTH: [BrokenCheck; 4] = [
    BrokenCheck {
        source: "type c = class; begin end; p = process(x: c); begin end; var k: c; a: p; begin init k, a(k) end.",
        at: 14,
        rule: Rule::C14,
    },
    BrokenCheck {
        source: "procedure f; begin f end; begin f end.",
        at: 4,
        rule: Rule::C10,
    },
    BrokenCheck {
        source: "type c = class; begin end; p = process(x: c); begin end; procedure f; begin f end; begin f end.",
        at: 14,
        rule: Rule::C14,
    },
    BrokenCheck {
        source: "type c = class; procedure f; begin f end; begin end; p = process(x: c); begin end; begin end.",
        at: 9,
        rule: Rule::C10,
    },
];

/// The worked rows of the other rules.
pub static BROKEN: [BrokenCheck; 22] = [
    BrokenCheck {
        source: "begin x := 1; y := 2 end.",
        at: 1,
        rule: Rule::C1,
    },
    BrokenCheck {
        source: "var a, a: integer; begin end.",
        at: 3,
        rule: Rule::C2,
    },
    BrokenCheck {
        source: "type t = integer; const c = t; begin end.",
        at: 8,
        rule: Rule::C3,
    },
    BrokenCheck {
        source: "const c = 1; var x: c; begin end.",
        at: 8,
        rule: Rule::C4,
    },
    BrokenCheck {
        source: "var x: integer; begin x := true end.",
        at: 6,
        rule: Rule::C5,
    },
    BrokenCheck {
        source: "begin display('a' in [1]) end.",
        at: 3,
        rule: Rule::C5,
    },
    BrokenCheck {
        source: "const c = 1; begin c := 2 end.",
        at: 6,
        rule: Rule::C6,
    },
    BrokenCheck {
        source: "type m = monitor; var a, b: array [1..2] of queue; begin b := a end; begin end.",
        at: 20,
        rule: Rule::C6,
    },
    BrokenCheck {
        source: "type r = record a: integer end; var x: r; begin display(x) end.",
        at: 17,
        rule: Rule::C21,
    },
    BrokenCheck {
        source: "procedure f(a: integer); begin end; begin f end.",
        at: 12,
        rule: Rule::C7,
    },
    BrokenCheck {
        source: "type c = class; begin end; var k: c; begin k.go end.",
        at: 16,
        rule: Rule::C8,
    },
    BrokenCheck {
        source: "procedure entry f; begin end; begin end.",
        at: 1,
        rule: Rule::C9,
    },
    BrokenCheck {
        source: "var q: queue; begin end.",
        at: 3,
        rule: Rule::C11,
    },
    BrokenCheck {
        source: "type m = monitor; var q: queue; begin delay(q) end; begin end.",
        at: 11,
        rule: Rule::C12,
    },
    BrokenCheck {
        source: "type p = process; begin end; m = monitor; var a: p; begin end; begin end.",
        at: 15,
        rule: Rule::C13,
    },
    BrokenCheck {
        source: "type p = process; begin end; r = process(x: p); begin end; begin end.",
        at: 14,
        rule: Rule::C15,
    },
    BrokenCheck {
        source: "type c = class; begin end; var k: c; procedure f; begin init k end; begin end.",
        at: 17,
        rule: Rule::C16,
    },
    BrokenCheck {
        source: "var x: integer; begin init x end.",
        at: 7,
        rule: Rule::C17,
    },
    BrokenCheck {
        source: "var x: 2..1; begin end.",
        at: 3,
        rule: Rule::C18,
    },
    BrokenCheck {
        source: "begin case 1 of 1: ; 1: end end.",
        at: 7,
        rule: Rule::C19,
    },
    BrokenCheck {
        source: "var a: array [0..8192] of integer; begin end.",
        at: 3,
        rule: Rule::C20,
    },
    BrokenCheck {
        source: "var a: set of integer; begin end.",
        at: 3,
        rule: Rule::C20,
    },
];

fn is_broken(alloc: Global, broken: &BrokenCheck) -> bool {
    match tree_of(alloc, broken.source) {
        Some(tree) => match fault_of(check(alloc, tree)) {
            Some(CheckFault::Rule { at, rule }) => at == broken.at && rule == broken.rule,
            _ => false,
        },
        None => false,
    }
}

#[test]
fn broken_rules(rt: HostRuntime) {
    for broken in &BROKEN {
        assert!(rt; is_broken(rt.alloc(), broken), "{}", broken.source);
    }
    for broken in &ONE_OR_BOTH {
        assert!(rt; is_broken(rt.alloc(), broken), "{}", broken.source);
    }
}

/// How many statements the body of an accepted program has; none where it is not accepted.
fn count_statements(alloc: Global, source: &str) -> Option<usize> {
    match check(alloc, tree_of(alloc, source)?) {
        Ok(checked) => {
            let count = checked.tree().program.body.statements.len();
            drop_checked(checked);
            Some(count)
        }
        Err((_fault, tree)) => {
            drop_tree(tree);
            None
        }
    }
}

#[test]
fn no_rule_broken(rt: HostRuntime) {
    assert!(rt; count_statements(rt.alloc(), BUFFER) == Some(1));
}
