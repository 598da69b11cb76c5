//! What is wrong where a rule is broken.

ghost use Rattle.std.specs.Prelude.{◌≡◌};
ghost use Rattle.cp_refusal.specs.Explaining.{rule_code};

use crate::declared::{Declarations, Declared};
use crate::extent::{between, is_field, open_parenthesis, record_around, single};
use crate::foreign::{instead_of, is_start};
use crate::saying::Saying;
use crate::spelling::{Known, similar_declaration, similar_standard_name};
use crate::teller::{Piece, Teller};
use cp_scope::{Rule, ValueType};
use cp_text::{Kind, Mark, Tokens};
use cp_tree::{RoutineKind, SystemKind, Tree};
use std::alloc::{AllocError, Global};

/// The reserved word or sign at this number, where there is one.
pub fn mark_at(tokens: &Tokens, at: usize) -> Option<Mark> {
    match tokens.get(at) {
        Some(Kind::Mark(mark)) => Some(*mark),
        _ => None,
    }
}

/// The name at this number; an empty text where there is none.
pub fn name_at<'a>(tokens: &'a Tokens, at: usize) -> &'a str {
    match tokens.get(at) {
        Some(Kind::Name(name)) => name.as_str(),
        _ => "",
    }
}

/// The reserved word or sign before this number, where there is one.
pub fn mark_before(tokens: &Tokens, at: usize) -> Option<Mark> {
    mark_at(tokens, at.checked_sub(1)?)
}

/// Whether one of these reserved words and signs stands at this number.
pub fn is_mark_of(tokens: &Tokens, at: usize, marks: &[Mark]) -> bool {
    match tokens.get(at) {
        Some(Kind::Mark(mark)) => marks.contains(mark),
        _ => false,
    }
}

/// What does not agree in a declaration, by the word or sign that begins the construct and what stands around it.
fn disagreement(tokens: &Tokens, at: usize) -> &'static str {
    let behind = behind_constant(tokens, at);
    match mark_at(tokens, at) {
        Some(Mark::Function) => ": its result may not be an array, a record or a set",
        Some(Mark::Array) => ": its index type is not ordinal",
        _ if mark_at(tokens, behind) == Some(Mark::DoublePeriod) =>
            ": the bounds of a subrange have to be ordinal and of one type",
        _ if mark_before(tokens, at) == Some(Mark::Of) => ": the base of a set is ordinal",
        Some(Mark::Plus | Mark::Minus) => ": a sign takes an integer",
        _ => " begins what does not agree in its types",
    }
}

/// The number of the token behind the constant at this number.
fn behind_constant(tokens: &Tokens, at: usize) -> usize {
    let is_signed = is_mark_of(tokens, at, &[Mark::Plus, Mark::Minus]);
    at.saturating_add(if is_signed { 2 } else { 1 })
}

fn wrong_entry(declarations: &Declarations, at: usize) -> &'static str {
    let tokens = declarations.tokens;
    if mark_at(tokens, at) == Some(Mark::Entry) {
        " stands only in a class or a monitor: nobody calls a process or the program"
    } else if mark_before(tokens, at) == Some(Mark::Period) {
        " can't be called from outside: its heading has no entry"
    } else if declarations.is_routine_itself(at) {
        CALLS_ITSELF
    } else {
        " is an entry, and can't be called within its own type: put what both need into a routine without entry"
    }
}

const CALLS_ITSELF: &str = " calls itself, and no routine may: what is repeated stands in a loop";

fn wrong_wait(declarations: &Declarations, at: usize) -> &'static str {
    if declarations.is_standard(at, "delay") {
        " stands only in the routines of a monitor"
    } else if !declarations.is_standard(at, "continue") {
        " leads to a delay, and an initial statement may not wait: nobody could come in to wake it"
    } else {
        match declarations.routine_around(at) {
            Some(one) if !matches!(one.kind, RoutineKind::Procedure(_)) =>
                " stands only in the body of an entry procedure of a monitor, and not in a function",
            Some(one) if !one.is_entry && declarations.is_called_within(one) =>
                " stands only in the body of an entry procedure of a monitor, and the heading of this procedure has no entry: it is called within its own type, as no entry can be, so that continue belongs into an entry procedure itself",
            Some(one) if !one.is_entry =>
                " stands only in the body of an entry procedure of a monitor, and the heading of this procedure has no entry",
            _ => " stands only in the body of an entry procedure of a monitor",
        }
    }
}

fn too_large(tokens: &Tokens, at: usize) -> &'static str {
    match mark_at(tokens, at) {
        Some(Mark::Set) => " can't be made of this base: the values of a set go from 0 to 127",
        Some(Mark::Period) =>
            " ends a program that is too large: there may be at most 16 processes, 64 components, 8192 permanent cells and 4096 frame cells of a process",
        _ => " begins a type of more than 8192 cells",
    }
}

fn misplaced_component(declarations: &Declarations, at: usize) -> &'static str {
    let tokens = declarations.tokens;
    match (open_parenthesis(tokens, at), declarations.type_named_at(at)) {
        (Some(open), _) if !name_at(tokens, open.saturating_sub(1)).is_empty() =>
            " is a type of components, and a routine has none as parameters: a system type is given them",
        (Some(_), Some(ValueType::Array(_))) =>
            " is an array of components, and no parameter is one: a system type is given components one by one",
        _ => declarations.misplacement(at),
    }
}

const NO_QUEUE_GIVEN: &str =
    " can't be the type of a parameter: a routine names the queues of its own monitor itself, and of an array of them it may be given an index";

fn wrong_parameter(declarations: &Declarations, at: usize) -> &'static str {
    match declarations.type_named_at(at) {
        Some(ValueType::Queue) if declarations.routine_around(at).is_some() => NO_QUEUE_GIVEN,
        Some(ValueType::Queue) =>
            " can't be the type of a parameter: nobody waits in the queue of another monitor",
        Some(ValueType::Component(..)) =>
            " is a process, and can't be a parameter: nobody calls a process",
        _ => " is a process or a queue, and can't be a parameter",
    }
}

/// What is wrong with a token where a rule is broken, in the order of `Rule`; empty where that hangs on the token.
const COMPLAINTS: [&str; 22] = [
    " is not declared here",
    "",
    " is no constant, and its value has to be known before the program runs",
    " is not the name of a type",
    "",
    " can't be assigned: it is no variable that may change here",
    " is called with a wrong number of arguments",
    " is no routine of this component, whose variables can't be reached from outside",
    "",
    CALLS_ITSELF,
    " can't stand here: a queue is declared only among the permanent variables of a monitor",
    "",
    "",
    " is a class, and a monitor or a process can't be given a class: what is shared has to be a monitor",
    "",
    " stands only in the initial statement of the program or of a system type",
    " is no component variable of this block, so that init can't start it",
    " begins a subrange whose upper bound is below its lower bound",
    " has the value of an earlier label of this case",
    "",
    " is an array, a record or a set",
    " is called in an annotation, which may call no routine of the program, so that it changes nothing",
];

/// What is wrong with the token of this number, after its spelling.
fn complaint(declarations: &Declarations, at: usize, rule: Rule) -> &'static str {
    let tokens = declarations.tokens;
    match rule {
        Rule::C5 => disagreement(tokens, at),
        Rule::C9 => wrong_entry(declarations, at),
        Rule::C11 if open_parenthesis(tokens, at).is_some() => NO_QUEUE_GIVEN,
        Rule::C12 => wrong_wait(declarations, at),
        Rule::C13 => misplaced_component(declarations, at),
        Rule::C15 => wrong_parameter(declarations, at),
        Rule::C20 => too_large(tokens, at),
        _ => COMPLAINTS[rule as usize],
    }
}

/// The numbers of the rules, in the order of `Rule`.
const CODES: [&str; 22] = [
    "C1", "C2", "C3", "C4", "C5", "C6", "C7", "C8", "C9", "C10", "C11", "C12", "C13", "C14", "C15",
    "C16", "C17", "C18", "C19", "C20", "C21", "C22",
];

/// The number of a rule.
pub fn code(rule: Rule) -> &'static str
    ensures { result.now ≡ rule_code rule }
{
    CODES[rule as usize]
}

/// A fault of a program that the checker refuses.
#[derive(Clone, Copy)]
pub struct Broken<'a> {
    pub tree: &'a Tree,
    pub at: usize,
    pub rule: Rule,
}

/// One sentence on the rule that is broken at a token.
pub fn sentence<'a>(
    alloc: Global,
    source: &'a [u8],
    tokens: &'a Tokens,
    broken: Broken<'a>,
) -> Result<String, AllocError> {
    let declarations = Declarations::of(alloc, tokens, broken.tree)?;
    let mut saying = Saying {
        teller: Teller::new(alloc, source, tokens, broken.at),
        declarations,
    };
    if !put_particular(&mut saying, broken.rule) {
        put_complaint(&mut saying, broken);
    }
    let mut teller = saying.teller;
    teller.say(" (rule @)", &[Piece::Words(code(broken.rule))]);
    teller.text.finish()
}

/// Says the rule of the tokens that break it: of a label of a `case` with its sign, else of one.
fn put_complaint(saying: &mut Saying, broken: Broken) {
    let extent = match broken.rule {
        Rule::C19 => between(broken.at, behind_constant(saying.teller.tokens, broken.at)),
        _ => single(broken.at),
    };
    let words = complaint(&saying.declarations, broken.at, broken.rule);
    saying.teller.put_tokens(extent);
    saying.teller.put(words);
}

/// Says what is there and what is wanted, where that can be told.
fn put_particular(saying: &mut Saying, rule: Rule) -> bool {
    match rule {
        Rule::C1 if !is_behind_period(&saying.teller) => {
            if put_undeclared(&mut saying.teller, &saying.declarations) {
                saying.put_entries_given();
            }
        }
        Rule::C8 if is_start(saying.teller.name()) => saying.teller.say(
            "# is no routine of this component: processes are started by init",
            &[],
        ),
        Rule::C2 => put_twice(&mut saying.teller, &saying.declarations),
        Rule::C9 if saying.teller.mark() == Some(Mark::Entry) => {
            return put_ended(&mut saying.teller, &saying.declarations);
        }
        Rule::C9 | Rule::C10 | Rule::C22 => match own_name(&saying.teller, &saying.declarations) {
            Some(sentence) => saying.teller.say(sentence, &[]),
            None => return false,
        },
        Rule::C1 | Rule::C5 | Rule::C6 | Rule::C7 | Rule::C8 | Rule::C17 | Rule::C21 => {
            match saying.declarations.scopes.detail() {
                Some(detail) => saying.put_detail(detail),
                None => return false,
            }
        }
        _ => return false,
    }
    true
}

/// Says which class or monitor ends before the routine of the program whose `entry` is at the token.
fn put_ended(teller: &mut Teller, declarations: &Declarations) -> bool {
    let last = declarations.all.iter().rev().find(|one| {
        one.at < teller.at
            && matches!(one.what, Declared::System(system) if system.kind != SystemKind::Process)
    });
    match last {
        Some(one) if declarations.owner_at(teller.at).is_empty() => teller.say(
            "# stands only in a class or a monitor, and the @ ends before it: its initial statement comes last",
            &[Piece::Placed(one.at)],
        ),
        _ => return false,
    }
    true
}

/// Says in which line a name was declared that is declared again.
fn put_twice(teller: &mut Teller, declarations: &Declarations) {
    let (sentence, first) = match declarations.declaration_at(teller.at) {
        Some(one) => (
            "# is declared twice in one block",
            declarations.first_of_name(one),
        ),
        None => ("# is declared twice in one record", first_field(teller)),
    };
    teller.say(sentence, &[]);
    if let Some(first) = first {
        teller.say(", first in line @", &[Piece::Line(first)]);
    }
}

/// The first field with the name of the one that is declared at the token, in the same record.
fn first_field(teller: &Teller) -> Option<usize> {
    let record = record_around(teller.tokens, teller.at)?;
    (record..teller.at).find(|place| {
        teller.name_at(*place) == teller.name() && is_field(teller.tokens, record, *place)
    })
}

fn is_behind_period(teller: &Teller) -> bool {
    teller.back(1) == Some(Mark::Period)
}

/// Says of a name that is not visible where it is declared, what is meant by it elsewhere, or which name may have been meant; answers whether it is one of another
/// language.
fn put_undeclared(teller: &mut Teller, declarations: &Declarations) -> bool {
    teller.say("# is not declared here", &[]);
    let owner = declarations.owner_of_entry(teller.name());
    let known = instead_of(teller.name());
    let nearest = similar_declaration(teller, declarations, Known::Visible);
    let is_own = !owner.is_empty() && owner == declarations.owner_at(teller.at);
    if is_own && declarations.is_changed(teller.at) {
        teller.put(": it is an entry of this type, declared only further down, and no variable");
    } else if is_own {
        teller.put(
            ": it is an entry of this type, and can't be called within it: put what both need into a routine without entry",
        );
    } else if !owner.is_empty() {
        teller.say(
            ": it is an entry of @, and called with a component and a period before it",
            &[Piece::Words(owner)],
        );
    } else if let Some((declared, why)) = declarations.elsewhere(teller.name(), teller.at)
        && (nearest.is_none() || declarations.fits(declared, teller.at))
    {
        if put_counter(teller) {
            teller.say(
                "; that of line @ is not seen here",
                &[Piece::Line(declared)],
            );
        } else {
            teller.say(why, &[Piece::Line(declared)]);
        }
    } else if let Some((named, why)) = declarations.behind_self(teller.at) {
        teller.say(why, &[Piece::Line(named)]);
    } else if !known.is_empty() && (nearest.is_none() || declarations.is_in_body(teller.at)) {
        teller.put(known);
        return true;
    } else if let Some(other) = nearest {
        put_declared(teller, other);
    } else if let Some(other) = similar_standard_name(teller.name()) {
        teller.say(": @ may be meant", &[Piece::Words(other)]);
    } else if teller.back(1) == Some(Mark::DoublePeriod)
        || teller.ahead(1) == Some(Mark::DoublePeriod)
    {
        teller.put(": a constant is wanted here");
    } else {
        put_counter(teller);
    }
    false
}

/// Says what a `for` counts in, where one stands before the token.
fn put_counter(teller: &mut Teller) -> bool {
    let is_counted = teller.back(1) == Some(Mark::For);
    if is_counted {
        teller.say(
            ": for counts in a variable, which is declared before begin here, as in var #: integer",
            &[],
        );
    }
    is_counted
}

/// Says in which line the name at a token is declared.
pub fn put_declared(teller: &mut Teller, at: usize) {
    teller.say(
        ": @ is declared in line @",
        &[Piece::Tokens(single(at)), Piece::Line(at)],
    );
}

/// What is said of a function that names itself, where an annotation can't speak of its result or where that is a call.
fn own_name(teller: &Teller, declarations: &Declarations) -> Option<&'static str> {
    if !declarations.is_function_itself(teller.at) {
        None
    } else if teller.is_in_annotation() {
        Some("# is the function itself: an annotation can't speak of its result")
    } else if teller.ahead(1) != Some(Mark::OpenParenthesis) {
        Some(
            "# calls the function itself here, and no routine may: what is read again is put into a local variable",
        )
    } else {
        None
    }
}
