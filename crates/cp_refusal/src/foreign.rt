//! What stands in this language for words and signs of other ones.

use crate::extent::open_parenthesis;
use crate::further_up::is_statement;
use crate::rules::{is_mark_of, mark_before};
use crate::teller::Teller;
use cp_text::Mark;

/// Words of other languages, in lower case, and what stands for them here: a line for each thing.
const WORDS: &str = "\
condition cond: a condition is a queue, as in q: queue
int: write integer
bool: write boolean
character: write char
string: there are no strings, but single characters
real float double: there are no real numbers
wait await: inside a monitor a process waits by delay(q), where q is a queue of it, and from outside it calls an entry that does so
signal notify wake wakeup resume: a process that waits is let go on by continue(q) in an entry procedure of its monitor
notifyall notify_all broadcast signal_all: nothing wakes all: a queue holds one process, and who is woken lets the next one go on
semaphore mutex: write a monitor with a queue
p down: there are no semaphores: a process waits by delay(q) in a monitor
v up: there are no semaphores: a process is let go on by continue(q) in a monitor
lock unlock acquire release: a call of a monitor's entry locks it, until the call returns or waits
write writeln print println printf: a value is shown by display
read readln: nothing is read, a program has no input
exit break halt: there is none: a while or a repeat has the condition that ends it
return: there is none: a function gives its result by an assignment to its own name
default otherwise others: a case has no else: each value that may come has a label
sleep: there is no clock: a process waits by delay(q) until another one calls continue(q)
inc: write x := x + 1
assert: what is true at a place is said in a comment before a statement, as in \"(* assert x > 0 *)\"
invariant: what is true of a monitor is said in a comment before its routines, as in \"(* invariant x > 0 *)\"
dec: write x := x - 1
result: a function gives its result by an assignment to its own name
nil null: there are no pointers, and empty(q) asks whether nobody waits in the queue q
include incl: s or [x] is the set s with x
exclude excl: s - [x] is the set s without x
endif fi od endwhile endfor endloop: what belongs together stands between begin and end
self this: a routine names the variables and routines of its own type without a word before them
new: nothing is made by new: a component is declared as a variable, and init starts it
cobegin parbegin fork start: a process is a variable of a process type, and is started by init in the body";

/// Words of other languages where the parser stops at them or behind them, and what is said of them.
const STOPS: &str = "\
elsif elif elseif: write else if
endif fi od endwhile endfor endloop: what belongs together stands between begin and end
loop forever: what is repeated for ever stands between cycle and end
return: a function gives its result by an assignment to its own name
call: a routine is called by its name, without a word before it
label goto: there are no labels and no goto
synchronized: the entries of a monitor exclude one another without a word for it
private public protected static: what is called from outside has entry, as in procedure entry p, and all else is private
def void func proc sub: a routine begins with procedure or function
import include uses module: a program is one text, and takes in no other
default otherwise others: a case has no else: each value that may come has a label
out inout ref: a parameter that the routine may change has var, as in var x: integer
let: an assignment is written as in x := 2
step by: a for goes by steps of one, up with to and down with downto
enum: an enumeration is written as in type colour = (red, green)
struct: write record
switch select: write case
contains: x in s asks whether x is in the set s
xor: write <> in place of xor";

// What stands in a table behind a name; empty where it is not there.
fn said_in(table: &'static str, name: &str) -> &'static str {
    for line in table.split('\n') {
        if let Some((words, _)) = line.split_once(':')
            && words.split(' ').any(|word| word == name)
        {
            return line.get(words.len()..).unwrap_or("");
        }
    }
    ""
}

/// What stands here for a name of another language; empty where nothing is known of it.
pub fn instead_of(name: &str) -> &'static str {
    said_in(WORDS, name)
}

/// What is said where the parser stops at a word of another language, or behind one; empty where it is none, or is declared.
pub fn foreign_advice(teller: &Teller) -> &'static str {
    if is_colon_missing(teller) {
        return "";
    }
    for name in [teller.name_before(), teller.name(), name_called(teller)] {
        let said = said_in(STOPS, name);
        if !said.is_empty() && !is_declared(teller, name) {
            return said;
        }
    }
    let before = teller.name_before();
    let is_named = match teller.mark() {
        Some(Mark::OpenParenthesis) => is_type(before),
        Some(Mark::Colon | Mark::Comma | Mark::Equal | Mark::Becomes) => true,
        _ => false,
    };
    // A list of names has no other words.
    let is_listed = teller.takes(",") && !teller.takes_one_of(&["*", ":", ":="]);
    if is_listed
        || is_named
        || is_declared(teller, before)
        || teller.back(2) == Some(Mark::Period)
    {
        ""
    } else {
        instead_of(before)
    }
}

/// Whether the name before the token is declared, or a label, and only its colon is missing.
fn is_colon_missing(teller: &Teller) -> bool {
    let is_type_behind = !teller.name().is_empty()
        && matches!(
            teller.ahead(1),
            Some(Mark::Semicolon | Mark::CloseParenthesis)
        );
    let is_label = matches!(teller.name_before(), "down" | "up" | "p" | "v")
        && is_statement(teller.mark());
    let is_type_before = matches!(teller.name_before(), "condition" | "cond" | "int" | "bool");
    teller.takes(":") && !teller.takes(":=") && (is_label || is_type_behind && !is_type_before)
}

/// The word of other languages that stands before the parentheses which are closed in front of the token; else an empty text.
fn name_called<'a>(teller: &Teller<'a>) -> &'a str {
    let before = teller.at.saturating_sub(1);
    let name = match open_parenthesis(teller.tokens, before) {
        Some(open) => teller.name_at(open.saturating_sub(1)),
        None => "",
    };
    let is_closed = teller.mark_at(before) == Some(Mark::CloseParenthesis);
    if is_closed && matches!(name, "switch" | "select" | "return") {
        name
    } else {
        ""
    }
}

/// Whether a name seems to be declared before the token that the parser refuses.
pub fn is_declared(teller: &Teller, name: &str) -> bool {
    for place in 0..teller.at {
        let next = place.saturating_add(1);
        let is_listed = next < teller.at
            && is_mark_of(
                teller.tokens,
                next,
                &[Mark::Colon, Mark::Comma, Mark::Equal],
            );
        let is_last = mark_before(teller.tokens, place) == Some(Mark::Comma)
            && is_mark_of(teller.tokens, next, &[Mark::CloseParenthesis]);
        let is_headed = matches!(
            mark_before(teller.tokens, place),
            Some(Mark::Procedure | Mark::Function | Mark::Entry)
        );
        if teller.name_at(place) == name && (is_listed || is_last || is_headed) {
            return true;
        }
    }
    false
}

/// Whether a name seems to be declared before the token as a variable of an ordinal type.
pub fn is_plain(teller: &Teller, name: &str) -> bool {
    for place in (0..teller.at).rev() {
        if teller.name_at(place) == name
            && is_mark_of(
                teller.tokens,
                place.saturating_add(1),
                &[Mark::Colon, Mark::Comma],
            )
        {
            let colon = (place..teller.at).find(|at| teller.mark_at(*at) == Some(Mark::Colon));
            return match colon {
                Some(colon) => is_plain_type(teller, colon.saturating_add(1)),
                None => false,
            };
        }
    }
    false
}

/// Whether an ordinal type is written or named at a token, as far as it is defined before.
fn is_plain_type(teller: &Teller, at: usize) -> bool {
    let name = teller.name_at(at);
    let defined = (0..teller.at).find(|place| {
        let behind = place.saturating_add(1);
        teller.name_at(*place) == name && teller.mark_at(behind) == Some(Mark::Equal)
    });
    match defined {
        _ if is_type(name) => true,
        Some(place) => is_mark_of(
            teller.tokens,
            place.saturating_add(2),
            &[Mark::OpenParenthesis],
        ),
        None => teller.mark_at(at.saturating_add(1)) == Some(Mark::DoublePeriod),
    }
}

/// Whether a name is that of a type, here or in other languages.
pub fn is_type(name: &str) -> bool {
    matches!(
        name,
        "integer" | "int" | "boolean" | "bool" | "char" | "real" | "float" | "double" | "string"
    )
}

/// Whether a name is that of a function of the language itself.
pub fn is_operation(name: &str) -> bool {
    matches!(name, "empty" | "succ" | "pred" | "chr" | "ord" | "abs")
}

/// Whether other languages name a component so in itself.
pub fn is_self(name: &str) -> bool {
    matches!(name, "self" | "this")
}

/// Whether a field of a component is meant to start it.
pub fn is_start(name: &str) -> bool {
    matches!(name, "start" | "run" | "fork")
}

/// What is said of a sign that begins no lexeme, and stands at the front of a text.
pub fn sign_sentence(text: &[u8]) -> &'static str {
    match text {
        [0xEF, 0xBB, 0xBF, ..] =>
            "the file begins with a byte order mark, which is no part of a program: save it without one",
        [b'{' | b'}', ..] =>
            "this sign is none of the language: a block stands between begin and end, a comment between double quotes, a set in brackets",
        [b'/', b'/' | b'*', ..] =>
            "this sign is none of the language: comments stand between double quotes",
        [b'/', ..] =>
            "this sign is none of the language: integers are divided by div, and there are no real numbers",
        [b'?', ..] => "this sign is none of the language: write if .. then .. else",
        [b'!', b'=', ..] => "this sign is none of the language: write <> in place of !=",
        [b'!' | b'~', ..] => "this sign is none of the language: write not",
        [b'#', ..] =>
            "this sign is none of the language: comments stand between double quotes, and unequal is <>",
        [b'|', ..] => "this sign is none of the language: write or",
        [b'%', ..] => "this sign is none of the language: write mod",
        [b'^', ..] => "this sign is none of the language: there are no powers and no pointers",
        [b'_', ..] => "this sign is none of the language: a name begins with a letter",
        [0xE2, 0x80, 0x98..=0x9F, ..] =>
            "this quote is none of the language: a character stands between ', a comment between double quotes",
        [0x80..=0xFF, ..] => "this sign stands in comments alone",
        _ => "this sign is none of the language",
    }
}
