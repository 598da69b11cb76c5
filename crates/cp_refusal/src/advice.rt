//! What may have been meant by a token that can't stand in its place.

use crate::extent::{closing, is_relation, open_before, open_parenthesis};
use crate::foreign::{foreign_advice, is_declared, is_operation, is_plain, is_start, is_type};
use crate::further_up::{
    CLOSING, OPENING, is_before_else, is_last, is_real, is_statement, last_branch,
};
use crate::page::are_on_one_line;
use crate::place::{end, has_comment_before};
use crate::rules::is_mark_of;
use crate::teller::Teller;
use cp_text::Mark;

// Rules, a line for each, of which the first one is followed whose conditions all hold: conditions, and what is said, which may be nothing.
//
// `?w` holds where a program can go on with the word `w` in the place of the token, `p:w` where `w` stands at the place `p`, and a word alone as `Case` says. One of
// several words may be asked for, as in `?a/b`; `!` says that a condition does not hold. A place is a number of tokens from the one that is refused, or the innermost
// word or parenthesis that is open there. Words in capitals are kinds of tokens. `Teller::say` says what the signs in a sentence stand for.

// Rules that come before those on words of other languages.
const FIRST: &str = "\
comment ?not/1|: what stands between double quotes is a comment, and there are no strings
0:class/monitor/process/array/record/set ?= !?*|: = is missing before #
0:var/const/procedure/function/begin -1:type|: a definition is missing behind type
word ?x +1:-|: # is a reserved word, and a name has letters, digits and _ alone
twice ?:= !+1::=|: := may be missing before it
twice|: # stands twice
-1:= 0:> ?not|: write >=
-1:= 0:< ?not|: write <=
0:= +1:> annotation|: there is no sign for implies: that a implies b is written (not a) or b
0:= +1:> ?:|: write a colon
-1:for 0:var|: the variable of a for is declared before begin
-1:init 0:(|: what init starts stands in no parentheses, as in init a, b(a)
-1:array|: the indices of an array stand in brackets, as in array [1..10] of integer
-1:.. 0:.|: two periods stand between the bounds, as in 1..10
0:( +1:*|: comments stand between double quotes
-1:( 0:*|: comments stand between double quotes
-1:= 0:= !+1:>|: write =
-1:and 0:and|: write and
-1:* 0:*|: there are no powers
-1:. 0:init|: init stands before the component, as in init a
0:- +1:>|: write a period in place of ->
0:+/- ?:= +1:= -1:OTHER !-2:. +3:;/end/else|: write % := % # ^
0:+/- ?:= +1:=|: an assignment is written with :=, as in x := x # 2
0:+/- ?:= doubled -1:OTHER !-2:.|: write % := % # 1
0:+/- ?:= doubled|: write x := x # 1
0:- +1:- ?while/begin|: comments stand between double quotes
-1:( 0:) -2:empty/delay/continue|: the queue stands in parentheses, as in $(q)
-1:( 0:) ?not|: a call without arguments has no parentheses
-1:( 0:)|: a heading without parameters has no parentheses
-1:, 0:end !+1::/,|: the comma before it is too many
-1:, 0:init|: init stands once before all that it starts, as in init a, b(a)
-1:for 0:(|: a for has no parentheses, as in for i := 1 to 5 do
0:NAME named-end|: end stands without a name, or a semicolon is missing before #
word named-end|: end stands without a word for what it closes
0:begin -1:of open:case|: the arms of a case follow of, without begin
0:array/record/set/class/monitor/process/( -1:= ?1 !?not !?array|: a type is defined behind the word type, and not behind const
0:in/const ?x paren:( !?not !paren-1:=/:/of/[|: a parameter without var keeps its value, so that # is left out; a parameter of a procedure that changes has var
0:init -1::= -2:NAME !-3:. +1:( +3:)|: init is a statement and gives no value: write init $(^)
0:init -1::= -2:NAME !-3:.|: init is a statement and gives no value: it begins with init $
0:init ?not|: init is a statement and gives no value, as in init a(3)
0:class/monitor/process -1::= -2:NAME !-3:.|: a component is a variable of a system type, and is initialised as in init $
0:is +1:empty -1:NAME|: write empty(%)
0:is +1:not +2:empty -1:NAME|: write not empty(%)
0:is ?:=|: an assignment is written with :=
0:is/as ?; !?*|: write a semicolon
word !0:class/monitor/process/else !part-of-parameter ?x +1::/,/=|: # is a reserved word
word !0:class/monitor/process/else !part-of-parameter ?x !?not/while/begin|: # is a reserved word
0:NAME -1:TYPE ?:=|: variables are declared before begin, as in var #: integer
0:NAME !?x ?begin +1::/, ?var|: var is missing before #
0:NAME !?x ?begin +1::/,|: variables are declared before the routines
0:NAME !?x ?begin +1:= ?var|: const or type is missing before #
0:NAME !?x ?begin +1:=|: begin and end may be missing before #
0:NAME !?x ?begin +1:( +3::|: procedure or function is missing before #
0:NAME !?x ?begin +1::=/./(/[ -1:; -2:end !?var|: the end before it closes a body, so that an end is too many or a begin is missing
0:NAME !?x ?begin +1::=/./(/[|: begin is missing before #
0:TYPE !?x ?begin +1:OTHER +2:;/,/=|: a variable is declared as in var ~: integer";

// Rules of reserved words and signs.
const MARKS: &str = "\
0:=/:= -2:: !?:= paren:(|: a parameter gets its value by the call
0:=/:= -2:: !?:=|: a variable gets its value in the body
0:+/-/or/*/div/mod/and -2:=/../[ !?*|: a constant is a number, a name or a character
0:+/-/or/*/div/mod/and -2:+/-/or -3:=/../[ !?*|: a constant is a number, a name or a character
-2:for !0:=|: a for goes from one value to another, as in for i := 1 to 5 do
0:,/;/.. ?to|: a for goes from one value to another, as in for i := 1 to 5 do
0:RELATION ?not -1:RELATION|: one sign of comparison is wanted, and here are two
0:RELATION ?:= !-2:for ahead:then|: if may be missing before %
0:RELATION ?:= !-2:for ahead:do|: while may be missing before %
0:to/downto ?; ?* ahead:do|: for may be missing before the assignment
0:of ?:=|: case is missing before %
0:RELATION ?not -1:and/or|: a comparison is of two values, as in (a < b) and (a < c)
0:RELATION ?:= +1:class/monitor/process|: a component is a variable of a system type, and is initialised as in init %
0:RELATION ?:=|: an assignment is written with :=
0:= ?: ?, !open:case/record !paren:( +1:class/monitor/process|: a type is defined behind the word type, and not behind var
0:RELATION ?: ?, !open:case|: the type stands behind a colon, as in x: integer
0:RELATION ?* joined|: comparisons that and or or joins stand in parentheses, as (a = b) and (c = d)
0:=/<>/</>/<=/>= ?* -2:=/<>/</>/<=/>= -4:if/while/until/:=/(/and/or/ASSERT/INVARIANT +1:OTHER +2:then/do/;/end/)/and/or/CLOSES !+1:true/false !-3:true/false|: a comparison is of two values: write (& $ %) and (% # ~)
0:RELATION ?*|: a comparison is of two values, as in (a < b) and (b < c)
0:RELATION|
0::= init ?) paren:(|: arguments are values without names, as in init a(3)
0::= init -1:NAME|: arguments stand in parentheses, as in init %(~)
0::= ?* !annotation|: equality is written with =, and an assignment is a statement of its own
0:+/- ?not|: a sign stands first in an expression alone, as in 1 + (-2)
0:const/type/var ?while|: constants, types and variables are declared before begin
0:, ?] init|: arguments stand in parentheses behind the index, as in init a[1](b), and two indices are written as in a[1][2]
0:, ?]|: where two indices are meant, write a[1][2], and array [1..2] of array [1..2] of ..
0:ASSERT before-else|: an assertion stands before a statement, and none can stand before else
0:ASSERT ?;|: an assertion stands before a statement, so that a semicolon is missing before it
0:ASSERT ?procedure|: an assertion stands before a statement; what is true whenever nobody is inside is said by an invariant
0:ASSERT|: an assertion stands before a statement
annotation -1:* 0:)|: behind *) the closing quote is missing
annotation 0:)|: an annotation ends in *) and a quote
annotation 0::=|: an annotation says what is true; equality is written with =
annotation -1:ASSERT/INVARIANT 0::|: the expression follows without a colon
annotation 0:;/,|: an annotation has one expression; write and, or an annotation for each
annotation|
0:else ?1 !?not|: a case has no else: each value that may come has a label
0:else has-else|: the if before it has an else already
0:else has-then -1:;|: a semicolon can't stand before else
0:else has-then|
0:else open:case|: a case has no else: each value that may come has a label
0:else open-1:then|: end is missing before it
0:else -1:begin/cycle/do/else/of/repeat/then|: no if stands before it
0:else has-empty-then|: the semicolon behind then ends the if
0:else|: the statement before it is no if; several statements behind then stand between begin and end
0::=/./(/[ last-end ?=|: the end before % closes a body, so that an end is too many or a begin is missing
0:var paren-1:class/monitor/process -1:; first|: ) is missing before the semicolon
0:var paren-1:class/monitor/process|: parameters of a class, a monitor or a process have no var
0:var paren:( -1::|: in a procedure var stands before the name of a parameter, as in var $: ~
0:var paren:(|: a function has no var parameters
0:const/type/var -1:CLOSES|: constants, types and variables are declared before the invariants
0:const/type/var -1:NAME ?: ?, !open:case|: the declaration of % is not complete
0:const/type/var -1:NAME ?= !?*|: the declaration of % is not complete
0:const/type/var|: constants, types and variables are declared before the routines, or an end is missing further up, or begin and end before it
0:INVARIANT|: invariants stand in a class or a monitor, behind its declarations and before its routines
0:array -1:: paren-1:class/monitor/process|: the type of a parameter is a name that a type part defines, and no array of components
0:array/record/set -1::|: the type of a parameter or a result is a name that a type part defines
0:. real|: there are no real numbers
0:. ?; !?[ -1:NAME +1:NAME|: a constant or a type is named alone
0:. -1:) ?*/;|: a call has no fields; an element of an array is written with brackets, as in a[1]
0:procedure/function ?var|: a routine stands in the program or in a system type, and not in another routine, whose begin and end may be missing before it
0:class/monitor/process +1:OTHER ?begin|: a system type is defined in a type part, as in type ~ = #
0:class/monitor/process +1:OTHER -1:type|: a system type is defined in a type part, as in type ~ = #
0:class/monitor/process|: a system type is defined in a type part of the program alone, and used by its name
0:( -2:: ?..|: a component is given its arguments by init
0:until ?end repeat|: an end is missing before it
0:until ?end|: no repeat is open before it
0:entry -2:procedure/function|: entry stands before %
0:entry|: entry stands behind procedure or function, as in procedure entry p
0:set ?while +1:OTHER|: an assignment is written as in x := 2
0:end ?var behind-body|: nothing is open that it closes: an end is too many or a begin is missing
0:end ?until +1:until|: a repeat ends in until, without an end before it
0:end ?until +1:; +2:until|: a repeat ends in until, without an end before it
0:end/while ?until|: a repeat ends in until and a condition
0:end ?begin -1:; -2:end|: this end is too many, or the begin of an initial statement is missing before it
0:end ?begin|: begin is missing before it, also where there is no statement
0:do ?then|: write then
0:then ?do|: write do
0:do ?while|: a loop is written as while b do .. or as repeat .. until b, which ends where b is true
0:. -1:end last|: the end before it closes no program, whose own begin and end are missing
0:. -1:end ?;|: a period stands at the end of the program alone
0:; -1:= ?array|: the type is missing before it
0:; -1:;|: one semicolon is enough
0:; ?.. -2:=|: a constant is defined behind the word const, and not behind type
0:; ?do open:repeat|: do may be missing before it; what a repeat ends in is until, and not while
0:; ?do|: do may be missing before it
0:; ?then|: then may be missing before it
0:; ?: !?,|: a function has the type of its result behind its parameters, as in function f(n: integer): integer
0:; paren:( ?: -1:TYPE|: a name and a colon stand before the type of a parameter, as in x: %
0:; ?: !open:case/record !paren:( +1:begin/var/const|: the type is missing before it, as in x: integer, or procedure before %
0:; ?: !open:case|: the type is missing before it, as in x: integer
0:; +1:) ?)|: ) stands before a semicolon
0:; ?,|: a comma is wanted here
0:; last ?.|: a program ends in a period
0:;|
0:: paren-1:= ?)|: class, monitor or process is missing before the parenthesis
0:: +1:= ?:=|: := is one sign, without a blank in it
0:: +1:+/-/or ?:=|: an assignment is written with :=
0:: -1:begin/cycle/do/else/of/repeat/then|: no colon stands behind %
0:: -1:) +2:; ?; !?end|: a procedure has no type; what has a result is a function
0:: -2:procedure/entry +2:; ?; !?end|: a procedure has no type; what has a result is a function
0:: ?.. +1:OTHER !+2::/,|: two periods stand between the bounds, as in 1..10
0:: ?; !?end|: write a semicolon
0:: ?; ?* !open:case|: write a semicolon
0:: ?then|: write then
0:: ?do|: write do
0:: ?:= +1:STATEMENT|: there are no labels and no goto
0:: ?:= +1::|: write a period in place of ::
0:: ?:= +1:NAME !+1:TYPE -1:DECLARED|: an assignment is written with :=
0:: ?:= +1:TYPE/array/record/set|: variables are declared before begin, as in var %: ~
0:: ?:= +1:NAME|: variables are declared before begin, and an assignment is written with :=
0:: ?:= +1:OTHER/(/[/not|: an assignment is written with :=
0:: ?= !?* +2:=|: a constant has no type of its own, and = stands behind its name
0:: ?= !?* +1:NAME +2:;|: = stands behind the name of a constant or a type, and var before variables
0:: ?= !?*|: = stands behind the name of a constant or a type
0::|
0:, ?* paren-1:(|: one ( is too many before it
0:, paren-1:in|: a set stands in brackets, as in [1, 2]
0:, ?= !?*|: = stands behind the name of a constant or a type, and var before variables
0:, -1:;|: the semicolon before it is too many
0:, +1:procedure/function/begin/const/type/var|: a semicolon is wanted here
0:, !?;|
0:, before-group|: a semicolon is wanted here
0:, ?..|: the constants of an enumeration stand in parentheses, as in (red, green)
0:, ?else/until|: statements are separated by semicolons, and only what one init starts by commas
0:, open:begin/case/cycle/repeat|: statements are separated by semicolons, and only what one init starts by commas
0:, paren:(|: the type of parameters is one name, and a semicolon stands behind it
0:,|: a semicolon is wanted here
0:- ?, ?:|: a name has letters, digits and _ alone
0::= -1:)|: a call can't be assigned; an element of an array is written with brackets, as in a[1]
0::= ?= !?*|: = stands behind the name of a constant or a type
0:. open:case ?: +2::/,|: a label is a constant alone, as ~
0::=/(/[/. open:case ?:|: each arm of a case has one statement, and several stand between begin and end; or the end of the case is missing before %
0:[/]/array ?..|: an array has a first and a last index, as in array [1..10] of integer
0:[ ?array|: array may be missing before it
0:[ ?( !?x|: parameters stand in parentheses
0:[ ?: ?,|: an array is declared as in a: array [1..10] of integer
0:) paren:( ?: -1:TYPE|: a name and a colon stand before the type of a parameter, as in x: %
0:) paren:( ?:|: the type is missing before it, as in x: integer
0:) ?]|: ] is missing before it
0:] ?)|: ) is missing before it
0:) !paren:(|: no ( is open before it
0:.. -2:in|: a set names its elements one by one, as in [1, 2]
0:.. ?] ?,|: a set names its elements one by one, as in [1, 2]
0:.. ?]|: an index is one value, as in a[1]
0:.. ?; !?* -2:=|: a type is defined behind the word type, and not behind const
0:.. open:case ?:|: a label is one constant, and labels stand one by one, as in 0, 1, 2:
0:[/]/)/array/..|
word 0:STATEMENT ?not|: # begins a statement, which gives no value
0:STATEMENT !0:begin ?begin -1:; -2:end|: the end before it closes a body, so that an end is too many or a begin is missing
0:STATEMENT !0:begin ?begin|: begin is missing before #
0:STATEMENT ?: open:case|: a colon may be missing before it
0:STATEMENT ?then|: then may be missing before it
0:STATEMENT ?do|: do may be missing before it
0:STATEMENT ?of|: of may be missing before it
0:STATEMENT ?to|: to may be missing before it
0:STATEMENT !0:begin ?;|: a semicolon may be missing before it";

// Rules of names, numbers and characters, and of the end of the source.
const OTHERS: &str = "\
end ?.|: the final period is missing
end ?begin !?end|: the initial statement of the program is missing
end|: an end may be missing further up
0:NAME -1:START !?:|: processes are started by init
paren-1:class/monitor/process ?x !0:NAME|: a system type declares its parameters, as in monitor(n: integer), and init gives them values
paren:( ?var !0:NAME|: a procedure declares its parameters, as in p(n: integer), and a call gives them values
-1:: paren:( ?x|: the type of a parameter or a result is a name that a type part defines
0:is ?of|: write of
0:is ?=|: write =
?: -2:function/entry|: the type of a function's result stands behind a colon, as in function f: integer
?: -1:TYPE paren:(|: a parameter is declared as in #: %
?: -1:TYPE|: a variable is declared as in var #: %
?: +1::/, 0:NAME ?, paren:( -1:val/value|: a parameter without var keeps its value, so that % is left out
?: +1::/, 0:NAME ?,|: two names have a comma between them, and one name has no blank in it, as in %_#
?: paren:(|: a parameter is declared as in x: integer
?: ?,|: a colon or a comma may be missing before it
?:|: a colon may be missing before it
0:NAME ?until !+1::=/(/./[|: until may be missing before it
?:= -1:display|: the value stands in parentheses, as in display(x)
?:= -1:delay/continue|: the queue stands in parentheses, as in %(q)
?:= -1:]|: := or a period may be missing before it
?:= !-1:NAME|
?:= plain|: := is missing before #
?:= 0:NAME !-2:.|: a period, := or a parenthesis may be missing before it
?:=|: := or a parenthesis may be missing before it
-1:OPERATION ?( !-1:DECLARED|: what % takes stands in parentheses, as in %(x)
?then ahead:then|: an operator may be missing before it
?do ahead:do|: an operator may be missing before it
0:down ?to|: write downto
0:upto/till ?to|: write to
?then|: then may be missing before it
?do|: do may be missing before it
?of|: of may be missing before it
?to|: to may be missing before it
?* ?,|: an operator or a comma may be missing before it
?* ?;|: an operator or a semicolon may be missing before it
?*|: an operator may be missing before it
!0:NAME ?, ?(|: a parenthesis or a comma may be missing before it
?,|: a comma may be missing before it
glued ?x|: a name begins with a letter
?(|: a parenthesis may be missing before it";

/// What may have been meant; empty where nothing is known of it.
pub fn advice(teller: &Teller) -> &'static str {
    let said = said_by(teller, FIRST);
    if !said.is_empty() {
        return said;
    }
    let said = foreign_advice(teller);
    if !said.is_empty() {
        return said;
    }
    let rules = match teller.mark() {
        Some(_) => MARKS,
        None => OTHERS,
    };
    said_by(teller, rules)
}

// What the first of these rules says whose conditions all hold.
fn said_by(teller: &Teller, rules: &'static str) -> &'static str {
    for rule in rules.split('\n') {
        if let Some((conditions, said)) = rule.split_once('|')
            && all_hold(teller, conditions)
        {
            return said;
        }
    }
    ""
}

fn all_hold(teller: &Teller, conditions: &str) -> bool {
    for condition in conditions.split(' ') {
        let holds = match condition.strip_prefix('!') {
            Some(negated) => !holds(teller, negated),
            None => holds(teller, condition),
        };
        if !holds {
            return false;
        }
    }
    true
}

// Whether a condition holds, but for a `!` before it.
fn holds(teller: &Teller, condition: &str) -> bool {
    if let Some(words) = condition.strip_prefix('?') {
        return words.split('/').any(|word| teller.takes(word));
    }
    match condition.split_once(':') {
        Some((place, words)) => {
            let at = token_at(teller, place);
            words.split('/').any(|word| is_kind(teller, at, word))
        }
        None => is_so(teller, condition),
    }
}

// The token that stands at a place of a condition.
fn token_at(teller: &Teller, place: &str) -> Option<usize> {
    match place.as_bytes() {
        [b'+', number @ b'0'..=b'9'] => Some(teller.at.saturating_add(usize::from(*number - b'0'))),
        [b'-', number @ b'0'..=b'9'] => teller.at.checked_sub(usize::from(*number - b'0')),
        [b'a', ..] => next_of(teller, &[Mark::Then, Mark::Do, Mark::Semicolon, Mark::End]),
        [b'o', .., b'1'] => open_word(teller)?.checked_sub(1),
        [b'o', ..] => open_word(teller),
        [b'p', .., b'1'] => open_parenthesis(teller.tokens, teller.at)?.checked_sub(1),
        [b'p', ..] => open_parenthesis(teller.tokens, teller.at),
        _ => Some(teller.at),
    }
}

// The first of some marks behind the token.
fn next_of(teller: &Teller, marks: &[Mark]) -> Option<usize> {
    let behind = teller.at.saturating_add(1);
    (behind..teller.tokens.count()).find(|place| is_mark_of(teller.tokens, *place, marks))
}

// The innermost word that is open at the token.
fn open_word(teller: &Teller) -> Option<usize> {
    open_before(teller.tokens, teller.at, &OPENING, &CLOSING)
}

// Whether a word of a condition stands at a token.
fn is_kind(teller: &Teller, at: Option<usize>, word: &str) -> bool {
    let (mark, name) = match at {
        Some(at) => (teller.mark_at(at), teller.name_at(at)),
        None => (None, ""),
    };
    match word {
        "OTHER" => mark.is_none(),
        "NAME" => !name.is_empty(),
        "TYPE" => is_type(name),
        "OPERATION" => is_operation(name),
        "START" => is_start(name),
        "DECLARED" => is_declared(teller, name),
        "STATEMENT" => is_statement(mark),
        "RELATION" => is_relation(mark),
        "ASSERT" => mark == Some(Mark::Assert),
        "INVARIANT" => mark == Some(Mark::Invariant),
        "CLOSES" => mark == Some(Mark::Closes),
        "and" => mark == Some(Mark::And),
        "[" => mark == Some(Mark::OpenBracket),
        "]" => mark == Some(Mark::CloseBracket),
        _ => match at {
            Some(at) => is_spelled(teller.spelling_at(at), word.as_bytes()),
            None => false,
        },
    }
}

// Whether a token is spelled like a word in lower case.
fn is_spelled(spelling: &[u8], word: &[u8]) -> bool {
    spelling.len() == word.len()
        && spelling
            .iter()
            .zip(word)
            .all(|(one, other)| one.to_ascii_lowercase() == *other)
}

// What a condition of one word says.
fn is_so(teller: &Teller, condition: &str) -> bool {
    let (tokens, at) = (teller.tokens, teller.at);
    match condition {
        "annotation" => teller.is_in_annotation(),
        "end" => at >= tokens.count(),
        "last" => is_last(tokens, at),
        "word" => is_word(teller),
        "comment" => has_comment_before(teller.source, tokens, at),
        "twice" => !teller.name().is_empty() && teller.name() == teller.name_before(),
        "doubled" => teller.mark() == teller.ahead(1),
        "glued" => is_glued(teller),
        "named-end" => is_behind_lone_end(teller),
        "last-end" => is_behind_last_end(teller),
        "behind-body" => is_behind_body(teller),
        "before-else" => is_before_else(teller),
        "before-group" => is_before_group(teller),
        "joined" => is_joined(teller),
        "first" => at > 0 && !are_on_one_line(tokens, at.saturating_sub(1)),
        "plain" => is_plain(teller, teller.name_before()),
        "has-empty-then" => has_empty_then(teller),
        "has-then" => branch_before(teller) == Some(Mark::Then),
        "has-else" => branch_before(teller) == Some(Mark::Else),
        "init" => is_in_init(teller),
        "part-of-parameter" => is_part_of_parameter(teller),
        "real" => is_real(teller),
        "repeat" => open_before(tokens, at, &[Mark::Repeat], &[Mark::Until]).is_some(),
        _ => false,
    }
}

// Whether it is a reserved word, or the sign for one.
fn is_word(teller: &Teller) -> bool {
    let spelling = teller.spelling_at(teller.at);
    teller.mark().is_some() && matches!(spelling, [b'A'..=b'Z' | b'a'..=b'z' | b'&', ..])
}

// Whether a name begins where the number ends that is the token.
fn is_glued(teller: &Teller) -> bool {
    let next = teller.at.saturating_add(1);
    match (teller.tokens.range(teller.at), teller.tokens.range(next)) {
        (Some(one), Some(other)) => end(one) == other.from && !teller.name_at(next).is_empty(),
        _ => false,
    }
}

/// Whether it stands on the line of an `end` before it, and behind it what follows an `end`.
pub fn is_behind_lone_end(teller: &Teller) -> bool {
    let is_followed = matches!(
        teller.ahead(1),
        Some(Mark::Semicolon | Mark::End | Mark::Else)
    ) || is_last(teller.tokens, teller.at.saturating_add(1));
    teller.back(1) == Some(Mark::End)
        && is_followed
        && are_on_one_line(teller.tokens, teller.at.saturating_sub(1))
}

// Whether the name before the token stands behind an `end` after which another one closes nothing.
fn is_behind_last_end(teller: &Teller) -> bool {
    let next = closing(teller.tokens, teller.at, &OPENING, &CLOSING);
    teller.back(2) == Some(Mark::Semicolon)
        && teller.back(3) == Some(Mark::End)
        && next < teller.tokens.count()
        && open_before(teller.tokens, next, &OPENING, &CLOSING).is_none()
}

// Whether a semicolon stands before the token, and a body before that.
fn is_behind_body(teller: &Teller) -> bool {
    let before = teller.at.saturating_sub(2);
    teller.back(1) == Some(Mark::Semicolon)
        && teller.mark_at(before) == Some(Mark::End)
        && match open_before(teller.tokens, before, &OPENING, &CLOSING) {
            Some(open) => teller.mark_at(open) != Some(Mark::Record),
            None => false,
        }
}

// Whether names and a colon follow the token, as where variables are declared.
fn is_before_group(teller: &Teller) -> bool {
    for place in teller.at.saturating_add(1)..teller.tokens.count() {
        match teller.mark_at(place) {
            Some(Mark::Colon) => return true,
            None | Some(Mark::Comma) => {}
            Some(_) => return false,
        }
    }
    false
}

// Whether `and` or `or` stands before the token, and no other comparison between.
fn is_joined(teller: &Teller) -> bool {
    let mut closed: usize = 0;
    for place in (0..teller.at).rev() {
        match teller.mark_at(place) {
            Some(Mark::CloseParenthesis | Mark::CloseBracket) => closed = closed.saturating_add(1),
            Some(Mark::OpenParenthesis | Mark::OpenBracket) if closed > 0 => {
                closed = closed.saturating_sub(1);
            }
            Some(Mark::And | Mark::Or) if closed == 0 => return true,
            mark if closed == 0 && is_relation(mark) => return false,
            _ => {}
        }
    }
    false
}

// What the last branch begins with of the statement before the token, with a semicolon between or none.
fn branch_before(teller: &Teller) -> Option<Mark> {
    let is_behind_semicolon = teller.back(1) == Some(Mark::Semicolon);
    let semicolons = if is_behind_semicolon { 1 } else { 0 };
    last_branch(teller.tokens, teller.at.saturating_sub(semicolons))
}

// Whether a semicolon stands behind a `then`, outside of what is closed before the token.
fn has_empty_then(teller: &Teller) -> bool {
    let open = open_word(teller);
    (0..teller.at).any(|place| {
        teller.mark_at(place) == Some(Mark::Then)
            && teller.mark_at(place.saturating_add(1)) == Some(Mark::Semicolon)
            && open_before(teller.tokens, place, &OPENING, &CLOSING) == open
    })
}

// Whether the bracket in which the token stands belongs to what an `init` starts.
fn is_in_init(teller: &Teller) -> bool {
    for place in (0..teller.at).rev() {
        match teller.mark_at(place) {
            Some(Mark::Init) => return true,
            Some(Mark::Semicolon | Mark::Becomes | Mark::Begin | Mark::End) => return false,
            _ => {}
        }
    }
    false
}

// Whether it is the `var` of a parameter, or a type where the name of one is wanted.
fn is_part_of_parameter(teller: &Teller) -> bool {
    match teller.mark() {
        Some(Mark::Var) => open_parenthesis(teller.tokens, teller.at).is_some(),
        Some(Mark::Array | Mark::Record | Mark::Set) => teller.back(1) == Some(Mark::Colon),
        _ => false,
    }
}
