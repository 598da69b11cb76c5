//! The answer to a source: why it is refused, or what is rarely meant in it.

ghost use Rattle.std.specs.Prelude.{◌≡◌, ◌+◌, ◌≤◌, IfOk, MatchOption, MatchResult, None, codes, drop, length, slice_get};
ghost use Rattle.cp_front.specs.Refusals.{check_reason, parse_reason};
ghost use Rattle.cp_front.specs.declared.refusal.Refusal.TheVariants.{Scan};
ghost use Rattle.cp_text.specs.Places.{ranges};
ghost use Rattle.cp_text.specs.Reading.{HasFault, HasTokens};
ghost use Rattle.cp_refusal.specs.Explaining as spec;
ghost use Rattle.cp_refusal.specs.Lines.{last_line};

use crate::advice::{advice, is_behind_lone_end};
use crate::candidates::{put_wanted, wanted_words};
use crate::foreign::sign_sentence;
use crate::further_up::{Missing, is_statement, what_is_missing};
use crate::hints::hints;
use crate::page::{line_number, line_start};
use crate::place::{end, fault_len, is_coded, text_in, torn_comment};
use crate::report::{ExplainedRefusal, Explanation};
use crate::rules::{Broken, code, sentence};
use crate::teller::{Piece, Teller};
use crate::unbegun::Unbegun;
use cp_check::CheckFault;
use cp_front::{Loaded, Refusal as LoadRefusal};
use cp_prose::Prose;
use cp_text::{ByteRange, Mark, ScanCause, ScanFault, Tokens};
use cp_tree::{ParseFault, Tree};
use std::alloc::{AllocError, Global};

/// What is said of a source that was loaded, or not: where and why it is refused, or that it is accepted. Hints are those for a `continue` that ends the call of
/// its entry procedure, or for one that does not.
pub fn refusal(
    alloc: Global,
    source: &[u8],
    loaded: Result<&Loaded, &LoadRefusal>,
    continue_returns: bool,
) -> Result<Explanation, AllocError>
    ensures { IfOk result (λ said. MatchResult loaded.entry (λ _. spec.IsAccepted said) (λ r. spec.IsToldOf source.now r.now said)) }
{
    match loaded {
        Ok(loaded) => Ok(Explanation::Accepted(hints(alloc, source, loaded, continue_returns)?)),
        Err(refusal) => explain(alloc, source, refusal),
    }
}

// Why a source is refused.
fn explain(alloc: Global, source: &[u8], refusal: &LoadRefusal) -> Result<Explanation, AllocError>
    ensures { IfOk result (spec.IsToldOf source.now refusal.now) }
{
    match refusal {
        LoadRefusal::Scan(fault) => scan_refused(alloc, source, *fault),
        LoadRefusal::Parse { tokens, fault } => parse_refused(alloc, source, tokens, fault),
        LoadRefusal::Check {
            tokens,
            tree,
            fault,
        } => check_refused(alloc, source, tokens, tree, fault),
        LoadRefusal::Memory => Err(AllocError),
    }
}

fn check_refused(
    alloc: Global,
    source: &[u8],
    tokens: &Tokens,
    tree: &Tree,
    fault: &CheckFault,
) -> Result<Explanation, AllocError>
    ensures { IfOk result (λ said. MatchOption (check_reason fault.now) ⊥ (λ reason. spec.IsRefusedAt (drop 6 reason.1) source.now tokens.now reason.0 said)) }
{
    match fault {
        CheckFault::Rule { at, rule } => {
            let broken = Broken {
                tree,
                at: *at,
                rule: *rule,
            };
            rule_broken(alloc, source, tokens, broken)
        }
        CheckFault::Memory => Err(AllocError),
    }
}

// What is said of a piece of the source that is no lexeme.
fn scan_sentence(cause: ScanCause, text: &[u8]) -> &'static str {
    match cause {
        ScanCause::TooLong => "the source has more than 65535 bytes",
        ScanCause::BadByte => sign_sentence(text),
        ScanCause::OpenComment => "this comment has no closing quote",
        ScanCause::OpenChar => "this character has no closing quote on its line",
        ScanCause::BadChar if is_coded(text) =>
            "this is no character: the code of a character is 0 to 127",
        ScanCause::BadChar =>
            "this is no character: between the quotes stands one sign, as 'a', or its code, as '(:97:)'; there are no strings and no type of them, and the constants of an enumeration have no quotes",
        ScanCause::NumberTooLarge => "this number is larger than 32767",
        ScanCause::NameTooLong => "this name has more than 40 characters",
        ScanCause::TooManyTokens =>
            "the source has more than 20000 words and signs, counted to this one",
        ScanCause::Memory => "",
    }
}

fn scan_refused(alloc: Global, source: &[u8], fault: ScanFault) -> Result<Explanation, AllocError>
    ensures { IfOk result (spec.IsToldOf source.now (Scan fault)) }
{
    if fault.cause == ScanCause::Memory {
        return Err(AllocError);
    }
    let span = fault_span(source, fault);
    let text = match span {
        Some(found) => fault_text(source, fault.cause, found),
        None => &[],
    };
    Ok(Explanation::Refused(ExplainedRefusal {
        kind: "scan",
        sentence: scan_words(alloc, source, fault, text)?,
        more: "see \"Lexemes\" in docs/LANGUAGE.md",
        span,
        earlier: torn_before(source, fault),
    }))
}

// A comment further up that may be the one without a closing quote, so that the text of another one is read.
fn torn_before(source: &[u8], fault: ScanFault) -> Option<ByteRange> {
    match fault.cause {
        ScanCause::OpenComment | ScanCause::BadByte | ScanCause::OpenChar | ScanCause::BadChar => {
            torn_comment(source, fault.from)
        }
        _ => None,
    }
}

// What is said of a piece that is no lexeme, and of a comment further up that belongs to it.
fn scan_words(
    alloc: Global,
    source: &[u8],
    fault: ScanFault,
    text: &[u8],
) -> Result<String, AllocError> {
    let mut words = Prose::new(alloc);
    words.put(scan_sentence(fault.cause, text));
    if let Some(torn) = torn_before(source, fault) {
        put_torn(&mut words, source, torn);
    }
    words.finish()
}

// Where the closing quote of a comment of several lines may be missing.
fn put_torn(words: &mut Prose, source: &[u8], torn: ByteRange) {
    let (first, last) = (
        line_number(source, torn.from),
        line_number(source, end(torn)),
    );
    words.put_display(format_args!(
        ": the comment of line {first} goes on to line {last}, so that a quote may be missing in line {first}"
    ));
}

// The place of a fault, in the line of the fault.
fn fault_span(source: &[u8], fault: ScanFault) -> Option<ByteRange>
    ensures { HasFault source.now fault → spec.IsPlaceIn source.now fault.line result }
{
    if fault.line == 0 {
        return None;
    }
    Some(ByteRange {
        from: fault.from,
        len: fault_len(&source[fault.from.min(source.len())..]),
    })
}

// What a sentence looks at: of a sign also what follows it.
fn fault_text(source: &[u8], cause: ScanCause, span: ByteRange) -> &[u8] {
    match cause {
        ScanCause::BadByte => &source[span.from.min(source.len())..],
        _ => text_in(source, span),
    }
}

fn rule_broken(
    alloc: Global,
    source: &[u8],
    tokens: &Tokens,
    broken: Broken,
) -> Result<Explanation, AllocError>
    ensures { IfOk result (spec.IsRefusedAt (spec.rule_code broken.entry.rule) source.now tokens.now broken.entry.at) }
{
    Ok(Explanation::Refused(ExplainedRefusal {
        kind: code(broken.rule),
        sentence: sentence(alloc, source, tokens, broken)?,
        more: "see the rule in docs/RULES.md",
        span: Some(span_of(source, broken.at, tokens)),
        earlier: None,
    }))
}

const START: ByteRange = ByteRange { from: 0, len: 1 };

// A place if it lies in the line of this number, else the beginning of that line.
fn in_line(source: &[u8], line: u32, place: ByteRange) -> ByteRange
    ensures { place.from ≤ length source.now → 1 ≤ line → line ≤ last_line source.now → spec.IsPlaceIn source.now line (Some result) }
{
    if line_number(source, place.from) == line as usize {
        return place;
    }
    ByteRange {
        from: line_start(source, line as usize),
        len: 1,
    }
}

// The place of a token, or at the end of the tokens that behind them.
fn span_of(source: &[u8], at: usize, tokens: &Tokens) -> ByteRange
    ensures { HasTokens source.now tokens.now → spec.IsPlaceIn source.now (spec.token_line tokens.now at) (Some result) }
{
    match tokens.range(at) {
        Some(range) => range,
        None => end_of(source, at, tokens),
    }
}

// The place behind the last token, in its line; the beginning where there is none.
fn end_of(source: &[u8], at: usize, tokens: &Tokens) -> ByteRange
    requires { None ≡ slice_get (ranges tokens.now) at }
    ensures { HasTokens source.now tokens.now → spec.IsPlaceIn source.now (spec.token_line tokens.now at) (Some result) }
{
    let count = tokens.count();
    let line = tokens.line(at.min(count));
    match tokens.range(count.saturating_sub(1)) {
        Some(last) => in_line(source, line, after(last)),
        None => START,
    }
}

// The place after some bytes.
fn after(span: ByteRange) -> ByteRange
    ensures { result.from ≤ span.from + span.len }
{
    ByteRange {
        from: end(span),
        len: 1,
    }
}

// What is expected in the place of the token, what stands there, and what may have been meant.
fn put_unexpected(teller: &mut Teller, missing: &Missing) -> Result<(), AllocError> {
    if teller.tokens.count() == 0 {
        teller.put("a program is missing");
        return Ok(());
    }
    teller.put("expected ");
    put_wanted(teller)?;
    teller.say(
        match teller.mark() {
            Some(Mark::Assert) => ", found an assertion",
            Some(Mark::Invariant) => ", found an invariant",
            Some(Mark::Closes) => ", found the end of the annotation",
            _ if teller.at >= teller.tokens.count() => ", found the end of the source",
            _ => ", found \"#\"",
        },
        &[],
    );
    put_missing(teller, missing);
    Ok(())
}

// What is missing further up, or else what may have been meant.
fn put_missing(teller: &mut Teller, missing: &Missing) {
    match missing {
        Missing::Nothing => {
            let said = advice(teller);
            teller.say(said, &[]);
        }
        Missing::Semicolon(before) => {
            let sentence = if teller.takes(",") {
                ": a comma or a semicolon may be missing at the end of line @"
            } else {
                ": a semicolon may be missing at the end of line @"
            };
            teller.say(sentence, &[Piece::Line(*before)]);
        }
        Missing::End(open) => put_open(teller, *open),
        Missing::EndByLayout(open) => {
            put_open(teller, *open);
            teller.put(", as the lines are indented");
        }
        Missing::Beginning(closed) if teller.takes(".") => teller.say(
            ": the end before it closes the @, which is taken for that of the program: an end is too many, or a begin or a heading is missing",
            &[Piece::Placed(*closed)],
        ),
        Missing::Beginning(closed) => teller.say(
            ": the end before it closes the @, so that an end is too many or a begin is missing",
            &[Piece::Placed(*closed)],
        ),
        Missing::Begin(found) => put_unbegun(teller, *found),
        Missing::Quote(comment) => put_torn(&mut teller.text, teller.source, *comment),
        Missing::Word(at, word) if *at == teller.at => {
            teller.say(": # may be meant for @", &[Piece::Words(word)]);
        }
        Missing::Word(at, word) => teller.say(
            ": @ may be meant for @",
            &[Piece::Placed(*at), Piece::Words(word)],
        ),
    }
}

// That nothing closes the word or the bracket at a token.
fn put_open(teller: &mut Teller, open: usize) {
    let sentence = match teller.mark_at(open) {
        Some(Mark::OpenParenthesis) => ": the @ has no )",
        Some(Mark::OpenBracket) => ": the @ has no ]",
        Some(Mark::Repeat) => ": the @ has no until",
        _ => ": the @ has no end",
    };
    teller.say(sentence, &[Piece::Placed(open)]);
}

// That `begin` is missing behind a word, and what is closed therefore.
fn put_unbegun(teller: &mut Teller, found: Unbegun) {
    let sentence = if found.end == teller.at {
        ": the @ has no begin"
    } else {
        ": the @ has no begin, so that the end of line @ closes the @"
    };
    teller.say(
        sentence,
        &[
            Piece::Placed(found.word),
            Piece::Line(found.end),
            Piece::Placed(found.closed),
        ],
    );
    let is_named = is_statement(teller.mark()) || !teller.name().is_empty();
    if is_named && is_behind_lone_end(teller) {
        teller.put("; and end stands without a word for what it closes");
    }
}

// The place further up that the excerpt shows too.
fn earlier(teller: &Teller, missing: &Missing) -> Option<ByteRange> {
    let (source, tokens) = (teller.source, teller.tokens);
    match missing {
        Missing::Semicolon(before) => Some(after(span_of(source, *before, tokens))),
        Missing::Word(at, _) if *at == teller.at => None,
        Missing::End(at)
        | Missing::EndByLayout(at)
        | Missing::Beginning(at)
        | Missing::Begin(Unbegun { word: at, .. })
        | Missing::Word(at, _) => Some(span_of(source, *at, tokens)),
        Missing::Quote(comment) => Some(*comment),
        Missing::Nothing => None,
    }
}

fn parse_refused(
    alloc: Global,
    source: &[u8],
    tokens: &Tokens,
    fault: &ParseFault,
) -> Result<Explanation, AllocError>
    ensures { IfOk result (λ said. MatchOption (parse_reason fault.now) ⊥ (λ reason. spec.IsRefusedAt (codes "parse") source.now tokens.now reason.0 said)) }
{
    match fault {
        ParseFault::Unexpected(at) => { explain_unexpected(alloc, source, tokens, *at) }
        ParseFault::OutsideProfile(at) => {
            let sentence = left_out(alloc, source, tokens, *at);
            not_parsed(source, tokens, *at, sentence, None)
        }
        ParseFault::TooDeep(at) => {
            let sentence = String::from_str(alloc, "this is nested more than 50 levels deep");
            not_parsed(source, tokens, *at, sentence, None)
        }
        ParseFault::Memory => Err(AllocError),
    }
}

fn left_out(
    alloc: Global,
    source: &[u8],
    tokens: &Tokens,
    at: usize,
) -> Result<String, AllocError> {
    let mut teller = Teller::new(alloc, source, tokens, at);
    let sentence = match teller.mark() {
        Some(Mark::Program) if at == 0 =>
            "a program has no heading: it begins with const, type, var, a routine or begin",
        _ => "# is a reserved word for what is left out of this language",
    };
    teller.say(sentence, &[]);
    teller.text.finish()
}

fn explain_unexpected(
    alloc: Global,
    source: &[u8],
    tokens: &Tokens,
    at: usize,
) -> Result<Explanation, AllocError>
    ensures { IfOk result (spec.IsRefusedAt (codes "parse") source.now tokens.now at) }
{
    let mut teller = Teller::new(alloc, source, tokens, at);
    teller.wanted = wanted_words(&teller)?;
    let missing = what_is_missing(&teller)?;
    put_unexpected(&mut teller, &missing)?;
    let earlier = earlier(&teller, &missing);
    not_parsed(source, tokens, at, teller.text.finish(), earlier)
}

// What is said of a token that the parser refuses, and the place further up that belongs to it.
fn not_parsed(
    source: &[u8],
    tokens: &Tokens,
    at: usize,
    sentence: Result<String, AllocError>,
    earlier: Option<ByteRange>,
) -> Result<Explanation, AllocError>
    ensures { IfOk result (spec.IsRefusedAt (codes "parse") source.now tokens.now at) }
{
    Ok(Explanation::Refused(ExplainedRefusal {
        kind: "parse",
        sentence: sentence?,
        more: "see \"Grammar\" in docs/LANGUAGE.md",
        span: Some(span_of(source, at, tokens)),
        earlier,
    }))
}
