//! Ends as lines of text.

use crate::placing::{outermost_call, wait_of, whole_story};
use crate::subject::{Reach, Telling, ToldEnd};
use cp_ends::End;
use cp_ends::found::MOST_VALUES;
use cp_machine::{ErrorName, Signals};
use cp_prose::Prose;
use cp_run::{MOST_STEPS, OutcomeKind};
use cp_story::{
    OpenCall, Story, Wait, detail_line, kind_words, output_words, push_call, reason_text,
    wait_words,
};
use cp_waits::{How, Set, Waiting, Waits};
use cp_walk::text::{error_name, push_word};
use std::alloc::{AllocError, Global};

/// Begins a line below an end.
const INDENT: &str = "          ";

/// The ends, each with its first word; the values that can be displayed; who may wait for ever; and whether this is all.
pub fn text(telling: Telling<'_>) -> Result<String, AllocError> {
    let mut text = Prose::new(telling.alloc);
    push_signals(telling, &mut text);
    push_second(telling, &mut text);
    push_ends(telling, &mut text);
    push_values(telling, &mut text);
    push_waits(telling, &mut text);
    push_last(telling, &mut text);
    text.finish()
}

// The discipline, where it is another one than `return`.
fn push_signals(telling: Telling<'_>, text: &mut Prose) {
    match telling.subject.limits.discipline.signals {
        Signals::Return => {}
        Signals::Continue => text.put("signals continue\n\n"),
        Signals::Wait => text.put("signals wait\n\n"),
    }
}

// A number, with commas between its thousands.
fn push_number(text: &mut Prose, number: usize) {
    let mut is_begun = false;
    for place in [1_000_000_000usize, 1_000_000, 1_000, 1] {
        let part = number / place % 1_000;
        if is_begun {
            text.put_char(',');
            for digit in [part / 100, part / 10 % 10, part % 10] {
                text.put_display(digit);
            }
        } else if part > 0 || place == 1 {
            text.put_display(part);
            is_begun = true;
        }
    }
}

fn push_counted(text: &mut Prose, number: usize, one: &str, several: &str) {
    push_number(text, number);
    text.put(if number == 1 { one } else { several });
}

// A line below an end.
fn push_line(text: &mut Prose, line: Result<String, AllocError>) {
    text.put(INDENT);
    text.put_made(line);
    text.put_char('\n');
}

// A word, after what it is called.
fn push_words(telling: Telling<'_>, text: &mut Prose, name: &str, word: &[u8]) {
    push_line(text, named_word(telling.alloc, name, word));
}

fn named_word(alloc: Global, name: &str, word: &[u8]) -> Result<String, AllocError> {
    let mut text = format!(in alloc; "{name} ")?;
    push_word(&mut text, word)?;
    Ok(text)
}

fn call_text(telling: Telling<'_>, call: OpenCall) -> Result<String, AllocError> {
    let mut text = String::new(telling.alloc);
    push_call(telling.subject.legend, &mut text, call, &[])?;
    Ok(text)
}

fn push_process(telling: Telling<'_>, text: &mut Prose, process: u8) {
    text.put_display(process);
    text.put_char(' ');
    text.put(telling.subject.legend.process_name(process));
}

// That there are too many states without kernel calls at once.
fn push_second(telling: Telling<'_>, text: &mut Prose) {
    match telling.findings.reach {
        Reach::StatesAtOnce(_) if !telling.subject.at_once => {
            text.put("too many states: there may be ");
            push_number(text, telling.subject.most as usize);
            text.put("\nso kernel calls are made at once\n\n");
        }
        _ => {}
    }
}

// The ends, each with its word.
fn push_ends(telling: Telling<'_>, text: &mut Prose) {
    let ends = &telling.findings.ends;
    if ends.is_empty() {
        return;
    }
    push_counted(
        text,
        ends.len(),
        " end is possible\n\n",
        " ends are possible\n\n",
    );
    for (place, end) in ends.iter().enumerate() {
        push_item(text, place);
        push_end(telling, text, end);
    }
    text.put_char('\n');
}

// The number of an item of a list, of which there are so many before it.
fn push_item(text: &mut Prose, before: usize) {
    text.put_display(before.saturating_add(1));
    text.put(".  ");
}

fn push_end(telling: Telling<'_>, text: &mut Prose, end: &ToldEnd) {
    push_kind(telling, text, end.end);
    text.put_char('\n');
    push_words(telling, text, telling.findings.word_name(), &end.word);
    match end.end {
        End::Over(OutcomeKind::AllWaiting) => push_all_waiting(telling, text, &end.word),
        End::Over(
            OutcomeKind::RunError {
                name,
                process,
                line,
            },
        ) => {
            push_line(text, error_line(telling, process, line));
            push_cause(telling, text, name, &end.word);
        }
        _ => {}
    }
}

// The process that is in error, and the text of the line at which it is.
fn error_line(telling: Telling<'_>, process: u8, line: u32) -> Result<String, AllocError> {
    let name = telling.subject.legend.process_name(process);
    let there = line_of(telling.subject.source, line);
    format!(in telling.alloc; "{process} {name} at line {line}: {there}")
}

// What the error is of to which a word leads, if that is known.
fn push_cause(telling: Telling<'_>, text: &mut Prose, name: ErrorName, word: &[u8]) {
    let Some(story) = story_for(telling, text, word) else {
        return;
    };
    let legend = telling.subject.legend;
    match detail_line(telling.alloc, legend, name, story.cause, &story.violation) {
        Ok(Some(line)) => push_line(text, Ok(line)),
        Ok(None) => {}
        Err(_) => text.refuse(),
    }
}

fn push_kind(telling: Telling<'_>, text: &mut Prose, end: End) {
    match end {
        End::Over(OutcomeKind::RunError { name, .. }) => {
            text.put("run-error ");
            text.put(error_name(name));
        }
        End::Over(kind) => text.put(kind_words(kind)),
        End::Alone(process) => {
            text.put("alone: ");
            push_process(telling, text, process);
            text.put(match telling.subject.limits.discipline.signals {
                Signals::Return => " goes on for ever, and nobody else can",
                Signals::Continue | Signals::Wait => {
                    " goes on for ever, by itself or in turns, without a choice"
                }
            });
        }
        End::Spins(process) => {
            text.put("spins: ");
            push_process(telling, text, process);
            text.put(" goes on for ever without a call, and nobody else does");
        }
    }
}

// The story of a word, where it is told to its end. Where there is no memory for it the text is refused.
fn story_for(telling: Telling<'_>, text: &mut Prose, word: &[u8]) -> Option<Story> {
    match whole_story(telling, word) {
        Ok(story) => story,
        Err(_) => {
            text.refuse();
            None
        }
    }
}

fn push_all_waiting(telling: Telling<'_>, text: &mut Prose, word: &[u8]) {
    if let Some(story) = story_for(telling, text, word) {
        for wait in &story.waits {
            push_wait(telling, text, wait);
        }
        for reason in &story.reasons {
            let line = reason_text(telling.alloc, telling.subject.legend, reason);
            push_line(text, line);
        }
    }
}

// Where a process waits.
fn push_wait(telling: Telling<'_>, text: &mut Prose, wait: &Wait) {
    let line = wait_words(telling.alloc, telling.subject.legend, wait);
    push_line(text, line);
}

/// The text of a line, counted from 1, without the spaces around it.
pub fn line_of(source: &[String], line: u32) -> &str {
    let place = (line as usize).saturating_sub(1);
    match source.get(place) {
        Some(text) => text.as_str().trim_ascii(),
        None => "",
    }
}

// The values, each with its word.
fn push_values(telling: Telling<'_>, text: &mut Prose) {
    let values = &telling.findings.values;
    if values.is_empty() {
        return;
    }
    push_counted(
        text,
        values.len().min(MOST_VALUES),
        " value can be displayed\n\n",
        " values can be displayed\n\n",
    );
    for value in values.iter().take(MOST_VALUES) {
        text.put("  ");
        text.put_made(output_words(telling.alloc, telling.subject.legend, &[value.value]));
        text.put_char('\n');
        push_words(telling, text, telling.findings.word_name(), &value.word);
    }
    if values.len() > MOST_VALUES {
        text.put("  and more\n");
    }
    text.put_char('\n');
}

// Who may wait for ever.
fn push_waits(telling: Telling<'_>, text: &mut Prose) {
    let Some(Waits::Known(list)) = &telling.findings.waits else {
        return;
    };
    if list.is_empty() {
        text.put("nobody may wait for ever while others go on\n\n");
        return;
    }
    push_counted(
        text,
        list.len(),
        " process may wait for ever while others go on\n\n",
        " processes may wait for ever while others go on\n\n",
    );
    for (place, waiting) in list.iter().enumerate() {
        push_item(text, place);
        push_waiting(telling, text, waiting);
    }
    text.put_char('\n');
}

// A sentence on a process that may wait for ever, where it waits, and the words that show it.
fn push_waiting(telling: Telling<'_>, text: &mut Prose, waiting: &Waiting) {
    push_process(telling, text, waiting.process);
    text.put(match waiting.how {
        How::Throughout => " may wait for ever",
        How::ForGood => " may wait for good",
        How::InItsCall => " may be woken again and again and never come out of its call",
    });
    push_others(telling, text, waiting.step.without(waiting.process));
    push_place(telling, text, waiting);
    push_words(telling, text, "first", &waiting.first);
    if waiting.again.is_empty() {
        text.put(INDENT);
        text.put("again and again without a choice\n");
    } else {
        push_words(telling, text, "again", &waiting.again);
    }
}

// While who goes on.
fn push_others(telling: Telling<'_>, text: &mut Prose, others: Set) {
    let mut before = " while ";
    let mut count = 0usize;
    for process in 0..telling.subject.legend.processes() {
        if others.has(process) {
            text.put(before);
            push_process(telling, text, process);
            before = " and ";
            count = count.saturating_add(1);
        }
    }
    text.put(match count {
        0 => "\n",
        1 => " goes on\n",
        _ => " go on\n",
    });
}

// Where it waits after the first word, or in which call it stays.
fn push_place(telling: Telling<'_>, text: &mut Prose, waiting: &Waiting) {
    let Some(story) = story_for(telling, text, &waiting.first) else {
        return;
    };
    if waiting.how == How::InItsCall {
        if let Some(call) = outermost_call(&story, waiting.process) {
            text.put(INDENT);
            push_process(telling, text, waiting.process);
            text.put(" stays in ");
            text.put_made(call_text(telling, call));
            text.put_char('\n');
        }
    } else if let Some(wait) = wait_of(&story, waiting.process) {
        push_wait(telling, text, wait);
    }
}

// Whether this is all; if not, what is known and what to try.
fn push_last(telling: Telling<'_>, text: &mut Prose) {
    match telling.findings.reach {
        Reach::Choices(choices) => push_too_many(telling, text, choices),
        Reach::SomeAtOnce => push_too_many_at_once(telling, text),
        Reach::States(count) => {
            if let Some(Waits::NotSettled(process)) = &telling.findings.waits {
                text.put("not settled: whether ");
                push_process(telling, text, *process);
                text.put(" may wait for ever\n");
            } else {
                push_complete(telling, text, "complete: ", count);
            }
        }
        Reach::StatesAtOnce(count) => {
            push_complete(telling, text, "complete with kernel calls at once: ", count);
            if telling.subject.waits {
                text.put("try greater --states, which it takes to tell who may wait for ever\n");
            }
        }
    }
}

// That all states were looked at, unless a stretch was cut.
fn push_complete(telling: Telling<'_>, text: &mut Prose, before: &str, count: usize) {
    if telling.findings.is_cut() {
        text.put("not complete: a stretch ends as step-limit");
        text.put(if telling.subject.limits.steps < MOST_STEPS {
            " (try greater --steps)\n"
        } else {
            " (no greater --steps can be tried)\n"
        });
        return;
    }
    text.put(before);
    push_counted(text, count, " state", " states");
    text.put(if telling.findings.ends.is_empty() {
        ", and no schedule of any length ends\n"
    } else {
        ", and schedules of any length end so or go on for ever\n"
    });
}

fn push_too_many(telling: Telling<'_>, text: &mut Prose, choices: usize) {
    text.put("too many states: there may be ");
    push_number(text, telling.subject.most as usize);
    if telling.subject.limits.discipline.is_of_the_book() {
        text.put(", also with kernel calls at once");
    }
    text.put("\nall schedules of at most ");
    push_counted(text, choices, " choice", " choices");
    text.put(" end in what is told, or go on\ntry greater --states");
    text.put(if telling.subject.waits {
        ", which it takes to tell who may wait for ever\n"
    } else {
        "\n"
    });
}

fn push_too_many_at_once(telling: Telling<'_>, text: &mut Prose) {
    text.put("too many states with kernel calls at once: there may be ");
    push_number(text, telling.subject.most as usize);
    text.put("\nwhat is told can be, and there may be more\ntry greater --states\n");
}
