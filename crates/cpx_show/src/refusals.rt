//! Why a source is refused, as a text.

ghost use Rattle.std.specs.Prelude.{◌≡◌, false, IfOk, MatchResult, option_map, string_bytes};
ghost use Rattle.cpx_show.specs.Refused.{TellsAccepted, TellsRefused};

use cp_front::{Loaded, Refusal as LoadRefusal};
use cp_machine::Signals;
use cp_refusal::{
    ByteRange, ExplainedRefusal, Explanation as Said, Hint, Hints, position_of, refusal, text,
};
use cp_story::objects::Object;
use serde_json::Value;
use std::alloc::{AllocError, Global};

/// Why the source is refused, or that it is accepted, with hints for those who go on after a `continue`; places begin with the name of its file, if one is given.
pub fn explanation_text(
    alloc: Global,
    source: &[u8],
    loaded: Result<&Loaded, &LoadRefusal>,
    signals: Signals,
    as_json: bool,
    file: &Option<String>,
) -> Result<String, AllocError>
    ensures { as_json ≡ false → IfOk result (λ t. MatchResult loaded.entry (λ _. TellsAccepted source.now (option_map string_bytes file.now) (string_bytes t)) (λ why. TellsRefused source.now (option_map string_bytes file.now) why.now (string_bytes t))) }
{
    let said = refusal(alloc, source, loaded, signals == Signals::Return)?;
    if as_json {
        json(alloc, source, &said)
    } else {
        text(alloc, source, &said, name_of(file))
    }
}

fn name_of(file: &Option<String>) -> Option<&str>
    ensures { option_map (λ name. name.now) result ≡ option_map string_bytes file.now }
{
    match file {
        Some(name) => Some(name.as_str()),
        None => None,
    }
}

// The same as one JSON object.
fn json(alloc: Global, source: &[u8], said: &Said) -> Result<String, AllocError> {
    let mut object = Object::new(alloc);
    match said {
        Said::Accepted(hints) => put_hints(alloc, &mut object, source, hints)?,
        Said::Refused(refusal) => put_refusal(&mut object, source, refusal)?,
    }
    object.into_line()
}

fn put_position(object: &mut Object, source: &[u8], span: ByteRange) -> Result<(), AllocError> {
    let place = position_of(source, span);
    object.number("line", u64::from(place.line))?;
    object.number("column", place.column as u64)?;
    object.number("length", place.length as u64)
}

fn put_refusal(
    object: &mut Object,
    source: &[u8],
    refusal: &ExplainedRefusal,
) -> Result<(), AllocError> {
    object.put("accepted", Value::Bool(false))?;
    if let Some(span) = refusal.span {
        put_position(object, source, span)?;
    }
    let is_rule = refusal.kind != "scan" && refusal.kind != "parse";
    object.text(if is_rule { "rule" } else { "kind" }, refusal.kind)?;
    object.text("sentence", refusal.sentence.as_str())?;
    object.text("hint", refusal.more)
}

fn put_hints(
    alloc: Global,
    object: &mut Object,
    source: &[u8],
    hints: &Hints,
) -> Result<(), AllocError> {
    object.put("accepted", Value::Bool(true))?;
    object.put("hints", hint_objects(alloc, source, &hints.all)?)?;
    object.number("more", hints.more as u64)
}

fn hint_objects(alloc: Global, source: &[u8], hints: &[Hint]) -> Result<Value, AllocError> {
    let mut all = Vec::new(alloc);
    for hint in hints {
        all.push(hint_object(alloc, source, hint)?)?;
    }
    Ok(Value::Array(all))
}

fn hint_object(alloc: Global, source: &[u8], hint: &Hint) -> Result<Value, AllocError> {
    let mut one = Object::new(alloc);
    put_position(&mut one, source, hint.span)?;
    one.text("sentence", hint.sentence.as_str())?;
    Ok(one.into_value())
}
