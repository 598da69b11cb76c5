//! What no schedule comes to, as JSON.

use crate::gaps::{Gaps, UnreachedLine};
use serde_json::{Map, Value, json, put};
use std::alloc::{AllocError, Global};

/// What no schedule comes to, as one object: how many choices the schedules have, whether these are all, and the lines, annotations,
/// queues and entries that nobody came to.
pub fn cover_json(alloc: Global, gaps: &Gaps) -> Result<Value, AllocError> {
    let mut cover = Map::new(alloc);
    put_gaps(alloc, &mut cover, gaps)?;
    Ok(Value::Object(cover))
}

fn put_gaps(alloc: Global, cover: &mut Map<String, Value>, gaps: &Gaps) -> Result<(), AllocError> {
    put(cover, alloc, "complete", Value::Bool(gaps.is_whole))?;
    put(cover, alloc, "choices", Value::from(gaps.choices))?;
    put(cover, alloc, "lines", lines(alloc, &gaps.lines)?)?;
    put(
        cover,
        alloc,
        "assertions",
        annotations(alloc, &gaps.assertions)?,
    )?;
    put(
        cover,
        alloc,
        "invariants",
        annotations(alloc, &gaps.invariants)?,
    )?;
    put(cover, alloc, "queues", names(alloc, &gaps.queues)?)?;
    put(cover, alloc, "gates", names(alloc, &gaps.gates)?)
}

fn lines(alloc: Global, lines: &[UnreachedLine]) -> Result<Value, AllocError> {
    let mut items = Vec::new(alloc);
    for line in lines {
        items.push(json!(in alloc; { "line": line.line, "part": line.is_part })?)?;
    }
    Ok(Value::Array(items))
}

// Annotations by the lines in which their expressions begin.
fn annotations(alloc: Global, lines: &[UnreachedLine]) -> Result<Value, AllocError> {
    let mut items = Vec::new(alloc);
    for line in lines {
        items.push(Value::from(i64::from(line.line)))?;
    }
    Ok(Value::Array(items))
}

fn names(alloc: Global, texts: &[String]) -> Result<Value, AllocError> {
    let mut items = Vec::new(alloc);
    for text in texts {
        items.push(Value::String(text.clone()?))?;
    }
    Ok(Value::Array(items))
}
