//! Answers of calls that may be refused memory, compared with those of ample memory.

/// How an answer compares with that of ample memory.
#[derive(Clone, Copy)]
pub enum CallAnswer {
    Ample,
    Memory,
    Other,
}

/// The answer of a call that was not refused memory.
pub fn ample_answer(is_wanted: bool) -> CallAnswer {
    if is_wanted {
        CallAnswer::Ample
    } else {
        CallAnswer::Other
    }
}

/// The answer of a call that was refused memory.
pub fn memory_answer(stands: bool) -> CallAnswer {
    if stands {
        CallAnswer::Memory
    } else {
        CallAnswer::Other
    }
}

/// Whether one answer at most is Memory, and each other one that of ample memory.
pub fn are_right(answers: &[CallAnswer]) -> bool {
    let mut is_refused = false;
    for answer in answers {
        match *answer {
            CallAnswer::Ample => {}
            CallAnswer::Memory => {
                if is_refused {
                    return false;
                }
                is_refused = true;
            }
            CallAnswer::Other => return false,
        }
    }
    true
}
