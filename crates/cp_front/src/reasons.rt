//! The reasons for which a source is refused, as they are written.
ghost use Rattle.std.specs.Prelude.{◌≡◌, IfOk, string_bytes, option_map};
ghost use Rattle.cp_front.specs.Refusals as spec;

use cp_check::{CheckFault, Rule};
use cp_text::ScanCause;
use cp_tree::ParseFault;
use std::alloc::{AllocError, Global};

/// The line that refuses a line of the source.
pub fn reason_line(alloc: Global, line: u32, reason: &str) -> Result<String, AllocError>
    ensures { IfOk result (λ text. string_bytes text ≡ spec.refusal line reason.entry.now) }
{
    format!(in alloc; "line {line} {reason}\n")
}

/// What the scanner says; `None` where it met no fault of the text, but was refused memory.
pub fn scan_reason(cause: ScanCause) -> Option<&'static str>
    ensures { option_map (λ s. s.now) result ≡ spec.scan_reason cause }
{
    match cause {
        ScanCause::TooLong => Some("scan: too long"),
        ScanCause::BadByte => Some("scan: bad byte"),
        ScanCause::OpenComment => Some("scan: open comment"),
        ScanCause::OpenChar => Some("scan: open char"),
        ScanCause::BadChar => Some("scan: bad char"),
        ScanCause::NumberTooLarge => Some("scan: number too large"),
        ScanCause::NameTooLong => Some("scan: name too long"),
        ScanCause::TooManyTokens => Some("scan: too many tokens"),
        ScanCause::Memory => None,
    }
}

/// The number of the token that the parser refuses, and what it says; `None` where memory was refused.
pub fn parse_reason(fault: &ParseFault) -> Option<(usize, &'static str)>
    ensures { option_map (λ r. (r.0, r.1.now)) result ≡ spec.parse_reason fault.now }
{
    match fault {
        ParseFault::Unexpected(at) => Some((*at, "parse: unexpected")),
        ParseFault::OutsideProfile(at) => Some((*at, "parse: outside profile")),
        ParseFault::TooDeep(at) => Some((*at, "parse: too deep")),
        ParseFault::Memory => None,
    }
}

/// The number of the token that the checker refuses, and what it says; `None` where memory was refused.
pub fn check_reason(fault: &CheckFault) -> Option<(usize, &'static str)>
    ensures { option_map (λ r. (r.0, r.1.now)) result ≡ spec.check_reason fault.now }
{
    match fault {
        CheckFault::Rule { at, rule } => Some((*at, rule_reason(*rule))),
        CheckFault::Memory => None,
    }
}

fn rule_reason(rule: Rule) -> &'static str
    ensures { result.now ≡ spec.rule_reason rule }
{
    match rule {
        Rule::C1 => "check C1",
        Rule::C2 => "check C2",
        Rule::C3 => "check C3",
        Rule::C4 => "check C4",
        Rule::C5 => "check C5",
        Rule::C6 => "check C6",
        Rule::C7 => "check C7",
        Rule::C8 => "check C8",
        Rule::C9 => "check C9",
        Rule::C10 => "check C10",
        Rule::C11 => "check C11",
        Rule::C12 => "check C12",
        Rule::C13 => "check C13",
        Rule::C14 => "check C14",
        Rule::C15 => "check C15",
        Rule::C16 => "check C16",
        Rule::C17 => "check C17",
        Rule::C18 => "check C18",
        Rule::C19 => "check C19",
        Rule::C20 => "check C20",
        Rule::C21 => "check C21",
        Rule::C22 => "check C22",
    }
}
