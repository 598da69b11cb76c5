//! Words that a report prints as values.

ghost use Rattle.std.specs.Prelude.{◌≡◌, ◌<◌, ◌&&◌, ◌≢◌, ◌++◌, ℕ, List, MatchOption, not, nat_lt, codes};
ghost use Rattle.std.specs.Bool.{Decides};
ghost use Rattle.std.specs.List.{list_any, list_all};
ghost use Rattle.std.specs.Str.{bytes_eq, all_ascii_digits};
ghost use Rattle.cp_expectation.specs.Values as spec;

/// How many characters a name has at most.
const MOST_LETTERS: usize = 40;

/// Words that cannot be names, as they are the language's own.
const RESERVED: [&str; 37] = [
    "and",
    "array",
    "begin",
    "case",
    "class",
    "const",
    "cycle",
    "div",
    "do",
    "downto",
    "else",
    "end",
    "entry",
    "for",
    "function",
    "if",
    "in",
    "init",
    "mod",
    "monitor",
    "not",
    "of",
    "or",
    "procedure",
    "process",
    "program",
    "record",
    "repeat",
    "set",
    "then",
    "to",
    "type",
    "univ",
    "until",
    "var",
    "while",
    "with",
];

/// Whether some report can print this word as a value: an integer, a character, a truth value or a constant.
#[tactic(auto, unfolding(crate::specs::Values::is_value))]
pub fn is_value(word: &str) -> bool
    ensures { result ≡ spec.is_value word.now }
{
    is_integer(word) || is_character(word) || is_name(word)
}

// Whether a word is a number that is written without zeros before it.
fn is_plain(word: &str) -> bool
    ensures { result ≡ spec.is_plain word.now }
{
    let bytes = word.as_bytes();
    match bytes.split_first() {
        Some((b'0', rest)) => rest.is_empty(),
        Some(_) => are_digits(bytes),
        None => false,
    }
}

fn are_digits(bytes: &[u8]) -> bool
    ensures { result ≡ all_ascii_digits bytes.now }
{
    for byte in bytes {
        if !byte.is_ascii_digit() {
            return false;
        }
    }
    true
}

fn is_nonzero(digits: &str) -> bool
    ensures { result ≡ (not (bytes_eq digits.now (codes "0")) && spec.is_plain digits.now) }
{
    digits != "0" && is_plain(digits)
}

fn is_integer(word: &str) -> bool
    ensures { result ≡ spec.is_integer word.now }
{
    let fits = word.parse::<i16>().is_ok();
    match word.strip_prefix('-') {
        Some(digits) => is_nonzero(digits) && fits,
        None => is_plain(word) && fits,
    }
}

// Whether a report prints a character of this code itself, and not its code.
fn is_shown_itself(code: u8) -> bool
    ensures { result ≡ spec.is_printable code }
{
    code >= 33 && code <= 126 && code != b'\''
}

fn is_character(word: &str) -> bool
    ensures { result ≡ spec.is_character word.now }
{
    is_quoted(word) || is_coded(word)
}

// Whether a word is a character between apostrophes.
fn is_quoted(word: &str) -> bool
    ensures { Decides result (spec.IsQuoted word.now) }
{
    match word.as_bytes() {
        [b'\'', code, b'\''] => is_shown_itself(*code),
        _ => false,
    }
}

// Whether a word is the code of a character, as a report prints it.
fn is_coded(word: &str) -> bool
    ensures { Decides result (spec.IsCoded word.now) }
{
    let Some(code) = code_in(word) else {
        return false;
    };
    match code.parse::<u8>() {
        Ok(number) => is_plain(code) && is_code(number),
        Err(_) => false,
    }
}

// Whether a report prints the character of this number by its code.
fn is_code(number: u8) -> bool
    ensures { result ≡ (nat_lt number 128 && not (spec.is_printable number)) }
{
    number < 128 && !is_shown_itself(number)
}

fn code_in(word: &str) -> Option<&str>
    ensures { MatchOption result ((code : List ℕ) → word.now ≢ codes "'(:" ++ code ++ codes ":)'") (λ code. word.now ≡ codes "'(:" ++ code.now ++ codes ":)'") }
{
    word.strip_prefix("'(:")?.strip_suffix(":)'")
}

/// Whether a word can be the name of a constant.
#[tactic(auto, unfolding(crate::specs::Values::is_name))]
pub fn is_name(word: &str) -> bool
    ensures { result ≡ spec.is_name word.now }
{
    match word.as_bytes().first() {
        Some(first) => {
            first.is_ascii_lowercase()
                && word.len() <= MOST_LETTERS
                && are_letters(word.as_bytes())
                && !is_reserved(word)
        }
        None => false,
    }
}

#[tactic(auto, unfolding(crate::specs::Values::reserved))]
fn is_reserved(word: &str) -> bool
    ensures { result ≡ list_any (λ r. bytes_eq r word.now) spec.reserved }
{
    is_one_of(word, &RESERVED)
}

fn is_one_of(word: &str, names: &[&str]) -> bool
    ensures { result ≡ list_any (λ r. bytes_eq r.now word.now) names.now }
{
    for name in names {
        if *name == word {
            return true;
        }
    }
    false
}

// Whether a name can go on with these.
fn are_letters(bytes: &[u8]) -> bool
    ensures { result ≡ list_all spec.is_letter bytes.now }
{
    for byte in bytes {
        if !is_letter(*byte) {
            return false;
        }
    }
    true
}

fn is_letter(byte: u8) -> bool
    ensures { result ≡ spec.is_letter byte }
{
    matches!(byte, b'a'..=b'z' | b'0'..=b'9' | b'_')
}
