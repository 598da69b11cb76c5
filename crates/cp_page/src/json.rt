//! JSON that can stand in a page.

ghost use Rattle.std.specs.Prelude.{◌≡◌, true, IfOk, string_bytes};
ghost use Rattle.cp_page.specs.Escaping as spec;

use std::alloc::{AllocError, Global};
use std::fmt::Display;

/// A text of JSON in printable ASCII, without the characters that begin a tag, end one or name a character: in a page it ends nothing and begins
/// nothing. Where memory is refused it takes nothing more, and says so at the end.
#[derive(Drop)]
pub struct Json {
    alloc: Global,
    text: String,
    is_refused: bool,
    pub ghost inert: { spec.all_inert (string_bytes text) ≡ true },
}

/// Whether a character can stand in a page as it is.
fn is_inert(character: char) -> bool
    ensures { result ≡ spec.is_inert character }
{
    match character {
        '<' | '>' | '&' => false,
        '\n' | ' '..='~' => true,
        _ => false,
    }
}

// Appends a character, or a question mark in place of one that can't stand in a page.
fn push_inert(text: &mut String, character: char) -> Result<(), AllocError>
    requires { spec.all_inert (string_bytes text.old) ≡ true }
    ensures { spec.all_inert (string_bytes text.new) ≡ true }
{
    if is_inert(character) {
        text.push(character)
    } else {
        text.push('?')
    }
}

impl Json {
    /// An empty text.
    pub fn new(alloc: Global) -> Json {
        Json {
            alloc,
            text: String::new(alloc),
            is_refused: false,
        }
    }

    /// The text, if no memory was refused.
    pub fn text(&self) -> Result<&str, AllocError>
        ensures { IfOk result (λ text. spec.all_inert text.now ≡ true) }
    {
        if self.is_refused {
            return Err(AllocError);
        }
        Ok(self.text.as_str())
    }

    // Appends a sign of JSON.
    fn put_sign(&mut self, sign: char) {
        if !self.is_refused && push_inert(&mut self.text, sign).is_err() {
            self.is_refused = true;
        }
    }

    // Appends signs of JSON.
    fn put_signs(&mut self, signs: &str) {
        for sign in signs.chars() {
            self.put_sign(sign);
        }
    }

    // Appends signs that may have failed for want of memory.
    fn put_made_signs(&mut self, made: Result<String, AllocError>) {
        match made {
            Ok(signs) => self.put_signs(signs.as_str()),
            Err(_) => self.is_refused = true,
        }
    }

    // Whether a value stands before: no list, object or member begins here, and no number.
    fn is_behind_value(&self) -> bool {
        !matches!(
            self.text.as_str().as_bytes().last().copied(),
            None | Some(b'[' | b'{' | b':' | b'-')
        )
    }

    // A value that begins with these signs, behind a comma where one stands before.
    fn put_literal(&mut self, signs: &str) {
        if self.is_behind_value() {
            self.put_sign(',');
        }
        self.put_signs(signs);
    }

    /// Begins a list.
    pub fn open(&mut self) {
        self.put_literal("[");
    }

    /// Ends a list.
    pub fn close(&mut self) {
        self.put_sign(']');
    }

    /// Begins an object.
    pub fn begin(&mut self) {
        self.put_literal("{");
    }

    /// Ends an object.
    pub fn end(&mut self) {
        self.put_sign('}');
    }

    /// Begins a text, of which the letters come next.
    pub fn begin_text(&mut self) {
        self.put_literal("\"");
    }

    /// Ends a text.
    pub fn end_text(&mut self) {
        self.put_sign('"');
    }

    /// The name of a member, whose value comes next.
    pub fn put_name(&mut self, name: &str) {
        self.put_quoted(name);
        self.put_sign(':');
    }

    /// A value as it is displayed: a number, `true`, `false` or `null`.
    pub fn put_plain<D: Display + Drop>(&mut self, value: D) {
        self.put_literal("");
        self.put_made_signs(format!(in self.alloc; "{value}"));
    }

    /// A member of this name with a value as it is displayed.
    pub fn put_member<D: Display + Drop>(&mut self, name: &str, value: D) {
        self.put_name(name);
        self.put_plain(value);
    }

    /// -1 less a place: below all places.
    pub fn put_below(&mut self, place: usize) {
        self.put_literal("-");
        self.put_plain(place.saturating_add(1));
    }

    /// Another text, as one value.
    pub fn put_value(&mut self, value: &Json) {
        match value.text() {
            Ok(text) => self.put_literal(text),
            Err(_) => self.is_refused = true,
        }
    }

    /// A list of numbers of processes.
    pub fn put_processes(&mut self, processes: &[u8]) {
        self.open();
        for process in processes {
            self.put_plain(*process);
        }
        self.close();
    }

    /// A text in quotes.
    pub fn put_quoted(&mut self, text: &str) {
        self.begin_text();
        for letter in text.chars() {
            self.put_letter(letter);
        }
        self.end_text();
    }

    /// A letter of a text in quotes: as it is, or by its number.
    pub fn put_letter(&mut self, letter: char) {
        if letter == '"' || letter == '\\' || letter == '\n' || !is_inert(letter) {
            self.put_letter_number(u32::from(letter));
        } else {
            self.put_sign(letter);
        }
    }

    // A letter by its number, as one unit of UTF-16 or two.
    fn put_letter_number(&mut self, number: u32) {
        if number < 0x10000 {
            self.put_unit(number);
        } else {
            let above = number - 0x10000;
            self.put_unit(0xd800 + above / 0x400);
            self.put_unit(0xdc00 + above % 0x400);
        }
    }

    // A unit of UTF-16 by its four digits.
    fn put_unit(&mut self, unit: u32) {
        self.put_made_signs(format!(in self.alloc; "\\u{unit:04x}"));
    }
}
