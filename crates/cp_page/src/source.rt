//! The lines of a source, to be read.

use crate::json::Json;
use std::str;

/// Appends the lines of a source as a list: UTF-8 as it is, but a space for a tab, and a question mark for other control characters, for bytes that are
/// no UTF-8, and for marks that turn or hide text.
pub fn put_source(json: &mut Json, source: &[u8]) {
    json.open();
    for line in source.split(|byte| *byte == b'\n') {
        json.begin_text();
        put_line(json, line);
        json.end_text();
    }
    json.close();
}

fn put_line(json: &mut Json, line: &[u8]) {
    match str::from_utf8(line) {
        Ok(line) => {
            for character in line.trim_end_matches('\r').chars() {
                json.put_letter(readable_char(character));
            }
        }
        Err(_) => put_bytes(json, line),
    }
}

// Appends the bytes of a line that is no UTF-8.
fn put_bytes(json: &mut Json, line: &[u8]) {
    for byte in line {
        json.put_letter(if *byte < 128 {
            readable_char(char::from(*byte))
        } else {
            '?'
        });
    }
}

fn readable_char(character: char) -> char {
    match character {
        '\t' => ' ',
        '\u{0}'..='\u{1f}' | '\u{7f}'..='\u{9f}' => '?',
        '\u{200b}'..='\u{200f}' | '\u{2028}'..='\u{202e}' | '\u{2060}'..='\u{206f}' | '\u{feff}' =>
            '?',
        _ => character,
    }
}
