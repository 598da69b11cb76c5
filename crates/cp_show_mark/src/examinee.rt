//! The program that is marked.

ghost use Rattle.std.specs.Prelude.{◌≡◌, [], map, slice_index_or, string_bytes};
ghost use Rattle.cp_show_mark.specs.MarkText as spec;

use cp_legend::Legend;
use cp_slots::Resolved;
use cp_tool::Options;

/// The program that is marked, and how this is told.
#[derive(Clone, Copy)]
pub struct Examinee<'a> {
    pub options: &'a Options,
    pub program: &'a Resolved,
    pub legend: &'a Legend,
    /// The lines of the source.
    pub lines: &'a [String],
    pub as_json: bool,
}

impl Examinee<'_> {
    /// Whether the program has a constant of this name.
    pub fn declares(&self, name: &str) -> bool
        ensures { result ≡ spec.is_declared self.now.program.now.names name.now }
    {
        for number in 0..u16::MAX {
            let constant = self.program.name(number);
            if constant.is_empty() {
                return false;
            }
            if constant == name {
                return true;
            }
        }
        false
    }

    /// The text of a line, counted from 1, without the spaces around it.
    pub fn line(&self, line: u32) -> &str
        ensures { result.now ≡ spec.line_text (map string_bytes self.now.lines.now) line }
    {
        text_at(self.lines, (line as usize).saturating_sub(1)).trim_ascii()
    }
}

fn text_at(lines: &[String], place: usize) -> &str
    ensures { result.now ≡ slice_index_or (map string_bytes lines.now) place [] }
{
    match lines.get(place) {
        Some(text) => text.as_str(),
        None => "",
    }
}
