//! Texts that break into lines at a word, and that are cut.

use crate::labels::{PictureLabel, points};
use crate::rows::GAP;
use cp_prose::Prose;
use std::alloc::{AllocError, Global};
use std::mem;

/// The size of the letters of a label in more than one line.
const LETTERS: f64 = 10.5;

/// How much room a line has, and how wide each of its characters is.
#[derive(Clone, Copy)]
pub struct LineRoom {
    alloc: Global,
    room: f64,
    each: f64,
}

impl LineRoom {
    pub fn new(alloc: Global, room: f64, each: f64) -> LineRoom {
        LineRoom { alloc, room, each }
    }

    fn has_room_for(self, words: &str) -> bool {
        points(words.chars().count()) * self.each <= self.room
    }

    /// The words, or as many characters as there is room for with a mark that some are missing.
    pub fn cut(self, words: &str) -> Result<String, AllocError> {
        if self.has_room_for(words) {
            return String::from_str(self.alloc, words);
        }
        let mut text = Prose::new(self.alloc);
        let mut used = self.each;
        for character in words.chars() {
            used += self.each;
            if used > self.room {
                break;
            }
            text.put_char(character);
        }
        text.put("…");
        text.finish()
    }

    /// The words in lines for which there is room. A word that is wider has a line of its own.
    pub fn wrap(self, words: &str) -> Result<Vec<String>, AllocError> {
        self.break_at(words, ' ')
    }

    /// The same for what is joined by another separator, which stays at the ends of lines.
    pub fn break_at(self, text: &str, separator: char) -> Result<Vec<String>, AllocError> {
        let mut lines = Vec::new(self.alloc);
        let mut line = String::new(self.alloc);
        let mut used = 0.0;
        let mut is_first = true;
        for word in text.split(separator) {
            let width = points(word.chars().count()) * self.each;
            if !is_first {
                line.push(separator)?;
                used += self.each;
            }
            if !is_first && used + width > self.room {
                lines.push(mem::replace(&mut line, String::new(self.alloc)))?;
                used = 0.0;
            }
            is_first = false;
            line.push_str(word)?;
            used += width;
        }
        lines.push(line)?;
        Ok(lines)
    }

    /// The words in so many lines at most, of which the last is cut at a word, with a mark, where some are missing.
    pub fn wrap_in_lines(
        self,
        words: &str,
        most: usize,
        mark: &str,
    ) -> Result<Vec<String>, AllocError> {
        self.first_lines(self.wrap(words), most, mark)
    }

    // So many of some lines at most, the last with a mark where some are missing.
    fn first_lines(
        self,
        lines: Result<Vec<String>, AllocError>,
        most: usize,
        mark: &str,
    ) -> Result<Vec<String>, AllocError> {
        let mut lines = lines?;
        if lines.len() > most {
            lines.truncate(most);
            if let Some(last) = lines.last_mut() {
                *last = self.marked_line(last.as_str(), mark)?;
            }
        }
        Ok(lines)
    }

    // As many words of a line as there is room for beside the mark that some are missing.
    fn marked_line(self, line: &str, mark: &str) -> Result<String, AllocError> {
        let room = self.room - points(mark.chars().count()) * self.each;
        let parts = LineRoom::new(self.alloc, room, self.each).wrap(line.trim())?;
        let mut text = Prose::new(self.alloc);
        text.put(first_words(&parts));
        text.put(mark);
        text.finish()
    }

    // The words in two lines at most, where nothing has to be cut for that, here or in the room of the free lanes beside.
    fn whole_lines(self, words: &str, beside: LineRoom) -> Result<Option<Vec<String>>, AllocError> {
        let narrow = self.wrap(words)?;
        if self.are_within(&narrow) {
            return Ok(Some(narrow));
        }
        beside.lines_within(beside.wrap(words))
    }

    // The words in as many lines as they take; a word for which there is no room in one goes on in the next.
    fn wrap_all(self, words: &str) -> Result<Vec<String>, AllocError> {
        let mut lines = Vec::new(self.alloc);
        for line in &self.wrap(words)? {
            self.push_pieces(&mut lines, line.as_str().trim())?;
        }
        Ok(lines)
    }

    // Appends a text in pieces for which there is room.
    fn push_pieces(self, lines: &mut Vec<String>, text: &str) -> Result<(), AllocError> {
        let mut piece = String::new(self.alloc);
        let mut used = 0.0;
        for character in text.chars() {
            if !piece.is_empty() && used + self.each > self.room {
                lines.push(mem::replace(&mut piece, String::new(self.alloc)))?;
                used = 0.0;
            }
            piece.push(character)?;
            used += self.each;
        }
        lines.push(piece)?;
        Ok(())
    }

    // Lines without what is blank at their ends, if these are two at most, each with room.
    fn lines_within(
        self,
        lines: Result<Vec<String>, AllocError>,
    ) -> Result<Option<Vec<String>>, AllocError> {
        let mut lines = lines?;
        for line in &mut lines {
            *line = String::from_str(self.alloc, line.as_str().trim())?;
        }
        if self.are_within(&lines) {
            return Ok(Some(lines));
        }
        Ok(None)
    }

    // The words in two lines at most, each of which is cut where it has no room; one word alone breaks at its bracket.
    fn lines_cut(self, words: &str) -> Result<Vec<String>, AllocError> {
        let separator = if words.contains(' ') { ' ' } else { '(' };
        let mut lines = self.first_lines(self.break_at(words, separator), 2, "…")?;
        for line in &mut lines {
            *line = self.cut(line.as_str().trim())?;
        }
        Ok(lines)
    }

    // Whether there are two lines at most, each with room.
    fn are_within(self, lines: &[String]) -> bool {
        for line in lines {
            if !self.has_room_for(line.as_str().trim()) {
                return false;
            }
        }
        lines.len() <= 2
    }
}

// The first of some lines that is not empty.
fn first_words(lines: &[String]) -> &str {
    for line in lines {
        let words = line.as_str().trim();
        if !words.is_empty() {
            return words;
        }
    }
    ""
}

/// The lines of a label, two at most, in the room of its lane, or of the free lanes beside it where that is not enough. The label's whole words come
/// first, then its brief ones, which break at a bracket or a hyphen at last, or are cut.
pub fn label_lines(
    alloc: Global,
    label: &PictureLabel,
    room: f64,
    beside: f64,
) -> Result<Vec<String>, AllocError> {
    let each = LETTERS * label.factor();
    let lane = LineRoom::new(alloc, room, each);
    let beside = LineRoom::new(alloc, beside, each);
    let words = label.words.as_str();
    if let Some(lines) = lane.whole_lines(words, beside)? {
        return Ok(lines);
    }
    let words = match &label.brief {
        Some(brief) => brief.as_str(),
        None => words,
    };
    if let Some(lines) = lane.whole_lines(words, beside)? {
        return Ok(lines);
    }
    for separator in ['(', '-'] {
        if let Some(lines) = beside.lines_within(beside.break_at(words, separator))? {
            return Ok(lines);
        }
    }
    beside.lines_cut(words)
}

/// The lines of a label that is never cut: two at most, in the room of its lane or of the free lanes beside it, or else as many as it takes in these lanes.
pub fn whole_label_lines(
    alloc: Global,
    label: &PictureLabel,
    room: f64,
    beside: f64,
) -> Result<Vec<String>, AllocError> {
    let each = LETTERS * label.factor();
    let lane = LineRoom::new(alloc, room, each);
    let words = label.words.as_str();
    match lane.whole_lines(words, LineRoom::new(alloc, beside, each))? {
        Some(lines) => Ok(lines),
        None => LineRoom::new(alloc, beside - GAP, each).wrap_all(words),
    }
}
