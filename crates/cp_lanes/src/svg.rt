//! Elements of SVG.

ghost use Rattle.cp_lanes.specs.Escaping as spec;
ghost use Rattle.cp_prose.specs.Telling.{UnlessRefused, appended};

use crate::labels::points;
use cp_prose::Prose;
use std::alloc::{AllocError, Global};

/// The elements so far. That memory was refused for one of them is told at the end.
#[derive(Drop)]
pub struct Svg {
    alloc: Global,
    text: Prose,
}

/// A rectangle with round corners.
#[derive(Clone, Copy)]
pub struct Block<'a> {
    pub left: f64,
    pub top: f64,
    pub width: f64,
    pub height: f64,
    pub radius: f64,
    pub fill: &'a str,
    pub stroke: &'a str,
    pub stroke_width: f64,
}

/// How a text is written.
#[derive(Clone, Copy)]
pub struct Style<'a> {
    pub size: f64,
    pub fill: &'a str,
    /// The attributes beside these.
    pub more: &'a str,
}

/// The attributes of bold type, of a text in the middle of a point, of both, and of a text that ends at a point.
pub const BOLD_TYPE: &str = "font-weight=\"bold\"";

pub const MIDDLE: &str = "text-anchor=\"middle\"";

pub const BOLD_MIDDLE: &str = "text-anchor=\"middle\" font-weight=\"bold\"";

pub const AT_END: &str = "text-anchor=\"end\"";

/// The height of a line of a label.
pub const LABEL_LINE: f64 = 11.0;

// Printed, a picture is as large as the page; one within a page of HTML is as large as that says.
const PRINTED: &str = "<style>@media print{svg:root{width:100%;height:100%}}</style>\n";

impl<'a> Block<'a> {
    /// A rectangle without an edge, whose corners are not round.
    pub fn plain(left: f64, top: f64, width: f64, height: f64, fill: &'a str) -> Block<'a> {
        Block {
            left,
            top,
            width,
            height,
            radius: 0.0,
            fill,
            stroke: "",
            stroke_width: 0.0,
        }
    }
}

impl<'a> Style<'a> {
    pub fn new(size: f64, fill: &'a str, more: &'a str) -> Style<'a> {
        Style { size, fill, more }
    }
}

/// Appends a character of a text, so that it stands for itself between tags and in attributes.
fn put_escaped_char(text: &mut Prose, character: char)
    ensures { UnlessRefused text.new (appended text.old (spec.escaped_char character)) }
{
    match character {
        '&' => text.put("&amp;"),
        '<' => text.put("&lt;"),
        '>' => text.put("&gt;"),
        '"' => text.put("&quot;"),
        _ => text.put_char(character),
    }
}

impl Svg {
    /// Begins a picture of a width and a height, with some more above it, this much larger.
    pub fn new(alloc: Global, width: f64, above: f64, height: f64, scale: f64) -> Svg {
        let whole = height + above;
        let mut svg = Svg {
            alloc,
            text: Prose::new(alloc),
        };
        svg.raw("<svg xmlns=\"http://www.w3.org/2000/svg\" version=\"1.1\" width=\"");
        svg.whole_number(width * scale);
        svg.raw("\" height=\"");
        svg.whole_number(whole * scale);
        svg.raw("\" viewBox=\"0 ");
        svg.whole_number(0.0 - above);
        svg.raw(" ");
        svg.whole_number(width);
        svg.raw(" ");
        svg.whole_number(whole);
        svg.raw("\" font-family=\"DejaVu Sans, Helvetica, Arial, sans-serif\"");
        svg.raw(" font-size=\"12\" fill=\"#1f2933\">\n");
        svg.raw(PRINTED);
        svg
    }

    // Appends a whole number.
    fn whole_number(&mut self, value: f64) {
        let alloc = self.alloc;
        self.text.put_made(format!(in alloc; "{value:.0}"));
    }

    // Appends a number.
    fn measure(&mut self, value: f64) {
        let alloc = self.alloc;
        self.text.put_made(format!(in alloc; "{value:.1}"));
    }

    // Appends an attribute that is a number.
    fn attribute(&mut self, name: &str, value: f64) {
        self.raw(" ");
        self.raw(name);
        self.raw("=\"");
        self.measure(value);
        self.raw("\"");
    }

    // Appends an attribute that is a word.
    fn word(&mut self, name: &str, value: &str) {
        self.raw(" ");
        self.raw(name);
        self.raw("=\"");
        self.raw(value);
        self.raw("\"");
    }

    /// The whole picture. `AllocError` if memory was refused for some part of it.
    pub fn finish(self) -> Result<String, AllocError> {
        let mut svg = self;
        svg.raw("</svg>\n");
        svg.text.finish()
    }

    /// Memory was refused for what was to be drawn.
    pub fn refuse(&mut self) {
        self.text.refuse();
    }

    /// Appends a text that may have failed for want of memory.
    pub fn escape_made(&mut self, made: Result<String, AllocError>) {
        match made {
            Ok(text) => self.escape(text.as_str()),
            Err(_) => self.refuse(),
        }
    }

    /// Appends the digits of a number.
    pub fn digits(&mut self, number: u32) {
        self.text.put_display(number);
    }

    /// Begins a group whose title is written piece by piece.
    pub fn begin_title(&mut self) {
        self.raw("<g><title>");
    }

    /// Ends the title of such a group.
    pub fn end_title(&mut self) {
        self.raw("</title>\n");
    }

    /// A text, whose baseline begins at a point, which may have failed for want of memory.
    pub fn words_made(
        &mut self,
        x: f64,
        y: f64,
        style: Style<'_>,
        made: Result<String, AllocError>,
    ) {
        match made {
            Ok(words) => self.words(x, y, style, words.as_str()),
            Err(_) => self.refuse(),
        }
    }

    /// Texts below each other about a point, which may have failed for want of memory.
    pub fn lines_made(
        &mut self,
        x: f64,
        y: f64,
        style: Style<'_>,
        made: Result<Vec<String>, AllocError>,
    ) {
        match made {
            Ok(lines) => self.lines(x, y, style, &lines),
            Err(_) => self.refuse(),
        }
    }

    fn lines(&mut self, x: f64, y: f64, style: Style<'_>, lines: &[String]) {
        let above = points(lines.len().saturating_sub(1)) * LABEL_LINE / 2.0;
        let mut at = if lines.len() > 1 {
            y + 3.0 - above
        } else {
            y + 4.0
        };
        for line in lines {
            self.words(x, at, style, line.as_str());
            at += LABEL_LINE;
        }
    }

    /// Appends what is SVG already.
    pub fn raw(&mut self, text: &str) {
        self.text.put(text);
    }

    /// Appends a text of the program or of its source.
    pub fn escape(&mut self, text: &str) {
        for character in text.chars() {
            put_escaped_char(&mut self.text, character);
        }
    }

    /// Begins a pattern of a monitor, on a ground.
    pub fn begin_pattern(&mut self, name: &str, number: u8, more: &str, ground: &str) {
        self.raw("<pattern id=\"");
        self.raw(name);
        self.digits(u32::from(number));
        self.raw("\" width=\"7\" height=\"7\" patternUnits=\"userSpaceOnUse\"");
        self.raw(more);
        self.raw("><rect width=\"7\" height=\"7\"");
        self.word("fill", ground);
        self.raw("/>");
    }

    /// A stripe of a pattern, by its width and its height.
    pub fn stripe(&mut self, size: (&str, &str), fill: &str, opacity: &str) {
        self.raw("<rect");
        self.word("width", size.0);
        self.word("height", size.1);
        self.word("fill", fill);
        self.word("opacity", opacity);
        self.raw("/>");
    }

    /// A dot of a pattern.
    pub fn dot(&mut self, fill: &str) {
        self.raw("<circle cx=\"2\" cy=\"2\" r=\"1.3\"");
        self.word("fill", fill);
        self.raw("/>");
    }

    /// Ends a pattern.
    pub fn end_pattern(&mut self) {
        self.raw("</pattern>\n");
    }

    /// Begins a group with a title.
    pub fn open(&mut self, title: &str) {
        self.begin_title();
        self.escape(title);
        self.end_title();
    }

    /// Ends a group.
    pub fn close(&mut self) {
        self.raw("</g>\n");
    }

    pub fn block(&mut self, block: Block<'_>) {
        self.raw("<rect");
        self.attribute("x", block.left);
        self.attribute("y", block.top);
        self.attribute("width", block.width);
        self.attribute("height", block.height);
        self.attribute("rx", block.radius);
        self.word("fill", block.fill);
        if !block.stroke.is_empty() {
            self.word("stroke", block.stroke);
            self.attribute("stroke-width", block.stroke_width);
        }
        self.raw("/>\n");
    }

    /// A line, with attributes of its own.
    pub fn line(&mut self, from: (f64, f64), to: (f64, f64), stroke: &str, more: &str) {
        self.raw("<line");
        self.attribute("x1", from.0);
        self.attribute("y1", from.1);
        self.attribute("x2", to.0);
        self.attribute("y2", to.1);
        self.word("stroke", stroke);
        self.end_element(more);
    }

    // Ends an element with attributes of its own.
    fn end_element(&mut self, more: &str) {
        self.raw(" ");
        self.raw(more);
        self.raw("/>\n");
    }

    /// A line that goes up and down from a point to the right.
    pub fn zigzag(&mut self, from: (f64, f64), right: f64, stroke: &str) {
        let (left, y) = from;
        let mut x = left;
        self.raw("<path d=\"");
        self.point("M", x, y);
        for step in 0..1000u32 {
            if x < right {
                x += 8.0;
                self.point(" L", x, if step % 2 == 0 { y - 5.0 } else { y + 5.0 });
            }
        }
        self.raw("\" fill=\"none\"");
        self.word("stroke", stroke);
        self.raw("/>\n");
    }

    // A point of a path.
    fn point(&mut self, before: &str, x: f64, y: f64) {
        self.raw(before);
        self.measure(x);
        self.raw(",");
        self.measure(y);
    }

    pub fn circle(&mut self, x: f64, y: f64, radius: f64, fill: &str, more: &str) {
        self.raw("<circle");
        self.attribute("cx", x);
        self.attribute("cy", y);
        self.attribute("r", radius);
        self.word("fill", fill);
        self.end_element(more);
    }

    /// A text, whose baseline begins at a point.
    pub fn words(&mut self, x: f64, y: f64, style: Style<'_>, words: &str) {
        self.begin_text(x, y, style);
        self.escape(words);
        self.raw("</text>\n");
    }

    /// A number in the middle of a point.
    pub fn number(&mut self, x: f64, y: f64, style: Style<'_>, number: u32) {
        self.begin_text(x, y, style);
        self.digits(number);
        self.raw("</text>\n");
    }

    fn begin_text(&mut self, x: f64, y: f64, style: Style<'_>) {
        self.raw("<text");
        self.attribute("x", x);
        self.attribute("y", y);
        self.attribute("font-size", style.size);
        self.word("fill", style.fill);
        self.raw(" ");
        self.raw(style.more);
        self.raw(">");
    }
}
