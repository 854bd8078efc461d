//! Elements of an SVG picture.

use crate::escape::add_escaped;
use words::Words;

/// A point: so far to the right, and so far down.
#[derive(Clone, Copy)]
pub(crate) struct Point {
    pub(crate) x: u32,
    pub(crate) y: u32,
}

/// The point there.
pub(crate) fn at(x: u32, y: u32) -> Point {
    Point { x, y }
}

/// Begins an element of a class.
fn begin(words: &mut Words, element: &str, class: &str) {
    words.add(element);
    words.add(" class=\"");
    words.add(class);
    words.add("\"")
}

/// Adds an attribute that is a number.
pub(crate) fn add_attribute(words: &mut Words, name: &str, value: u32) {
    words.add(name);
    words.add("=\"");
    words.add_number(u64::from(value));
    words.add("\"")
}

/// Adds a point, by its numbers.
fn add_point(words: &mut Words, point: Point) {
    words.add_number(u64::from(point.x));
    words.add(" ");
    words.add_number(u64::from(point.y))
}

/// Begins a path of a class at a point.
fn begin_path(words: &mut Words, class: &str, start: Point) {
    begin(words, "<path", class);
    words.add(" d=\"M");
    add_point(words, start)
}

/// Adds a rectangle, by its corner at the top on the left, its width and its height.
pub(crate) fn add_rectangle(
    words: &mut Words,
    class: &str,
    corner: Point,
    width: u32,
    height: u32,
) {
    begin(words, "<rect", class);
    add_attribute(words, " x", corner.x);
    add_attribute(words, " y", corner.y);
    add_attribute(words, " width", width);
    add_attribute(words, " height", height);
    words.add("/>\n")
}

/// Adds a straight line.
pub(crate) fn add_line(words: &mut Words, class: &str, from: Point, to: Point) {
    begin_path(words, class, from);
    words.add("L");
    add_point(words, to);
    words.add("\"/>\n")
}

/// Adds a shape, by its path from a point on.
pub(crate) fn add_shape(words: &mut Words, class: &str, middle: Point, path: &str) {
    begin_path(words, class, middle);
    words.add(path);
    words.add("\"/>\n")
}

/// Adds a circle.
pub(crate) fn add_circle(words: &mut Words, class: &str, middle: Point, radius: u32) {
    begin(words, "<circle", class);
    add_attribute(words, " cx", middle.x);
    add_attribute(words, " cy", middle.y);
    add_attribute(words, " r", radius);
    words.add("/>\n")
}

/// Opens words that begin at a point, or end there where their class says so.
pub(crate) fn open_text(words: &mut Words, class: &str, start: Point) {
    begin(words, "<text", class);
    add_attribute(words, " x", start.x);
    add_attribute(words, " y", start.y);
    words.add(">")
}

/// Adds the rest of words that are open, and closes them.
pub(crate) fn close_text(words: &mut Words, text: &[u8]) {
    let done = add_escaped(&mut words.text, text);
    words.note(done);
    words.add("</text>\n")
}

/// Adds words that begin at a point, or end there where their class says so.
pub(crate) fn add_text(words: &mut Words, class: &str, start: Point, text: &[u8]) {
    open_text(words, class, start);
    close_text(words, text)
}

/// Adds words that go upwards from a point.
pub(crate) fn add_upward(words: &mut Words, class: &str, start: Point, text: &[u8]) {
    begin(words, "<text", class);
    words.add(" transform=\"translate(");
    add_point(words, start);
    words.add(") rotate(-90)\">");
    close_text(words, text)
}
