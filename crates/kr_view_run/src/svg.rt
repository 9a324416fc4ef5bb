//! A writer of SVG. Lengths are pixels.

use kr_view_scenes::{Html, Mark, Part};
use std::alloc::AllocError;

/// A place in a drawing.
#[derive(Clone, Copy, PartialEq, Eq)]
pub struct Point {
    pub x: u64,
    pub y: u64,
}

/// The place at these lengths from the left and from the top.
pub fn at(x: u64, y: u64) -> Point {
    Point { x, y }
}

/// Opens a drawing of this size, with what it shows in words for those who don't see it.
pub fn open(out: &mut Html, wide: u64, high: u64, label: &str) -> Result<(), AllocError> {
    out.put(&[
        Part::Mark(Mark::Drawing),
        Part::Number(wide),
        Part::Text(" "),
        Part::Number(high),
        Part::Mark(Mark::DrawingWidth),
        Part::Number(wide),
        Part::Mark(Mark::DrawingLabel),
        Part::Text(label),
        Part::Mark(Mark::EndLabel),
    ])
}

/// Closes a drawing.
pub fn close(out: &mut Html) -> Result<(), AllocError> {
    out.mark(Mark::EndDrawing)
}

/// A text of a class, with these words.
pub fn text(out: &mut Html, class: &str, at: Point, words: &str) -> Result<(), AllocError> {
    out.put(&[
        Part::Mark(Mark::Words),
        Part::Text(class),
        Part::Mark(Mark::X),
        Part::Number(at.x),
        Part::Mark(Mark::Y),
        Part::Number(at.y),
        Part::Mark(Mark::EndTag),
    ])?;
    out.text(words)?;
    out.mark(Mark::EndWords)
}

/// A box of a class.
pub fn rect(
    out: &mut Html,
    class: &str,
    at: Point,
    wide: u64,
    high: u64,
) -> Result<(), AllocError> {
    out.put(&[
        Part::Mark(Mark::Rect),
        Part::Text(class),
        Part::Mark(Mark::X),
        Part::Number(at.x),
        Part::Mark(Mark::Y),
        Part::Number(at.y),
        Part::Mark(Mark::Width),
        Part::Number(wide),
        Part::Mark(Mark::Height),
        Part::Number(high),
        Part::Mark(Mark::EndRect),
    ])
}

/// A line of a class.
pub fn line(out: &mut Html, class: &str, from: Point, to: Point) -> Result<(), AllocError> {
    out.put(&[
        Part::Mark(Mark::Line),
        Part::Text(class),
        Part::Mark(Mark::X1),
        Part::Number(from.x),
        Part::Mark(Mark::Y1),
        Part::Number(from.y),
        Part::Mark(Mark::X2),
        Part::Number(to.x),
        Part::Mark(Mark::Y2),
        Part::Number(to.y),
        Part::Mark(Mark::EndShape),
    ])
}

/// A circle of a class.
pub fn circle(out: &mut Html, class: &str, at: Point, radius: u64) -> Result<(), AllocError> {
    out.put(&[
        Part::Mark(Mark::Circle),
        Part::Text(class),
        Part::Mark(Mark::CenterX),
        Part::Number(at.x),
        Part::Mark(Mark::CenterY),
        Part::Number(at.y),
        Part::Mark(Mark::Radius),
        Part::Number(radius),
        Part::Mark(Mark::EndShape),
    ])
}
