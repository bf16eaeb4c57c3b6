//! The marks of each kind of plot.

ghost use Rattle.std.specs.Prelude.{◌≡◌, ◌+◌, ◌∷◌, ◌++◌, ◌<◌, length, codes, string_bytes, IfOk};
ghost use Rattle.rx_value.specs.Plot.{rect, bar, bars_from, pair, point, spaced_from, polyline, circle, circles_from, x_of, y_of, marks};
ghost use Rattle.svg_plot.specs.inner.Answers.{Writes};
ghost use Rattle.svg_plot.specs.inner.Seen.{seen_frame};

use crate::error::PlotError;
use crate::frame::Frame;
use crate::title::put;
use rx_value::{Plot, RxText};
use std::alloc::{AllocError, Global};

#[tactic(auto, unfolding(rx_value::specs::Plot::rect))]
fn rect(alloc: Global, x: u32, y: u32, width: u32, height: u32) -> Result<String, AllocError>
    ensures { IfOk result (λ text. string_bytes text ≡ rect x y width height) }
{
    format!(in alloc; "<rect x=\"{x}\" y=\"{y}\" width=\"{width}\" height=\"{height}\"/>")
}

/// The bar at `place`, which stands between its number and 0.
fn bar(alloc: Global, frame: &Frame, place: usize, number: i64) -> Result<String, AllocError>
    requires { place < frame.now.count }
    ensures { IfOk result (λ text. string_bytes text ≡ bar (seen_frame frame.now) place number) }
{
    let left = frame.edge(place);
    let right = frame.edge(place + 1);
    let end = frame.y(number);
    let zero = frame.y(0);
    rect(alloc, left, end.min(zero), right - left, end.abs_diff(zero))
}

fn put_bar(
    alloc: Global,
    frame: &Frame,
    place: usize,
    number: i64,
    text: &mut RxText,
) -> Result<(), PlotError>
    requires { place < frame.now.count }
    ensures { Writes text.old (bar (seen_frame frame.now) place number) text.new result }
{
    let bar = bar(alloc, frame, place, number)?;
    put(text, bar.as_str())
}

fn put_bars(
    alloc: Global,
    frame: &Frame,
    numbers: &[i64],
    text: &mut RxText,
) -> Result<(), PlotError>
    requires { frame.now.count ≡ length numbers.now }
    ensures { Writes text.old (bars_from (seen_frame frame.now) 0 numbers.now) text.new result }
{
    for (place, number) in numbers.iter().enumerate() {
        put_bar(alloc, frame, place, *number, text)?;
    }
    Ok(())
}

#[tactic(auto, unfolding(rx_value::specs::Plot::pair))]
fn pair(alloc: Global, x: u32, y: u32) -> Result<String, AllocError>
    ensures { IfOk result (λ text. string_bytes text ≡ pair x y) }
{
    format!(in alloc; "{x},{y}")
}

fn put_point(
    alloc: Global,
    frame: &Frame,
    place: usize,
    number: i64,
    text: &mut RxText,
) -> Result<(), PlotError>
    requires { place < frame.now.count }
    ensures { Writes text.old (point (seen_frame frame.now) place number) text.new result }
{
    let pair = pair(alloc, frame.x(place), frame.y(number))?;
    put(text, pair.as_str())
}

fn put_spaced(
    alloc: Global,
    frame: &Frame,
    place: usize,
    number: i64,
    text: &mut RxText,
) -> Result<(), PlotError>
    requires { place < frame.now.count }
    ensures { Writes text.old (codes " " ++ point (seen_frame frame.now) place number) text.new result }
{
    text.push_str(" ")?;
    put_point(alloc, frame, place, number, text)
}

/// The points behind the first, each with a space before it.
fn put_later(
    alloc: Global,
    frame: &Frame,
    later: &[i64],
    text: &mut RxText,
) -> Result<(), PlotError>
    requires { frame.now.count ≡ length later.now + 1 }
    ensures { Writes text.old (spaced_from (seen_frame frame.now) 1 later.now) text.new result }
{
    for (behind, number) in later.iter().enumerate() {
        put_spaced(alloc, frame, behind + 1, *number, text)?;
    }
    Ok(())
}

/// One line through all points.
fn put_line(
    alloc: Global,
    frame: &Frame,
    first: i64,
    later: &[i64],
    text: &mut RxText,
) -> Result<(), PlotError>
    requires { frame.now.count ≡ length later.now + 1 }
    ensures { Writes text.old (polyline (seen_frame frame.now) (first ∷ later.now)) text.new result }
{
    put(text, "<polyline points=\"")?;
    put_point(alloc, frame, 0, first, text)?;
    put_later(alloc, frame, later, text)?;
    put(text, "\" fill=\"none\" stroke=\"black\"/>")
}

fn put_polyline(
    alloc: Global,
    frame: &Frame,
    numbers: &[i64],
    text: &mut RxText,
) -> Result<(), PlotError>
    requires { frame.now.count ≡ length numbers.now }
    ensures { Writes text.old (polyline (seen_frame frame.now) numbers.now) text.new result }
{
    match numbers {
        [] => Ok(()),
        [first, later @ ..] => put_line(alloc, frame, *first, later, text),
    }
}

#[tactic(auto, unfolding(rx_value::specs::Plot::circle))]
fn circle(alloc: Global, x: u32, y: u32) -> Result<String, AllocError>
    ensures { IfOk result (λ text. string_bytes text ≡ circle x y) }
{
    format!(in alloc; "<circle cx=\"{x}\" cy=\"{y}\" r=\"3\"/>")
}

fn put_circle(
    alloc: Global,
    frame: &Frame,
    place: usize,
    number: i64,
    text: &mut RxText,
) -> Result<(), PlotError>
    requires { place < frame.now.count }
    ensures { Writes text.old
        (circle (x_of (seen_frame frame.now) place) (y_of (seen_frame frame.now) number)) text.new result }
{
    let circle = circle(alloc, frame.x(place), frame.y(number))?;
    put(text, circle.as_str())
}

fn put_circles(
    alloc: Global,
    frame: &Frame,
    numbers: &[i64],
    text: &mut RxText,
) -> Result<(), PlotError>
    requires { frame.now.count ≡ length numbers.now }
    ensures { Writes text.old (circles_from (seen_frame frame.now) 0 numbers.now) text.new result }
{
    for (place, number) in numbers.iter().enumerate() {
        put_circle(alloc, frame, place, *number, text)?;
    }
    Ok(())
}

/// Puts the marks of a plot at the end of a text.
pub fn put_marks(
    alloc: Global,
    plot: Plot,
    frame: &Frame,
    numbers: &[i64],
    text: &mut RxText,
) -> Result<(), PlotError>
    requires { frame.now.count ≡ length numbers.now }
    ensures { Writes text.old (marks plot (seen_frame frame.now) numbers.now) text.new result }
{
    match plot {
        Plot::Bars => put_bars(alloc, frame, numbers, text),
        Plot::Lines => put_polyline(alloc, frame, numbers, text),
        Plot::Points => put_circles(alloc, frame, numbers, text),
    }
}
