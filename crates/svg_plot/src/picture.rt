//! The whole text.

ghost use Rattle.std.specs.Prelude.{◌≡◌, ◌≤◌, IfOk, MatchOption, None, Some, string_bytes};
ghost use Rattle.rx_value.specs.Plot.{opening, plot_text, limited_text, side_of, text_of_numbers};
ghost use Rattle.rx_value.specs.Results.{GivesOrMemory};
ghost use Rattle.svg_plot.specs.inner.Answers.{refusal};

use crate::error::PlotError;
use crate::frame::Frame;
use crate::marks::put_marks;
use crate::title::{put, put_heading};
use rx_value::{Failure, Memory, PLOT_SIDE_MAX, PLOT_SIDE_MIN, Plot, RxText};
use std::alloc::{AllocError, Global};

#[tactic(auto, unfolding(rx_value::specs::Plot::opening))]
fn opening(alloc: Global, width: u32, height: u32) -> Result<String, AllocError>
    ensures { IfOk result (λ text. string_bytes text ≡ opening width height) }
{
    format!(in alloc;
        "<svg xmlns=\"http://www.w3.org/2000/svg\" width=\"{width}\" height=\"{height}\">"
    )
}

/// The text as it begins.
fn opening_text(alloc: Global, width: u32, height: u32) -> Result<RxText, Memory>
    ensures { IfOk result (λ text. text ≡ opening width height) }
{
    let tag = opening(alloc, width, height)?;
    RxText::from_str(alloc, tag.as_str())
}

fn plot_text(
    alloc: Global,
    plot: Plot,
    width: u32,
    height: u32,
    title: &str,
    numbers: &[i64],
) -> Result<RxText, PlotError>
    requires least_width { PLOT_SIDE_MIN ≤ width }
    requires greatest_width { width ≤ PLOT_SIDE_MAX }
    requires least_height { PLOT_SIDE_MIN ≤ height }
    requires greatest_height { height ≤ PLOT_SIDE_MAX }
    ensures { GivesOrMemory (λ text. text) refusal result
        (limited_text (plot_text plot width height title.now numbers.now)) }
{
    let frame = Frame::new(width, height, numbers);
    let mut text = opening_text(alloc, width, height)?;
    put_heading(title, &mut text)?;
    put_marks(alloc, plot, &frame, numbers, &mut text)?;
    put(&mut text, "</svg>")?;
    Ok(text)
}

/// A side in pixels.
fn side(number: i64) -> Option<u32>
    ensures { MatchOption result (side_of number ≡ None)
        (λ side. (side_of number ≡ Some side) × (PLOT_SIDE_MIN ≤ side) × (side ≤ PLOT_SIDE_MAX)) }
{
    if (i64::from(PLOT_SIDE_MIN)..=i64::from(PLOT_SIDE_MAX)).contains(&number) {
        Some(number as u32)
    } else {
        None
    }
}

/// The text of a plot, where its sides are right.
pub fn sized(
    alloc: Global,
    plot: Plot,
    width: i64,
    height: i64,
    title: &str,
    numbers: &[i64],
) -> Result<RxText, PlotError>
    ensures { GivesOrMemory (λ text. text) refusal result
        (text_of_numbers plot width height title.now (Some numbers.now)) }
{
    match (side(width), side(height)) {
        (Some(width), Some(height)) => plot_text(alloc, plot, width, height, title, numbers),
        _ => Err(PlotError::Failed(Failure::PlotSizeOutOfRange)),
    }
}
