//! Plots of a list of numbers as SVG texts.
//!
//! A text has elements of SVG 1.1 alone: `svg`, `text`, `rect`, `polyline` and `circle`. It holds
//! no space or line end between them, and at most 65,536 bytes.
#![tactic(auto)]

mod error;
mod frame;
mod marks;
mod picture;
mod title;

ghost use Rattle.std.specs.Prelude.{◌≡◌, IfOk};
ghost use Rattle.rx_value.specs.Plot.{svg_text, plot_result};
ghost use Rattle.rx_value.specs.Results.{GivesOrMemory};
ghost use Rattle.svg_plot.specs.inner.Answers.{refusal};

use error::PlotError;
use picture::sized;
use rx_value::{Failure, Memory, Outcome, Plot, RxText, Value};
use std::alloc::Global;

/// The text, where the kinds are right: two numbers, a text, and what can stand for a list.
fn svg_text(
    alloc: Global,
    plot: Plot,
    width: &Value,
    height: &Value,
    title: &Value,
    list: &Value,
) -> Result<RxText, PlotError>
    ensures { GivesOrMemory (λ text. text) refusal result (svg_text plot width.now height.now title.now list.now) }
{
    let Some(numbers) = list.numbers() else {
        return Err(PlotError::Failed(Failure::WrongKind));
    };
    match (width, height, title) {
        (Value::Int(width), Value::Int(height), Value::Text(title)) => {
            sized(alloc, plot, *width, *height, title.as_str(), numbers)
        }
        _ => Err(PlotError::Failed(Failure::WrongKind)),
    }
}

fn plotted(
    alloc: Global,
    plot: Plot,
    width: &Value,
    height: &Value,
    title: &Value,
    list: &Value,
) -> Result<Outcome, Memory>
    ensures { IfOk result (λ outcome. outcome ≡ plot_result plot width.now height.now title.now list.now) }
{
    match svg_text(alloc, plot, width, height, title, list) {
        Ok(text) => Ok(Outcome::Val(Value::Text(text))),
        Err(PlotError::Failed(failure)) => failure.outcome(alloc),
        Err(PlotError::Memory) => Err(Memory),
    }
}

/// A bar for each number of `list`, from 0 to the number, with `title` above. The sides are in
/// pixels. The outcome is the SVG text, or a failure: a wrong kind of value, a side that is not from
/// 64 to 4,096, or a text that would be too long, in this order.
pub fn bars(
    alloc: Global,
    width: &Value,
    height: &Value,
    title: &Value,
    list: &Value,
) -> Result<Outcome, Memory>
    ensures { IfOk result (λ outcome. outcome ≡ plot_result Plot.Bars width.now height.now title.now list.now) }
{
    plotted(alloc, Plot::Bars, width, height, title, list)
}

/// One line through the numbers of `list`; else as [`bars`].
pub fn lines(
    alloc: Global,
    width: &Value,
    height: &Value,
    title: &Value,
    list: &Value,
) -> Result<Outcome, Memory>
    ensures { IfOk result (λ outcome. outcome ≡ plot_result Plot.Lines width.now height.now title.now list.now) }
{
    plotted(alloc, Plot::Lines, width, height, title, list)
}

/// A circle for each number of `list`; else as [`bars`].
pub fn points(
    alloc: Global,
    width: &Value,
    height: &Value,
    title: &Value,
    list: &Value,
) -> Result<Outcome, Memory>
    ensures { IfOk result (λ outcome. outcome ≡ plot_result Plot.Points width.now height.now title.now list.now) }
{
    plotted(alloc, Plot::Points, width, height, title, list)
}
