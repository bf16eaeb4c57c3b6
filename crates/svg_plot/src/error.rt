ghost use Rattle.std.specs.Prelude.{◌≡◌};
ghost use Rattle.svg_plot.specs.declared.error.PlotError.TheVariants.{Memory as memory};

use rx_value::{Failure, Memory};
use std::alloc::AllocError;

/// Why a plot has no text.
#[derive(Clone, Copy, Debug, PartialEq, Eq)]
pub enum PlotError {
    /// The plot evaluates to this failure.
    Failed(Failure),
    /// Want of memory, which says nothing of the plot.
    Memory,
}

impl From<Memory> for PlotError {
    ghost from_gives = { λ _ error. error ≡ memory };

    fn from(_: Memory) -> PlotError {
        PlotError::Memory
    }
}

impl From<AllocError> for PlotError {
    ghost from_gives = { λ _ error. error ≡ memory };

    fn from(_: AllocError) -> PlotError {
        PlotError::Memory
    }
}
