//! Plots, sent as images.

ghost use Rattle.worked_examples.specs.PlotCases.{Histogram, PlotOfAText};

/// A plot of counts, drawn at the size that the client tells.
#[tactic(auto, using(crate::proofs::PlotComputed::histogram))]
pub fn histogram()
    ensures { Histogram }
{}

/// A plot shows a text as an image.
#[tactic(auto, using(crate::proofs::PlotComputed::plot_of_a_text))]
pub fn plot_of_a_text()
    ensures { PlotOfAText }
{}
