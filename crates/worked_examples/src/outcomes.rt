//! Outcomes of outputs at the start, and counts.

ghost use Rattle.worked_examples.specs.OutcomeCases.{FreshOutputs, GreatNumbers, DrawnBars, DrawnLinesAndPoints, PlotsThatFail, CountedWaits, BodiesOfAnExpression, CountedItems, MessageThatIsTooLong, ItemThatIsNoText, GeneratedReplay};

/// What the outputs of an app come to at the start.
#[tactic(auto, using(crate::proofs::OutcomesComputed::fresh_outputs))]
pub fn fresh_outputs()
    ensures { FreshOutputs }
{}

/// Numbers that don't fit 64 bits, and quotients that are rounded down.
#[tactic(auto, using(crate::proofs::OutcomesComputed::great_numbers))]
pub fn great_numbers()
    ensures { GreatNumbers }
{}

/// Bars, with their title as XML text.
#[tactic(auto, using(crate::proofs::OutcomesComputed::drawn_bars))]
pub fn drawn_bars()
    ensures { DrawnBars }
{}

/// Lines, and points.
#[tactic(auto, using(crate::proofs::OutcomesComputed::drawn_lines_and_points))]
pub fn drawn_lines_and_points()
    ensures { DrawnLinesAndPoints }
{}

/// Plots of a size out of range, and of a wrong kind.
#[tactic(auto, using(crate::proofs::OutcomesComputed::plots_that_fail))]
pub fn plots_that_fail()
    ensures { PlotsThatFail }
{}

/// A histogram's least number, its width of a class, and its counts.
#[tactic(auto, using(crate::proofs::OutcomesComputed::counted_waits))]
pub fn counted_waits()
    ensures { CountedWaits }
{}

/// An expression's body is run once for two outputs that read it, and again once after a change.
#[tactic(auto, using(crate::proofs::OutcomesComputed::bodies_of_an_expression))]
pub fn bodies_of_an_expression()
    ensures { BodiesOfAnExpression }
{}

/// The items of a file.
#[tactic(auto, using(crate::proofs::OutcomesComputed::counted_items))]
pub fn counted_items()
    ensures { CountedItems }
{}

/// A message of 65,537 bytes ends its session.
#[tactic(auto, using(crate::proofs::OutcomesComputed::message_that_is_too_long))]
pub fn message_that_is_too_long()
    ensures { MessageThatIsTooLong }
{}

/// So does an item from the client that is no text.
#[tactic(auto, using(crate::proofs::OutcomesComputed::item_that_is_no_text))]
pub fn item_that_is_no_text()
    ensures { ItemThatIsNoText }
{}

/// A made app, whose observer writes what its output reads: 11 messages are answered by 97 texts, in 5,206 bytes with the last line.
#[tactic(auto, using(crate::proofs::OutcomesComputed::generated_replay))]
pub fn generated_replay()
    ensures { GeneratedReplay }
{}
