//! The lines that are taken today.

ghost use Rattle.worked_examples.specs.TakenCases.{LinesThatAreTaken, LineOfAnUnknownInput, LineOfAnotherSession};

/// An init and an update of a declared input are taken, the last line also without a line feed.
#[tactic(auto, using(crate::proofs::TakenComputed::lines_that_are_taken))]
pub fn lines_that_are_taken()
    ensures { LinesThatAreTaken }
{}

/// A line that sets an input which the app doesn't have is refused today, and what was written before it
/// stays.
#[tactic(auto, using(crate::proofs::TakenComputed::line_of_an_unknown_input))]
pub fn line_of_an_unknown_input()
    ensures { LineOfAnUnknownInput }
{}

/// So is a line for a second session.
#[tactic(auto, using(crate::proofs::TakenComputed::line_of_another_session))]
pub fn line_of_another_session()
    ensures { LineOfAnotherSession }
{}
