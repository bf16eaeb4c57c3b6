//! Worked examples, each of which the check finds by computing.

ghost use Rattle.fresh_eval.specs.FirstOutcomesExamples.{SharedExpression, EventsAndSites, PlotOfNumber, KeyThatStops};

/// Does nothing: it is there for its contract. What outputs come to at the first run of everything.
pub fn first_outcome_examples()
    ensures shared { SharedExpression }
    ensures sites { EventsAndSites }
    ensures plot { PlotOfNumber }
    ensures key { KeyThatStops }
{}
