//! Worked examples, each of which the check finds by computing.

ghost use Rattle.read_text.specs.SpellingExamples.{OfInput, OfExpression, OfWidth, OfNothing};

/// Does nothing: it is there for its contract. Texts of reads.
pub fn spelling_examples()
    ensures input { OfInput }
    ensures expression { OfExpression }
    ensures width { OfWidth }
    ensures nothing { OfNothing }
{}
