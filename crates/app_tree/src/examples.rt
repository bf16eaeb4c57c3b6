//! Worked examples of the definitions, which the check finds by computing.

ghost use Rattle.app_tree.specs.CoverExamples.{BothBranches, ByExpression, ThroughExpression, BehindExpression, IsolatedInBody, KeyInBrackets, OutcomeByKeys, ValuesOfKeys, FirstFailure};
ghost use Rattle.app_tree.specs.WantedExamples.{WantsTheFirst, AsksUpToIt, StopsThere, WantsNothing, ComesToItsValue};
ghost use Rattle.app_tree.specs.TermsExample.{CountsTerms, CountsOneAtLeast};
ghost use Rattle.app_tree.specs.FitsExamples.{FoldFits, ReservedVariable, DigitFirst, NoLetter, ParameterFits, ReservedParameter, AnyItemName, AccentFits, HalfAnAccent};

/// Does nothing: it is there for its contract. What the keys of a cached reader cover, what a covered body
/// comes to by the values of its keys, and what keys come to.
pub fn cover_examples()
    ensures both_branches { BothBranches }
    ensures by_expression { ByExpression }
    ensures through_expression { ThroughExpression }
    ensures behind_expression { BehindExpression }
    ensures isolated { IsolatedInBody }
    ensures in_brackets { KeyInBrackets }
    ensures outcome { OutcomeByKeys }
    ensures values { ValuesOfKeys }
    ensures failure { FirstFailure }
{}

/// Does nothing: it is there for its contract. Where an evaluation stops whose reads are not all known.
pub fn wanted_examples()
    ensures first { WantsTheFirst }
    ensures asked { AsksUpToIt }
    ensures stops { StopsThere }
    ensures nothing { WantsNothing }
    ensures value { ComesToItsValue }
{}

/// Does nothing: it is there for its contract. How many terms the observers of an app have.
pub fn term_examples()
    ensures most { CountsTerms }
    ensures least { CountsOneAtLeast }
{}

/// Does nothing: it is there for its contract. A parameter and a variable are named by a word that isn't
/// reserved, an item by any bytes here; and a text is UTF-8.
#[tactic(auto, using(crate::proofs::FitsWorked::fold_fits, crate::proofs::FitsWorked::reserved_variable, crate::proofs::FitsWorked::digit_first, crate::proofs::FitsWorked::no_letter, crate::proofs::FitsWorked::parameter_fits, crate::proofs::FitsWorked::reserved_parameter, crate::proofs::FitsWorked::any_item_name, crate::proofs::FitsWorked::accent_fits, crate::proofs::FitsWorked::half_an_accent))]
pub fn fits_examples()
    ensures fold { FoldFits }
    ensures reserved_variable { ReservedVariable }
    ensures digit_first { DigitFirst }
    ensures no_letter { NoLetter }
    ensures parameter { ParameterFits }
    ensures reserved_parameter { ReservedParameter }
    ensures item_name { AnyItemName }
    ensures accent { AccentFits }
    ensures half_an_accent { HalfAnAccent }
{}
