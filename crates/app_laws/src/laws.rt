//! The laws, each as the contract of a function that does nothing.

ghost use Rattle.app_laws.specs.AppLaws.{WellFormedIsOrderly};
ghost use Rattle.app_laws.specs.AskedLaws.{EqualAnswersGiveEqual};
ghost use Rattle.app_laws.specs.KeyedExamples.{KeysCover, KeysHaveValues, BodyComesToSum, ValuesSaySum, KeyStops};
ghost use Rattle.app_laws.specs.KeyedLaws.{CoveredBodyIsKeyed, EqualKeysGiveEqual, KeysComeFirst};
ghost use Rattle.app_laws.specs.Statements.{StatementsFit};

/// Equal answers to what an evaluation asks give an equal evaluation.
#[tactic(auto, using(crate::proofs::Agreeing::equal_answers_give_equal))]
pub fn evaluation_laws()
    ensures { EqualAnswersGiveEqual }
{}

/// In each well-formed app an expression reads earlier ones alone, each source that a reader reads is one of the app's own,
/// and each isolated site of a reader has a number of its own.
#[tactic(auto, using(crate::proofs::WellOrdered::well_formed_is_orderly))]
pub fn app_laws()
    ensures { WellFormedIsOrderly }
{}

/// In each well-formed app the statements of observers set, freeze and update the app's own sources, and start its tasks with
/// as many arguments as these have parameters.
#[tactic(auto, using(crate::proofs::Statements::statements_fit))]
pub fn statement_laws()
    ensures { StatementsFit }
{}

/// A cached reader comes to the first failure of its keys, or else to what its body comes to. Where the keys cover
/// the body, that is what their values say, whatever the current values are and whatever answers the isolated sites.
#[tactic(auto, using(crate::proofs::Keyed::keys_come_first))]
pub fn cover_laws()
    ensures first { KeysComeFirst }
    ensures keyed { CoveredBodyIsKeyed }
    ensures equal { EqualKeysGiveEqual }
{}

/// A worked example: an output whose keys cover it, on current values.
pub fn keyed_examples()
    ensures cover { KeysCover }
    ensures values { KeysHaveValues }
    ensures body { BodyComesToSum }
    ensures said { ValuesSaySum }
    ensures stops { KeyStops }
{}
