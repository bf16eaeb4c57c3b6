//! Cached readers, in one session and in two.

ghost use Rattle.worked_examples.specs.CachedCases.{SharedKey, SharedFailure, SecondKeyThatFails};

/// A cached expression gives each session what its keys give.
#[tactic(auto, using(crate::proofs::CachedComputed::shared_key))]
pub fn shared_key()
    ensures { SharedKey }
{}

/// A failure of a cached body is an outcome like others.
#[tactic(auto, using(crate::proofs::CachedComputed::shared_failure))]
pub fn shared_failure()
    ensures { SharedFailure }
{}

/// Where the first key has a value and the second fails, that failure is the outcome, whatever the body gives.
#[tactic(auto, using(crate::proofs::CachedComputed::second_key_that_fails))]
pub fn second_key_that_fails()
    ensures { SecondKeyThatFails }
{}
