//! Observers: what they write, and how they end a session.

ghost use Rattle.worked_examples.specs.ObserverCases.{WriteInFlush, EndlessFlush, TwoObserversSpendTheBudget, WriteBeforeRead, FailingObserver, InputMessage, FrozenInput, MarkedThroughAnExpression};

/// An observer of lower priority writes what an output has read, so the output runs again.
#[tactic(auto, using(crate::proofs::ObserverComputed::write_in_flush))]
pub fn write_in_flush()
    ensures { WriteInFlush }
{}

/// An observer that reads what it writes spends the budget.
#[tactic(auto, using(crate::proofs::ObserverComputed::endless_flush))]
pub fn endless_flush()
    ensures { EndlessFlush }
{}

/// Two observers that wake each other spend the budget.
#[tactic(auto, using(crate::proofs::ObserverComputed::two_observers_spend_the_budget))]
pub fn two_observers_spend_the_budget()
    ensures { TwoObserversSpendTheBudget }
{}

/// An observer that writes first and reads afterwards runs once.
#[tactic(auto, using(crate::proofs::ObserverComputed::write_before_read))]
pub fn write_before_read()
    ensures { WriteBeforeRead }
{}

/// An observer's failure ends the session.
#[tactic(auto, using(crate::proofs::ObserverComputed::failing_observer))]
pub fn failing_observer()
    ensures { FailingObserver }
{}

/// An observer tells the client a value for an input, which stays as it is until the client sends it.
#[tactic(auto, using(crate::proofs::ObserverComputed::input_message))]
pub fn input_message()
    ensures { InputMessage }
{}

/// A frozen input stops its readers silently until the next event.
#[tactic(auto, using(crate::proofs::ObserverComputed::frozen_input))]
pub fn frozen_input()
    ensures { FrozenInput }
{}

/// An observer that writes what an expression depends on that it has read runs again, until it writes no more.
#[tactic(auto, using(crate::proofs::ObserverComputed::marked_through_an_expression))]
pub fn marked_through_an_expression()
    ensures { MarkedThroughAnExpression }
{}
