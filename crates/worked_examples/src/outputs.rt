//! Outputs: what they show, and when they run.

ghost use Rattle.worked_examples.specs.OutputCases.{ChangedInput, EqualInput, EmptyApp, TakenBranch, SharedExpression, IsolatedRead, RequiredValues, FailuresAreKept, HiddenOutput, OutputThatRunsWhileHidden, EventThatIsNullAtFirst, CancelAfterAValue};

/// An output shows the new value of an input that it reads.
#[tactic(auto, using(crate::proofs::OutputComputed::changed_input))]
pub fn changed_input()
    ensures { ChangedInput }
{}

/// An input that is set to the value it has runs nothing and sends nothing.
#[tactic(auto, using(crate::proofs::OutputComputed::equal_input))]
pub fn equal_input()
    ensures { EqualInput }
{}

/// A session of an app without items gets the first texts and an empty values text.
#[tactic(auto, using(crate::proofs::OutputComputed::empty_app))]
pub fn empty_app()
    ensures { EmptyApp }
{}

/// What an output depends on is found anew by each run.
#[tactic(auto, using(crate::proofs::OutputComputed::taken_branch))]
pub fn taken_branch()
    ensures { TakenBranch }
{}

/// Two outputs read one expression.
#[tactic(auto, using(crate::proofs::OutputComputed::shared_expression))]
pub fn shared_expression()
    ensures { SharedExpression }
{}

/// An isolated read is no dependency, and is evaluated anew when its reader runs.
#[tactic(auto, using(crate::proofs::OutputComputed::isolated_read))]
pub fn isolated_read()
    ensures { IsolatedRead }
{}

/// Values that aren't truthy stop silently, and a cancelled output keeps what it shows.
#[tactic(auto, using(crate::proofs::OutputComputed::required_values))]
pub fn required_values()
    ensures { RequiredValues }
{}

/// An expression's failure reaches all its readers.
#[tactic(auto, using(crate::proofs::OutputComputed::failures_are_kept))]
pub fn failures_are_kept()
    ensures { FailuresAreKept }
{}

/// A hidden output runs when it is shown again, and only where it has to.
#[tactic(auto, using(crate::proofs::OutputComputed::hidden_output))]
pub fn hidden_output()
    ensures { HiddenOutput }
{}

/// An output may run while it is hidden.
#[tactic(auto, using(crate::proofs::OutputComputed::output_that_runs_while_hidden))]
pub fn output_that_runs_while_hidden()
    ensures { OutputThatRunsWhileHidden }
{}

/// A first run that stops at NULL is the one that `ignoreInit` leaves out, so the first value of the event runs the body.
#[tactic(auto, using(crate::proofs::OutputComputed::event_that_is_null_at_first))]
pub fn event_that_is_null_at_first()
    ensures { EventThatIsNullAtFirst }
{}

/// Where an output runs twice in one flush and is cancelled the second time, the client is told the value of the first run.
#[tactic(auto, using(crate::proofs::OutputComputed::cancel_after_a_value))]
pub fn cancel_after_a_value()
    ensures { CancelAfterAValue }
{}
