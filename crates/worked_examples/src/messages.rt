//! Client messages: how their values are read, and which are refused.

ghost use Rattle.worked_examples.specs.MessageCases.{InputTypes, MessageThatIsNotJson, MessageThatIsNoObject, UpdateBeforeTheInit, SecondInit, TwoNamesOfOneInput};

/// The type of an input's name is left out, and a number with a fraction counts as nothing.
#[tactic(auto, using(crate::proofs::MessageComputed::input_types))]
pub fn input_types()
    ensures { InputTypes }
{}

/// A message that isn't JSON ends its session.
#[tactic(auto, using(crate::proofs::MessageComputed::message_that_is_not_json))]
pub fn message_that_is_not_json()
    ensures { MessageThatIsNotJson }
{}

/// So does one that is no object.
#[tactic(auto, using(crate::proofs::MessageComputed::message_that_is_no_object))]
pub fn message_that_is_no_object()
    ensures { MessageThatIsNoObject }
{}

/// So does an update before the init.
#[tactic(auto, using(crate::proofs::MessageComputed::update_before_the_init))]
pub fn update_before_the_init()
    ensures { UpdateBeforeTheInit }
{}

/// And an init after the init.
#[tactic(auto, using(crate::proofs::MessageComputed::second_init))]
pub fn second_init()
    ensures { SecondInit }
{}

/// Two names in one message that set one input are two changes, in the order of the names: its readers run though it ends as it was.
#[tactic(auto, using(crate::proofs::MessageComputed::two_names_of_one_input))]
pub fn two_names_of_one_input()
    ensures { TwoNamesOfOneInput }
{}
