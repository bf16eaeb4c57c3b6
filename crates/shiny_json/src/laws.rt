//! What is expected of the values text. The function does nothing: it is there for its contract.

ghost use Rattle.shiny_json.specs.Told.{TellTheLast};

/// Of several runs of one output a values text holds what the last that tells something tells, as its value or as its
/// error, and of each other name nothing.
pub fn values_laws()
    ensures { TellTheLast }
{}
