//! Where no reader is cached, what a session does is determined; and how many bodies it runs in a worked example.

ghost use Rattle.session_steps.specs.Determined.{RunsAreDetermined, TwoOutputsRunThree};

/// Of two sessions that are alike, in an app without keys, each does the same: the same bodies are run, and what is kept is
/// alike afterwards.
pub fn determined_laws()
    ensures { RunsAreDetermined }
{}

/// Two outputs over one expression run three bodies at first, and three again after a write of what the expression reads: the
/// expression's is run once for both.
pub fn bodies_examples()
    ensures { TwoOutputsRunThree }
{}
