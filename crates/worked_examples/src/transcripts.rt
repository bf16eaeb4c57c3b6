//! Transcripts: their lines, and what ends a replay.

ghost use Rattle.worked_examples.specs.LineCases.{EmptyTranscript, ClosedSession, MessageAfterTheEnd, LineWithoutAForm, EndOfAnUnknownTask};

/// An empty transcript writes nothing.
#[tactic(auto, using(crate::proofs::LineComputed::empty_transcript))]
pub fn empty_transcript()
    ensures { EmptyTranscript }
{}

/// A session's link may end before the input does.
#[tactic(auto, using(crate::proofs::LineComputed::closed_session))]
pub fn closed_session()
    ensures { ClosedSession }
{}

/// A message for a session that is over ends the replay.
#[tactic(auto, using(crate::proofs::LineComputed::message_after_the_end))]
pub fn message_after_the_end()
    ensures { MessageAfterTheEnd }
{}

/// A line without a form ends the replay, and what was written before it stays.
#[tactic(auto, using(crate::proofs::LineComputed::line_without_a_form))]
pub fn line_without_a_form()
    ensures { LineWithoutAForm }
{}

/// A line that names a task which the app doesn't have has no form.
#[tactic(auto, using(crate::proofs::LineComputed::end_of_an_unknown_task))]
pub fn end_of_an_unknown_task()
    ensures { EndOfAnUnknownTask }
{}
