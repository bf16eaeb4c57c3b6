//! What a session is: its state, its runs and flushes, and all that it sends.
//!
//! This crate holds definitions. They say what a session does with no graph, no edge, no kept
//! outcome of an expression and no cache: every value is evaluated afresh on the current values, and
//! what depends on what is a flat list of source numbers. Everything above is proved to do the same.
//! `docs/definitions.md` leads through them; what follows from them stands in `session_laws`.
#![tactic(auto)]

mod event;
mod examples;
mod limits;
mod reason;
mod state;

pub use event::Event;
pub use examples::{
    counts_missing_readers, faithful_examples, standing_examples, step_examples,
    unfaithful_examples,
};
pub use limits::{
    EVENT_LIMIT, JOURNAL_TEXT_LIMIT, LABEL_LIMIT, LINE_LIMIT, SESSION_LIMIT, TAKEN_LINE_LIMIT,
    TRANSCRIPT_LIMIT,
};
pub use reason::Reason;
pub use state::{Dependencies, ReaderState};
