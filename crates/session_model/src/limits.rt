//! The limits of transcripts and journals.

/// The most bytes of a line of a transcript, without its line feed.
pub const LINE_LIMIT: usize = 70_000;

/// The most bytes of a transcript, with its line feeds.
pub const TRANSCRIPT_LIMIT: usize = 67_108_864;

/// The most bytes of a session's name in a transcript.
pub const LABEL_LIMIT: usize = 32;

/// The most names of sessions in a transcript: the first message of another name opens no session.
pub const SESSION_LIMIT: usize = 64;

/// The most events of a journal.
pub const EVENT_LIMIT: usize = 250_000;

/// The most bytes of the client's texts in a journal, but for those of the last text.
pub const JOURNAL_TEXT_LIMIT: usize = 16_777_216;

/// The most lines of a transcript that `replay` takes today.
pub const TAKEN_LINE_LIMIT: u64 = 200;
