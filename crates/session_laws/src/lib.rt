//! What is expected of a session, and what follows from the definitions of `session_model`: that what a session keeps is
//! right, what a run is and what it leaves, and how the sessions of a transcript stand apart.
//!
//! No definition stands on this crate: a law that changes here changes nothing of what a session is.
#![tactic(auto)]

mod laws;
mod taken;

pub use laws::{
    change_laws, flush_laws, freshness_laws, full_journal_laws, journal_laws, run_laws,
    runs_part_in_a_wrong_state, standing_laws, state_laws, step_laws, transcript_laws, visit_laws,
    visit_runs_what_is_asked,
};
pub use taken::taken_is_whole;
