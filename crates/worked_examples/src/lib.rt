//! Worked examples: app files and transcripts, and what the definitions say that their replay writes.
//!
//! Each function does nothing: it is there for its contract, which the check computes from the bytes of
//! the app file and of the transcript to those of the output. So the definitions give these outputs,
//! whatever the code does.
#![tactic(auto)]

mod cached;
mod messages;
mod observers;
mod outcomes;
mod outputs;
mod plots;
mod taken;
mod tasks;
mod transcripts;

pub use cached::{second_key_that_fails, shared_failure, shared_key};
pub use messages::{
    input_types, message_that_is_no_object, message_that_is_not_json, second_init,
    two_names_of_one_input, update_before_the_init,
};
pub use observers::{
    endless_flush, failing_observer, frozen_input, input_message, marked_through_an_expression,
    two_observers_spend_the_budget, write_before_read, write_in_flush,
};
pub use outcomes::{
    bodies_of_an_expression, counted_items, counted_waits, drawn_bars, drawn_lines_and_points,
    fresh_outputs, generated_replay, great_numbers, item_that_is_no_text, message_that_is_too_long,
    plots_that_fail,
};
pub use outputs::{
    cancel_after_a_value, changed_input, empty_app, equal_input, event_that_is_null_at_first,
    failures_are_kept, hidden_output, isolated_read, output_that_runs_while_hidden,
    required_values, shared_expression, taken_branch,
};
pub use plots::{histogram, plot_of_a_text};
pub use taken::{line_of_an_unknown_input, line_of_another_session, lines_that_are_taken};
pub use tasks::{
    end_of_a_task_that_does_not_run, full_task_queue, queued_invocation, task_queue_that_holds_all,
};
pub use transcripts::{
    closed_session, empty_transcript, end_of_an_unknown_task, line_without_a_form,
    message_after_the_end,
};
