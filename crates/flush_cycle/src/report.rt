use rx_value::RxList;
use shiny_json::Batch;

/// Reader numbers.
pub type Numbers = RxList<u32>;

/// What a flush has made so far.
#[derive(Debug, Drop)]
pub struct Made {
    /// The readers that ran, in order and with repeats.
    pub runs: Numbers,
    /// What these runs came to, as the values text tells it.
    pub batch: Batch,
}

/// What the last event did.
#[derive(Debug, Drop)]
pub struct Report {
    /// Whether it was the session's init.
    pub init: bool,
    /// The observers and outputs that the flush ran, in order and with repeats.
    pub runs: Numbers,
    /// The outputs that ran and whose last outcome is that a task runs, in rising order.
    pub pending: Numbers,
    /// What these runs came to, as the values text tells it.
    pub batch: Batch,
}
