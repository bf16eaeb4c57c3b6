use crate::message::Pair;
use rx_value::{Outcome, RxList, RxText};

/// What one run of an output came to.
#[derive(Debug, Drop)]
pub struct BatchOutput {
    pub name: RxText,
    /// Whether the output is a plot, whose text is sent as an image.
    pub plot: bool,
    pub outcome: Outcome,
}

/// The output runs of a flush, in their order.
pub type BatchOutputs = RxList<BatchOutput>;

/// The input messages of a flush, in their order: the input's name and the value that it is told.
pub type Messages = RxList<Pair>;

/// What one values text tells the client.
#[derive(Debug, Drop)]
pub struct Batch {
    pub outputs: BatchOutputs,
    pub messages: Messages,
}
