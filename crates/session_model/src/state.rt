use rx_value::{Outcome, RxList};

/// What a reader's last run reached.
#[derive(Debug, Drop)]
pub struct Dependencies {
    /// The numbers of the sources that it reached outside isolated sites.
    pub sources: RxList<u32>,
    /// Whether one of them was changed after it had been reached.
    pub changed: bool,
}

/// What a session keeps for one reader.
#[derive(Debug, Drop)]
pub struct ReaderState {
    /// What the last run reached; nothing where the reader has not run.
    pub dependencies: Option<Dependencies>,
    /// The outcomes of the last run's isolated sites, each with its site's number.
    pub isolated: RxList<(u32, Outcome)>,
    /// Whether the client shows the output. No other reader is shown.
    pub shown: bool,
    /// The outcome of an output's last run.
    pub last: Option<Outcome>,
}
