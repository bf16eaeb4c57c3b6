use rx_value::{Outcome, RxList};

/// What is kept for one reader beside its context: whether it has run, and of its last run the outcomes of its isolated
/// sites, in the order in which they were left, and the outcome.
#[derive(Debug, Drop)]
pub struct Kept {
    pub ran: bool,
    pub isolated: RxList<(usize, Outcome)>,
    pub outcome: Outcome,
}
