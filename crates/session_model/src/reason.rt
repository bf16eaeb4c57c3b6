use rx_value::RxText;
use shiny_json::BadMessage;

/// Why a session is over.
#[derive(Debug, Drop)]
pub enum Reason {
    /// The link ended.
    Ended,
    /// The link failed.
    LinkFailed,
    /// An item of the client was refused: its number among the client's items, from 1, and the cause.
    Refused(u64, BadMessage),
    /// A flush made as many runs as the app's budget, and a reader still waited.
    BudgetSpent,
    /// An observer failed with this text.
    ObserverFailed(RxText),
    /// The journal could not take another event.
    JournalFull,
    /// There was not enough memory for an event.
    Memory,
    /// The link found no memory.
    LinkMemory,
}
