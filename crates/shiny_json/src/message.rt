use rx_value::{RxList, RxText, Value};

/// A name with a value: what a client message sets, or an input message of the server.
#[derive(Debug, Drop)]
pub struct Pair {
    pub name: RxText,
    pub value: Value,
}

/// What a client message sets, in the order in which it is applied.
pub type ClientData = RxList<Pair>;

/// A client message that was read.
#[derive(Debug, Drop)]
pub enum Client {
    Init(ClientData),
    Update(ClientData),
    Refused(BadMessage),
}

/// Why a client message is refused. Each of these ends its session.
#[derive(Clone, Copy, Debug, PartialEq, Eq)]
pub enum BadMessage {
    /// More than 65,536 bytes.
    TooLong,
    /// No JSON text, or one that nests deeper than 127 levels.
    NotJson,
    /// JSON, but no object.
    NotObject,
    /// An object without a `method` that is a text.
    NoMethod,
    /// A method that is neither `init` nor `update`.
    BadMethod,
    /// A message without a `data` that is an object.
    NoData,
    /// An update before the accepted init.
    EarlyUpdate,
    /// An init after the accepted one.
    SecondInit,
    /// An item that is no text.
    Other,
}
