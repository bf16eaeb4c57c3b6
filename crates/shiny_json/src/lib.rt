//! The texts of Shiny's client protocol: client messages read, server messages written.
//!
//! A server message is the compact JSON text that `serde_json` writes for a value, keys in byte
//! order. A client message is the value that `serde_json` reads. Both are after Shiny's protocol,
//! in this project's profile (`docs/protocol.md`).
#![tactic(auto)]

mod batch;
mod client;
mod laws;
mod limits;
mod message;
mod server;
mod values;

pub use batch::{Batch, BatchOutput, BatchOutputs, Messages};
pub use client::{client_of, read_client};
pub use laws::values_laws;
pub use limits::MESSAGE_LIMIT;
pub use message::{BadMessage, Client, ClientData, Pair};
pub use server::{write_busy, write_config, write_progress, write_recalc};
pub use values::write_values;
