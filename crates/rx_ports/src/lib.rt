//! The outside as traits: named files, a source of bytes, a sink for bytes and a session's link, and
//! forms of them that live in memory; and the gate that a worker passes before each piece of work.
//!
//! What an object tells of its contents (the files that it has, the bytes that are left, the bytes
//! that it holds, the items that are left of a link's script) is `Some` in memory and `None` for the
//! real things, and each clause on contents speaks of objects that tell them. Whether an object tells
//! them never changes. What a link received and sent is always told. Every object counts its faults.
//! The count never falls, and a call answers `Failed` only where it rose in that call.
#![tactic(auto)]

mod bytes;
mod fault_plan;
mod files;
mod gate;
mod link;
mod mem_files;
mod mem_sink;
mod mem_source;
mod sink;
mod source;
mod tape_link;

pub use bytes::RxBytes;
pub use files::{FileRead, Files, NamedFile};
pub use gate::{Gate, Kind, NoGate};
pub use link::{Link, LinkItem, Recv, Sent};
pub use mem_files::MemFiles;
pub use mem_sink::MemSink;
pub use mem_source::MemSource;
pub use sink::{Put, Sink};
pub use source::{Source, Take};
pub use tape_link::TapeLink;
