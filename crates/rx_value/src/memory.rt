use std::alloc::AllocError;

/// Want of memory: the one answer that may come from any call that takes memory, whatever its
/// arguments. No contract says when it comes.
#[derive(Clone, Copy, Debug, PartialEq, Eq)]
pub struct Memory;

impl From<AllocError> for Memory {
    fn from(_: AllocError) -> Memory {
        Memory
    }
}
