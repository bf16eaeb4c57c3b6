/// How many bytes a client message may have.
pub const MESSAGE_LIMIT: usize = 65_536;
