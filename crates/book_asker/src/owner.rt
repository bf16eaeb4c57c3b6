/// The owner of each claim that a `BookAsker` makes.
pub const OWNER: u64 = 0;
