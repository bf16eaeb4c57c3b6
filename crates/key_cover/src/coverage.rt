use app_tree::Read;

/// What the keys of a cached reader say of its body, or of a part of it.
#[derive(Clone, Copy, Debug, PartialEq, Eq)]
pub enum Coverage {
    /// Equal values of the keys give an equal outcome.
    Covered,
    /// This read is met first: it is none of the keys, and it isn't of an expression that they cover.
    Missing(Read),
    /// The `isolate` of this number among the sites of its reader is met first. What an event comes to at
    /// its event is such a site too.
    Isolated(usize),
}
