/// The kinds of plots.
#[derive(Clone, Copy, Debug, PartialEq, Eq)]
pub enum Plot {
    /// A bar for each number, from 0 to the number.
    Bars,
    /// One line through all numbers.
    Lines,
    /// A circle for each number.
    Points,
}
