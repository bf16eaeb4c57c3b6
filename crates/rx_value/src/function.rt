ghost use Rattle.std.specs.Prelude.{◌≡◌};
ghost use Rattle.rx_value.specs.Functions.{argument_count};

/// The functions whose arguments are all evaluated, and which give a value for nothing but them.
#[derive(Clone, Copy, Debug, PartialEq, Eq)]
pub enum Fun {
    /// `c(..)`: the numbers of all arguments, one list behind the other.
    C,
    /// `paste0(..)`: what is shown for all arguments, one text behind the other.
    Paste0,
    /// `length(a)`: how many numbers there are; 1 for what is no list, 0 for NULL.
    Length,
    /// `nchar(a)`: the number of a text's characters.
    Nchar,
    /// `item(a, i)`: the number at place i of a list, counted from 1.
    Item,
    /// `sum(a)`
    Sum,
    /// `min(a)`
    Min,
    /// `max(a)`
    Max,
    /// `seq(a, b)`: the numbers from a to b, none where a is above b.
    Seq,
    /// `is_null(a)`
    IsNull,
    /// `as_int(a)`: the number that a text spells in decimal; NULL where it spells none.
    AsInt,
}

impl Fun {
    /// How many arguments the function takes; None where it takes any number.
    pub fn argument_count(self) -> Option<usize>
        ensures { result ≡ argument_count self }
    {
        match self {
            Fun::C | Fun::Paste0 => None,
            Fun::Item | Fun::Seq => Some(2),
            Fun::Length | Fun::Nchar | Fun::Sum | Fun::Min | Fun::Max | Fun::IsNull | Fun::AsInt =>
                Some(1),
        }
    }
}
