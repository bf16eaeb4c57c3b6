//! The tokens of an app file.
//!
//! [`tokens`] cuts the bytes of a file into words, numbers, texts and symbols, each with its place
//! in the file. Between them stand blanks and comments alone. It refuses a file at the first byte,
//! from the left, that no token can have there.
#![tactic(auto)]

mod error;
mod list;
mod piece;
mod scan;
mod symbol;
mod text;
mod token;
mod word;

pub use error::TokenError;
pub use list::TokenList;
pub use scan::tokens;
pub use symbol::Symbol;
pub use token::{Kind, Number, Spelling, Token};
pub use word::Word;
