//! Values, outcomes and the current values of a session's sources.
//!
//! Everything that an app computes with is a [`Value`]; what an evaluation comes to is an
//! [`Outcome`]. Both are plain data that contracts see as it stands: a text as its bytes, a list as
//! its numbers. Every call that takes memory answers [`Memory`] where it finds none.
#![tactic(auto)]

mod arithmetic;
mod calling;
mod failure;
mod function;
mod key;
mod limits;
mod list;
mod memory;
mod numbers;
mod operation;
mod operator;
mod outcome;
mod plot;
mod shown;
mod source;
mod spelling;
mod text;
mod value;
mod weight;

pub use calling::call;
pub use failure::Failure;
pub use function::Fun;
pub use key::Key;
pub use limits::{GREATEST_NUMBER, LIST_LIMIT, PLOT_SIDE_MAX, PLOT_SIDE_MIN, TEXT_LIMIT};
pub use list::{RxInts, RxList, Values};
pub use memory::Memory;
pub use operation::{binary, unary};
pub use operator::{BinOp, UnOp};
pub use outcome::Outcome;
pub use plot::Plot;
pub use shown::show;
pub use source::{SourceValue, TaskView};
pub use text::RxText;
pub use value::Value;
