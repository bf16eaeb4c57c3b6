//! An app as data: its items, the terms in them, and the numbers of its sources and readers.
//!
//! A *source* is what can change from outside or by a write; a *reader* is what reads sources. Both
//! are numbered from 0. What a term comes to on given answers, and what a reader comes to when it is
//! evaluated afresh on a session's current values, are definitions of this crate, since everything
//! above speaks of them.
//!
//! An [`App`] is checked and has numbers; a [`Draft`] is what an app file says, with names and places.
#![tactic(auto)]

mod app;
mod cache_name;
mod draft;
mod draft_item;
mod draft_term;
mod examples;
mod item;
mod limits;
mod numbering;
mod refusal;
mod sorts;
mod source_numbers;
mod statement;
mod term;

pub use app::App;
pub use cache_name::CacheName;
pub use draft::Draft;
pub use draft_item::{
    DraftAction, DraftBlock, DraftBody, DraftForm, DraftItem, DraftItems, DraftOutput,
    DraftStatement, DraftWrite, DraftWrites,
};
pub use draft_term::{DraftTerm, DraftTerms, Name, Names, ReadForm};
pub use examples::{cover_examples, fits_examples, term_examples, wanted_examples};
pub use item::{Flags, Item, Items, Output, Sort};
pub use limits::{
    BUDGET_DEFAULT, BUDGET_LIMIT, FOLD_LIMIT, ITEM_LIMIT, LEVEL_LIMIT, OPERATOR_LIMIT,
};
pub use refusal::{Fault, Refusal};
pub use sorts::Sorts;
pub use source_numbers::SourceNumbers;
pub use statement::{Block, Statement};
pub use term::{Function, Operator, Read, Term, Terms};
