//! The first declarations of names, looked up by maps.

ghost use Rattle.std.specs.Prelude.{◌≡◌, ℕ, List, IfOk, OnOk};
ghost use Rattle.std.specs.Option.{option_or};
ghost use Rattle.app_check.specs.inner.ByName.{by_name, SetsName};
ghost use Rattle.app_check.specs.inner.Indexed.{first_of, declaration_of, declaration_at, HasFirst, IsIndex};

use crate::table::{Declaration, Entry};
use app_tree::Sorts;
use rx_value::Memory;
use std::alloc::Global;
use std::collections::BTreeMap;

/// The first declaration of each name among those of some sorts.
pub type First<'a> = BTreeMap<&'a str, Declaration>;

/// The first declaration of each name, for each of the sorts among which names are sought.
#[derive(Drop)]
pub struct Index<'a> {
    pub inputs: First<'a>,
    pub values: First<'a>,
    pub tasks: First<'a>,
    pub named: First<'a>,
    pub outputs: First<'a>,
    pub readers: First<'a>,
    pub any: First<'a>,
}

fn put<'a>(first: &mut First<'a>, item: usize, entry: &Entry<'a>) -> Result<(), Memory>
    ensures { OnOk result
        (SetsName first.old first.new entry.now.name.now (declaration_of item entry.now)) }
{
    let declaration = Declaration {
        item,
        sort: entry.sort,
        parameters: entry.parameters,
    };
    match first.insert(entry.name.as_str(), declaration) {
        Ok(_) => Ok(()),
        Err(_) => Err(Memory),
    }
}

/// Keeps what the entry at this place declares, if it is sought and the first of its name.
#[tactic(auto, using(crate::proofs::Keyed::by_name_of_other_sort, crate::proofs::Keyed::by_name_of_known_name, crate::proofs::Keyed::by_name_of_new_name))]
fn note<'a>(
    first: &mut First<'a>,
    sought: Sorts,
    item: usize,
    entry: &Entry<'a>,
) -> Result<(), Memory>
    ensures { OnOk result ((name : List ℕ) → by_name first.new name
        ≡ option_or (by_name first.old name) (declaration_at sought item entry.now name)) }
{
    if !sought.contain(entry.sort) {
        return Ok(());
    }
    if first.contains_key(entry.name.as_str()) {
        return Ok(());
    }
    put(first, item, entry)
}

/// The first declaration of each name among those of these sorts.
fn first_among<'a>(alloc: Global, entries: &[Entry<'a>], sought: Sorts) -> Result<First<'a>, Memory>
    ensures { IfOk result (λ first. HasFirst first sought entries.now) }
{
    let mut first = BTreeMap::new(alloc);
    for (item, entry) in entries.iter().enumerate() {
        note(&mut first, sought, item, entry)?;
    }
    Ok(first)
}

impl<'a> Index<'a> {
    /// The first declarations of these entries.
    pub fn new(alloc: Global, entries: &[Entry<'a>]) -> Result<Index<'a>, Memory>
        ensures { IfOk result (λ index. IsIndex index entries.now) }
    {
        Ok(Index {
            inputs: first_among(alloc, entries, Sorts::Inputs)?,
            values: first_among(alloc, entries, Sorts::Values)?,
            tasks: first_among(alloc, entries, Sorts::Tasks)?,
            named: first_among(alloc, entries, Sorts::Named)?,
            outputs: first_among(alloc, entries, Sorts::Outputs)?,
            readers: first_among(alloc, entries, Sorts::Readers)?,
            any: first_among(alloc, entries, Sorts::Any)?,
        })
    }

    /// Those among these sorts.
    pub fn of(&self, sought: Sorts) -> &First<'a>
        ensures { result.now ≡ first_of self.now sought }
    {
        match sought {
            Sorts::Inputs => &self.inputs,
            Sorts::Values => &self.values,
            Sorts::Tasks => &self.tasks,
            Sorts::Named => &self.named,
            Sorts::Outputs => &self.outputs,
            Sorts::Readers => &self.readers,
            Sorts::Any => &self.any,
        }
    }
}
