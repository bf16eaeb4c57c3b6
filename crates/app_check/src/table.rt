//! What the items of a file declare.

ghost use Rattle.std.specs.Prelude.{◌≡◌, ◌<◌, ◌≤◌, IfOk, IfSome, length, map, take};
ghost use Rattle.app_tree.specs.Declarations.{declaration, declarations, count_of, number_at, sort_of_form, parameter_count};
ghost use Rattle.app_tree.specs.DraftView.{written_form, written_item};
ghost use Rattle.app_tree.specs.Faults.{is_named_among, declared_name};
ghost use Rattle.app_tree.specs.Sorts.{sorts_of};
ghost use Rattle.app_check.specs.inner.Tables.{declared_of, without_name, is_declared_before};

use crate::index::Index;
use app_tree::{DraftForm, DraftItem, ITEM_LIMIT, Sort, Sorts};
use rx_value::{Memory, RxText};
use std::alloc::Global;
use std::marker::Model;

/// A declaration that is found, without its name.
#[derive(Clone, Copy, Debug, PartialEq, Eq)]
pub struct Declaration {
    /// The item's place among the items, from 0.
    pub item: usize,
    pub sort: Sort,
    /// How many parameters a task has; 0 for all else.
    pub parameters: usize,
}

/// What one item declares.
#[derive(Drop)]
pub struct Entry<'a> {
    pub name: &'a RxText,
    pub sort: Sort,
    pub parameters: usize,
}

/// What the items of a file declare, in the order of the text. Names are looked up by maps.
#[derive(Drop)]
pub struct Table<'a> {
    entries: Vec<Entry<'a>>,
    index: Index<'a>,
}

impl<'a> Model for Table<'a> {
    ghost use Rattle.std.specs.Prelude.{List, map};
    ghost use Rattle.std.specs.Coded.{codes};
    ghost use Rattle.app_tree.specs.Declarations.{Declared};

    ghost Value = { List Declared };

    ghost coded = { Prim.hlevel (codes) };

    ghost use Rattle.app_check.specs.inner.Tables.{declared_of};

    ghost view = { λ t. map declared_of t.entries.items };

    ghost use Rattle.app_check.specs.inner.Indexed.{IsIndex};

    ghost invariant = { λ t. IsIndex t.index t.entries.items };
}

/// What the items of an app declare. They are so few that each has its number.
#[derive(Drop)]
pub struct NumberedTable<'a> {
    table: Table<'a>,
}

impl<'a> Model for NumberedTable<'a> {
    ghost use Rattle.std.specs.Prelude.{◌≤◌, List, length};
    ghost use Rattle.std.specs.Coded.{codes};
    ghost use Rattle.app_tree.specs.Declarations.{Declared};
    ghost use Rattle.app_tree.specs.declared.limits.TheConstants.{ITEM_LIMIT};

    ghost Value = { List Declared };

    ghost coded = { Prim.hlevel (codes) };

    ghost view = { λ t. t.table };

    ghost invariant = { λ t. length t.table ≤ ITEM_LIMIT };
}

/// How many of the entries are of these sorts.
fn count(entries: &[Entry<'_>], sorts: Sorts) -> usize
    ensures value { result ≡ count_of (sorts_of sorts) (map declared_of entries.now) }
    ensures most { result ≤ length entries.now }
{
    let mut found = 0;
    for entry in entries {
        if sorts.contain(entry.sort) {
            found += 1;
        }
    }
    found
}

/// Whether a declaration was found, at an earlier place than this one.
fn is_before(found: Option<Declaration>, place: usize) -> bool
    ensures { result ≡ is_declared_before place found }
{
    match found {
        Some(found) => found.item < place,
        None => false,
    }
}

/// The sort of what an item of this form declares.
pub fn sort_of(form: &DraftForm) -> Sort
    ensures { result ≡ sort_of_form (written_form form.now) }
{
    match form {
        DraftForm::Input(_) => Sort::Input,
        DraftForm::Value(_) => Sort::Value,
        DraftForm::Task { .. } => Sort::Task,
        DraftForm::Reactive { .. } => Sort::Expression,
        DraftForm::Event { .. } => Sort::Expression,
        DraftForm::Text(_) => Sort::Output,
        DraftForm::Plot(_) => Sort::Output,
        DraftForm::Observe { .. } => Sort::Observer,
        DraftForm::On { .. } => Sort::Observer,
    }
}

fn parameter_count(form: &DraftForm) -> usize
    ensures { result ≡ parameter_count (written_form form.now) }
{
    match form {
        DraftForm::Task { parameters, .. } => parameters.len(),
        _ => 0,
    }
}

/// What these items declare, one after the other.
fn entries_of<'a>(alloc: Global, items: &'a [DraftItem]) -> Result<Vec<Entry<'a>>, Memory>
    ensures { IfOk result
        (λ entries. map declared_of entries.items ≡ declarations (map written_item items.now)) }
{
    let mut entries = Vec::new(alloc);
    for item in items {
        let entry = Entry {
            name: &item.name.text,
            sort: sort_of(&item.form),
            parameters: parameter_count(&item.form),
        };
        if entries.push(entry).is_err() {
            return Err(Memory);
        }
    }
    Ok(entries)
}

impl<'a> Table<'a> {
    /// What these items declare.
    pub fn new(alloc: Global, items: &'a [DraftItem]) -> Result<Table<'a>, Memory>
        ensures { IfOk result (λ t. t ≡ declarations (map written_item items.now)) }
    {
        let entries = entries_of(alloc, items)?;
        let index = Index::new(alloc, entries.as_slice())?;
        Ok(Table { entries, index })
    }
}

impl Table<'_> {
    /// The first declaration of this name among those of the sorts that are sought.
    pub fn find(&self, sought: Sorts, name: &RxText) -> Option<Declaration>
        ensures within { IfSome result (λ found. found.item < length self.now) }
        ensures value { result ≡ without_name (declaration (sorts_of sought) name.now self.now) }
    {
        self.index.of(sought).get(name.as_str()).copied()
    }

    /// Whether one of the first `count` items has this name.
    #[tactic(auto, using(crate::proofs::Keyed::is_declared_before_count))]
    pub fn is_named_before(&self, count: usize, name: &RxText) -> bool
        requires { count ≤ length self.now }
        ensures { result ≡ is_named_among name.now (map declared_name (take count self.now)) }
    {
        is_before(self.find(Sorts::Any, name), count)
    }
}

impl<'a> NumberedTable<'a> {
    /// What the items of an app declare.
    pub fn new(table: Table<'a>) -> NumberedTable<'a>
        requires { length table ≤ ITEM_LIMIT }
        ensures { result ≡ table.entry }
    {
        NumberedTable { table }
    }
}

impl NumberedTable<'_> {
    /// The first declaration of this name among those of the sorts that are sought.
    pub fn find(&self, sought: Sorts, name: &RxText) -> Option<Declaration>
        ensures within { IfSome result (λ found. found.item < length self.now) }
        ensures value { result ≡ without_name (declaration (sorts_of sought) name.now self.now) }
    {
        self.table.find(sought, name)
    }

    /// How many items are of these sorts.
    fn count(&self, sorts: Sorts) -> u32
        ensures value { result ≡ count_of (sorts_of sorts) self.now }
        ensures most { result ≤ ITEM_LIMIT }
    {
        count(self.table.entries.as_slice(), sorts) as u32
    }

    /// How many of the items before this place are of these sorts.
    #[tactic(auto, using(crate::proofs::Counted::entries_taken))]
    fn count_before(&self, item: usize, sorts: Sorts) -> u32
        requires { item ≤ length self.now }
        ensures value { result ≡ count_of (sorts_of sorts) (take item self.now) }
        ensures most { result ≤ ITEM_LIMIT }
    {
        count(&self.table.entries.as_slice()[..item], sorts) as u32
    }

    /// The number of the item at this place, which is of this sort: the source number of an input, a value
    /// or a task, the reader number of what is run.
    pub fn number_at(&self, item: usize, sort: Sort) -> u32
        requires { item ≤ length self.now }
        ensures { result ≡ number_at self.now item sort }
    {
        match sort {
            Sort::Input => self.count_before(item, Sorts::Inputs),
            Sort::Value => self.count(Sorts::Inputs) + self.count_before(item, Sorts::Values),
            Sort::Task => {
                let values = self.count(Sorts::Values) + self.count_before(item, Sorts::Tasks);
                self.count(Sorts::Inputs) + values
            }
            Sort::Expression => self.count_before(item, Sorts::Readers),
            Sort::Output => self.count_before(item, Sorts::Readers),
            Sort::Observer => self.count_before(item, Sorts::Readers),
        }
    }
}
