ghost use Rattle.std.specs.Prelude.{◌≡◌, ◌<◌, ◌≤◌, ◌↔◌, Some, None, false, IfSome, length, map, slice_get, option_map};
ghost use Rattle.app_tree.specs.declared.limits.TheConstants.{ITEM_LIMIT};
ghost use Rattle.app_tree.specs.Declarations.{declared_by_node, name_in, node_declarations, number_at, sort_of_node, source_name, reader_name};
ghost use Rattle.app_tree.specs.Faults.{is_named_among};
ghost use Rattle.app_tree.specs.Numbering.{name_of, readers, reader, declared_sources, starting_values, output_count, width_source, height_source, input_number, output_number, place_of, number_from};
ghost use Rattle.app_tree.specs.Sorts.{is_of};
ghost use Rattle.app_tree.specs.View.{node_of, shape_of};
ghost use Rattle.app_tree.specs.WellFormed.{IsWellFormed};

use crate::item::{Item, Items};
use crate::numbering::{count_of, item_of, number_at, number_of, source_of};
use crate::sorts::Sorts;
use std::marker::Model;

/// An app: its flush budget and its items, in the order of its text.
///
/// The sources are numbered from 0: the inputs, the values, the tasks, the widths of the outputs and
/// their heights, each in the order of the text. The readers are numbered from 0 in the order of the
/// text: they are the expressions, the outputs and the observers.
///
/// There is a text that the app stands for: its numbers are of the sorts that their places need, its
/// variables are bound, and it is within the limits of app files.
#[derive(Debug, Drop)]
pub struct App {
    budget: u32,
    items: Items,
}

impl Model for App {
    ghost use Rattle.std.specs.Coded.{codes};
    ghost use Rattle.app_tree.specs.Held.{Held};
    ghost use Rattle.app_tree.specs.View.{shape_of};
    ghost use Rattle.app_tree.specs.WellFormed.{IsWellFormed};
    ghost use Rattle.app_tree.specs.contracts.term.Term as term;
    ghost use Rattle.app_tree.specs.contracts.statement.Statement as statement;

    ghost Value = { Held };

    ghost coded = { Prim.hlevel (codes, term.the_row.coded, statement.the_row.coded) };

    ghost view = { λ a. record { budget = a.budget; items = a.items } };

    ghost invariant = { λ a. IsWellFormed (shape_of (record { budget = a.budget; items = a.items })) };
}

/// How many items of the sorts that are counted stand before the first one of this name that is of the
/// sorts that are sought.
fn number_among(items: &[Item], counted: Sorts, sought: Sorts, name: &str) -> Option<u32>
    requires { length items.now ≤ ITEM_LIMIT }
    ensures { result ≡ number_from (is_of counted) (is_of sought) 0 name.now (map node_of items.now) }
{
    match number_of(items, counted, sought, name) {
        Some(number) => Some(number as u32),
        None => None,
    }
}

/// The name of this item; empty where there is none.
fn name_or_empty(item: Option<&Item>) -> &str
    ensures { result.now ≡ name_in (option_map declared_by_node (option_map (λ i. node_of i.now) item.entry)) }
{
    match item {
        Some(item) => item.name().as_str(),
        None => "",
    }
}

impl App {
    /// An app of this flush budget and these items.
    pub fn new(budget: u32, items: Items) -> App
        requires { IsWellFormed (shape_of (record { budget = budget; items = items })) }
        ensures budget { result.budget ≡ budget }
        ensures items { result.items ≡ items }
    {
        App { budget, items }
    }

    /// The most runs of observers and outputs that one flush makes.
    pub fn budget(&self) -> u32
        ensures { result ≡ self.now.budget }
    {
        self.budget
    }

    /// The items, in the order of the text.
    pub fn items(&self) -> &Items
        ensures items { result.now ≡ self.now.items }
        ensures well_formed { IsWellFormed (shape_of self.now) }
    {
        &self.items
    }

    /// The items, of which there are few.
    pub fn few_items(&self) -> &[Item]
        ensures items { result.now ≡ self.now.items }
        ensures few { length result.now ≤ ITEM_LIMIT }
    {
        self.items.as_slice()
    }

    /// How many items there are.
    pub fn item_count(&self) -> u32
        ensures value { result ≡ length (shape_of self.now).items }
        ensures most { result ≤ ITEM_LIMIT }
    {
        self.few_items().len() as u32
    }

    /// The item at this place among the items, from 0.
    pub fn item(&self, place: u32) -> &Item
        requires { place < length (shape_of self.now).items }
        ensures { slice_get (shape_of self.now).items place ≡ Some (node_of result.now) }
    {
        &self.few_items()[place as usize]
    }

    /// The place of the item of this name among the items, from 0. No two items have one name.
    pub fn find(&self, name: &str) -> Option<u32>
        ensures place { result ≡ place_of name.now (shape_of self.now).items }
        ensures none { (result ≡ None) ↔
            (is_named_among name.now (map name_of (shape_of self.now).items) ≡ false) }
    {
        number_among(self.few_items(), Sorts::Any, Sorts::Any, name)
    }

    /// How many readers there are: expressions, outputs and observers.
    #[tactic(auto, using(crate::proofs::SortLaws::readers_counted))]
    pub fn readers(&self) -> u32
        ensures value { result ≡ length (readers (shape_of self.now)) }
        ensures most { result ≤ ITEM_LIMIT }
    {
        count_of(self.few_items(), Sorts::Readers) as u32
    }

    /// The reader of this number.
    #[tactic(auto, using(crate::proofs::SortLaws::reader_found))]
    pub fn reader(&self, number: u32) -> &Item
        requires { number < length (readers (shape_of self.now)) }
        ensures { reader (shape_of self.now) number ≡ Some (node_of result.now) }
    {
        match item_of(self.few_items(), Sorts::Readers, number as usize) {
            Some(item) => item,
            None => unreachable!(),
        }
    }

    /// How many sources are items: inputs, values and tasks.
    #[tactic(auto, using(crate::proofs::SortLaws::declared_counted))]
    pub fn declared(&self) -> u32
        ensures value { result ≡ length (declared_sources (shape_of self.now).items) }
        ensures most { result ≤ ITEM_LIMIT }
    {
        let items = self.few_items();
        let inputs = count_of(items, Sorts::Inputs);
        let values = count_of(items, Sorts::Values);
        let tasks = count_of(items, Sorts::Tasks);
        (inputs + values + tasks) as u32
    }

    /// How many outputs there are, each of which has a width and a height.
    #[tactic(auto, using(crate::proofs::SortLaws::outputs_counted))]
    pub fn outputs(&self) -> u32
        ensures value { result ≡ output_count (shape_of self.now).items }
        ensures most { result ≤ ITEM_LIMIT }
    {
        count_of(self.few_items(), Sorts::Outputs) as u32
    }

    /// How many sources there are: inputs, values, tasks, and the width and the height of each output.
    #[tactic(auto, using(crate::proofs::SortLaws::sources_counted))]
    pub fn sources(&self) -> u32
        ensures { result ≡ length (starting_values (shape_of self.now).items) }
    {
        self.declared() + self.outputs() + self.outputs()
    }

    /// The source number of the input of this name.
    #[tactic(auto, using(crate::proofs::SortLaws::input_number_is))]
    pub fn input_number(&self, name: &str) -> Option<u32>
        ensures { result ≡ input_number name.now (shape_of self.now).items }
    {
        number_among(self.few_items(), Sorts::Inputs, Sorts::Inputs, name)
    }

    /// The reader number of the output of this name.
    #[tactic(auto, using(crate::proofs::SortLaws::output_number_is))]
    pub fn output_number(&self, name: &str) -> Option<u32>
        ensures { result ≡ output_number name.now (shape_of self.now).items }
    {
        number_among(self.few_items(), Sorts::Readers, Sorts::Outputs, name)
    }

    /// The item that is the source of this number: an input, a value or a task. A width or a height is no
    /// item.
    pub fn source(&self, number: u32) -> Option<&Item>
        ensures { option_map (λ i. node_of i.now) result ≡
            slice_get (declared_sources (shape_of self.now).items) number }
    {
        source_of(self.few_items(), number as usize)
    }

    /// The name of the source of this number, which is an input, a value or a task; empty where there is
    /// none.
    #[tactic(auto, using(crate::proofs::NumberLaws::source_name_is))]
    pub fn source_name(&self, number: u32) -> &str
        ensures { result.now ≡ source_name (node_declarations (shape_of self.now).items) number }
    {
        name_or_empty(source_of(self.few_items(), number as usize))
    }

    /// The name of the reader of this number; empty where there is none.
    #[tactic(auto, using(crate::proofs::NumberLaws::reader_name_is))]
    pub fn reader_name(&self, number: u32) -> &str
        ensures { result.now ≡ reader_name (node_declarations (shape_of self.now).items) number }
    {
        name_or_empty(item_of(self.few_items(), Sorts::Readers, number as usize))
    }

    /// The number of the item at this place among the items: the source number of an input, a value or a
    /// task, the reader number of an expression, an output or an observer.
    pub fn number_at(&self, place: u32) -> u32
        requires { place < length (shape_of self.now).items }
        ensures { IfSome (slice_get (shape_of self.now).items place)
            (λ i. result ≡ number_at (node_declarations (shape_of self.now).items) place (sort_of_node i)) }
    {
        let sort = self.item(place).sort();
        number_at(self.few_items(), place as usize, sort) as u32
    }
}
