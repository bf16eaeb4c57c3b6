ghost use Rattle.std.specs.Prelude.{◌≡◌, map};
ghost use Rattle.app_tree.specs.View.{tree_of, trees_of_terms, shown_of, node_of, shape_of};
ghost use Rattle.taken_cycle.specs.Built.{is_uncached, is_plain, input_read, shown_input, is_number, is_built, first_unbuilt};

use app_tree::{App, Item, Output, Read, Term, Terms};
use rx_value::Value;

fn is_uncached(keys: &Terms) -> bool
    ensures { result ≡ is_uncached (trees_of_terms keys.now) }
{
    match keys.as_slice() {
        [] => true,
        [_, ..] => false,
    }
}

fn is_plain(output: &Output) -> bool
    ensures { result ≡ is_plain (shown_of output.now) }
{
    output.priority == 0 && !output.while_hidden && is_uncached(&output.keys)
}

fn input_read(body: &Term) -> Option<u32>
    ensures { result ≡ input_read (tree_of body.now) }
{
    match body {
        Term::Get(Read::Input(source)) => Some(*source),
        _ => None,
    }
}

/// The source number of the input that an output shows, where the output has the form that is run
/// today.
pub fn shown_input(output: &Output) -> Option<u32>
    ensures { result ≡ shown_input (shown_of output.now) }
{
    if is_plain(output) {
        input_read(&output.body)
    } else {
        None
    }
}

fn is_number(value: &Value) -> bool
    ensures { result ≡ is_number value.now }
{
    matches!(value, Value::Int(_))
}

fn is_built(item: &Item) -> bool
    ensures { result ≡ is_built (node_of item.now) }
{
    match item {
        Item::Input { start, .. } => is_number(start),
        Item::Text { output, .. } => shown_input(output).is_some(),
        _ => false,
    }
}

fn first_unbuilt(items: &[Item]) -> Option<usize>
    ensures { result ≡ first_unbuilt (map node_of items.now) }
{
    for (place, item) in items.iter().enumerate() {
        if !is_built(item) {
            return Some(place);
        }
    }
    None
}

/// The place among the items, from 0, of the first that has a form which is not run yet; nothing
/// exactly where there is none. Run today are inputs that start at a number, and outputs that show an
/// input as text, without a priority and a cache.
pub fn built(app: &App) -> Option<usize>
    ensures { result ≡ first_unbuilt (shape_of app.now).items }
{
    first_unbuilt(app.items().as_slice())
}
