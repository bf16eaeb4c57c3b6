ghost use Rattle.std.specs.Prelude.{◌≡◌, map, IfSome, IfNone, None};
ghost use Rattle.app_tree.specs.View.{node_of};
ghost use Rattle.app_tree.specs.Numbering.{is_reader};
ghost use Rattle.session_model.specs.State.{is_alive};
ghost use Rattle.session_model.specs.Flush.{waiting_from};
ghost use Rattle.std.specs.Prelude.{filter};
ghost use Rattle.taken_cycle.specs.Built.{first_unbuilt, input_of_output};
ghost use Rattle.taken_cycle.specs.inner.Passed.{waits_at, IsPassed, WaitsAt};

use crate::forms::shown_input;
use app_tree::Item;
use rx_value::RxText;
use session_model::ReaderState;

/// An output that waits for its run.
#[derive(Drop)]
pub struct Waiting<'a> {
    /// The place of its item in the app.
    pub place: usize,
    /// Its reader number.
    pub number: usize,
    pub name: &'a RxText,
    /// The source number of the input that it shows.
    pub source: u32,
}

fn is_alive(reader: &ReaderState) -> bool
    ensures { result ≡ is_alive reader.now }
{
    match &reader.dependencies {
        Some(dependencies) => !dependencies.changed,
        None => false,
    }
}

fn waits_at(readers: &[ReaderState], number: usize) -> bool
    ensures { result ≡ waits_at readers.now number }
{
    match readers.get(number) {
        Some(reader) => reader.shown && !is_alive(reader),
        None => false,
    }
}

fn input_of_output(item: &Item) -> Option<u32>
    ensures { result ≡ input_of_output (node_of item.now) }
{
    match item {
        Item::Text { output, .. } => shown_input(output),
        _ => None,
    }
}

/// The first output that waits, of those that stand at `place` or behind it, the first of which has
/// the reader number `number`.
pub fn next_waiting<'a>(
    items: &'a [Item],
    readers: &[ReaderState],
    place: usize,
    number: usize,
) -> Option<Waiting<'a>>
    requires built { first_unbuilt (map node_of items.now) ≡ None }
    requires passed { IsPassed (map node_of items.now) readers.now place number }
    ensures passed { IfSome result (λ w. IsPassed (map node_of items.now) readers.now w.place w.number) }
    ensures waits { IfSome result
        (λ w. WaitsAt (map node_of items.now) readers.now w.place w.number w.name.now w.source) }
    ensures none { IfNone result (waiting_from 0 (filter is_reader (map node_of items.now)) readers.now ≡ None) }
{
    let mut place = place;
    let mut number = number;
    while place < items.len() {
        let item = &items[place];
        if let Some(source) = input_of_output(item) {
            if waits_at(readers, number) {
                return Some(Waiting {
                    place,
                    number,
                    name: item.name(),
                    source,
                });
            }
            number += 1;
        }
        place += 1;
    }
    None
}
