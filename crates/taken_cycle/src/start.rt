ghost use Rattle.std.specs.Prelude.{◌≡◌, ◌++◌, IfOk, map, filter};
ghost use Rattle.app_tree.specs.View.{node_of};
ghost use Rattle.app_tree.specs.Numbering.{is_reader};
ghost use Rattle.session_model.specs.State.{first_reader, first_readers};

use app_tree::Item;
use rx_value::{Memory, RxList};
use session_model::ReaderState;
use std::alloc::Global;

fn first_reader(alloc: Global) -> ReaderState
    ensures { result ≡ first_reader }
{
    ReaderState {
        dependencies: None,
        isolated: RxList::new(alloc),
        shown: false,
        last: None,
    }
}

/// The readers of these items, by reader number: hidden, and never run.
pub fn first_readers(alloc: Global, items: &[Item]) -> Result<Vec<ReaderState>, Memory>
    ensures { IfOk result (λ readers. readers.items ≡ first_readers (filter is_reader (map node_of items.now))) }
{
    let mut readers = Vec::new(alloc);
    for item in items {
        if item.is_reader() {
            if readers.push(first_reader(alloc)).is_err() {
                return Err(Memory);
            }
        }
    }
    Ok(readers)
}
