ghost use Rattle.std.specs.Prelude.{◌≡◌, ◌≤◌, map, length};
ghost use Rattle.app_tree.specs.View.{node_of, shape_of};
ghost use Rattle.app_tree.specs.Numbering.{output_count, width_source, height_source};
ghost use Rattle.taken_cycle.specs.inner.Targets.{is_declared, declared_count, outputs_before};

use app_tree::{App, Item};

fn is_declared(item: &Item) -> bool
    ensures { result ≡ is_declared (node_of item.now) }
{
    item.is_input() || item.is_value() || item.is_task()
}

/// How many sources are no sizes.
fn declared_count(items: &[Item]) -> usize
    ensures { result ≡ declared_count (map node_of items.now) }
{
    let mut count = 0;
    for item in items {
        if is_declared(item) {
            count += 1;
        }
    }
    count
}

fn output_count(items: &[Item]) -> usize
    ensures { result ≡ output_count (map node_of items.now) }
{
    let mut count = 0;
    for item in items {
        if item.is_output() {
            count += 1;
        }
    }
    count
}

/// How many outputs stand before the reader of this number.
fn outputs_before(items: &[Item], reader: usize) -> usize
    ensures { result ≡ outputs_before (map node_of items.now) reader }
{
    let mut left = reader;
    let mut count = 0;
    for item in items {
        if item.is_reader() {
            if left == 0 {
                return count;
            }
            left -= 1;
        }
        if item.is_output() {
            count += 1;
        }
    }
    count
}

/// The number of the source that is the width of the output of this reader number.
pub fn width_source(app: &App, reader: usize) -> u128
    ensures { result ≡ width_source (shape_of app.now) reader }
{
    let items = app.items().as_slice();
    declared_count(items) as u128 + outputs_before(items, reader) as u128
}

/// The number of the source that is its height.
pub fn height_source(app: &App, reader: usize) -> u128
    ensures { result ≡ height_source (shape_of app.now) reader }
{
    let items = app.items().as_slice();
    let before = declared_count(items) as u128 + outputs_before(items, reader) as u128;
    before + output_count(items) as u128
}
