ghost use Rattle.std.specs.Prelude.{◌≡◌, map};
ghost use Rattle.std.specs.Option.{option_copied};
ghost use Rattle.app_tree.specs.View.{node_of};
ghost use Rattle.app_tree.specs.Numbering.{input_number, output_number};
ghost use Rattle.session_model.specs.Apply.{after_front, before_end, clientdata_output};
ghost use Rattle.session_model.specs.TakenLines.{hidden_output};
ghost use Rattle.taken_cycle.specs.inner.Targets.{output_name};

use app_tree::Item;

/// The source number of the input of this name.
pub fn input_number(items: &[Item], name: &str) -> Option<usize>
    ensures { result ≡ input_number name.now (map node_of items.now) }
{
    let mut number = 0;
    for item in items {
        if item.is_input() {
            if name == item.name().as_str() {
                return Some(number);
            }
            number += 1;
        }
    }
    None
}

fn output_number(items: &[Item], name: &[u8]) -> Option<usize>
    ensures { result ≡ output_number name.now (map node_of items.now) }
{
    let mut number = 0;
    for item in items {
        if item.is_output() && name == item.name().as_str().as_bytes() {
            return Some(number);
        }
        if item.is_reader() {
            number += 1;
        }
    }
    None
}

fn after_front<'a>(front: &[u8], name: &'a [u8]) -> Option<&'a [u8]>
    ensures { option_copied result ≡ after_front front.now name.now }
{
    if name.len() < front.len() {
        return None;
    }
    if &name[..front.len()] == front {
        Some(&name[front.len()..])
    } else {
        None
    }
}

fn before_end<'a>(end: &[u8], name: &'a [u8]) -> Option<&'a [u8]>
    ensures { option_copied result ≡ before_end end.now name.now }
{
    if name.len() < end.len() {
        return None;
    }
    let count = name.len() - end.len();
    if &name[count..] == end {
        Some(&name[..count])
    } else {
        None
    }
}

fn output_name<'a>(end: &[u8], name: &'a [u8]) -> Option<&'a [u8]>
    ensures { option_copied result ≡ output_name end.now name.now }
{
    match after_front(b".clientdata_output_", name) {
        Some(rest) => before_end(end, rest),
        None => None,
    }
}

/// The reader number of the output NAME of which `.clientdata_output_NAME` and this end tell.
pub fn clientdata_output(items: &[Item], end: &[u8], name: &str) -> Option<usize>
    ensures { result ≡ clientdata_output end.now name.now (map node_of items.now) }
{
    match output_name(end, name.as_bytes()) {
        Some(output) => output_number(items, output),
        None => None,
    }
}

/// The reader number of the output whose hiding this name tells, as in
/// `.clientdata_output_NAME_hidden`.
pub fn hidden_output(items: &[Item], name: &str) -> Option<usize>
    ensures { result ≡ hidden_output name.now (map node_of items.now) }
{
    clientdata_output(items, b"_hidden", name)
}
