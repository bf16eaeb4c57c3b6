ghost use Rattle.std.specs.Prelude.{◌≡◌, map, codes};
ghost use Rattle.std.specs.Option.{option_map};
ghost use Rattle.app_tree.specs.View.{node_of};
ghost use Rattle.session_model.specs.Apply.{clientdata_output, hidden, target_of};
ghost use Rattle.taken_cycle.specs.inner.Targets.{target_is, height_or_hidden, output_target};

use crate::names::{clientdata_output, input_number};
use app_tree::Item;

/// What a name of a client message stands for.
#[derive(Clone, Copy, Debug, PartialEq, Eq)]
pub enum Target {
    /// An input, by its source number.
    Input(usize),
    /// The width of an output, by its reader number.
    Width(usize),
    Height(usize),
    /// Whether an output is hidden.
    Hidden(usize),
}

fn hidden(items: &[Item], name: &str) -> Option<Target>
    ensures { option_map target_is result
        ≡ option_map hidden (clientdata_output (codes "_hidden") name.now (map node_of items.now)) }
{
    match clientdata_output(items, b"_hidden", name) {
        Some(number) => Some(Target::Hidden(number)),
        None => None,
    }
}

fn height_or_hidden(items: &[Item], name: &str) -> Option<Target>
    ensures { option_map target_is result ≡ height_or_hidden name.now (map node_of items.now) }
{
    match clientdata_output(items, b"_height", name) {
        Some(number) => Some(Target::Height(number)),
        None => hidden(items, name),
    }
}

fn output_target(items: &[Item], name: &str) -> Option<Target>
    ensures { option_map target_is result ≡ output_target name.now (map node_of items.now) }
{
    match clientdata_output(items, b"_width", name) {
        Some(number) => Some(Target::Width(number)),
        None => height_or_hidden(items, name),
    }
}

/// What this name stands for; nothing where it is ignored.
pub fn target_of(items: &[Item], name: &str) -> Option<Target>
    ensures { option_map target_is result ≡ target_of name.now (map node_of items.now) }
{
    match input_number(items, name) {
        Some(source) => Some(Target::Input(source)),
        None => output_target(items, name),
    }
}
