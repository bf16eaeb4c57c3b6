ghost use Rattle.std.specs.Prelude.{◌≡◌, map};
ghost use Rattle.rx_value.specs.Value.{source_eq};
ghost use Rattle.app_tree.specs.Current.{value_at};
ghost use Rattle.session_model.specs.Change.{marked_reader, change};
ghost use Rattle.taken_cycle.specs.State.{state_of};
ghost use Rattle.app_tree.specs.Fresh.{is_among};

use rx_value::{SourceValue, Value};
use session_model::ReaderState;

fn is_among(sources: &[u32], source: u128) -> bool
    ensures { result ≡ is_among source sources.now }
{
    sources.iter().any(|reached| *reached as u128 == source)
}

fn mark(reader: &mut ReaderState, source: u128)
    ensures { reader.new ≡ marked_reader source reader.old }
{
    if let Some(dependencies) = &mut reader.dependencies {
        if is_among(dependencies.sources.as_slice(), source) {
            dependencies.changed = true;
        }
    }
}

fn mark_all(readers: &mut Vec<ReaderState>, source: u128)
    ensures { readers.new.items ≡ map (marked_reader source) readers.old.items }
{
    for reader in readers.iter_mut() {
        mark(reader, source);
    }
}

fn is_value(values: &[SourceValue], source: u128, value: &SourceValue) -> bool
    ensures { result ≡ source_eq (value_at values.now source) value.now }
{
    if source < values.len() as u128 {
        values[source as usize].same(value)
    } else {
        SourceValue::Plain(Value::Null).same(value)
    }
}

/// Sets a source. An equal value does nothing; at another one each reader whose last run reached the
/// source is no longer alive.
pub fn change(
    values: &mut Vec<SourceValue>,
    readers: &mut Vec<ReaderState>,
    source: u128,
    value: SourceValue,
)
    ensures { state_of values.new.items readers.new.items
        ≡ change source value (state_of values.old.items readers.old.items) }
{
    if is_value(values.as_slice(), source, &value) {
        return;
    }
    if source < values.len() as u128 {
        values[source as usize] = value;
    }
    mark_all(readers, source);
}
