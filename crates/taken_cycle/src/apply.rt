ghost use Rattle.std.specs.Prelude.{◌≡◌, [], Some, OnOk};
ghost use Rattle.rx_value.specs.declared.source.SourceValue.TheVariants.{Plain};
ghost use Rattle.app_tree.specs.View.{shape_of};
ghost use Rattle.session_model.specs.Change.{change};
ghost use Rattle.session_model.specs.Apply.{is_shown_by, with_shown, apply_to, apply_pair, apply_pairs};
ghost use Rattle.taken_cycle.specs.State.{state_of, AreThawed};
ghost use Rattle.taken_cycle.specs.inner.Targets.{target_is};

use crate::change::change;
use crate::sizes::{height_source, width_source};
use crate::targets::{Target, target_of};
use app_tree::App;
use rx_value::{Memory, SourceValue, Value};
use session_model::ReaderState;
use shiny_json::Pair;
use std::alloc::Global;

fn is_shown_by(value: &Value) -> bool
    ensures { result ≡ is_shown_by value.now }
{
    match value {
        Value::Bool(hidden) => !*hidden,
        _ => false,
    }
}

fn set_shown(readers: &mut Vec<ReaderState>, number: usize, shown: bool)
    ensures { readers.new.items ≡ (with_shown number shown (state_of [] readers.old.items)).readers }
{
    if number < readers.len() {
        readers[number].shown = shown;
    }
}

fn set_source(
    alloc: Global,
    values: &mut Vec<SourceValue>,
    readers: &mut Vec<ReaderState>,
    source: u128,
    value: &Value,
) -> Result<(), Memory>
    requires thawed { AreThawed values.old.items }
    ensures changed { OnOk result (state_of values.new.items readers.new.items
        ≡ change source (Plain value.now) (state_of values.old.items readers.old.items)) }
    ensures thawed { AreThawed values.new.items }
{
    let value = SourceValue::Plain(value.copy(alloc)?);
    change(values, readers, source, value);
    Ok(())
}

fn apply_to(
    alloc: Global,
    app: &App,
    values: &mut Vec<SourceValue>,
    readers: &mut Vec<ReaderState>,
    target: Target,
    value: &Value,
) -> Result<(), Memory>
    requires thawed { AreThawed values.old.items }
    ensures applied { OnOk result (state_of values.new.items readers.new.items
        ≡ apply_to (shape_of app.now) (Some (target_is target)) value.now
        (state_of values.old.items readers.old.items)) }
    ensures thawed { AreThawed values.new.items }
{
    match target {
        Target::Input(source) => set_source(alloc, values, readers, source as u128, value),
        Target::Width(reader) => {
            set_source(alloc, values, readers, width_source(app, reader), value)
        }
        Target::Height(reader) => {
            set_source(alloc, values, readers, height_source(app, reader), value)
        }
        Target::Hidden(reader) => {
            set_shown(readers, reader, is_shown_by(value));
            Ok(())
        }
    }
}

fn apply_pair(
    alloc: Global,
    app: &App,
    values: &mut Vec<SourceValue>,
    readers: &mut Vec<ReaderState>,
    pair: &Pair,
) -> Result<(), Memory>
    requires thawed { AreThawed values.old.items }
    ensures applied { OnOk result (state_of values.new.items readers.new.items
        ≡ apply_pair (shape_of app.now) pair.now (state_of values.old.items readers.old.items)) }
    ensures thawed { AreThawed values.new.items }
{
    match target_of(app.items().as_slice(), pair.name.as_str()) {
        Some(target) => apply_to(alloc, app, values, readers, target, &pair.value),
        None => Ok(()),
    }
}

/// Sets what a client message says, in the order of its pairs.
pub fn apply_pairs(
    alloc: Global,
    app: &App,
    values: &mut Vec<SourceValue>,
    readers: &mut Vec<ReaderState>,
    pairs: &[Pair],
) -> Result<(), Memory>
    requires thawed { AreThawed values.old.items }
    ensures applied { OnOk result (state_of values.new.items readers.new.items
        ≡ apply_pairs (shape_of app.now) pairs.now (state_of values.old.items readers.old.items)) }
    ensures thawed { AreThawed values.new.items }
{
    for pair in pairs {
        apply_pair(alloc, app, values, readers, pair)?;
    }
    Ok(())
}
