ghost use Rattle.std.specs.Prelude.{◌≡◌, IfOk, OnOk};
ghost use Rattle.serde_json.specs.Data.{array};
ghost use Rattle.serde_json.specs.View.{view, members_view};
ghost use Rattle.shiny_json.specs.inner.Held.{entry_of, parts_of};
ghost use Rattle.shiny_json.specs.Values.{failure_data, silent_data, image_data, plot_entry, value_entry, outcome_entry, no_parts, without_member, with_entry, with_outputs, numbers_items, value_data, input_message_data, input_messages_items, values_data, values_text};

use crate::batch::{Batch, BatchOutput};
use crate::message::Pair;
use crate::server::json_text;
use base64::engine::general_purpose::STANDARD;
use rx_value::{Memory, Outcome, RxText, Value, show};
use serde_json::{Map, Value as Json, json, put};
use std::alloc::{AllocError, Global};

/// What the text has of an output.
#[derive(Drop)]
enum OutputEntry {
    Shown(Json),
    Failed(Json),
    Unsaid,
}

/// The errors and the values, by the outputs' names.
#[derive(Drop)]
struct OutputParts {
    errors: Map<String, Json>,
    values: Map<String, Json>,
}

fn failure_json(alloc: Global, text: &str) -> Result<Json, AllocError>
    ensures { IfOk result (λ j. view j ≡ failure_data text.now) }
{
    json!(in alloc; {"message": text})
}

fn silent_json(alloc: Global) -> Result<Json, AllocError>
    ensures { IfOk result (λ j. view j ≡ silent_data) }
{
    json!(in alloc; {"message": "", "type": ["shiny.silent.error"]})
}

fn image_json(alloc: Global, svg: &RxText) -> Result<Json, AllocError>
    ensures { IfOk result (λ j. view j ≡ image_data svg.now) }
{
    let mut uri = String::from_str(alloc, "data:image/svg+xml;base64,")?;
    STANDARD.encode_string(svg.as_str().as_bytes(), &mut uri)?;
    json!(in alloc; {"src": uri})
}

fn plot_entry(alloc: Global, value: &Value) -> Result<OutputEntry, Memory>
    ensures { IfOk result (λ e. entry_of e ≡ plot_entry value.now) }
{
    match value {
        Value::Null => Ok(OutputEntry::Shown(Json::Null)),
        Value::Text(svg) => Ok(OutputEntry::Shown(image_json(alloc, svg)?)),
        _ => Ok(OutputEntry::Failed(failure_json(alloc, "wrong kind of value")?)),
    }
}

fn value_entry(alloc: Global, plot: bool, value: &Value) -> Result<OutputEntry, Memory>
    ensures { IfOk result (λ e. entry_of e ≡ value_entry plot value.now) }
{
    if plot {
        plot_entry(alloc, value)
    } else {
        let text = show(alloc, value)?;
        Ok(OutputEntry::Shown(Json::try_from_str(alloc, text.as_str())?))
    }
}

fn outcome_entry(alloc: Global, plot: bool, outcome: &Outcome) -> Result<OutputEntry, Memory>
    ensures { IfOk result (λ e. entry_of e ≡ outcome_entry plot outcome.now) }
{
    match outcome {
        Outcome::Val(value) => value_entry(alloc, plot, value),
        Outcome::Fail(text) => Ok(OutputEntry::Failed(failure_json(alloc, text.as_str())?)),
        Outcome::Stop => Ok(OutputEntry::Failed(silent_json(alloc)?)),
        Outcome::Cancel | Outcome::Running => Ok(OutputEntry::Unsaid),
    }
}

fn remove(members: &mut Map<String, Json>, name: &str)
    ensures { members_view members.new.entries
        ≡ without_member name.now (members_view members.old.entries) }
{
    drop(members.remove(name));
}

fn put_entry(
    alloc: Global,
    parts: &mut OutputParts,
    name: &str,
    entry: OutputEntry,
) -> Result<(), Memory>
    ensures { OnOk result
        (parts_of parts.new ≡ with_entry name.now (entry_of entry) (parts_of parts.old)) }
{
    match entry {
        OutputEntry::Shown(json) => {
            remove(&mut parts.errors, name);
            Ok(put(&mut parts.values, alloc, name, json)?)
        }
        OutputEntry::Failed(json) => {
            remove(&mut parts.values, name);
            Ok(put(&mut parts.errors, alloc, name, json)?)
        }
        OutputEntry::Unsaid => Ok(()),
    }
}

fn put_output(alloc: Global, parts: &mut OutputParts, output: &BatchOutput) -> Result<(), Memory>
    ensures { OnOk result
        (parts_of parts.new ≡ with_entry output.now.name
        (outcome_entry output.now.plot output.now.outcome) (parts_of parts.old)) }
{
    let entry = outcome_entry(alloc, output.plot, &output.outcome)?;
    put_entry(alloc, parts, output.name.as_str(), entry)
}

fn output_parts(alloc: Global, outputs: &[BatchOutput]) -> Result<OutputParts, Memory>
    ensures { IfOk result (λ p. parts_of p ≡ with_outputs outputs.now no_parts) }
{
    let mut parts = OutputParts {
        errors: Map::new(alloc),
        values: Map::new(alloc),
    };
    for output in outputs {
        put_output(alloc, &mut parts, output)?;
    }
    Ok(parts)
}

fn numbers_json(alloc: Global, numbers: &[i64]) -> Result<Json, AllocError>
    ensures { IfOk result (λ j. view j ≡ array (numbers_items numbers.now)) }
{
    let mut items = Vec::with_capacity(alloc, numbers.len())?;
    for number in numbers {
        items.push(Json::from(*number))?;
    }
    Ok(Json::Array(items))
}

fn value_json(alloc: Global, value: &Value) -> Result<Json, AllocError>
    ensures { IfOk result (λ j. view j ≡ value_data value.now) }
{
    match value {
        Value::Null => Ok(Json::Null),
        Value::Bool(truth) => Ok(Json::Bool(*truth)),
        Value::Int(number) => Ok(Json::from(*number)),
        Value::Text(text) => Json::try_from_str(alloc, text.as_str()),
        Value::Ints(numbers) => numbers_json(alloc, numbers.as_slice()),
    }
}

fn input_message_json(alloc: Global, message: &Pair) -> Result<Json, AllocError>
    ensures { IfOk result (λ j. view j ≡ input_message_data message.now) }
{
    let value = value_json(alloc, &message.value)?;
    json!(in alloc; {"id": message.name.as_str(), "message": {"value": value}})
}

fn input_messages_json(alloc: Global, messages: &[Pair]) -> Result<Json, AllocError>
    ensures { IfOk result (λ j. view j ≡ array (input_messages_items messages.now)) }
{
    let mut items = Vec::with_capacity(alloc, messages.len())?;
    for message in messages {
        items.push(input_message_json(alloc, message)?)?;
    }
    Ok(Json::Array(items))
}

fn values_json(alloc: Global, parts: OutputParts, messages: &[Pair]) -> Result<Json, AllocError>
    ensures { IfOk result (λ j. view j ≡ values_data (parts_of parts) messages.now) }
{
    let messages = input_messages_json(alloc, messages)?;
    json!(in alloc; {"errors": parts.errors, "inputMessages": messages, "values": parts.values})
}

/// The text of a flush: for each output that ran its value or its error, of several runs of one
/// output the last that tells one, and the input messages in their order.
pub fn write_values(alloc: Global, batch: &Batch) -> Result<RxText, Memory>
    ensures { IfOk result (λ t. t ≡ values_text batch.now) }
{
    let parts = output_parts(alloc, batch.outputs.as_slice())?;
    let json = values_json(alloc, parts, batch.messages.as_slice())?;
    json_text(alloc, &json)
}
