ghost use Rattle.std.specs.Prelude.{◌≡◌, IfOk, Some, option_map};
ghost use Rattle.std.specs.List.{before_first, after_first};
ghost use Rattle.serde_json.specs.View.{view, items_view, members_view};
ghost use Rattle.shiny_json.specs.Client.{whole_number, whole_numbers, list_value, json_value, action_value, typed_value, is_colon, pair_of, pairs_of, message_with_data, message_with_method, json_message, client_message};

use crate::limits::MESSAGE_LIMIT;
use crate::message::{BadMessage, Client, ClientData, Pair};
use rx_value::{LIST_LIMIT, Memory, RxInts, RxText, Value};
use serde_json::{Map, Value as Json};
use std::alloc::Global;

fn whole_number(json: &Json) -> Option<i64>
    ensures { result ≡ whole_number (view json.now) }
{
    match json {
        Json::Number(number) => number.as_i64(),
        _ => None,
    }
}

fn whole_numbers(alloc: Global, items: &[Json]) -> Result<Option<RxInts>, Memory>
    ensures { IfOk result (λ zs. zs ≡ whole_numbers (items_view items.now)) }
{
    let mut numbers = RxInts::new(alloc);
    for item in items {
        let Some(number) = whole_number(item) else {
            return Ok(None);
        };
        numbers.push(number)?;
    }
    Ok(Some(numbers))
}

fn list_value(numbers: Option<RxInts>) -> Value
    ensures { result ≡ list_value numbers }
{
    match numbers {
        Some(numbers) if 0 < numbers.len() && numbers.len() <= LIST_LIMIT => Value::Ints(numbers),
        _ => Value::Null,
    }
}

fn json_value(alloc: Global, json: &Json) -> Result<Value, Memory>
    ensures { IfOk result (λ x. x ≡ json_value (view json.now)) }
{
    match json {
        Json::Bool(truth) => Ok(Value::Bool(*truth)),
        Json::Number(number) => Ok(number.as_i64().map_or(Value::Null, Value::Int)),
        Json::String(text) => Ok(Value::Text(RxText::from_str(alloc, text.as_str())?)),
        Json::Array(items) => Ok(list_value(whole_numbers(alloc, items.as_slice())?)),
        Json::Null | Json::Object(_) => Ok(Value::Null),
    }
}

fn action_value(value: Value) -> Value
    ensures { result ≡ action_value value }
{
    match value {
        Value::Int(0) => Value::Null,
        value => value,
    }
}

fn typed_value(kind: &str, value: Value) -> Value
    ensures { result ≡ typed_value kind.now value }
{
    if kind == "shiny.action" {
        action_value(value)
    } else {
        value
    }
}

fn split_key(key: &str) -> (&str, &str)
    ensures name { result.0.now ≡ before_first is_colon key.now }
    ensures kind { result.1.now ≡ after_first is_colon key.now }
{
    match key.split_once(':') {
        Some(parts) => parts,
        None => (key, ""),
    }
}

fn pair_of(alloc: Global, key: &str, json: &Json) -> Result<Pair, Memory>
    ensures { IfOk result (λ p. p ≡ pair_of key.now (view json.now)) }
{
    let (name, kind) = split_key(key);
    let value = json_value(alloc, json)?;
    Ok(Pair {
        name: RxText::from_str(alloc, name)?,
        value: typed_value(kind, value),
    })
}

fn pairs_of(alloc: Global, members: &Map<String, Json>) -> Result<ClientData, Memory>
    ensures { IfOk result (λ ps. ps ≡ pairs_of (members_view members.now.entries)) }
{
    let mut pairs = ClientData::new(alloc);
    for (key, json) in members.iter() {
        pairs.push(pair_of(alloc, key.as_str(), json)?)?;
    }
    Ok(pairs)
}

fn message_with_data(
    alloc: Global,
    init: bool,
    members: Option<&Map<String, Json>>,
) -> Result<Client, Memory>
    ensures { IfOk result
        (λ c. c ≡ message_with_data init
        (option_map (λ m. members_view m.now.entries) members.entry)) }
{
    let Some(members) = members else {
        return Ok(Client::Refused(BadMessage::NoData));
    };
    let pairs = pairs_of(alloc, members)?;
    if init {
        Ok(Client::Init(pairs))
    } else {
        Ok(Client::Update(pairs))
    }
}

fn message_with_method(
    alloc: Global,
    method: Option<&str>,
    members: Option<&Map<String, Json>>,
) -> Result<Client, Memory>
    ensures { IfOk result
        (λ c. c ≡ message_with_method (option_map (λ s. s.now) method.entry)
        (option_map (λ m. members_view m.now.entries) members.entry)) }
{
    match method {
        Some("init") => message_with_data(alloc, true, members),
        Some("update") => message_with_data(alloc, false, members),
        Some(_) => Ok(Client::Refused(BadMessage::BadMethod)),
        None => Ok(Client::Refused(BadMessage::NoMethod)),
    }
}

/// Reads a client message that was parsed already. The causes of refusal are tested in this order:
/// an object, its method, its data. Further keys are ignored; the pairs stand in the byte order of
/// the data's keys.
pub fn client_of(alloc: Global, json: &Json) -> Result<Client, Memory>
    ensures { IfOk result (λ c. c ≡ json_message (Some (view json.now))) }
{
    if !json.is_object() {
        return Ok(Client::Refused(BadMessage::NotObject));
    }
    let method = json.get("method").and_then(Json::as_str);
    let data = json.get("data").and_then(Json::as_object);
    message_with_method(alloc, method, data)
}

/// Reads a client message by itself: `EarlyUpdate`, `SecondInit` and `Other` are never its answer,
/// since they depend on what came before or on the kind of item.
pub fn read_client(alloc: Global, text: &RxText) -> Result<Client, Memory>
    ensures { IfOk result (λ c. c ≡ client_message text.now) }
{
    if text.len() > MESSAGE_LIMIT {
        return Ok(Client::Refused(BadMessage::TooLong));
    }
    match Json::from_str(alloc, text.as_str()) {
        Ok(json) => client_of(alloc, &json),
        Err(error) if error.is_memory() => Err(Memory),
        Err(_) => Ok(Client::Refused(BadMessage::NotJson)),
    }
}
