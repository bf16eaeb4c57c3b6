ghost use Rattle.std.specs.Prelude.{◌≡◌, IfOk, Some};
ghost use Rattle.std.specs.Option.{option_map};
ghost use Rattle.std.specs.List.{list_any};
ghost use Rattle.serde_json.specs.View.{view, members_view};
ghost use Rattle.app_tree.specs.View.{shape_of};
ghost use Rattle.shiny_json.specs.Client.{is_colon};
ghost use Rattle.session_model.specs.TakenLines.{is_whole, is_truth, is_taken_pair, are_taken_pairs, has_taken_data, is_taken_json, pairs_set, taken_pairs};
ghost use Rattle.taken_cycle.specs.inner.TakenJson.{has_two_members, taken_json_pairs};

use crate::names::{hidden_output, input_number};
use app_tree::App;
use rx_value::{Memory, RxText};
use serde_json::{Map, Value as Json};
use shiny_json::{Client, ClientData, MESSAGE_LIMIT, client_of};
use std::alloc::Global;

fn is_whole(json: &Json) -> bool
    ensures { result ≡ is_whole (view json.now) }
{
    match json {
        Json::Number(number) => number.as_i64().is_some(),
        _ => false,
    }
}

fn is_truth(json: &Json) -> bool
    ensures { result ≡ is_truth (view json.now) }
{
    match json {
        Json::Bool(_) => true,
        _ => false,
    }
}

fn has_colon(name: &str) -> bool
    ensures { result ≡ list_any is_colon name.now }
{
    name.as_bytes().iter().any(|byte| *byte == b':')
}

fn is_taken_pair(app: &App, first: bool, name: &str, json: &Json) -> bool
    ensures { result ≡ is_taken_pair (shape_of app.now) first name.now (view json.now) }
{
    let items = app.items().as_slice();
    let sets = input_number(items, name).is_some() && is_whole(json);
    let hides = first && hidden_output(items, name).is_some() && is_truth(json);
    !has_colon(name) && (sets || hides)
}

fn are_taken_pairs(app: &App, first: bool, pairs: &Map<String, Json>) -> bool
    ensures { result ≡ are_taken_pairs (shape_of app.now) first (members_view pairs.now.entries) }
{
    for (name, json) in pairs.iter() {
        if !is_taken_pair(app, first, name.as_str(), json) {
            return false;
        }
    }
    true
}

fn has_taken_data(app: &App, first: bool, pairs: Option<&Map<String, Json>>) -> bool
    ensures { result ≡ has_taken_data (shape_of app.now) first
        (option_map (λ m. members_view m.now.entries) pairs.entry) }
{
    match pairs {
        Some(pairs) => are_taken_pairs(app, first, pairs),
        None => false,
    }
}

fn has_two_members(json: &Json) -> bool
    ensures { result ≡ has_two_members (view json.now) }
{
    match json {
        Json::Object(members) => members.len() == 2,
        _ => false,
    }
}

fn is_taken_json(app: &App, first: bool, json: &Json) -> bool
    ensures { result ≡ is_taken_json (shape_of app.now) first (Some (view json.now)) }
{
    let data = json.get("data").and_then(Json::as_object);
    has_two_members(json) && has_taken_data(app, first, data)
}

fn pairs_set(first: bool, client: Client) -> Option<ClientData>
    ensures { result ≡ pairs_set first client }
{
    match (first, client) {
        (true, Client::Init(pairs)) => Some(pairs),
        (false, Client::Update(pairs)) => Some(pairs),
        _ => None,
    }
}

fn pairs_of_json(
    alloc: Global,
    app: &App,
    first: bool,
    json: &Json,
) -> Result<Option<ClientData>, Memory>
    ensures { IfOk result (λ pairs. pairs ≡ taken_json_pairs (shape_of app.now) first (view json.now)) }
{
    if !is_taken_json(app, first, json) {
        return Ok(None);
    }
    let client = client_of(alloc, json)?;
    Ok(pairs_set(first, client))
}

/// Reads the text of a transcript's line in the form that `replay` takes today: an object with
/// exactly the keys `method` and `data`; the method `init` on the first line and `update` on each
/// later one; and data of declared inputs with whole numbers of 64 bits and, on the first line, of
/// `.clientdata_output_X_hidden` with a truth value, X a declared output.
///
/// Answers what the text sets, or nothing where it has not this form.
pub fn read_taken(
    alloc: Global,
    app: &App,
    first: bool,
    text: &RxText,
) -> Result<Option<ClientData>, Memory>
    ensures { IfOk result (λ pairs. pairs ≡ taken_pairs (shape_of app.now) first text.now) }
{
    if text.len() > MESSAGE_LIMIT {
        return Ok(None);
    }
    match Json::from_str(alloc, text.as_str()) {
        Ok(json) => pairs_of_json(alloc, app, first, &json),
        Err(error) if error.is_memory() => Err(Memory),
        Err(_) => Ok(None),
    }
}
