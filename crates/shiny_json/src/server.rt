ghost use Rattle.std.specs.Prelude.{◌≡◌, false, IfOk};
ghost use Rattle.serde_json.specs.View.{view};
ghost use Rattle.serde_json.specs.Written.{compact_text, has_float};
ghost use Rattle.shiny_json.specs.Server.{config_data, config_text, busy_data, busy_text, progress_data, progress_text, recalculating_data, recalculating_text};

use rx_value::{Memory, RxText};
use serde_json::{Value as Json, json};
use std::alloc::{AllocError, Global};

/// The compact text of a value without fractions.
pub(crate) fn json_text(alloc: Global, json: &Json) -> Result<RxText, Memory>
    requires { has_float (view json.now) ≡ false }
    ensures { IfOk result (λ t. t ≡ compact_text (view json.now)) }
{
    let text = json.to_string(alloc)?;
    RxText::from_str(alloc, text.as_str())
}

fn config_json(alloc: Global, label: &str) -> Result<Json, AllocError>
    ensures { IfOk result (λ j. view j ≡ config_data label.now) }
{
    json!(in alloc; {"config": {"sessionId": label, "user": null, "workerId": ""}})
}

fn busy_json(alloc: Global, busy: bool) -> Result<Json, AllocError>
    ensures { IfOk result (λ j. view j ≡ busy_data busy) }
{
    let status = if busy { "busy" } else { "idle" };
    json!(in alloc; {"busy": status})
}

fn progress_json(alloc: Global, name: &str) -> Result<Json, AllocError>
    ensures { IfOk result (λ j. view j ≡ progress_data name.now) }
{
    json!(in alloc; {"progress": {"message": {"id": name}, "type": "binding"}})
}

fn recalculating_json(alloc: Global, name: &str, done: bool) -> Result<Json, AllocError>
    ensures { IfOk result (λ j. view j ≡ recalculating_data name.now done) }
{
    let status = if done {
        "recalculated"
    } else {
        "recalculating"
    };
    json!(in alloc; {"recalculating": {"name": name, "status": status}})
}

/// The first text of a session: its label, no user and no worker.
pub fn write_config(alloc: Global, label: &RxText) -> Result<RxText, Memory>
    ensures { IfOk result (λ t. t ≡ config_text label.now) }
{
    let json = config_json(alloc, label.as_str())?;
    json_text(alloc, &json)
}

/// Where `busy`, that runs begin; else that they have ended.
pub fn write_busy(alloc: Global, busy: bool) -> Result<RxText, Memory>
    ensures { IfOk result (λ t. t ≡ busy_text busy) }
{
    let json = busy_json(alloc, busy)?;
    json_text(alloc, &json)
}

/// That the run of the output `name` is in progress, which the client shows beside the output.
pub fn write_progress(alloc: Global, name: &RxText) -> Result<RxText, Memory>
    ensures { IfOk result (λ t. t ≡ progress_text name.now) }
{
    let json = progress_json(alloc, name.as_str())?;
    json_text(alloc, &json)
}

/// That the run of the output `name` begins, or where `done`, that it has ended.
pub fn write_recalc(alloc: Global, name: &RxText, done: bool) -> Result<RxText, Memory>
    ensures { IfOk result (λ t. t ≡ recalculating_text name.now done) }
{
    let json = recalculating_json(alloc, name.as_str(), done)?;
    json_text(alloc, &json)
}
