ghost use Rattle.std.specs.Prelude.{◌≡◌, IfOk};
ghost use Rattle.app_tree.specs.View.{shape_of};
ghost use Rattle.session_model.specs.Alone.{flush_with_pairs};
ghost use Rattle.session_model.specs.Texts.{first_texts, later_texts};
ghost use Rattle.taken_cycle.specs.State.{state_of, AreThawed};
ghost use Rattle.taken_cycle.specs.Built.{IsBuilt};
ghost use Rattle.taken_cycle.specs.inner.Passed.{Passes};
ghost use Rattle.taken_cycle.specs.inner.PassTexts.{Sends};

use crate::apply::apply_pairs;
use crate::flushing::{Pass, flush};
use crate::texts::{EventTexts, first_texts, later_texts};
use app_tree::App;
use rx_value::{Memory, RxText, SourceValue};
use session_model::ReaderState;
use shiny_json::Pair;
use std::alloc::Global;

fn apply_and_flush(
    alloc: Global,
    app: &App,
    values: &mut Vec<SourceValue>,
    readers: &mut Vec<ReaderState>,
    pairs: &[Pair],
) -> Result<Pass, Memory>
    requires built { IsBuilt (shape_of app.now) }
    requires thawed { AreThawed values.old.items }
    ensures passes { IfOk result (λ p. Passes (shape_of app.now)
        (flush_with_pairs (shape_of app.now) pairs.now (state_of values.old.items readers.old.items))
        (state_of values.new.items readers.new.items) p.outputs p.spent) }
    ensures thawed { AreThawed values.new.items }
{
    apply_pairs(alloc, app, values, readers, pairs)?;
    flush(alloc, app, values.as_slice(), readers)
}

/// The first event of a session, which sends its texts whatever runs.
pub fn first_event(
    alloc: Global,
    app: &App,
    values: &mut Vec<SourceValue>,
    readers: &mut Vec<ReaderState>,
    label: &RxText,
    pairs: &[Pair],
) -> Result<EventTexts, Memory>
    requires built { IsBuilt (shape_of app.now) }
    requires thawed { AreThawed values.old.items }
    ensures sends { IfOk result (λ sent.
        let f = flush_with_pairs (shape_of app.now) pairs.now (state_of values.old.items readers.old.items) in
        Sends (first_texts (shape_of app.now) label.now f) f (state_of values.new.items readers.new.items) sent) }
    ensures thawed { AreThawed values.new.items }
{
    let pass = apply_and_flush(alloc, app, values, readers, pairs)?;
    let spent = pass.spent;
    let texts = first_texts(alloc, label, pass)?;
    Ok(EventTexts { texts, spent })
}

/// A later event, which sends nothing where nothing ran and the session goes on.
pub fn later_event(
    alloc: Global,
    app: &App,
    values: &mut Vec<SourceValue>,
    readers: &mut Vec<ReaderState>,
    pairs: &[Pair],
) -> Result<EventTexts, Memory>
    requires built { IsBuilt (shape_of app.now) }
    requires thawed { AreThawed values.old.items }
    ensures sends { IfOk result (λ sent.
        let f = flush_with_pairs (shape_of app.now) pairs.now (state_of values.old.items readers.old.items) in
        Sends (later_texts (shape_of app.now) f) f (state_of values.new.items readers.new.items) sent) }
    ensures thawed { AreThawed values.new.items }
{
    let pass = apply_and_flush(alloc, app, values, readers, pairs)?;
    let spent = pass.spent;
    let texts = later_texts(alloc, pass)?;
    Ok(EventTexts { texts, spent })
}
