ghost use Rattle.std.specs.Prelude.{◌≡◌, ◌∷◌, [], ◌++◌, ◌<◌, length, slice_set, unwrap_or, slice_get, IfOk, OnOk};
ghost use Rattle.app_tree.specs.View.{shape_of};
ghost use Rattle.session_model.specs.State.{first_reader};
ghost use Rattle.session_model.specs.Flush.{flush};
ghost use Rattle.taken_cycle.specs.State.{state_of};
ghost use Rattle.taken_cycle.specs.Built.{IsBuilt};
ghost use Rattle.taken_cycle.specs.inner.Passed.{ran_reader, Passes, shown_output};

use crate::running::run;
use crate::waiting::{Waiting, next_waiting};
use app_tree::App;
use rx_value::{Memory, SourceValue};
use session_model::ReaderState;
use shiny_json::{BatchOutput, BatchOutputs};
use std::alloc::Global;

/// What a flush came to.
#[derive(Debug, Drop)]
pub struct Pass {
    /// The outputs that ran, in their order.
    pub outputs: BatchOutputs,
    /// Whether the budget was spent while an output still waited.
    pub spent: bool,
}

fn run_waiting(
    alloc: Global,
    waiting: &Waiting<'_>,
    values: &[SourceValue],
    readers: &mut Vec<ReaderState>,
) -> Result<BatchOutput, Memory>
    requires { waiting.now.number < length readers.old.items }
    ensures ran { OnOk result (readers.new.items ≡ slice_set readers.old.items waiting.now.number
        (ran_reader waiting.now.source values.now
        (unwrap_or (slice_get readers.old.items waiting.now.number) first_reader))) }
    ensures output { IfOk result (λ o. o ≡ shown_output waiting.now.name.now waiting.now.source values.now) }
{
    let reader = &mut readers[waiting.number];
    let outcome = run(alloc, waiting.source, values, reader)?;
    let name = waiting.name.copy(alloc)?;
    Ok(BatchOutput {
        name,
        plot: false,
        outcome,
    })
}

/// Runs what waits until nothing does, or the budget is spent.
pub fn flush(
    alloc: Global,
    app: &App,
    values: &[SourceValue],
    readers: &mut Vec<ReaderState>,
) -> Result<Pass, Memory>
    requires { IsBuilt (shape_of app.now) }
    ensures { IfOk result (λ p. Passes (shape_of app.now)
        (flush (shape_of app.now) (state_of values.now readers.old.items))
        (state_of values.now readers.new.items) p.outputs p.spent) }
{
    let items = app.items().as_slice();
    let mut outputs = BatchOutputs::new(alloc);
    let mut left = app.budget();
    let mut place = 0;
    let mut number = 0;
    while let Some(waiting) = next_waiting(items, readers.as_slice(), place, number) {
        if left == 0 {
            return Ok(Pass {
                outputs,
                spent: true,
            });
        }
        left -= 1;
        place = waiting.place;
        number = waiting.number;
        let output = run_waiting(alloc, &waiting, values, readers)?;
        outputs.push(output)?;
    }
    Ok(Pass {
        outputs,
        spent: false,
    })
}
