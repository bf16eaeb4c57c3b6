//! The parts of a session in which nothing has run.

ghost use Rattle.std.specs.Prelude.{◌≡◌, ◌≤◌, ◌<◌, ℕ, true, if◌then◌else◌, IfOk, map, filter, length};
ghost use Rattle.app_tree.specs.declared.limits.TheConstants.{ITEM_LIMIT};
ghost use Rattle.app_tree.specs.Fresh.{is_among};
ghost use Rattle.pending_set.specs.Waiting.{with_waiting};
ghost use Rattle.app_tree.specs.View.{shape_of};
ghost use Rattle.app_tree.specs.Numbering.{readers, is_task};
ghost use Rattle.session_model.specs.Flush.{priority_of};
ghost use Rattle.session_model.specs.State.{first_boards};
ghost use Rattle.session_model.specs.Tasks.{first_task};
ghost use Rattle.session_model.specs.Standing.{first_kept_flush};
ghost use Rattle.flush_cycle.specs.inner.Roles.{first_output};
ghost use Rattle.flush_cycle.specs.Working.{KnowsWaiting};
ghost use Rattle.flush_cycle.specs.inner.Marking.{AddsMarked};

use crate::output::{OutputState, priority_of, role_of};
use app_tree::App;
use pending_set::Pending;
use rx_value::Memory;
use std::alloc::Global;
use task_board::Board;

/// No reader is shown or was run.
pub fn outputs(alloc: Global, app: &App) -> Result<Vec<OutputState>, Memory>
    ensures { IfOk result (λ outputs. outputs.items ≡ map first_output (readers (shape_of app.now))) }
{
    let items = app.few_items();
    let mut outputs = Vec::new(alloc);
    for item in items {
        if item.is_reader() {
            let output = OutputState {
                role: role_of(item),
                shown: false,
                last: None,
            };
            if outputs.push(output).is_err() {
                return Err(Memory);
            }
        }
    }
    Ok(outputs)
}

/// A reader waits from now on, where that is to be.
pub fn add_if(pending: &mut Pending, n: u32, wanted: bool)
    requires { n < length pending.old.priorities }
    ensures { pending.new ≡ (if wanted then with_waiting true n pending.old else pending.old) }
{
    if wanted {
        pending.add(n);
    }
}

/// Those that are listed wait from now on, where a flush runs them.
pub fn add_marked(pending: &mut Pending, outputs: &[OutputState], marked: &[u32])
    requires known { (n : ℕ) → is_among n marked.now ≡ true → n < length outputs.now }
    requires priorities { length outputs.now ≤ length pending.old.priorities }
    requires waits { length outputs.now ≤ length pending.old.waits }
    ensures { AddsMarked outputs.now marked.now pending.old pending.new }
{
    for n in marked {
        add_if(pending, *n, outputs[*n as usize].is_wanted());
    }
}

fn priorities(alloc: Global, app: &App) -> Result<Vec<i64>, Memory>
    ensures { IfOk result (λ priorities. priorities.items ≡ map priority_of (readers (shape_of app.now))) }
{
    let items = app.few_items();
    let mut priorities = Vec::new(alloc);
    for item in items {
        if item.is_reader() {
            if priorities.push(priority_of(item)).is_err() {
                return Err(Memory);
            }
        }
    }
    Ok(priorities)
}

/// The set of the readers that wait, at first those that are run whether they are shown or not.
pub fn pending(alloc: Global, app: &App) -> Result<Pending, Memory>
    ensures priorities { IfOk result (λ p. p.priorities ≡ map priority_of (readers (shape_of app.now))) }
    ensures waits { IfOk result (λ p. length p.waits ≡ length (readers (shape_of app.now))) }
    ensures known { IfOk result (λ p. KnowsWaiting (shape_of app.now) (first_kept_flush (shape_of app.now)) p) }
{
    let count = app.readers();
    let priorities = priorities(alloc, app)?;
    let mut pending = Pending::new(alloc, priorities.as_slice())?;
    for n in 0..count {
        add_if(&mut pending, n, role_of(app.reader(n)).is_run(false));
    }
    Ok(pending)
}

/// How many tasks the app has.
pub fn task_count(app: &App) -> u32
    ensures value { result ≡ length (filter is_task (shape_of app.now).items) }
    ensures most { result ≤ ITEM_LIMIT }
{
    let items = app.few_items();
    let mut tasks = 0;
    for item in items {
        if item.is_task() {
            tasks += 1;
        }
    }
    tasks
}

/// The source number of the first task: the inputs and the values stand before it, and the tasks are the last of those sources
/// that are items.
pub fn first_task(app: &App) -> u32
    ensures { result ≡ first_task (shape_of app.now) }
{
    app.declared() - task_count(app)
}

/// No task was ever invoked.
pub fn boards(alloc: Global, app: &App) -> Result<Board, Memory>
    ensures { IfOk result (λ boards. boards ≡ first_boards (shape_of app.now).items) }
{
    Board::new(alloc, task_count(app))
}
