ghost use Rattle.std.specs.Prelude.{◌≡◌, ◌<◌, [], IfOk, length, true};
ghost use Rattle.app_tree.specs.View.{shape_of};
ghost use Rattle.app_tree.specs.Cover.{is_sound};
ghost use Rattle.app_tree.specs.Numbering.{starting_values};
ghost use Rattle.session_model.specs.Change.{change};
ghost use Rattle.session_model.specs.Standing.{first_kept_flush};
ghost use Rattle.flush_cycle.specs.Reports.{nothing_made};
ghost use Rattle.flush_cycle.specs.Working.{IsReady, IsAtRest};
ghost use Rattle.flush_cycle.specs.inner.Acting.{Moved};

use crate::output::OutputState;
use crate::report::{Made, Numbers};
use crate::starting::{add_marked, boards, first_task, outputs, pending};
use app_tree::{App, SourceNumbers};
use dep_graph::Marked;
use pending_set::Pending;
use react_session::Session;
use rx_value::{Memory, SourceValue};
use shiny_json::{Batch, BatchOutputs, Messages};
use std::alloc::Global;
use std::collections::VecDeque;
use std::marker::Model;
use std::sync::Arc;
use task_board::{Board, Job};

/// What a session's events work on.
#[derive(Drop)]
pub struct Work {
    pub(crate) app: Arc<App>,
    pub(crate) numbers: SourceNumbers,
    /// The source number of the first task.
    pub(crate) first_task: u32,
    pub(crate) session: Session,
    /// By reader number.
    pub(crate) outputs: Vec<OutputState>,
    pub(crate) boards: Board,
    /// The readers that wait for a flush.
    pub(crate) pending: Pending,
    /// Room for the readers that a write marks.
    marked: Marked,
    /// The jobs that were started and not yet given out, oldest first.
    pub(crate) jobs: VecDeque<Job>,
    /// What the event's flush has made so far.
    pub(crate) made: Made,
}

impl Model for Work {
    ghost use Rattle.std.specs.Prelude.{map};
    ghost use Rattle.std.specs.Coded.{codes};
    ghost use Rattle.app_tree.specs.contracts.term.Term as term;
    ghost use Rattle.app_tree.specs.contracts.statement.Statement as statement;
    ghost use Rattle.flush_cycle.specs.inner.Roles.{output_seen};
    ghost use Rattle.flush_cycle.specs.Working.{Working};
    ghost use Rattle.flush_cycle.specs.inner.Parts.{IsHeld};

    ghost Value = { Working };

    ghost coded = { Prim.hlevel (codes, term.the_row.coded, statement.the_row.coded) };

    ghost view = { λ w. record {
      app = w.app.value;
      kept = record { session = w.session.session; outputs = map output_seen w.outputs.items; boards = w.boards };
      pending = w.pending;
      jobs = w.jobs.items;
      made = w.made;
      whole = w.session.whole;
    } };

    ghost invariant = { λ w. IsHeld w.app.value w.numbers w.first_task w.session w.outputs.items w.boards w.pending w.marked w.jobs.items };
}

/// No run was made.
pub fn nothing_made(alloc: Global) -> Made
    ensures { result ≡ nothing_made }
{
    Made {
        runs: Numbers::new(alloc),
        batch: Batch {
            outputs: BatchOutputs::new(alloc),
            messages: Messages::new(alloc),
        },
    }
}

impl Work {
    /// A session of this app in which nothing has run, and nothing is shown.
    pub fn new(alloc: Global, app: Arc<App>) -> Result<Work, Memory>
        requires { is_sound (shape_of app.value) ≡ true }
        ensures app { IfOk result (λ w. w.app ≡ app.value) }
        ensures kept { IfOk result (λ w. w.kept ≡ first_kept_flush (shape_of app.value)) }
        ensures jobs { IfOk result (λ w. w.jobs ≡ []) }
        ensures made { IfOk result (λ w. w.made ≡ nothing_made) }
        ensures rests { IfOk result (λ w. IsAtRest w) }
    {
        let numbers = SourceNumbers::new(alloc, &app)?;
        let first_task = first_task(&app);
        let session = Session::new(alloc, app.clone()?)?;
        let outputs = outputs(alloc, &app)?;
        let boards = boards(alloc, &app)?;
        let pending = pending(alloc, &app)?;
        let marked = Marked::new(alloc, app.readers())?;
        Ok(Work {
            app,
            numbers,
            first_task,
            session,
            outputs,
            boards,
            pending,
            marked,
            jobs: VecDeque::new(alloc),
            made: nothing_made(alloc),
        })
    }

    /// Sets a source. An equal value does nothing. Each reader that this marks waits from now on, where it is one that a flush
    /// runs.
    pub fn write(&mut self, source: u32, value: SourceValue)
        requires known { source < length (starting_values (shape_of self.old.app).items) }
        requires ready { IsReady self.old }
        ensures { Moved (change source value) self.old self.new }
    {
        let _change = self.session.write(source, value, &mut self.marked);
        add_marked(
            &mut self.pending,
            self.outputs.as_slice(),
            self.marked.as_slice(),
        );
    }
}
