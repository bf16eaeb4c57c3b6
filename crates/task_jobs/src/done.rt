ghost use Rattle.std.specs.Prelude.{◌≡◌, IfOk, Some, filter, length, option_map, map, slice_get};
ghost use Rattle.app_tree.specs.Evaluate.{outcome_of};
ghost use Rattle.app_tree.specs.Numbering.{is_task};
ghost use Rattle.app_tree.specs.Tasks.{nothing_read, body_outcome, task_outcome};
ghost use Rattle.app_tree.specs.View.{node_of, shape_of, tree_of};
ghost use Rattle.task_jobs.specs.FitsApp.{IsTaskOf, FitsApp};

use crate::no_reads::NoReads;
use app_tree::{App, Item, Term};
use rx_value::{Memory, Outcome, Values};
use std::alloc::Global;
use std::marker::Model;
use std::sync::Arc;
use task_board::Job;
use term_eval::{Evaled, eval};

/// A job that was run, with its outcome: that of the task's body on the job's arguments, in the app that
/// the job was run for.
#[derive(Drop)]
pub struct Done {
    app: Arc<App>,
    task: u32,
    number: u64,
    args: Values,
    outcome: Outcome,
}

impl Model for Done {
    ghost use Rattle.std.specs.Prelude.{◌≡◌};
    ghost use Rattle.std.specs.Coded.{codes};
    ghost use Rattle.app_tree.specs.Tasks.{task_outcome};
    ghost use Rattle.app_tree.specs.View.{shape_of};
    ghost use Rattle.app_tree.specs.contracts.term.Term as term;
    ghost use Rattle.app_tree.specs.contracts.statement.Statement as statement;
    ghost use Rattle.task_jobs.specs.DoneJob.{DoneJob};

    ghost Value = { DoneJob };

    ghost coded = { Prim.hlevel (codes, term.the_row.coded, statement.the_row.coded) };

    ghost view = { λ d. record { app = d.app.value; task = d.task; number = d.number; args = d.args; outcome = d.outcome } };

    ghost invariant = { λ d. d.outcome ≡ task_outcome (shape_of d.app.value) d.task d.args };
}

impl Done {
    /// The number of the task among the app's tasks, from 0.
    pub fn task(&self) -> u32
        ensures { result ≡ self.now.task }
    {
        self.task
    }

    /// The number of the invocation among the task's.
    pub fn number(&self) -> u64
        ensures { result ≡ self.now.number }
    {
        self.number
    }

    /// The values of the task's parameters.
    pub fn args(&self) -> &Values
        ensures { result.now ≡ self.now.args }
    {
        &self.args
    }

    /// What the task's body came to on these arguments.
    pub fn outcome(&self) -> &Outcome
        ensures outcome { result.now ≡ self.now.outcome }
        ensures of_body { result.now ≡ task_outcome (shape_of self.now.app) self.now.task self.now.args }
    {
        &self.outcome
    }
}

/// The task of this number among the items' tasks, from 0.
fn task_of(items: &[Item], number: usize) -> Option<&Item>
    ensures { option_map (λ i. node_of i.now) result ≡
        slice_get (filter is_task (map node_of items.now)) number }
{
    let mut left = number;
    for item in items {
        if item.is_task() {
            if left == 0 {
                return Some(item);
            }
            left -= 1;
        }
    }
    None
}

fn term_outcome(alloc: Global, body: &Term, args: &Values) -> Result<Outcome, Memory>
    ensures { IfOk result (λ outcome. outcome ≡ outcome_of (tree_of body.now) nothing_read args.now) }
{
    let mut reader = NoReads;
    match eval(alloc, body, args, &mut reader) {
        Evaled::Done(outcome) => Ok(outcome),
        Evaled::Wants(_) => unreachable!(),
        Evaled::Memory => Err(Memory),
    }
}

/// What the body of a task comes to on so many arguments as it has parameters.
fn item_outcome(alloc: Global, item: &Item, args: &Values) -> Result<Outcome, Memory>
    requires { IsTaskOf (length args.now) (Some (node_of item.now)) }
    ensures { IfOk result (λ outcome. outcome ≡ body_outcome (Some (node_of item.now)) args.now) }
{
    match item {
        Item::Task { body, .. } => term_outcome(alloc, body, args),
        _ => unreachable!(),
    }
}

fn task_outcome(alloc: Global, app: &App, task: u32, args: &Values) -> Result<Outcome, Memory>
    requires { IsTaskOf (length args.now) (slice_get (filter is_task (shape_of app.now).items) task) }
    ensures { IfOk result (λ outcome. outcome ≡ task_outcome (shape_of app.now) task args.now) }
{
    match task_of(app.items().as_slice(), task as usize) {
        Some(item) => item_outcome(alloc, item, args),
        None => unreachable!(),
    }
}

/// Runs a job of this app: its task is one of the app's, and it has as many arguments as the task has
/// parameters.
pub fn run_job(alloc: Global, app: Arc<App>, job: Job) -> Result<Done, Memory>
    requires { FitsApp (shape_of app.value) job }
    ensures app { IfOk result (λ done. done.app ≡ app.value) }
    ensures task { IfOk result (λ done. done.task ≡ job.task) }
    ensures number { IfOk result (λ done. done.number ≡ job.number) }
    ensures args { IfOk result (λ done. done.args ≡ job.args) }
    ensures outcome { IfOk result (λ done. done.outcome ≡ task_outcome (shape_of app.value) job.task job.args) }
{
    let Job { task, number, args } = job;
    let outcome = task_outcome(alloc, &app, task, &args)?;
    Ok(Done {
        app,
        task,
        number,
        args,
        outcome,
    })
}
