ghost use Rattle.std.specs.Prelude.{◌≡◌, ◌≢◌, ◌≤◌, ◌+◌, [], true, false, not, IfOk, None, Some, is_some};
ghost use Rattle.app_tree.specs.Cover.{is_sound};
ghost use Rattle.app_tree.specs.View.{shape_of};
ghost use Rattle.flush_cycle.specs.Flushing.{most_bodies};
ghost use Rattle.flush_cycle.specs.Jobs.{IsOfRunning, IsNextJob};
ghost use Rattle.session_model.specs.Faithful.{IsFaithful};
ghost use Rattle.session_model.specs.Journal.{is_full};
ghost use Rattle.session_model.specs.State.{first_state};
ghost use Rattle.session_model.specs.Standing.{first_kept_flush, StandsWholly};
ghost use Rattle.session_host.specs.Hosting.{first_flusher};
ghost use Rattle.session_host.specs.Keeping.{GoesOn};
ghost use Rattle.session_host.specs.Opening.{IsUnused, Opens};
ghost use Rattle.session_host.specs.Turning.{Stays, Turns, EndsTask, is_stale, is_journal_full, is_running_in};

use crate::closed::Closed;
use crate::host::Host;
use crate::journal::Journal;
use crate::turned::Turned;
use app_tree::App;
use flush_cycle::Flusher;
use rx_ports::Link;
use rx_value::Memory;
use session_model::Reason;
use std::alloc::Global;
use std::marker::Model;
use std::sync::Arc;
use std::sync::ledger::Ledger;
use task_board::Job;
use task_jobs::Done;
use term_eval::{Asker, Steps};

/// A session of an app over a link.
#[derive(Drop)]
pub struct Hosted<L: Link> {
    pub(crate) host: Host<L>,
}

impl<L: Link> Model for Hosted<L> {
    ghost use Rattle.std.specs.Coded.{codes};
    ghost use Rattle.app_tree.specs.contracts.term.Term as term;
    ghost use Rattle.app_tree.specs.contracts.statement.Statement as statement;
    ghost use Rattle.session_host.specs.Hosting.{Hosting};
    ghost use Rattle.session_host.specs.Keeping.{IsHosted};

    ghost Value = { Hosting };

    ghost coded = { Prim.hlevel (codes, term.the_row.coded, statement.the_row.coded) };

    ghost view = { λ h. h.host };

    ghost invariant = { λ h. IsHosted h.host };
}

/// What is kept for a session of this app in which nothing has run.
fn open(alloc: Global, app: &Arc<App>) -> Result<Flusher, Memory>
    requires { is_sound (shape_of app.now.value) ≡ true }
    ensures flusher { IfOk result (λ f. f ≡ first_flusher app.now.value) }
    ensures stands { StandsWholly (shape_of app.now.value) (first_kept_flush (shape_of app.now.value)) (first_state (shape_of app.now.value)) }
{
    let _ = app.items();
    Flusher::new(alloc, app.clone()?)
}

/// A session that was to be opened.
#[derive(Drop)]
pub enum Opened<L: Link> {
    Ready(Hosted<L>),
    /// There was no memory for it.
    Over(Closed<L>),
}

impl<L: Link> Hosted<L> {
    /// A session of this app over this link, to which nothing has come. The app's cached readers must be covered by their keys.
    pub fn new(alloc: Global, app: Arc<App>, link: L) -> Opened<L>
        requires sound { is_sound (shape_of app.value) ≡ true }
        requires unused { IsUnused
            (record { label = L.label link; faults = L.faults link; received = L.received link; sent = L.sent link; script = L.script link }) }
        ensures { Opens app.value
            (record { label = L.label link; faults = L.faults link; received = L.received link; sent = L.sent link; script = L.script link })
            result }
    {
        let journal = Journal::new(alloc);
        match open(alloc, &app) {
            Ok(flusher) => Opened::Ready(Hosted {
                host: Host {
                    app,
                    link,
                    journal,
                    flusher,
                    over: None,
                },
            }),
            Err(_) => Opened::Over(Closed {
                app,
                link,
                journal,
                reason: Reason::Memory,
            }),
        }
    }

    /// Asks the link for its next item, journals it, applies it and sends what it comes to. Where an item is journaled and the
    /// session goes on the answer is `Worked`.
    pub fn turn<A: Asker, T: Ledger>(
        &mut self,
        alloc: Global,
        asker: &mut A,
        steps: &mut Steps<T>,
    ) -> Turned
        requires open { self.old.over ≡ None }
        requires of_app { A.app asker.old ≡ shape_of self.old.app }
        requires none_out { A.out asker.old ≡ [] }
        ensures stays { Stays self.old self.new }
        ensures turns { Turns (shape_of self.old.app) self.old self.new steps.old steps.new result }
        ensures full { is_journal_full self.new.over ≡ is_full self.old.journal }
        ensures most { steps.new ≤ steps.old + most_bodies (shape_of self.old.app) }
        ensures follows { A.follows asker.new asker.old }
        ensures none_out { A.out asker.new ≡ [] }
    {
        self.host.turn(alloc, asker, steps)
    }

    /// Hands in the end of an invocation of a task. Where it is the running one it is journaled, applied, and what it comes to is
    /// sent; a number that isn't the running one is stale.
    pub fn end_task<A: Asker, T: Ledger>(
        &mut self,
        alloc: Global,
        done: Done,
        asker: &mut A,
        steps: &mut Steps<T>,
    ) -> Turned
        requires open { self.old.over ≡ None }
        requires running { is_running_in self.old done.task done.number ≡ true
            → IsOfRunning (shape_of self.old.app) self.old.flusher.kept.boards done }
        requires of_app { A.app asker.old ≡ shape_of self.old.app }
        requires none_out { A.out asker.old ≡ [] }
        ensures stays { Stays self.old self.new }
        ensures ends { EndsTask (shape_of self.old.app) self.old self.new steps.old steps.new done.task done.number result }
        ensures stale { is_stale result ≡ not (is_running_in self.old done.task done.number) }
        ensures full { is_stale result ≡ false → is_journal_full self.new.over ≡ is_full self.old.journal }
        ensures most { steps.new ≤ steps.old + most_bodies (shape_of self.old.app) }
        ensures follows { A.follows asker.new asker.old }
        ensures none_out { A.out asker.new ≡ [] }
    {
        self.host.end_task(alloc, done, asker, steps)
    }

    /// Does nothing: it is there for its contract. The journal is the true record of the session.
    pub fn is_faithful(&self)
        ensures { IsFaithful (shape_of self.now.app) self.now.link self.now.journal self.now.over }
    {
        let _ = &self.host;
    }

    /// Does nothing: it is there for its contract. While the session goes on its Flusher stands for the state after the journal,
    /// and each output that is shown has last come to its fresh outcome.
    pub fn goes_on(&self)
        requires { self.now.over ≡ None }
        ensures { GoesOn self.now }
    {
        let _ = &self.host;
    }

    /// The oldest of the jobs that were started and not yet given out; there is none exactly where none is left.
    pub fn next_job(&mut self) -> Option<Job>
        ensures job { IsNextJob (shape_of self.old.flusher.app) self.old.flusher.kept.boards self.old.flusher.jobs self.new.flusher.jobs result }
        ensures rest { self.new ≡ record self.old { flusher = record self.old.flusher { jobs = self.new.flusher.jobs } } }
    {
        self.host.flusher.next_job()
    }

    pub fn is_over(&self) -> bool
        ensures { result ≡ is_some self.now.over }
    {
        self.host.over.is_some()
    }

    pub fn link(&self) -> &L
        ensures { record { label = L.label result.now; faults = L.faults result.now; received = L.received result.now; sent = L.sent result.now; script = L.script result.now } ≡ self.now.link }
    {
        &self.host.link
    }

    /// What is kept for the session.
    pub fn flusher(&self) -> &Flusher
        ensures { result.now ≡ self.now.flusher }
    {
        &self.host.flusher
    }

    /// The record of a session that is over.
    pub fn into_closed(self) -> Closed<L>
        requires { self.over ≢ None }
        ensures app { result.app ≡ self.app }
        ensures link { result.link ≡ self.link }
        ensures journal { result.journal ≡ self.journal }
        ensures reason { Some result.reason ≡ self.over }
    {
        let Hosted { host } = self;
        let Host {
            app,
            link,
            journal,
            flusher: _,
            over,
        } = host;
        match over {
            Some(reason) => Closed {
                app,
                link,
                journal,
                reason,
            },
            None => unreachable!(),
        }
    }
}
