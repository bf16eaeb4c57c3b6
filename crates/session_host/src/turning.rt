//! One event of a session: it is journaled, applied and answered.

ghost use Rattle.std.specs.Prelude.{◌≡◌, ◌≢◌, ◌≤◌, ◌+◌, ℕ, [], true, false, not, None, Some};
ghost use Rattle.app_tree.specs.View.{shape_of};
ghost use Rattle.flush_cycle.specs.Flushing.{most_bodies};
ghost use Rattle.flush_cycle.specs.Jobs.{IsOfRunning};
ghost use Rattle.task_board.specs.Board.{board_at, running_number};
ghost use Rattle.session_model.specs.Journal.{is_full};
ghost use Rattle.session_model.specs.declared.event.Event.TheVariants as event;
ghost use Rattle.session_host.specs.Keeping.{IsHosted};
ghost use Rattle.session_host.specs.Turning.{Stays, Answers, Turns, EndsTask, is_stale, is_journal_full, is_running_in};
ghost use Rattle.session_host.specs.inner.Answering.{Has, Handles};

use crate::applying::{Applied, apply_read};
use crate::host::Host;
use crate::turned::Turned;
use rx_ports::{Link, Recv};
use rx_value::RxText;
use session_model::{Event, Reason};
use shiny_json::{BadMessage, read_client};
use std::alloc::Global;
use std::sync::ledger::Ledger;
use task_jobs::Done;
use term_eval::{Asker, Steps};

impl<L: Link> Host<L> {
    /// A text came.
    fn take_text<A: Asker, T: Ledger>(
        &mut self,
        alloc: Global,
        text: RxText,
        asker: &mut A,
        steps: &mut Steps<T>,
    ) -> Turned
        requires has { Has (event.Text text) self.old }
        requires of_app { A.app asker.old ≡ shape_of self.old.app }
        requires none_out { A.out asker.old ≡ [] }
        ensures handles { Handles (event.Text text) self.old self.new steps.old steps.new result }
        ensures most { steps.new ≤ steps.old + most_bodies (shape_of self.old.app) }
        ensures follows { A.follows asker.new asker.old }
        ensures none_out { A.out asker.new ≡ [] }
    {
        let read = read_client(alloc, &text);
        self.journal.push(Event::Text(text));
        let applied = apply_read(
            &mut self.flusher,
            alloc,
            self.link.label(),
            read,
            asker,
            steps,
        );
        self.answer(alloc, applied)
    }

    /// An item came that is no text.
    fn take_other(&mut self, alloc: Global) -> Turned
        requires has { Has event.Other self.old }
        ensures handles { (bodies : ℕ) → Handles event.Other self.old self.new bodies bodies result }
    {
        self.journal.push(Event::Other);
        self.answer(alloc, Applied::Refused(BadMessage::Other))
    }

    /// The link has ended.
    fn take_end(&mut self) -> Turned
        requires has { Has event.End self.old }
        ensures kept { IsHosted self.new }
        ensures stays { Stays self.old self.new }
        ensures script { self.new.link.script ≡ self.old.link.script }
        ensures answers { (bodies : ℕ) → Answers (shape_of self.old.app) self.old self.new bodies bodies event.End }
        ensures over { self.new.over ≡ Some Reason.Ended }
        ensures answer { result ≡ Turned.Over }
    {
        self.journal.push(Event::End);
        self.close(Reason::Ended)
    }

    /// The running invocation of a task has ended.
    fn take_task_end<A: Asker, T: Ledger>(
        &mut self,
        alloc: Global,
        done: Done,
        asker: &mut A,
        steps: &mut Steps<T>,
    ) -> Turned
        requires has { Has (event.TaskEnd done.task done.number) self.old }
        requires running { IsOfRunning (shape_of self.old.app) self.old.flusher.kept.boards done }
        requires of_app { A.app asker.old ≡ shape_of self.old.app }
        requires none_out { A.out asker.old ≡ [] }
        ensures handles { Handles (event.TaskEnd done.task done.number) self.old self.new steps.old steps.new result }
        ensures most { steps.new ≤ steps.old + most_bodies (shape_of self.old.app) }
        ensures follows { A.follows asker.new asker.old }
        ensures none_out { A.out asker.new ≡ [] }
    {
        self.journal.push(Event::TaskEnd {
            task: done.task(),
            number: done.number(),
        });
        let flushed = self.flusher.task_end(alloc, done, asker, steps);
        self.answer(alloc, Applied::Came(flushed))
    }

    /// Asks the link for its next item.
    pub fn turn<A: Asker, T: Ledger>(
        &mut self,
        alloc: Global,
        asker: &mut A,
        steps: &mut Steps<T>,
    ) -> Turned
        requires kept { IsHosted self.old }
        requires open { self.old.over ≡ None }
        requires of_app { A.app asker.old ≡ shape_of self.old.app }
        requires none_out { A.out asker.old ≡ [] }
        ensures kept { IsHosted self.new }
        ensures stays { Stays self.old self.new }
        ensures turns { Turns (shape_of self.old.app) self.old self.new steps.old steps.new result }
        ensures full { is_journal_full self.new.over ≡ is_full self.old.journal }
        ensures most { steps.new ≤ steps.old + most_bodies (shape_of self.old.app) }
        ensures follows { A.follows asker.new asker.old }
        ensures none_out { A.out asker.new ≡ [] }
    {
        if self.journal.is_full() {
            return self.close(Reason::JournalFull);
        }
        if self.journal.reserve().is_err() {
            return self.close(Reason::Memory);
        }
        match self.link.recv(alloc) {
            Recv::Text(text) => self.take_text(alloc, text, asker, steps),
            Recv::Other => self.take_other(alloc),
            Recv::Ended => self.take_end(),
            Recv::Idle => Turned::Idle,
            Recv::Failed => self.close(Reason::LinkFailed),
            Recv::Memory => self.close(Reason::LinkMemory),
        }
    }

    /// Hands in the end of an invocation.
    pub fn end_task<A: Asker, T: Ledger>(
        &mut self,
        alloc: Global,
        done: Done,
        asker: &mut A,
        steps: &mut Steps<T>,
    ) -> Turned
        requires kept { IsHosted self.old }
        requires open { self.old.over ≡ None }
        requires running { is_running_in self.old done.task done.number ≡ true
            → IsOfRunning (shape_of self.old.app) self.old.flusher.kept.boards done }
        requires of_app { A.app asker.old ≡ shape_of self.old.app }
        requires none_out { A.out asker.old ≡ [] }
        ensures kept { IsHosted self.new }
        ensures stays { Stays self.old self.new }
        ensures ends { EndsTask (shape_of self.old.app) self.old self.new steps.old steps.new done.task done.number result }
        ensures stale { is_stale result ≡ not (is_running_in self.old done.task done.number) }
        ensures full { is_stale result ≡ false → is_journal_full self.new.over ≡ is_full self.old.journal }
        ensures most { steps.new ≤ steps.old + most_bodies (shape_of self.old.app) }
        ensures follows { A.follows asker.new asker.old }
        ensures none_out { A.out asker.new ≡ [] }
    {
        let running = self.flusher.running(done.task());
        if running != Some(done.number()) {
            return Turned::Stale { running };
        }
        if self.journal.is_full() {
            return self.close(Reason::JournalFull);
        }
        if self.journal.reserve().is_err() {
            return self.close(Reason::Memory);
        }
        self.take_task_end(alloc, done, asker, steps)
    }
}
