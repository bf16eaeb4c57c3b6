//! What is told of an event: its texts, and the report of its runs.

ghost use Rattle.std.specs.Prelude.{◌≡◌, ◌<◌, ◌&&◌, IfOk, OnOk, is_some, length, option_map};
ghost use Rattle.app_tree.specs.Fresh.{is_among};
ghost use Rattle.app_tree.specs.Numbering.{readers};
ghost use Rattle.app_tree.specs.View.{shape_of};
ghost use Rattle.session_model.specs.Standing.{kept_output};
ghost use Rattle.flush_cycle.specs.Reports.{is_in_progress, in_progress_from, report_of};
ghost use Rattle.flush_cycle.specs.Flushing.{stage_after};
ghost use Rattle.flush_cycle.specs.inner.Passing.{is_done};
ghost use Rattle.flush_cycle.specs.inner.Roles.{output_seen};
ghost use Rattle.flush_cycle.specs.inner.Telling.{Tells, with_noted, texts_by, flushed_of, flushed_by, report_by};

use crate::flushed::{Flushed, Texts};
use crate::flushing::End;
use crate::output::OutputState;
use crate::report::{Made, Numbers, Report};
use crate::stage::Stage;
use crate::texts::{first_texts, later_texts};
use crate::work::{Work, nothing_made};
use rx_value::{Memory, Outcome, RxText};
use std::alloc::Global;
use std::mem;

/// What an event comes to, where its flush found its memory.
#[derive(Debug, Drop)]
pub struct Told {
    pub end: End,
    pub texts: Texts,
    pub report: Report,
}

/// Whether the session goes on.
fn is_done(end: &End) -> bool
    ensures { result ≡ is_done end.now }
{
    match end {
        End::Done => true,
        End::BudgetSpent | End::ObserverFailed(_) => false,
    }
}

fn is_in_progress(last: &Option<Outcome>) -> bool
    ensures { result ≡ is_in_progress last.now }
{
    matches!(last, Some(Outcome::Running))
}

fn texts_of(alloc: Global, label: Option<&RxText>, made: &Made, done: bool) -> Result<Texts, Memory>
    ensures { IfOk result (λ texts. texts ≡ texts_by (option_map (λ t. t.now) label.entry) made.now done) }
{
    match label {
        Some(label) => first_texts(alloc, label, made, done),
        None => later_texts(alloc, made, done),
    }
}

impl Work {
    /// What is kept of the output of this reader number.
    pub fn output(&self, n: u32) -> &OutputState
        requires { n < length (readers (shape_of self.now.app)) }
        ensures { output_seen result.now ≡ kept_output self.now.kept n }
    {
        let outputs = self.outputs.as_slice();
        &outputs[n as usize]
    }

    /// Whether a reader is among these, and a task runs by its last outcome.
    fn ran_on(&self, n: u32, ran: &Numbers) -> bool
        requires { n < length (readers (shape_of self.now.app)) }
        ensures { result ≡ (is_in_progress (kept_output self.now.kept n).last && is_among n ran.now) }
    {
        is_in_progress(&self.output(n).last) && ran.as_slice().contains(&n)
    }

    /// Puts this reader behind the others where it is among those and a task runs by its last outcome.
    fn note(&self, n: u32, ran: &Numbers, numbers: &mut Numbers) -> Result<(), Memory>
        requires { n < length (readers (shape_of self.now.app)) }
        ensures { OnOk result (numbers.new ≡ with_noted (is_in_progress (kept_output self.now.kept n).last && is_among n ran.now) n numbers.old) }
    {
        if self.ran_on(n, ran) {
            numbers.push(n)
        } else {
            Ok(())
        }
    }

    /// Of these readers, which ran, the outputs whose last outcome is that a task runs, in rising order.
    fn in_progress(&self, alloc: Global, ran: &Numbers) -> Result<Numbers, Memory>
        ensures { IfOk result (λ numbers. numbers ≡ in_progress_from 0 ran.now self.now.kept.outputs) }
    {
        let mut numbers = Numbers::new(alloc);
        for n in 0..self.app.readers() {
            self.note(n, ran, &mut numbers)?;
        }
        Ok(numbers)
    }

    fn report(&self, alloc: Global, init: bool, made: Made) -> Result<Report, Memory>
        ensures { IfOk result (λ report. report ≡ report_of init made self.now.kept) }
    {
        let pending = self.in_progress(alloc, &made.runs)?;
        let Made { runs, batch } = made;
        Ok(Report {
            init,
            runs,
            pending,
            batch,
        })
    }

    /// What there is to tell of an event whose flush came to this end. The init has the session's label.
    pub fn tell(
        &mut self,
        alloc: Global,
        label: Option<&RxText>,
        passed: Result<End, Memory>,
    ) -> Result<Told, Memory>
        ensures same { self.new ≡ record self.old { made = self.new.made } }
        ensures told { IfOk result (λ told. Tells (option_map (λ t. t.now) label.entry) passed self.old told) }
    {
        let end = passed?;
        let done = is_done(&end);
        let made = mem::replace(&mut self.made, nothing_made(alloc));
        let texts = texts_of(alloc, label, &made, done)?;
        let report = self.report(alloc, label.is_some(), made)?;
        Ok(Told { end, texts, report })
    }
}

fn flushed_of(end: End, texts: Texts) -> Flushed
    ensures { result ≡ flushed_of end texts }
{
    match end {
        End::Done => Flushed::Done(texts),
        End::BudgetSpent => Flushed::BudgetSpent(texts),
        End::ObserverFailed(why) => Flushed::ObserverFailed(why, texts),
    }
}

fn stage_after(flushed: &Flushed) -> Stage
    ensures { result ≡ stage_after flushed.now }
{
    match flushed {
        Flushed::Done(_) => Stage::Open,
        _ => Stage::Over,
    }
}

/// The answer of an event. The session goes on where its flush was done; for want of memory the report stays.
pub fn answer(stage: &mut Stage, report: &mut Option<Report>, told: Result<Told, Memory>) -> Flushed
    ensures answer { result ≡ flushed_by told }
    ensures stage { stage.new ≡ stage_after result }
    ensures report { report.new ≡ report_by report.old told }
{
    let flushed = match told {
        Ok(told) => {
            *report = Some(told.report);
            flushed_of(told.end, told.texts)
        }
        Err(Memory) => Flushed::Memory,
    };
    *stage = stage_after(&flushed);
    flushed
}
