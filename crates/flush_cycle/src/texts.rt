//! The texts that an event sends.

ghost use Rattle.std.specs.Prelude.{◌≡◌, ◌++◌, IfOk, OnOk};
ghost use Rattle.session_model.specs.Texts.{output_texts};
ghost use Rattle.flush_cycle.specs.inner.Passing.{outputs_texts, closing_made, texts_made, first_made, later_made};

use crate::flushed::Texts;
use crate::report::Made;
use rx_value::{Memory, RxText};
use shiny_json::{
    Batch, BatchOutput, write_busy, write_config, write_progress, write_recalc, write_values,
};
use std::alloc::Global;

fn push_output(alloc: Global, name: &RxText, texts: &mut Texts) -> Result<(), Memory>
    ensures { OnOk result (texts.new ≡ texts.old ++ output_texts name.now) }
{
    texts.push(write_progress(alloc, name)?)?;
    texts.push(write_recalc(alloc, name, false)?)?;
    texts.push(write_recalc(alloc, name, true)?)
}

fn push_outputs(alloc: Global, outputs: &[BatchOutput], texts: &mut Texts) -> Result<(), Memory>
    ensures { OnOk result (texts.new ≡ texts.old ++ outputs_texts outputs.now) }
{
    for output in outputs {
        push_output(alloc, &output.name, texts)?;
    }
    Ok(())
}

fn push_closing(alloc: Global, batch: &Batch, done: bool, texts: &mut Texts) -> Result<(), Memory>
    ensures { OnOk result (texts.new ≡ texts.old ++ closing_made batch.now done) }
{
    if !done {
        return Ok(());
    }
    texts.push(write_values(alloc, batch)?)?;
    texts.push(write_busy(alloc, false)?)
}

fn push_made(alloc: Global, batch: &Batch, done: bool, texts: &mut Texts) -> Result<(), Memory>
    ensures { OnOk result (texts.new ≡ texts.old ++ texts_made batch.now done) }
{
    texts.push(write_busy(alloc, true)?)?;
    push_outputs(alloc, batch.outputs.as_slice(), texts)?;
    push_closing(alloc, batch, done, texts)
}

/// The texts of a session's first event. Where the event ended the session, the values are left out.
pub fn first_texts(alloc: Global, label: &RxText, made: &Made, done: bool) -> Result<Texts, Memory>
    ensures { IfOk result (λ texts. texts ≡ first_made label.now made.now.batch done) }
{
    let mut texts = Texts::new(alloc);
    texts.push(write_config(alloc, label)?)?;
    push_made(alloc, &made.batch, done, &mut texts)?;
    Ok(texts)
}

/// The texts of a later event: none where nothing ran and the session goes on.
pub fn later_texts(alloc: Global, made: &Made, done: bool) -> Result<Texts, Memory>
    ensures { IfOk result (λ texts. texts ≡ later_made made.now.runs made.now.batch done) }
{
    let mut texts = Texts::new(alloc);
    if made.runs.len() > 0 || !done {
        push_made(alloc, &made.batch, done, &mut texts)?;
    }
    Ok(texts)
}
