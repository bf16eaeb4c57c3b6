ghost use Rattle.std.specs.Prelude.{◌≡◌, ◌++◌, IfOk, OnOk};
ghost use Rattle.session_model.specs.Texts.{output_texts};
ghost use Rattle.taken_cycle.specs.inner.PassTexts.{outputs_texts, closing_pass, pass_texts, first_pass, later_pass};

use crate::flushing::Pass;
use rx_value::{Memory, RxList, RxText};
use shiny_json::{
    Batch, BatchOutput, BatchOutputs, Messages, write_busy, write_config, write_progress,
    write_recalc, write_values,
};
use std::alloc::Global;

/// The texts of an event, in the order in which they are sent.
pub type Texts = RxList<RxText>;

/// What an event sends, and whether its flush spent the budget, which ends the session.
#[derive(Debug, Drop)]
pub struct EventTexts {
    pub texts: Texts,
    pub spent: bool,
}

fn push_output(alloc: Global, name: &RxText, texts: &mut Texts) -> Result<(), Memory>
    ensures { OnOk result (texts.new ≡ texts.old ++ output_texts name.now) }
{
    texts.push(write_progress(alloc, name)?)?;
    texts.push(write_recalc(alloc, name, false)?)?;
    texts.push(write_recalc(alloc, name, true)?)
}

fn push_outputs(alloc: Global, outputs: &[BatchOutput], texts: &mut Texts) -> Result<(), Memory>
    ensures { OnOk result (texts.new ≡ texts.old ++ outputs_texts outputs.now) }
{
    for output in outputs {
        push_output(alloc, &output.name, texts)?;
    }
    Ok(())
}

fn push_closing(
    alloc: Global,
    outputs: BatchOutputs,
    spent: bool,
    texts: &mut Texts,
) -> Result<(), Memory>
    ensures { OnOk result (texts.new ≡ texts.old ++ closing_pass outputs spent) }
{
    if spent {
        return Ok(());
    }
    let batch = Batch {
        outputs,
        messages: Messages::new(alloc),
    };
    texts.push(write_values(alloc, &batch)?)?;
    texts.push(write_busy(alloc, false)?)
}

fn push_pass(alloc: Global, pass: Pass, texts: &mut Texts) -> Result<(), Memory>
    ensures { OnOk result (texts.new ≡ texts.old ++ pass_texts pass.outputs pass.spent) }
{
    let Pass { outputs, spent } = pass;
    texts.push(write_busy(alloc, true)?)?;
    push_outputs(alloc, outputs.as_slice(), texts)?;
    push_closing(alloc, outputs, spent, texts)
}

/// The texts of a session's first event.
pub fn first_texts(alloc: Global, label: &RxText, pass: Pass) -> Result<Texts, Memory>
    ensures { IfOk result (λ texts. texts ≡ first_pass label.now pass.outputs pass.spent) }
{
    let mut texts = Texts::new(alloc);
    texts.push(write_config(alloc, label)?)?;
    push_pass(alloc, pass, &mut texts)?;
    Ok(texts)
}

/// The texts of a later event: none where nothing ran and the session goes on.
pub fn later_texts(alloc: Global, pass: Pass) -> Result<Texts, Memory>
    ensures { IfOk result (λ texts. texts ≡ later_pass pass.outputs pass.spent) }
{
    let mut texts = Texts::new(alloc);
    if pass.outputs.len() > 0 || pass.spent {
        push_pass(alloc, pass, &mut texts)?;
    }
    Ok(texts)
}
