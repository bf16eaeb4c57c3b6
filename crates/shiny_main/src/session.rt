ghost use Rattle.std.specs.Prelude.{◌≡◌, ◌++◌, OnOk, IfOk, codes};
ghost use Rattle.app_tree.specs.View.{shape_of};
ghost use Rattle.session_model.specs.WrittenLines.{send_lines, over_text};
ghost use Rattle.taken_cycle.specs.Built.{IsBuilt};
ghost use Rattle.taken_cycle.specs.Flushing.{flushed_by};
ghost use Rattle.shiny_main.specs.inner.Replaying.{AnswersFirst, AnswersLater, event_lines};

use app_tree::App;
use rx_value::{Memory, RxText};
use shiny_json::ClientData;
use std::alloc::Global;
use std::sync::Arc;
use taken_cycle::{Flushed, Flusher, Stage, Texts};

/// A session of the transcript.
#[derive(Drop)]
pub struct OpenSession {
    pub label: RxText,
    pub flusher: Flusher,
}

/// A session after an event, with the output lines of the event.
#[derive(Drop)]
pub struct Answered {
    pub session: OpenSession,
    pub output: RxText,
}

fn push_send(output: &mut RxText, label: &RxText, text: &RxText) -> Result<(), Memory>
    ensures { OnOk result (output.new ≡ output.old ++ (label.now ++ codes " send " ++ text.now
        ++ codes "\n")) }
{
    output.push_str(label.as_str())?;
    output.push_str(" send ")?;
    output.push_str(text.as_str())?;
    output.push_str("\n")
}

fn push_sends(output: &mut RxText, label: &RxText, texts: &[RxText]) -> Result<(), Memory>
    ensures { OnOk result (output.new ≡ output.old ++ send_lines label.now texts.now) }
{
    for text in texts {
        push_send(output, label, text)?;
    }
    Ok(())
}

/// `S over REASON` with a line feed.
pub fn push_over(output: &mut RxText, label: &RxText, reason: &str) -> Result<(), Memory>
    ensures { OnOk result (output.new ≡ output.old ++ over_text label.now reason.now) }
{
    output.push_str(label.as_str())?;
    output.push_str(" over ")?;
    output.push_str(reason)?;
    output.push_str("\n")
}

/// The output lines of an event that sent these texts: those, and the over line where it ended the
/// session.
fn event_output(alloc: Global, label: &RxText, texts: &Texts, over: bool) -> Result<RxText, Memory>
    ensures { IfOk result (λ output. output ≡ event_lines label.now texts.now over) }
{
    let mut output = RxText::new(alloc);
    push_sends(&mut output, label, texts.as_slice())?;
    if over {
        push_over(&mut output, label, "budget")?;
    }
    Ok(output)
}

/// Opens a session with its init.
pub fn answer_first(
    alloc: Global,
    app: Arc<App>,
    label: &RxText,
    pairs: &ClientData,
) -> Result<Answered, Memory>
    requires { IsBuilt (shape_of app.value) }
    ensures { IfOk result (λ a. AnswersFirst (shape_of app.value) label.now pairs.now a) }
{
    let mut flusher = Flusher::new(alloc, app)?;
    let label = label.copy(alloc)?;
    let (texts, over) = flushed_texts(flusher.init(alloc, &label, pairs))?;
    let output = event_output(alloc, &label, &texts, over)?;
    let session = OpenSession { label, flusher };
    Ok(Answered { session, output })
}

/// Hands a session that isn't over an update.
pub fn answer_later(
    alloc: Global,
    session: OpenSession,
    pairs: &ClientData,
) -> Result<Answered, Memory>
    requires { session.flusher.stage ≡ Stage.Open }
    ensures { IfOk result (λ a. AnswersLater session pairs.now a) }
{
    let OpenSession { label, mut flusher } = session;
    let (texts, over) = flushed_texts(flusher.update(alloc, pairs))?;
    let output = event_output(alloc, &label, &texts, over)?;
    let session = OpenSession { label, flusher };
    Ok(Answered { session, output })
}

fn flushed_texts(flushed: Flushed) -> Result<(Texts, bool), Memory>
    ensures { IfOk result (λ s. flushed ≡ flushed_by s.0 s.1) }
{
    match flushed {
        Flushed::Done(texts) => Ok((texts, false)),
        Flushed::BudgetSpent(texts) => Ok((texts, true)),
        Flushed::Memory => Err(Memory),
    }
}
