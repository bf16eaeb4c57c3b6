ghost use Rattle.std.specs.Prelude.{List, [], ◌∷◌, Some, IfOk};
ghost use Rattle.app_tree.specs.View.{shape_of};
ghost use Rattle.session_model.specs.Transcript.{Open, recv};
ghost use Rattle.session_model.specs.TakenLines.{taken_line};
ghost use Rattle.taken_cycle.specs.Built.{IsBuilt};
ghost use Rattle.shiny_main.specs.inner.Spoken.{numbered_line};
ghost use Rattle.shiny_main.specs.inner.Replaying.{AnswersFirst, HoldsOpen, IsShort, Updates, TakesLine, TakesAsHeld};

use crate::line::Line;
use crate::session::{Answered, OpenSession, answer_first, answer_later};
use app_tree::App;
use rx_value::{Memory, RxText};
use session_model::TAKEN_LINE_LIMIT;
use shiny_json::ClientData;
use std::alloc::Global;
use std::sync::Arc;
use taken_cycle::{Stage, read_taken};

/// What a line of the transcript came to.
#[derive(Drop)]
pub enum Taken {
    Answered(Answered),
    /// The line has not the form that is taken today.
    Bad,
    /// The line's session is over.
    NoSession,
}

/// Opens a session of this label with its init.
fn open_session(
    alloc: Global,
    app: &Arc<App>,
    label: &RxText,
    pairs: &ClientData,
) -> Result<Answered, Memory>
    requires { IsBuilt (shape_of app.now.value) }
    ensures { IfOk result (λ a. AnswersFirst (shape_of app.now.value) label.now pairs.now a) }
{
    answer_first(alloc, app.clone()?, label, pairs)
}

fn first_recv(
    alloc: Global,
    app: &Arc<App>,
    number: u64,
    label: &RxText,
    text: &RxText,
) -> Result<Taken, Memory>
    requires { IsBuilt (shape_of app.now.value) }
    ensures { IfOk result
        (TakesLine (shape_of app.now.value) number []
        (taken_line (shape_of app.now.value) number []
        (Some (recv label.now text.now)))) }
{
    if number > TAKEN_LINE_LIMIT {
        return Ok(Taken::Bad);
    }
    match read_taken(alloc, app, true, text)? {
        Some(pairs) => {
            let answered = open_session(alloc, app, label, &pairs)?;
            Ok(Taken::Answered(answered))
        }
        None => Ok(Taken::Bad),
    }
}

fn later_recv(
    alloc: Global,
    app: &App,
    session: OpenSession,
    number: u64,
    label: &RxText,
    text: &RxText,
) -> Result<Taken, Memory>
    ensures { IfOk result (λ t. (s : Open) → HoldsOpen (shape_of app.now) s session → IsShort number s
        → TakesLine (shape_of app.now) number (s ∷ [])
        (taken_line (shape_of app.now) number (s ∷ [])
        (Some (recv label.now text.now))) t) }
{
    if number > TAKEN_LINE_LIMIT {
        return Ok(Taken::Bad);
    }
    if label.as_str() != session.label.as_str() {
        return Ok(Taken::Bad);
    }
    match read_taken(alloc, app, false, text)? {
        Some(pairs) => update(alloc, session, &pairs),
        None => Ok(Taken::Bad),
    }
}

fn update(alloc: Global, session: OpenSession, pairs: &ClientData) -> Result<Taken, Memory>
    ensures { IfOk result (λ t. Updates session pairs.now t) }
{
    match session.flusher.stage() {
        Stage::Open => {
            let answered = answer_later(alloc, session, pairs)?;
            Ok(Taken::Answered(answered))
        }
        Stage::New | Stage::Over => Ok(Taken::NoSession),
    }
}

fn take_recv(
    alloc: Global,
    app: &Arc<App>,
    session: Option<OpenSession>,
    number: u64,
    label: &RxText,
    text: &RxText,
) -> Result<Taken, Memory>
    requires { IsBuilt (shape_of app.now.value) }
    ensures { IfOk result
        (TakesAsHeld (shape_of app.now.value) number session (Some (recv label.now text.now))) }
{
    match session {
        None => first_recv(alloc, app, number, label, text),
        Some(session) => later_recv(alloc, app, session, number, label, text),
    }
}

/// Takes a line of the transcript: its message is applied to its session.
pub fn take_line(
    alloc: Global,
    app: &Arc<App>,
    session: Option<OpenSession>,
    number: u64,
    said: Line,
) -> Result<Taken, Memory>
    requires { IsBuilt (shape_of app.now.value) }
    ensures { IfOk result
        (TakesAsHeld (shape_of app.now.value) number session
        (numbered_line (shape_of app.now.value).items said)) }
{
    match said {
        Line::Recv(label, text) => take_recv(alloc, app, session, number, &label, &text),
        Line::End(_, _) | Line::Close(_) => Ok(Taken::Bad),
    }
}
