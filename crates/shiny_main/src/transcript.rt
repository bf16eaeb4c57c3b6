ghost use Rattle.std.specs.Prelude.{◌≡◌, ◌≢◌, List, IfOk, codes};
ghost use Rattle.app_tree.specs.View.{shape_of};
ghost use Rattle.session_model.specs.Transcript.{Open};
ghost use Rattle.session_model.specs.WrittenLines.{over_text};
ghost use Rattle.shiny_main.specs.inner.Lines.{at_start, IsOfSource};
ghost use Rattle.taken_cycle.specs.Built.{IsBuilt};
ghost use Rattle.shiny_main.specs.Ports.{ports, CountsFaults};
ghost use Rattle.shiny_main.specs.inner.Replaying.{HoldsSession, HasFewBehind, WholeReplayGives, PutsAnswer, PutsOver, ClosesOpen, Closes, AnswersTaken, TurnGives};

use crate::lines::{LineRead, Lines};
use crate::replay::{Taken, take_line};
use crate::session::{Answered, OpenSession, push_over};
use app_tree::App;
use rx_ports::{Put, Sink, Source};
use rx_value::{Memory, RxText};
use std::alloc::Global;
use std::sync::Arc;
use taken_cycle::Stage;

/// How a replay ended. Lines are numbered from 1.
#[derive(Clone, Copy, Debug, PartialEq, Eq)]
pub enum Replayed {
    /// The input was read to its end, and every line was taken.
    Done,
    /// The first line that is refused has not the form that is taken today.
    BadLine(u64),
    /// The first line that is refused is for a session that is over.
    NoSession(u64),
    /// The input could not be read.
    ReadFault,
    /// The output could not be written.
    WriteFault,
    Memory,
}

/// What one line came to: the replay goes on with its session, or ends.
#[derive(Drop)]
pub enum Turn {
    Goes(OpenSession),
    Ends(Replayed),
}

fn put_answer<K: Sink>(out: &mut K, answered: Answered) -> Turn
    ensures gives { PutsAnswer answered (K.held out.old) (K.held out.new) result }
    ensures faults { CountsFaults K.faults out.old out.new (result ≡ Turn.Ends Replayed.WriteFault) }
{
    let Answered { session, output } = answered;
    match out.put(output.as_str().as_bytes()) {
        Put::Ok => Turn::Goes(session),
        Put::Failed => Turn::Ends(Replayed::WriteFault),
    }
}

fn over_line(alloc: Global, label: &RxText) -> Result<RxText, Memory>
    ensures { IfOk result (λ line. line ≡ over_text label.now (codes "ended")) }
{
    let mut line = RxText::new(alloc);
    push_over(&mut line, label, "ended")?;
    Ok(line)
}

/// Ends the links of the sessions that are open.
fn close<K: Sink>(alloc: Global, session: Option<OpenSession>, out: &mut K) -> Replayed
    ensures gives { Closes session (K.held out.old) (K.held out.new) result }
    ensures faults { CountsFaults K.faults out.old out.new (result ≡ Replayed.WriteFault) }
{
    match session {
        Some(session) => close_open(alloc, session, out),
        None => Replayed::Done,
    }
}

fn close_open<K: Sink>(alloc: Global, session: OpenSession, out: &mut K) -> Replayed
    ensures gives { ClosesOpen session (K.held out.old) (K.held out.new) result }
    ensures faults { CountsFaults K.faults out.old out.new (result ≡ Replayed.WriteFault) }
{
    match session.flusher.stage() {
        Stage::Open => put_over(alloc, &session.label, out),
        Stage::New | Stage::Over => Replayed::Done,
    }
}

fn put_over<K: Sink>(alloc: Global, label: &RxText, out: &mut K) -> Replayed
    ensures gives { PutsOver label.now (K.held out.old) (K.held out.new) result }
    ensures faults { CountsFaults K.faults out.old out.new (result ≡ Replayed.WriteFault) }
{
    match over_line(alloc, label) {
        Ok(line) => match out.put(line.as_str().as_bytes()) {
            Put::Ok => Replayed::Done,
            Put::Failed => Replayed::WriteFault,
        },
        Err(Memory) => Replayed::Memory,
    }
}

fn take_turn<S: Source, K: Sink>(
    alloc: Global,
    app: &Arc<App>,
    lines: &mut Lines,
    session: Option<OpenSession>,
    input: &mut S,
    out: &mut K,
) -> Turn
    requires built { IsBuilt (shape_of app.now.value) }
    requires lines { IsOfSource lines.old (S.left input.old) }
    requires short { HasFewBehind lines.old }
    ensures gives { (s : List Open) → HoldsSession (shape_of app.now.value) lines.old.number s session
        → TurnGives (shape_of app.now.value) s lines.old lines.new
        (ports S.left K.held input.old input.new out.old out.new) result }
    ensures read { CountsFaults S.faults input.old input.new (result ≡ Turn.Ends Replayed.ReadFault) }
    ensures write { CountsFaults K.faults out.old out.new (result ≡ Turn.Ends Replayed.WriteFault) }
{
    match lines.next(alloc, input) {
        LineRead::Line(number, said) => {
            let taken = take_line(alloc, app, session, number, said);
            answer_taken(taken, number, out)
        }
        LineRead::Bad(number) => Turn::Ends(Replayed::BadLine(number)),
        LineRead::End => Turn::Ends(close(alloc, session, out)),
        LineRead::ReadFault => Turn::Ends(Replayed::ReadFault),
        LineRead::Memory => Turn::Ends(Replayed::Memory),
    }
}

fn answer_taken<K: Sink>(taken: Result<Taken, Memory>, number: u64, out: &mut K) -> Turn
    ensures gives { AnswersTaken taken number (K.held out.old) (K.held out.new) result }
    ensures faults { CountsFaults K.faults out.old out.new (result ≡ Turn.Ends Replayed.WriteFault) }
    ensures read { result ≢ Turn.Ends Replayed.ReadFault }
{
    match taken {
        Ok(Taken::Answered(answered)) => put_answer(out, answered),
        Ok(Taken::Bad) => Turn::Ends(Replayed::BadLine(number)),
        Ok(Taken::NoSession) => Turn::Ends(Replayed::NoSession(number)),
        Err(Memory) => Turn::Ends(Replayed::Memory),
    }
}

fn replay_lines<S: Source, K: Sink>(
    alloc: Global,
    app: &Arc<App>,
    lines: Lines,
    input: &mut S,
    out: &mut K,
) -> Replayed
    requires built { IsBuilt (shape_of app.now.value) }
    requires start { lines ≡ at_start }
    ensures gives { WholeReplayGives (shape_of app.now.value)
        (ports S.left K.held input.old input.new out.old out.new) result }
    ensures read { CountsFaults S.faults input.old input.new (result ≡ Replayed.ReadFault) }
    ensures write { CountsFaults K.faults out.old out.new (result ≡ Replayed.WriteFault) }
{
    let mut lines = lines;
    let mut session = None;
    'lines: loop {
        match take_turn(alloc, app, &mut lines, session, input, out) {
            Turn::Goes(next) => session = Some(next),
            Turn::Ends(end) => return end,
        }
    }
}

/// Replays a transcript: its lines in order, up to its end or the first that is refused.
pub fn replay<S: Source, K: Sink>(
    alloc: Global,
    app: &Arc<App>,
    input: &mut S,
    out: &mut K,
) -> Replayed
    requires { IsBuilt (shape_of app.now.value) }
    ensures gives { WholeReplayGives (shape_of app.now.value)
        (ports S.left K.held input.old input.new out.old out.new) result }
    ensures read { CountsFaults S.faults input.old input.new (result ≡ Replayed.ReadFault) }
    ensures write { CountsFaults K.faults out.old out.new (result ≡ Replayed.WriteFault) }
{
    match Lines::new(alloc) {
        Ok(lines) => replay_lines(alloc, app, lines, input, out),
        Err(Memory) => Replayed::Memory,
    }
}
