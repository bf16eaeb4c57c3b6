//! What each command does with the app of its file.

ghost use Rattle.std.specs.Prelude.{◌≡◌, true, IfOk, codes, ◌++◌};
ghost use Rattle.app_tree.specs.Named.{named};
ghost use Rattle.app_tree.specs.View.{shape_of};
ghost use Rattle.app_check.specs.Load.{loaded};
ghost use Rattle.app_check.specs.Text.{refusal_text};
ghost use Rattle.app_check.specs.Words.{has_words};
ghost use Rattle.taken_cycle.specs.Built.{IsBuilt};
ghost use Rattle.shiny_main.specs.Ports.{ports, CountsFaults};
ghost use Rattle.shiny_main.specs.Commands.{IsMade, IsRefused, count_line, name_at, not_yet_text, ReplayedGives, RunsBuilt, CommandGives, AppGives};

use crate::ended::{Ended, ended_by};
use crate::transcript::replay;
use crate::words::Command;
use app_check::{LoadError, load};
use app_printer::print;
use app_tree::App;
use rx_ports::{Put, Sink, Source};
use rx_value::{Memory, RxText};
use std::alloc::Global;
use std::sync::Arc;
use taken_cycle::built;

fn put_text<K: Sink>(text: Result<RxText, Memory>, out: &mut K) -> Ended
    ensures gives { IsMade text (K.held out.old) (K.held out.new) result }
    ensures faults { CountsFaults K.faults out.old out.new (result ≡ Ended.WriteFault) }
{
    match text {
        Ok(text) => match out.put(text.as_str().as_bytes()) {
            Put::Ok => Ended::Done,
            Put::Failed => Ended::WriteFault,
        },
        Err(Memory) => Ended::Memory,
    }
}

/// `ok N` with a line feed, N the number of the app's items.
fn count_line(alloc: Global, app: &App) -> Result<RxText, Memory>
    ensures { IfOk result (λ line. line ≡ count_line (shape_of app.now)) }
{
    let count = app.items().len();
    match format!(in alloc; "ok {count}\n") {
        Ok(line) => RxText::from_str(alloc, line.as_str()),
        Err(_) => Err(Memory),
    }
}

fn name_at(app: &App, place: usize) -> &str
    ensures { result.now ≡ name_at (shape_of app.now).items place }
{
    match app.items().as_slice().get(place) {
        Some(item) => item.name().as_str(),
        None => "",
    }
}

fn not_yet_text(alloc: Global, app: &App, place: usize) -> Result<RxText, Memory>
    ensures { IfOk result (λ text. text ≡ not_yet_text (shape_of app.now) place) }
{
    let mut text = RxText::from_str(alloc, "NotYet ")?;
    text.push_str(name_at(app, place))?;
    text.push_str(" at 0")?;
    Ok(text)
}

fn not_yet(alloc: Global, app: &App, place: usize) -> Ended
    ensures { IsRefused (not_yet_text (shape_of app.now) place) result }
{
    match not_yet_text(alloc, app, place) {
        Ok(why) => Ended::AppRefused(why),
        Err(Memory) => Ended::Memory,
    }
}

fn replay_built<S: Source, K: Sink>(alloc: Global, app: App, input: &mut S, out: &mut K) -> Ended
    requires { IsBuilt (shape_of app) }
    ensures gives { ReplayedGives (shape_of app) (ports S.left K.held input.old input.new out.old out.new)
        result }
    ensures read { CountsFaults S.faults input.old input.new (result ≡ Ended.ReadFault) }
    ensures write { CountsFaults K.faults out.old out.new (result ≡ Ended.WriteFault) }
{
    match Arc::new(alloc, app) {
        Ok(app) => ended_by(replay(alloc, &app, input, out)),
        Err(_) => Ended::Memory,
    }
}

/// Replays the input with an app whose every item has a form that is run today; another app is
/// refused.
fn run_replay<S: Source, K: Sink>(alloc: Global, app: App, input: &mut S, out: &mut K) -> Ended
    ensures gives { CommandGives Command.Replay (shape_of app)
        (ports S.left K.held input.old input.new out.old out.new) result }
    ensures read { CountsFaults S.faults input.old input.new (result ≡ Ended.ReadFault) }
    ensures write { CountsFaults K.faults out.old out.new (result ≡ Ended.WriteFault) }
{
    match built(&app) {
        None => replay_built(alloc, app, input, out),
        Some(place) => not_yet(alloc, &app, place),
    }
}

fn run_command<S: Source, K: Sink>(
    alloc: Global,
    command: Command,
    app: App,
    input: &mut S,
    out: &mut K,
) -> Ended
    requires { has_words (named (shape_of app)) ≡ true }
    ensures gives { CommandGives command (shape_of app)
        (ports S.left K.held input.old input.new out.old out.new) result }
    ensures read { CountsFaults S.faults input.old input.new (result ≡ Ended.ReadFault) }
    ensures write { CountsFaults K.faults out.old out.new (result ≡ Ended.WriteFault) }
{
    match command {
        Command::Check => put_text(count_line(alloc, &app), out),
        Command::Print => put_text(print(alloc, &app), out),
        Command::Replay => run_replay(alloc, app, input, out),
    }
}

fn refusal_end(alloc: Global, refusal: &LoadError) -> Ended
    ensures { IsRefused (refusal_text refusal.now) result }
{
    match refusal.note(alloc) {
        Ok(why) => Ended::AppRefused(why),
        Err(Memory) => Ended::Memory,
    }
}

/// Loads an app and does with it what the command says.
pub fn run_app<S: Source, K: Sink>(
    alloc: Global,
    command: Command,
    bytes: &[u8],
    input: &mut S,
    out: &mut K,
) -> Ended
    ensures gives { AppGives command (loaded bytes.now)
        (ports S.left K.held input.old input.new out.old out.new) result }
    ensures read { CountsFaults S.faults input.old input.new (result ≡ Ended.ReadFault) }
    ensures write { CountsFaults K.faults out.old out.new (result ≡ Ended.WriteFault) }
{
    match load(alloc, bytes) {
        Ok(app) => run_command(alloc, command, app, input, out),
        Err(LoadError::Memory) => Ended::Memory,
        Err(refusal) => refusal_end(alloc, &refusal),
    }
}
