//! What is done with a session, step by step, and what each step has to come to.

ghost use Rattle.std.specs.Prelude.{◌≡◌, ◌<◌, [], None, true, length, OnOk};
ghost use Rattle.app_tree.specs.View.{shape_of};
ghost use Rattle.app_tree.specs.Numbering.{starting_values};
ghost use Rattle.app_tree.specs.Cover.{is_sound};

use crate::lookup::{expression_named, observer_named, observer_term, output_named, source_named};
use crate::samples::{names_of, outcome_of, value_of};
use app_tree::App;
use dep_graph::Marked;
use react_session::Session;
use rx_source::Change;
use rx_value::{Memory, Outcome, SourceValue};
use std::alloc::Global;
use std::marker::Brand;
use std::process::Abort;
use std::sync::Arc;
use std::sync::ledger::{Blank, Ledger};
use term_eval::{Asker, Steps};

/// A call of a session. Readers and inputs stand by their names, the size of an output by its name behind
/// `width ` or `height `, values and outcomes by words, and several readers in rising order with a blank
/// between.
#[derive(Clone, Copy, Debug)]
pub enum Step<'a> {
    /// This output is run, and comes to this outcome.
    Run(&'a str, &'a str),
    /// This expression is forced, and comes to this outcome.
    Force(&'a str, &'a str),
    /// This source is set to this value, which it doesn't have, and these readers are marked.
    Set(&'a str, &'a str, &'a str),
    /// This source is set to this value, whichever readers that marks.
    SetAny(&'a str, &'a str),
    /// This source is set to the value that it has, and no reader is marked.
    SetSame(&'a str, &'a str),
    /// This observer begins to run.
    Begin(&'a str),
    /// The term at this place of the observer that runs comes to this outcome.
    Term(usize, &'a str),
    /// The same of the term as an isolated one.
    Isolated(usize, &'a str),
    /// The run of the observer ends, which is alive then or not.
    Finish(bool),
    /// These readers are alive, and no others.
    Alive(&'a str),
    /// These readers have run, and no others.
    Ran(&'a str),
}

/// The readers that are alive.
fn alive_names(alloc: Global, app: &App, session: &Session) -> Result<String, Memory>
    requires { session.now.app ≡ app.now }
{
    let mut alive = Vec::new(alloc);
    for n in 0..app.readers() {
        if session.alive(n) && alive.push(n).is_err() {
            return Err(Memory);
        }
    }
    names_of(alloc, app, alive.as_slice())
}

/// The readers that have run.
fn ran_names(alloc: Global, app: &App, session: &Session) -> Result<String, Memory>
    requires { session.now.app ≡ app.now }
{
    let mut ran = Vec::new(alloc);
    for n in 0..app.readers() {
        if session.ran(n) && ran.push(n).is_err() {
            return Err(Memory);
        }
    }
    names_of(alloc, app, ran.as_slice())
}

/// Runs an output. As every call that follows, it ends the test where a name is unknown.
fn run_output<A: Asker, L: Ledger>(
    rt: &impl Abort,
    alloc: Global,
    app: &App,
    session: &mut Session,
    asker: &mut A,
    steps: &mut Steps<L>,
    name: &str,
) -> Result<Outcome, Memory>
    requires app { session.old.app ≡ app.now }
    requires whole { session.old.whole ≡ true }
    requires of_app { A.app asker.old ≡ shape_of app.now }
    requires none_out { A.out asker.old ≡ [] }
    ensures app { session.new.app ≡ app.now }
    ensures whole { OnOk result (session.new.whole ≡ true) }
    ensures values { session.new.session.values ≡ session.old.session.values }
    ensures running { session.new.session.running ≡ session.old.session.running }
    ensures follows { A.follows asker.new asker.old }
    ensures none_out { A.out asker.new ≡ [] }
{
    let Some(n) = output_named(app, name) else {
        panic!(rt; "no output {name}")
    };
    session.run_reader(alloc, n, asker, steps)
}

/// Forces an expression.
fn force<A: Asker, L: Ledger>(
    rt: &impl Abort,
    alloc: Global,
    app: &App,
    session: &mut Session,
    asker: &mut A,
    steps: &mut Steps<L>,
    name: &str,
) -> Result<Outcome, Memory>
    requires app { session.old.app ≡ app.now }
    requires whole { session.old.whole ≡ true }
    requires of_app { A.app asker.old ≡ shape_of app.now }
    requires none_out { A.out asker.old ≡ [] }
    ensures app { session.new.app ≡ app.now }
    ensures whole { OnOk result (session.new.whole ≡ true) }
    ensures values { session.new.session.values ≡ session.old.session.values }
    ensures running { session.new.session.running ≡ session.old.session.running }
    ensures follows { A.follows asker.new asker.old }
    ensures none_out { A.out asker.new ≡ [] }
{
    let Some(n) = expression_named(app, name) else {
        panic!(rt; "no expression {name}")
    };
    session.force(alloc, n, asker, steps)
}

/// Sets a source, and tells the readers that this marks where the source had another value.
fn set_source(
    rt: &impl Abort,
    alloc: Global,
    app: &App,
    session: &mut Session,
    name: &str,
    words: &str,
) -> Result<Option<String>, Memory>
    requires app { session.old.app ≡ app.now }
    requires whole { session.old.whole ≡ true }
    requires values { length session.old.session.values ≡ length (starting_values (shape_of app.now).items) }
    ensures app { session.new.app ≡ app.now }
    ensures whole { session.new.whole ≡ true }
    ensures values { length session.new.session.values ≡ length session.old.session.values }
    ensures running { session.new.session.running ≡ session.old.session.running }
{
    let Some(source) = source_named(alloc, app, name)? else {
        panic!(rt; "no source {name}")
    };
    let value = SourceValue::Plain(value_of(alloc, words)?);
    let mut marked = Marked::new(alloc, app.readers())?;
    let change = session.write(source, value, &mut marked);
    match change {
        Change::Changed => Ok(Some(names_of(alloc, app, marked.as_slice())?)),
        Change::Same => {
            assert_eq!(rt; marked.len(), 0);
            Ok(None)
        }
    }
}

/// Begins the run of an observer.
fn begin(rt: &impl Abort, app: &App, session: &mut Session, running: &mut Option<u32>, name: &str)
    requires app { session.old.app ≡ app.now }
    requires whole { session.old.whole ≡ true }
    requires running { session.old.session.running ≡ running.old }
    ensures app { session.new.app ≡ app.now }
    ensures whole { session.new.whole ≡ true }
    ensures values { session.new.session.values ≡ session.old.session.values }
    ensures running { session.new.session.running ≡ running.new }
{
    let Some(n) = observer_named(app, name) else {
        panic!(rt; "no observer {name}")
    };
    match running {
        Some(_) => panic!(rt; "an observer runs as {name} begins"),
        None => {
            session.begin(n);
            *running = Some(n);
        }
    }
}

/// Ends the run of the observer that runs, and tells whether it is alive.
fn finish(rt: &impl Abort, app: &App, session: &mut Session, running: &mut Option<u32>) -> bool
    requires app { session.old.app ≡ app.now }
    requires whole { session.old.whole ≡ true }
    requires running { session.old.session.running ≡ running.old }
    ensures app { session.new.app ≡ app.now }
    ensures whole { session.new.whole ≡ true }
    ensures values { session.new.session.values ≡ session.old.session.values }
    ensures running { session.new.session.running ≡ running.new }
{
    let _readers = app.readers();
    match running {
        Some(n) => {
            let alive = session.finish(*n);
            *running = None;
            alive
        }
        None => panic!(rt; "no observer runs"),
    }
}

/// Evaluates a term of the observer that runs.
fn term<A: Asker, L: Ledger>(
    rt: &impl Abort,
    alloc: Global,
    app: &App,
    session: &mut Session,
    running: Option<u32>,
    asker: &mut A,
    steps: &mut Steps<L>,
    place: usize,
    isolated: bool,
) -> Result<Outcome, Memory>
    requires app { session.old.app ≡ app.now }
    requires whole { session.old.whole ≡ true }
    requires running { session.old.session.running ≡ running }
    requires of_app { A.app asker.old ≡ shape_of app.now }
    requires none_out { A.out asker.old ≡ [] }
    ensures app { session.new.app ≡ app.now }
    ensures whole { OnOk result (session.new.whole ≡ true) }
    ensures values { session.new.session.values ≡ session.old.session.values }
    ensures running { session.new.session.running ≡ session.old.session.running }
    ensures follows { A.follows asker.new asker.old }
    ensures none_out { A.out asker.new ≡ [] }
{
    let Some(n) = running else {
        panic!(rt; "no observer runs")
    };
    let Some(term) = observer_term(app, n, place) else {
        panic!(rt; "no term {place}")
    };
    session.term(alloc, n, term, isolated, asker, steps)
}

/// Makes a call that answers an outcome, and compares it.
fn follow_outcome<A: Asker, L: Ledger>(
    rt: &impl Abort,
    alloc: Global,
    app: &App,
    session: &mut Session,
    running: Option<u32>,
    asker: &mut A,
    steps: &mut Steps<L>,
    step: Step<'_>,
) -> Result<(), Memory>
    requires app { session.old.app ≡ app.now }
    requires whole { session.old.whole ≡ true }
    requires running { session.old.session.running ≡ running }
    requires of_app { A.app asker.old ≡ shape_of app.now }
    requires none_out { A.out asker.old ≡ [] }
    ensures app { session.new.app ≡ app.now }
    ensures whole { OnOk result (session.new.whole ≡ true) }
    ensures values { session.new.session.values ≡ session.old.session.values }
    ensures running { session.new.session.running ≡ session.old.session.running }
    ensures follows { A.follows asker.new asker.old }
    ensures none_out { A.out asker.new ≡ [] }
{
    let (got, words) = match step {
        Step::Run(name, words) => {
            (
                run_output(rt, alloc, app, session, asker, steps, name)?,
                words,
            )
        }
        Step::Force(name, words) => (force(rt, alloc, app, session, asker, steps, name)?, words),
        Step::Term(place, words) => (
            term(rt, alloc, app, session, running, asker, steps, place, false)?,
            words,
        ),
        Step::Isolated(place, words) => (
            term(rt, alloc, app, session, running, asker, steps, place, true)?,
            words,
        ),
        _ => panic!(rt; "{step:?} answers no outcome"),
    };
    assert!(rt; got.same(&outcome_of(alloc, words)?), "{step:?} {got:?}");
    Ok(())
}

/// Makes a call that needs no asker, and compares what it answers.
fn follow_plain(
    rt: &impl Abort,
    alloc: Global,
    app: &App,
    session: &mut Session,
    running: &mut Option<u32>,
    step: Step<'_>,
) -> Result<(), Memory>
    requires app { session.old.app ≡ app.now }
    requires whole { session.old.whole ≡ true }
    requires values { length session.old.session.values ≡ length (starting_values (shape_of app.now).items) }
    requires running { session.old.session.running ≡ running.old }
    ensures app { session.new.app ≡ app.now }
    ensures whole { session.new.whole ≡ true }
    ensures values { length session.new.session.values ≡ length session.old.session.values }
    ensures running { session.new.session.running ≡ running.new }
{
    match step {
        Step::Set(name, words, marked) => {
            let got = set_source(rt, alloc, app, session, name, words)?;
            assert!(rt; is_text(&got, marked), "{step:?} {got:?}");
        }
        Step::SetAny(name, words) => {
            let got = set_source(rt, alloc, app, session, name, words)?;
            assert!(rt; got.is_some(), "{step:?}");
        }
        Step::SetSame(name, words) => {
            let got = set_source(rt, alloc, app, session, name, words)?;
            assert!(rt; got.is_none(), "{step:?} {got:?}");
        }
        Step::Alive(names) => {
            let alive = alive_names(alloc, app, session)?;
            assert_eq!(rt; alive.as_str(), names, "{step:?}");
        }
        Step::Ran(names) => {
            let ran = ran_names(alloc, app, session)?;
            assert_eq!(rt; ran.as_str(), names, "{step:?}");
        }
        Step::Begin(name) => begin(rt, app, session, running, name),
        Step::Finish(alive) => {
            let got = finish(rt, app, session, running);
            assert_eq!(rt; got, alive, "{step:?}");
        }
        _ => panic!(rt; "{step:?} needs an asker"),
    }
    Ok(())
}

/// Makes one call, and compares what it comes to.
fn follow<A: Asker, L: Ledger>(
    rt: &impl Abort,
    alloc: Global,
    app: &App,
    session: &mut Session,
    running: &mut Option<u32>,
    asker: &mut A,
    steps: &mut Steps<L>,
    step: Step<'_>,
) -> Result<(), Memory>
    requires app { session.old.app ≡ app.now }
    requires whole { session.old.whole ≡ true }
    requires values { length session.old.session.values ≡ length (starting_values (shape_of app.now).items) }
    requires running { session.old.session.running ≡ running.old }
    requires of_app { A.app asker.old ≡ shape_of app.now }
    requires none_out { A.out asker.old ≡ [] }
    ensures app { session.new.app ≡ app.now }
    ensures whole { OnOk result (session.new.whole ≡ true) }
    ensures values { length session.new.session.values ≡ length session.old.session.values }
    ensures running { session.new.session.running ≡ running.new }
    ensures follows { A.follows asker.new asker.old }
    ensures none_out { A.out asker.new ≡ [] }
{
    match step {
        Step::Run(_, _) | Step::Force(_, _) | Step::Term(_, _) | Step::Isolated(_, _) => {
            follow_outcome(rt, alloc, app, session, *running, asker, steps, step)
        }
        _ => follow_plain(rt, alloc, app, session, running, step),
    }
}

fn is_text(text: &Option<String>, wanted: &str) -> bool {
    match text {
        Some(text) => text.as_str() == wanted,
        None => false,
    }
}

/// What may still be called after want of memory: of each reader whether it is alive and whether it
/// ran, which one that is alive did, and of each source its value.
fn look_on(rt: &impl Abort, app: &App, session: &Session)
    requires app { session.now.app ≡ app.now }
    requires values { length session.now.session.values ≡ length (starting_values (shape_of app.now).items) }
{
    for n in 0..app.readers() {
        assert!(rt; session.ran(n) || !session.alive(n), "{n}");
    }
    for source in 0..app.sources() {
        let value = session.source(source);
        assert!(rt; value.same(value), "{source}");
    }
}

/// Makes the calls one after another, up to the first that finds no memory.
fn follow_all<A: Asker, L: Ledger>(
    rt: &impl Abort,
    alloc: Global,
    app: &App,
    session: &mut Session,
    running: &mut Option<u32>,
    asker: &mut A,
    steps: &mut Steps<L>,
    script: &[Step<'_>],
) -> Result<(), Memory>
    requires app { session.old.app ≡ app.now }
    requires whole { session.old.whole ≡ true }
    requires values { length session.old.session.values ≡ length (starting_values (shape_of app.now).items) }
    requires running { session.old.session.running ≡ running.old }
    requires of_app { A.app asker.old ≡ shape_of app.now }
    requires none_out { A.out asker.old ≡ [] }
    ensures app { session.new.app ≡ app.now }
    ensures whole { OnOk result (session.new.whole ≡ true) }
    ensures values { length session.new.session.values ≡ length session.old.session.values }
    ensures running { session.new.session.running ≡ running.new }
    ensures follows { A.follows asker.new asker.old }
    ensures none_out { A.out asker.new ≡ [] }
{
    for step in script {
        match follow(rt, alloc, app, session, running, asker, steps, *step) {
            Ok(()) => {}
            Err(Memory) => {
                look_on(rt, app, session);
                return Err(Memory);
            }
        }
    }
    Ok(())
}

fn play_counted<A: Asker, L: Ledger>(
    rt: &impl Abort,
    alloc: Global,
    app: &Arc<App, Global>,
    asker: &mut A,
    script: &[Step<'_>],
    blank: Blank,
) -> Result<(), Memory>
    requires sound { is_sound (shape_of app.now.value) ≡ true }
    requires of_app { A.app asker.old ≡ shape_of app.now.value }
    requires none_out { A.out asker.old ≡ [] }
    requires name { blank.name ≡ L.name }
    requires parts { blank.parts ≡ L.parts }
    requires some { 0 < blank.parts }
    ensures follows { A.follows asker.new asker.old }
    ensures none_out { A.out asker.new ≡ [] }
{
    let mut session = Session::new(alloc, app.clone()?)?;
    let mut running = None;
    let mut steps = Steps::<L>::new(blank);
    follow_all(
        rt,
        alloc,
        app,
        &mut session,
        &mut running,
        asker,
        &mut steps,
        script,
    )
}

/// Makes the calls one after another in a new session over this asker. The bodies that are run are
/// counted for the contracts alone.
pub fn play<A: Asker>(
    rt: &impl Abort,
    alloc: Global,
    app: &Arc<App, Global>,
    asker: &mut A,
    script: &[Step<'_>],
) -> Result<(), Memory>
    requires sound { is_sound (shape_of app.now.value) ≡ true }
    requires of_app { A.app asker.old ≡ shape_of app.now.value }
    requires none_out { A.out asker.old ≡ [] }
    ensures follows { A.follows asker.new asker.old }
    ensures none_out { A.out asker.new ≡ [] }
{
    play_counted::<A, Brand>(rt, alloc, app, asker, script, Blank::new(1))
}

/// What is done next in the first one of two sessions, and then in the second one.
#[derive(Clone, Copy, Debug)]
pub struct Round<'a> {
    pub x: &'a [Step<'a>],
    pub y: &'a [Step<'a>],
}

fn play_rounds_counted<A: Asker, L: Ledger>(
    rt: &impl Abort,
    alloc: Global,
    app: &Arc<App, Global>,
    asker: &mut A,
    rounds: &[Round<'_>],
    blank: Blank,
) -> Result<(), Memory>
    requires sound { is_sound (shape_of app.now.value) ≡ true }
    requires of_app { A.app asker.old ≡ shape_of app.now.value }
    requires none_out { A.out asker.old ≡ [] }
    requires name { blank.name ≡ L.name }
    requires parts { blank.parts ≡ L.parts }
    requires some { 0 < blank.parts }
    ensures follows { A.follows asker.new asker.old }
    ensures none_out { A.out asker.new ≡ [] }
{
    let mut x = Session::new(alloc, app.clone()?)?;
    let mut y = Session::new(alloc, app.clone()?)?;
    let (mut in_x, mut in_y) = (None, None);
    let mut steps = Steps::<L>::new(blank);
    for round in rounds {
        follow_all(
            rt, alloc, app, &mut x, &mut in_x, asker, &mut steps, round.x,
        )?;
        follow_all(
            rt, alloc, app, &mut y, &mut in_y, asker, &mut steps, round.y,
        )?;
    }
    Ok(())
}

/// Makes the calls of two new sessions over this asker, round by round.
pub fn play_rounds<A: Asker>(
    rt: &impl Abort,
    alloc: Global,
    app: &Arc<App, Global>,
    asker: &mut A,
    rounds: &[Round<'_>],
) -> Result<(), Memory>
    requires sound { is_sound (shape_of app.now.value) ≡ true }
    requires of_app { A.app asker.old ≡ shape_of app.now.value }
    requires none_out { A.out asker.old ≡ [] }
    ensures follows { A.follows asker.new asker.old }
    ensures none_out { A.out asker.new ≡ [] }
{
    play_rounds_counted::<A, Brand>(rt, alloc, app, asker, rounds, Blank::new(1))
}

/// As [`play_rounds`], from the start again in two other sessions where a call found no memory.
pub fn play_rounds_again<A: Asker>(
    rt: &impl Abort,
    alloc: Global,
    app: &Arc<App, Global>,
    asker: &mut A,
    rounds: &[Round<'_>],
) -> Result<(), Memory>
    requires sound { is_sound (shape_of app.now.value) ≡ true }
    requires of_app { A.app asker.old ≡ shape_of app.now.value }
    requires none_out { A.out asker.old ≡ [] }
    ensures follows { A.follows asker.new asker.old }
    ensures none_out { A.out asker.new ≡ [] }
{
    match play_rounds(rt, alloc, app, asker, rounds) {
        Ok(()) => Ok(()),
        Err(Memory) => play_rounds(rt, alloc, app, asker, rounds),
    }
}

/// As [`play`], from the start again in another session where a call found no memory. Of the first
/// session no Leave may be out, since the second one claims the same keys.
pub fn play_again<A: Asker>(
    rt: &impl Abort,
    alloc: Global,
    app: &Arc<App, Global>,
    asker: &mut A,
    script: &[Step<'_>],
) -> Result<(), Memory>
    requires sound { is_sound (shape_of app.now.value) ≡ true }
    requires of_app { A.app asker.old ≡ shape_of app.now.value }
    requires none_out { A.out asker.old ≡ [] }
    ensures follows { A.follows asker.new asker.old }
    ensures none_out { A.out asker.new ≡ [] }
{
    match play(rt, alloc, app, asker, script) {
        Ok(()) => Ok(()),
        Err(Memory) => play(rt, alloc, app, asker, script),
    }
}
