ghost use Rattle.std.specs.Prelude.{◌≡◌, ◌<◌, length};
ghost use Rattle.app_tree.specs.View.{shape_of};
ghost use Rattle.app_tree.specs.Numbering.{readers, reader as reader_at};
ghost use Rattle.term_eval.specs.Bodies.{IsCached, IsUncached};

use crate::lookup::{cached_named, reader_named, uncached_named};
use crate::plain_reader::PlainReader;
use crate::samples::outcome_of;
use app_check::load;
use app_tree::{App, Item};
use rx_value::{Memory, Outcome, Value, Values, show};
use std::alloc::Global;
use std::marker::Brand;
use std::process::Abort;
use std::sync::ledger::{Blank, Ledger};
use std::test::Fail;
use term_eval::{
    Asked, Asker, Evaled, Keyed, NoCache, Steps, eval, last_step, picture, run_body,
    run_cached_body, run_keys, sites_in,
};

const FILE: &str = "input a = 0; input b = 0; value v = 0; task t (x, y) { x * 10 + y }
reactive e cache (input$b, input$a + 1) { input$b + 1 }
event pressed (input$b) { input$b * 10 }
text direct { input$b + 1 }
text behind { 5 + e() * input$b }
text stopped { v() + input$b }
text sites { isolate(isolate(input$b) + 1) + isolate(2) }
text keyed cache (e()) { e() }
text failing cache (1 %/% input$a, input$b) { input$b }
plot shown { input$b }
plot kept cache (input$b) { input$b }";

/// What an evaluation comes to: an outcome, or the expression that it wants.
#[derive(Clone, Copy)]
enum Wanted<'a> {
    Comes(&'a str),
    Wants(u32),
}

fn is_wanted(alloc: Global, got: &Evaled, wanted: &Wanted<'_>) -> Result<bool, Memory> {
    match (got, wanted) {
        (Evaled::Done(outcome), Wanted::Comes(words)) => {
            Ok(outcome.same(&outcome_of(alloc, words)?))
        }
        (Evaled::Wants(m), Wanted::Wants(n)) => Ok(m == n),
        _ => Ok(false),
    }
}

/// Runs the body of a reader without keys, and counts it.
fn run_counted<L: Ledger>(
    alloc: Global,
    app: &App,
    n: u32,
    reader: &mut PlainReader,
    blank: Blank,
) -> Evaled
    requires known { n < length (readers (shape_of app.now)) }
    requires uncached { IsUncached (reader_at (shape_of app.now) n) }
    requires name { blank.name ≡ L.name }
    requires parts { blank.parts ≡ L.parts }
    requires some { 0 < blank.parts }
{
    let mut steps = Steps::<L>::new(blank);
    run_body(alloc, app, n, reader, &mut steps)
}

/// Runs the body of the reader of this name, which has no keys.
fn run_named(
    rt: &impl Abort,
    alloc: Global,
    app: &App,
    name: &str,
    reader: &mut PlainReader,
) -> Evaled {
    let Some(n) = uncached_named(app, name) else {
        panic!(rt; "no reader {name} without keys")
    };
    run_counted::<Brand>(alloc, app, n, reader, Blank::new(1))
}

/// A reader without keys, what its body comes to, how many reads it asks, and how many isolated sites
/// are left.
const BODIES: [(&str, Wanted<'static>, u32, u32); 6] = [
    ("direct", Wanted::Comes("2"), 1, 0),
    ("pressed", Wanted::Comes("10"), 2, 1),
    ("behind", Wanted::Wants(0), 1, 0),
    ("stopped", Wanted::Comes("(stop)"), 1, 0),
    ("sites", Wanted::Comes("4"), 1, 3),
    ("shown", Wanted::Comes("! wrong kind of value"), 1, 0),
];

#[test]
fn a_body_asks_up_to_the_first_read_that_is_wanted(rt: HostRuntime) -> Result<(), Fail> {
    let alloc = rt.alloc();
    let app = load(alloc, FILE.as_bytes())?;
    for (name, wanted, reads, sites) in &BODIES {
        let mut reader = PlainReader::new();
        let got = run_named(&rt, alloc, &app, name, &mut reader);
        assert!(rt; is_wanted(alloc, &got, wanted)?, "{name} {got:?}");
        assert_eq!(rt; reader.reads, *reads, "{name}");
        assert_eq!(rt; reader.sites, *sites, "{name}");
    }
    Ok(())
}

/// The parameters' values.
fn two_numbers(alloc: Global, x: i64, y: i64) -> Result<Values, Memory> {
    let mut values = Values::new(alloc);
    values.push(Value::Int(x))?;
    values.push(Value::Int(y))?;
    Ok(values)
}

#[test]
fn a_task_is_evaluated_on_its_arguments(rt: HostRuntime) -> Result<(), Fail> {
    let alloc = rt.alloc();
    let app = load(alloc, FILE.as_bytes())?;
    let Some(Item::Task { body, .. }) = app.source(3) else {
        panic!(rt; "no task")
    };
    let mut reader = PlainReader::new();
    let got = eval(alloc, body, &two_numbers(alloc, 1, 2)?, &mut reader);
    assert!(rt; is_wanted(alloc, &got, &Wanted::Comes("12"))?, "{got:?}");
    assert_eq!(rt; reader.reads, 0);
    Ok(())
}

#[test]
fn counts_the_isolated_sites_of_a_term(rt: HostRuntime) -> Result<(), Fail> {
    let alloc = rt.alloc();
    let app = load(alloc, FILE.as_bytes())?;
    for (name, wanted) in [("sites", 3), ("direct", 0), ("behind", 0)] {
        let Some(n) = reader_named(&app, name) else {
            panic!(rt; "no reader {name}")
        };
        let Item::Text { output, .. } = app.reader(n) else {
            panic!(rt; "no text {name}")
        };
        assert_eq!(rt; sites_in(&output.body)?, wanted, "{name}");
    }
    Ok(())
}

/// Runs the keys of a cached reader and then its body, with the Leave that an asker gives, and counts it.
fn run_claimed_counted<L: Ledger>(
    rt: &impl Abort,
    alloc: Global,
    app: &App,
    n: u32,
    reader: &mut PlainReader,
    blank: Blank,
) -> Evaled
    requires known { n < length (readers (shape_of app.now)) }
    requires cached { IsCached (reader_at (shape_of app.now) n) }
    requires name { blank.name ≡ L.name }
    requires parts { blank.parts ≡ L.parts }
    requires some { 0 < blank.parts }
{
    let Keyed::Key(key) = run_keys(alloc, app, n, reader) else {
        panic!(rt; "reader {n} has no key")
    };
    let mut asker = NoCache::new(alloc, app);
    let mut steps = Steps::<L>::new(blank);
    match asker.claim(alloc, &key) {
        Asked::Go(leave) => {
            let got = run_cached_body::<PlainReader, NoCache<'_>, L>(
                alloc, app, n, &leave, reader, &mut steps,
            );
            asker.abandon(leave);
            got
        }
        Asked::Hit(_) => panic!(rt; "a hit without a cache"),
        Asked::Memory => Evaled::Memory,
    }
}

/// Runs the keys and the body of the cached reader of this name.
fn run_claimed(
    rt: &impl Abort,
    alloc: Global,
    app: &App,
    name: &str,
    reader: &mut PlainReader,
) -> Evaled {
    let Some(n) = cached_named(app, name) else {
        panic!(rt; "no reader {name} with keys")
    };
    run_claimed_counted::<Brand>(rt, alloc, app, n, reader, Blank::new(1))
}

#[test]
fn a_cached_body_is_run_alone(rt: HostRuntime) -> Result<(), Fail> {
    let alloc = rt.alloc();
    let app = load(alloc, FILE.as_bytes())?;
    for (name, wanted, reads) in [("e", "2", 3), ("kept", "1", 2)] {
        let mut reader = PlainReader::new();
        let got = run_claimed(&rt, alloc, &app, name, &mut reader);
        assert!(rt;
            is_wanted(alloc, &got, &Wanted::Comes(wanted))?,
            "{name} {got:?}"
        );
        assert_eq!(rt; reader.reads, reads, "{name}");
    }
    Ok(())
}

/// A reader with keys, what these come to, and how many reads they ask.
const KEYS: [(&str, &str, u32); 4] = [
    ("e", "key 1 1", 2),
    ("kept", "key 1", 1),
    ("keyed", "wants 0", 1),
    ("failing", "fails division by zero", 1),
];

#[test]
fn keys_come_to_a_key_or_to_their_first_failure(rt: HostRuntime) -> Result<(), Fail> {
    let alloc = rt.alloc();
    let app = load(alloc, FILE.as_bytes())?;
    for (name, wanted, reads) in &KEYS {
        let Some(n) = cached_named(&app, name) else {
            panic!(rt; "no reader {name} with keys")
        };
        let mut reader = PlainReader::new();
        let keyed = run_keys(alloc, &app, n, &mut reader);
        let told = told_of(alloc, &keyed)?;
        assert_eq!(rt; told.as_str(), *wanted, "{name}");
        assert_eq!(rt; reader.reads, *reads, "{name}");
    }
    Ok(())
}

/// What keys came to, as a text.
fn told_of(alloc: Global, keyed: &Keyed) -> Result<String, Memory> {
    match keyed {
        Keyed::Key(key) => {
            let mut told = String::from_str(alloc, "key")?;
            for part in key.parts.as_slice() {
                let shown = show(alloc, part)?;
                told.push_str(" ")?;
                told.push_str(shown.as_str())?;
            }
            Ok(told)
        }
        Keyed::Fails(Outcome::Fail(text)) => Ok(format!(in alloc; "fails {}", text.as_str())?),
        Keyed::Fails(_) => Ok(String::from_str(alloc, "halts")?),
        Keyed::Wants(m) => Ok(format!(in alloc; "wants {m}")?),
        Keyed::Memory => Err(Memory),
    }
}

/// A reader, what its body or a cache came to, and what the reader makes of it.
const LAST_STEPS: [(&str, &str, &str); 8] = [
    ("direct", "1", "1"),
    ("shown", "1", "! wrong kind of value"),
    ("shown", "TRUE", "! wrong kind of value"),
    ("shown", "<svg/>", "<svg/>"),
    ("shown", "NULL", "NULL"),
    ("shown", "! bad", "! bad"),
    ("shown", "(stop)", "(stop)"),
    ("e", "TRUE", "TRUE"),
];

#[test]
fn a_plot_alone_wants_a_picture(rt: HostRuntime) -> Result<(), Fail> {
    let alloc = rt.alloc();
    let app = load(alloc, FILE.as_bytes())?;
    for (name, outcome, wanted) in &LAST_STEPS {
        let Some(n) = reader_named(&app, name) else {
            panic!(rt; "no reader {name}")
        };
        let shown = last_step(alloc, &app, n, outcome_of(alloc, outcome)?)?;
        assert!(rt; shown.same(&outcome_of(alloc, wanted)?), "{name} {outcome}");
    }
    let drawn = picture(alloc, Outcome::Val(Value::Int(1)))?;
    assert!(rt; drawn.same(&outcome_of(alloc, "! wrong kind of value")?));
    Ok(())
}
