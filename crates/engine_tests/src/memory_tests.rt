//! These tests hold where one allocation is refused, whichever it is.

ghost use Rattle.std.specs.Prelude.{◌≡◌, true, IfOk};
ghost use Rattle.app_tree.specs.View.{shape_of};
ghost use Rattle.app_tree.specs.Cover.{is_sound};

use crate::playing::{Round, Step, play_again, play_rounds_again};
use app_check::{LoadError, load};
use app_tree::App;
use book_asker::BookAsker;
use cache_book::Book;
use rx_value::Memory;
use std::alloc::Global;
use std::process::Abort;
use std::sync::Arc;
use std::test::Fail;
use term_eval::NoCache;

/// The app of a file.
fn app_of(alloc: Global, file: &str) -> Result<Arc<App, Global>, LoadError>
    ensures { IfOk result (λ app. is_sound (shape_of app.value) ≡ true) }
{
    match Arc::new(alloc, load(alloc, file.as_bytes())?) {
        Ok(app) => Ok(app),
        Err(_) => Err(LoadError::Memory),
    }
}

/// The app of a file, which is loaded again where there was no memory.
fn app_again(alloc: Global, file: &str) -> Result<Arc<App, Global>, LoadError>
    ensures { IfOk result (λ app. is_sound (shape_of app.value) ≡ true) }
{
    match app_of(alloc, file) {
        Ok(app) => Ok(app),
        Err(_) => app_of(alloc, file),
    }
}

/// A file, and the calls of a session. Two sessions make them, one after the other.
type Case = (&'static str, &'static [Step<'static>]);

const CASES: [Case; 3] = [
    (
        "input a = 1; input b = 1; reactive e { input$a + 1 } event f ignoreInit (input$b) { e() } text p { paste0(e(), isolate(input$b)) } text q { f() }",
        &[
            Step::Run("p", "'21"),
            Step::Run("q", "(stop)"),
            Step::Alive("e f p q"),
            Step::Set("a", "two", "e p"),
            Step::Set("b", "3", "f q"),
            Step::Run("p", "! wrong kind of value"),
            Step::Run("q", "! wrong kind of value"),
            Step::Alive("e f p q"),
            Step::Ran("e f p q"),
        ],
    ),
    (
        "input n = 1; reactive a cache (input$n) { input$n + 1 } reactive e cache (input$n) { a() * 2 } text o cache (e()) { paste0(e()) }",
        &[
            Step::Run("o", "'4"),
            Step::Force("a", "2"),
            Step::SetAny("n", "2"),
            Step::Run("o", "'6"),
            Step::Force("e", "6"),
            Step::SetAny("n", "1"),
            Step::Run("o", "'4"),
        ],
    ),
    (
        "input n = 1; input d = 0; reactive e cache (1 %/% input$d, input$n) { input$n } plot p cache (e()) { e() }",
        &[
            Step::Run("p", "! division by zero"),
            Step::Set("d", "1", "e p"),
            Step::Run("p", "! wrong kind of value"),
            Step::Set("n", "<svg/>", "e p"),
            Step::Run("p", "<svg/>"),
        ],
    ),
];

/// Two sessions over one cache.
fn play_cached(rt: &impl Abort, alloc: Global, case: &Case) -> Result<(), Fail> {
    let (file, script) = case;
    let app = app_again(alloc, file)?;
    let mut book = match Book::new(alloc, 10, 10_000) {
        Ok(book) => book,
        Err(Memory) => Book::new(alloc, 10, 10_000)?,
    };
    let mut asker = BookAsker::new(&app, &mut book);
    let first = play_again(rt, alloc, &app, &mut asker, script);
    let second = play_again(rt, alloc, &app, &mut asker, script);
    asker.finish();
    first?;
    second?;
    Ok(())
}

/// Two sessions without a cache.
fn play_plain(rt: &impl Abort, alloc: Global, case: &Case) -> Result<(), Fail> {
    let (file, script) = case;
    let app = app_again(alloc, file)?;
    let mut asker = NoCache::new(alloc, &app);
    play_again(rt, alloc, &app, &mut asker, script)?;
    play_again(rt, alloc, &app, &mut asker, script)?;
    Ok(())
}

#[test]
fn a_refused_call_leaves_what_can_be_asked_and_no_leave(rt: HostRuntime) -> Result<(), Fail> {
    for case in &CASES {
        play_cached(&rt, rt.alloc(), case)?;
    }
    Ok(())
}

#[test]
fn a_refused_call_leaves_no_leave_without_a_cache(rt: HostRuntime) -> Result<(), Fail> {
    for case in &CASES {
        play_plain(&rt, rt.alloc(), case)?;
    }
    Ok(())
}

/// Two sessions in turn over a cache of one entry.
const IN_TURN: [Round<'static>; 2] = [
    Round {
        x: &[Step::Run("o", "'10")],
        y: &[Step::SetAny("a", "2"), Step::Run("o", "'20")],
    },
    Round {
        x: &[Step::SetAny("a", "2"), Step::Run("o", "'20")],
        y: &[Step::SetAny("a", "1"), Step::Run("o", "'10")],
    },
];

#[test]
fn a_refused_call_of_two_sessions_leaves_no_leave(rt: HostRuntime) -> Result<(), Fail> {
    let alloc = rt.alloc();
    let file = "input a = 1; reactive e cache (input$a) { paste0(input$a * 10) } text o { e() }";
    let app = app_again(alloc, file)?;
    let mut book = match Book::new(alloc, 1, 10_000) {
        Ok(book) => book,
        Err(Memory) => Book::new(alloc, 1, 10_000)?,
    };
    let mut asker = BookAsker::new(&app, &mut book);
    let played = play_rounds_again(&rt, alloc, &app, &mut asker, &IN_TURN);
    asker.finish();
    played?;
    Ok(())
}
