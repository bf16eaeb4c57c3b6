//! Tests of observers: what their terms come to, and what a change does while one runs and afterwards.

use crate::playing::{Step, play};
use crate::watched::{NOTHING, Watched};
use app_check::load;
use book_asker::BookAsker;
use cache_book::Book;
use std::alloc::Global;
use std::process::Abort;
use std::sync::Arc;
use std::test::Fail;
use term_eval::NoCache;

/// The terms of `w` from 0: an input, an expression, an isolated input beside another one, a silent stop
/// or a value, a failure or a value, and an expression over another one. Those of `u` are its event term
/// and one statement's.
const FILE: &str =
    "input a = 1; input b = 2; input d = 3; value v = 0; reactive e { input$b * 10 } reactive f { e() + input$a }
observe w { do input$a; set v = e(); do isolate(input$d) + input$a; do req(input$d > 3); update a = 1 %/% (input$d - 3); do f(); }
on u (e()) { do input$a; }
text p { e() }";

const CASES: [&[Step<'static>]; 12] = [
    // a run without a term depends on nothing
    &[
        Step::Alive(""),
        Step::Begin("w"),
        Step::Alive("w"),
        Step::Ran("w"),
        Step::Set("a", "5", ""),
        Step::Finish(true),
        Step::Alive("w"),
    ],
    // a source that a term has read marks the observer while it runs
    &[
        Step::Begin("w"),
        Step::Term(0, "1"),
        Step::Alive("w"),
        Step::SetSame("a", "1"),
        Step::Alive("w"),
        Step::Set("a", "5", "w"),
        Step::Alive(""),
        Step::Ran("w"),
        Step::Finish(false),
        Step::Alive(""),
        Step::Ran("w"),
    ],
    // and after its run
    &[
        Step::Begin("w"),
        Step::Term(0, "1"),
        Step::Finish(true),
        Step::Alive("w"),
        Step::Set("b", "5", ""),
        Step::Set("a", "5", "w"),
        Step::Alive(""),
        Step::Ran("w"),
    ],
    // what an isolated term reads doesn't count
    &[
        Step::Begin("w"),
        Step::Isolated(0, "1"),
        Step::Set("a", "5", ""),
        Step::Alive("w"),
        Step::Isolated(0, "5"),
        Step::Finish(true),
        Step::Set("a", "6", ""),
        Step::Alive("w"),
    ],
    // nor does what stands in an isolate
    &[
        Step::Begin("w"),
        Step::Term(2, "4"),
        Step::Set("d", "5", ""),
        Step::Term(2, "6"),
        Step::Alive("w"),
        Step::Set("a", "2", "w"),
        Step::Finish(false),
    ],
    // an expression that a term reads is made alive, and its sources count
    &[
        Step::Begin("w"),
        Step::Term(1, "20"),
        Step::Alive("e w"),
        Step::Set("b", "3", "e w"),
        Step::Alive(""),
        Step::Finish(false),
    ],
    // through each expression between
    &[
        Step::Begin("w"),
        Step::Term(5, "21"),
        Step::Alive("e f w"),
        Step::Ran("e f w"),
        Step::Finish(true),
        Step::Set("a", "2", "f w"),
        Step::Alive("e"),
    ],
    // an isolated term makes an expression alive as well
    &[
        Step::Run("p", "20"),
        Step::Begin("u"),
        Step::Term(0, "20"),
        Step::Isolated(1, "1"),
        Step::Isolated(0, "20"),
        Step::Alive("e u p"),
        Step::Set("a", "2", ""),
        Step::Finish(true),
        Step::Begin("w"),
        Step::Isolated(5, "22"),
        Step::Alive("e f w u p"),
        Step::Set("b", "3", "e f u p"),
        Step::Finish(true),
        Step::Alive("w"),
    ],
    // a source that is written before it is read marks nothing
    &[
        Step::Begin("w"),
        Step::Set("a", "5", ""),
        Step::Term(0, "5"),
        Step::Alive("w"),
        Step::Finish(true),
        Step::Set("a", "6", "w"),
    ],
    // what is read after a change has overtaken the observer doesn't count
    &[
        Step::Begin("w"),
        Step::Term(0, "1"),
        Step::Set("a", "5", "w"),
        Step::Term(1, "20"),
        Step::Alive("e"),
        Step::Set("b", "3", "e"),
        Step::Finish(false),
        Step::Begin("w"),
        Step::Term(1, "30"),
        Step::Set("a", "6", ""),
        Step::Finish(true),
        Step::Alive("e w"),
        Step::Set("b", "4", "e w"),
    ],
    // a term that comes to no value has read what it read
    &[
        Step::Begin("w"),
        Step::Term(3, "(stop)"),
        Step::Set("d", "4", "w"),
        Step::Finish(false),
        Step::Begin("w"),
        Step::Term(3, "TRUE"),
        Step::Finish(true),
        Step::Set("d", "3", "w"),
        Step::Begin("w"),
        Step::Term(4, "! division by zero"),
        Step::Finish(true),
        Step::Set("d", "5", "w"),
        Step::Begin("w"),
        Step::Term(4, "0"),
        Step::Finish(true),
    ],
    // one observer after another, each with its own sources
    &[
        Step::Begin("w"),
        Step::Term(0, "1"),
        Step::Finish(true),
        Step::Begin("u"),
        Step::Term(0, "20"),
        Step::Set("a", "2", "w"),
        Step::Alive("e u"),
        Step::Finish(true),
        Step::Set("b", "3", "e u"),
        Step::Alive(""),
        Step::Ran("e w u"),
    ],
];

/// Makes the calls in a session without a cache, and in one over a cache, which is asked for nothing.
fn play_both(rt: &impl Abort, alloc: Global, script: &[Step<'_>]) -> Result<(), Fail> {
    let app = Arc::new(alloc, load(alloc, FILE.as_bytes())?)?;
    play(rt, alloc, &app, &mut NoCache::new(alloc, &app), script)?;
    let mut book = Book::new(alloc, 10, 10_000)?;
    let mut asker = Watched::new(BookAsker::new(&app, &mut book));
    let played = play(rt, alloc, &app, &mut asker, script);
    let Watched { asker, counts } = asker;
    asker.finish();
    played?;
    assert_eq!(rt; counts, NOTHING);
    Ok(())
}

#[test]
fn an_observer_depends_on_what_its_terms_read(rt: HostRuntime) -> Result<(), Fail> {
    for script in CASES {
        play_both(&rt, rt.alloc(), script)?;
    }
    Ok(())
}
