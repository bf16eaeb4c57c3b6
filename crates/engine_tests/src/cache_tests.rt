use crate::playing::{Step, play};
use crate::samples::key_of;
use crate::watched::{Counts, Watched};
use app_check::load;
use book_asker::BookAsker;
use cache_book::{Book, BookClaim};
use rx_value::{Outcome, Value};
use std::alloc::Global;
use std::process::Abort;
use std::sync::Arc;
use std::test::Fail;
use term_eval::NoCache;

/// A case over one cache: the file, the calls of a first session, and how many hits and fills the
/// cache had by then; the calls of a second session, and the hits and fills of both. Each Leave is
/// filled.
#[derive(Clone, Copy)]
struct Case {
    file: &'static str,
    first: &'static [Step<'static>],
    asked: (u32, u32),
    second: &'static [Step<'static>],
    asked_in_both: (u32, u32),
}

/// What a cache was asked.
fn counts_of(asked: (u32, u32)) -> Counts {
    let (hits, filled) = asked;
    Counts {
        hits,
        leaves: filled,
        filled,
        abandoned: 0,
    }
}

/// Two sessions, one after the other, over one cache.
fn play_in_turn(rt: &impl Abort, alloc: Global, case: &Case) -> Result<(), Fail> {
    let app = Arc::new(alloc, load(alloc, case.file.as_bytes())?)?;
    let mut book = Book::new(alloc, 10, 10_000)?;
    let mut asker = Watched::new(BookAsker::new(&app, &mut book));
    let first = play(rt, alloc, &app, &mut asker, case.first);
    let asked = asker.counts;
    let second = play(rt, alloc, &app, &mut asker, case.second);
    let Watched { asker, counts } = asker;
    asker.finish();
    first?;
    second?;
    assert_eq!(rt; asked, counts_of(case.asked));
    assert_eq!(rt; counts, counts_of(case.asked_in_both));
    Ok(())
}

const SHARED: Case = Case {
    file: "input n = 1; reactive e cache (input$n) { input$n * 2 } text p { e() }",
    first: &[
        Step::Run("p", "2"),
        Step::Alive("e p"),
        Step::Run("p", "2"),
        Step::Set("n", "3", "e p"),
        Step::Run("p", "6"),
        Step::Set("n", "1", "e p"),
        Step::Run("p", "2"),
    ],
    asked: (1, 2),
    second: &[
        Step::Run("p", "2"),
        Step::Alive("e p"),
        Step::Set("n", "3", "e p"),
        Step::Force("e", "6"),
        Step::Set("n", "4", "e"),
        Step::Force("e", "8"),
    ],
    asked_in_both: (3, 3),
};

#[test]
fn a_second_session_takes_what_the_first_one_left(rt: HostRuntime) -> Result<(), Fail> {
    play_in_turn(&rt, rt.alloc(), &SHARED)
}

const BEHIND_A_HIT: Case = Case {
    file: "input n = 1; reactive a { input$n + 1 } reactive e cache (input$n) { a() * 2 } text p { e() }",
    first: &[Step::Run("p", "4"), Step::Alive("a e p")],
    asked: (0, 1),
    second: &[
        Step::Run("p", "4"),
        Step::Alive("e p"),
        Step::Ran("e p"),
        Step::Force("a", "2"),
        Step::Alive("a e p"),
        Step::Set("n", "2", "a e p"),
        Step::Run("p", "6"),
        Step::Alive("a e p"),
    ],
    asked_in_both: (1, 2),
};

#[test]
fn what_stands_behind_a_hit_is_not_run(rt: HostRuntime) -> Result<(), Fail> {
    play_in_turn(&rt, rt.alloc(), &BEHIND_A_HIT)
}

const ONE_WITHIN_ANOTHER: Case = Case {
    file: "input n = 1; reactive a cache (input$n) { input$n + 1 } reactive e cache (input$n) { a() * 2 } text o cache (e()) { e() + 1 }",
    first: &[Step::Run("o", "5"), Step::Alive("a e o")],
    asked: (0, 3),
    second: &[
        Step::Run("o", "5"),
        Step::Alive("e o"),
        Step::Set("n", "2", "e o"),
        Step::Run("o", "7"),
        Step::Alive("a e o"),
    ],
    asked_in_both: (2, 6),
};

#[test]
fn a_cached_body_may_want_a_cached_expression(rt: HostRuntime) -> Result<(), Fail> {
    play_in_turn(&rt, rt.alloc(), &ONE_WITHIN_ANOTHER)
}

const KEYS_FAIL: Case = Case {
    file: "input n = 1; input d = 0; reactive e cache (input$n, 1 %/% input$d) { input$n } text p { e() }",
    first: &[
        Step::Run("p", "! division by zero"),
        Step::Alive("e p"),
        Step::Force("e", "! division by zero"),
    ],
    asked: (0, 0),
    second: &[
        Step::Run("p", "! division by zero"),
        Step::Set("d", "1", "e p"),
        Step::Run("p", "1"),
        Step::Set("n", "2", "e p"),
        Step::Run("p", "2"),
    ],
    asked_in_both: (0, 2),
};

#[test]
fn no_cache_is_asked_where_a_key_fails(rt: HostRuntime) -> Result<(), Fail> {
    play_in_turn(&rt, rt.alloc(), &KEYS_FAIL)
}

const BODY_FAILS: Case = Case {
    file: "input n = 0; text p cache (input$n) { 1 %/% input$n }",
    first: &[Step::Run("p", "! division by zero")],
    asked: (0, 1),
    second: &[Step::Run("p", "! division by zero"), Step::Alive("p")],
    asked_in_both: (1, 1),
};

#[test]
fn a_failure_is_shared_like_a_value(rt: HostRuntime) -> Result<(), Fail> {
    play_in_turn(&rt, rt.alloc(), &BODY_FAILS)
}

const PLOTTED: Case = Case {
    file: "input n = 1; plot p cache (input$n) { input$n }",
    first: &[Step::Run("p", "! wrong kind of value"), Step::Alive("p")],
    asked: (0, 1),
    second: &[
        Step::Run("p", "! wrong kind of value"),
        Step::Set("n", "<svg/>", "p"),
        Step::Run("p", "<svg/>"),
    ],
    asked_in_both: (1, 2),
};

#[test]
fn a_plot_takes_its_last_step_after_the_cache(rt: HostRuntime) -> Result<(), Fail> {
    play_in_turn(&rt, rt.alloc(), &PLOTTED)
}

#[test]
fn a_cache_holds_what_a_plot_made_no_picture_of(rt: HostRuntime) -> Result<(), Fail> {
    let alloc = rt.alloc();
    let app = Arc::new(alloc, load(alloc, PLOTTED.file.as_bytes())?)?;
    let mut book = Book::new(alloc, 10, 10_000)?;
    let mut asker = BookAsker::new(&app, &mut book);
    let played = play(&rt, alloc, &app, &mut asker, PLOTTED.first);
    asker.finish();
    played?;
    let key = key_of(alloc, 0, "1")?;
    let BookClaim::Hit(kept) = book.claim(alloc, &key, 1) else {
        panic!(rt; "no outcome is kept")
    };
    assert!(rt; kept.same(&Outcome::Val(Value::Int(1))));
    Ok(())
}

/// Two sessions over an asker that keeps nothing.
fn play_apart(rt: &impl Abort, alloc: Global, case: &Case) -> Result<(), Fail> {
    let app = Arc::new(alloc, load(alloc, case.file.as_bytes())?)?;
    let mut asker = Watched::new(NoCache::new(alloc, &app));
    play(rt, alloc, &app, &mut asker, case.first)?;
    play(rt, alloc, &app, &mut asker, case.first)?;
    let (hits, filled) = case.asked;
    let each = filled.saturating_add(hits);
    assert_eq!(rt; asker.counts, counts_of((0, each.saturating_add(each))));
    Ok(())
}

#[test]
fn without_a_cache_each_body_is_run(rt: HostRuntime) -> Result<(), Fail> {
    for case in [
        SHARED,
        BEHIND_A_HIT,
        ONE_WITHIN_ANOTHER,
        KEYS_FAIL,
        BODY_FAILS,
        PLOTTED,
    ] {
        play_apart(&rt, rt.alloc(), &case)?;
    }
    Ok(())
}
