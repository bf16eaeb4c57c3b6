//! Tests of two sessions that take turns over one cache.

use crate::playing::{Round, Step, play_rounds};
use crate::samples::key_of;
use crate::watched::{Counts, Watched};
use app_check::load;
use book_asker::BookAsker;
use cache_book::{Book, BookClaim};
use rx_value::{Outcome, Value};
use std::alloc::Global;
use std::process::Abort;
use std::sync::Arc;
use std::test::Fail;
use term_eval::NoCache;

/// A case: the file, how many outcomes the cache keeps at most, what two sessions do, and how many hits
/// and fills the cache has had in the end. Each Leave is filled.
#[derive(Clone, Copy)]
struct Case {
    file: &'static str,
    entries: usize,
    rounds: &'static [Round<'static>],
    hits: u32,
    filled: u32,
}

/// Plays the rounds over one cache, which is asked as the case says, and hands it out.
fn play_shared(rt: &impl Abort, alloc: Global, case: &Case) -> Result<Book, Fail> {
    let app = Arc::new(alloc, load(alloc, case.file.as_bytes())?)?;
    assert!(rt; 0 < case.entries && case.entries <= 10);
    let mut book = Book::new(alloc, case.entries, 10_000)?;
    let mut asker = Watched::new(BookAsker::new(&app, &mut book));
    let played = play_rounds(rt, alloc, &app, &mut asker, case.rounds);
    let Watched { asker, counts } = asker;
    asker.finish();
    played?;
    let wanted = Counts {
        hits: case.hits,
        leaves: case.filled,
        filled: case.filled,
        abandoned: 0,
    };
    assert_eq!(rt; counts, wanted);
    Ok(book)
}

const ONE_ENTRY: Case = Case {
    file: "input a = 1; reactive e cache (input$a) { input$a * 10 } text o { e() }",
    entries: 1,
    rounds: &[
        Round {
            x: &[Step::Run("o", "10")],
            y: &[Step::Set("a", "2", ""), Step::Run("o", "20")],
        },
        Round {
            x: &[Step::Set("a", "2", "e o"), Step::Run("o", "20")],
            y: &[Step::Set("a", "1", "e o"), Step::Run("o", "10")],
        },
    ],
    hits: 1,
    filled: 3,
};

#[test]
fn a_cache_of_one_entry_keeps_the_last_outcome(rt: HostRuntime) -> Result<(), Fail> {
    let alloc = rt.alloc();
    let mut book = play_shared(&rt, alloc, &ONE_ENTRY)?;
    let BookClaim::Hit(kept) = book.claim(alloc, &key_of(alloc, 0, "1")?, 1) else {
        panic!(rt; "no outcome is kept")
    };
    assert!(rt; kept.same(&Outcome::Val(Value::Int(10))));
    let claim = book.claim(alloc, &key_of(alloc, 0, "2")?, 1);
    assert!(rt; matches!(claim, BookClaim::Mine));
    Ok(())
}

const REPLACED: Case = Case {
    file: "input n = 1; reactive a { input$n + 1 } reactive e cache (input$n) { a() * 10 } text o { e() } text q { a() }",
    entries: 1,
    rounds: &[
        Round {
            x: &[Step::Run("o", "20"), Step::Alive("a e o")],
            y: &[
                Step::Run("o", "20"),
                Step::Alive("e o"),
                Step::Ran("e o"),
                Step::Run("q", "2"),
                Step::Alive("a e o q"),
            ],
        },
        Round {
            x: &[Step::Set("n", "2", "a e o"), Step::Run("o", "30")],
            y: &[
                Step::Set("n", "2", "a e o q"),
                Step::Run("o", "30"),
                Step::Alive("e o"),
            ],
        },
        Round {
            x: &[
                Step::Set("n", "1", "a e o"),
                Step::Run("o", "20"),
                Step::Alive("a e o"),
            ],
            y: &[
                Step::Set("n", "1", "e o"),
                Step::Run("o", "20"),
                Step::Force("a", "2"),
                Step::Set("n", "3", "a e o"),
                Step::Run("q", "4"),
                Step::Alive("a q"),
            ],
        },
    ],
    hits: 3,
    filled: 3,
};

#[test]
fn an_outcome_that_was_replaced_is_found_again(rt: HostRuntime) -> Result<(), Fail> {
    play_shared(&rt, rt.alloc(), &REPLACED)?;
    Ok(())
}

const COVERED_BY_PARTS: Case = Case {
    file: "input b = 1; input d = 2; reactive e { input$b + input$d } text o cache (e()) { e() * 2 } text p cache (input$b, input$d) { e() }",
    entries: 10,
    rounds: &[Round {
        x: &[
            Step::Run("o", "6"),
            Step::Run("p", "3"),
            Step::Alive("e o p"),
        ],
        y: &[
            Step::Run("p", "3"),
            Step::Alive("p"),
            Step::Run("o", "6"),
            Step::Alive("e o p"),
            Step::Set("b", "2", "e o p"),
            Step::Set("d", "1", ""),
            Step::Run("o", "6"),
            Step::Run("p", "3"),
        ],
    }],
    hits: 3,
    filled: 3,
};

#[test]
fn an_expression_or_what_it_reads_covers_a_body(rt: HostRuntime) -> Result<(), Fail> {
    play_shared(&rt, rt.alloc(), &COVERED_BY_PARTS)?;
    Ok(())
}

const SHARED_FAILURE: Case = Case {
    file: "input d = 0; reactive e cache (input$d) { 1 %/% input$d } text o { e() }",
    entries: 10,
    rounds: &[Round {
        x: &[Step::Run("o", "! division by zero")],
        y: &[Step::Run("o", "! division by zero"), Step::Alive("e o")],
    }],
    hits: 1,
    filled: 1,
};

#[test]
fn two_sessions_share_a_failure(rt: HostRuntime) -> Result<(), Fail> {
    play_shared(&rt, rt.alloc(), &SHARED_FAILURE)?;
    Ok(())
}

/// Three bars: of 4, 1 and 5.
const THREE_BARS: &str =
    "<svg xmlns=\"http://www.w3.org/2000/svg\" width=\"784\" height=\"400\"><text x=\"10\" y=\"20\">Waiting</text><rect x=\"10\" y=\"102\" width=\"254\" height=\"288\"/><rect x=\"264\" y=\"318\" width=\"255\" height=\"72\"/><rect x=\"519\" y=\"30\" width=\"255\" height=\"360\"/></svg>";

/// One bar, of all ten.
const ONE_BAR: &str =
    "<svg xmlns=\"http://www.w3.org/2000/svg\" width=\"784\" height=\"400\"><text x=\"10\" y=\"20\">Waiting</text><rect x=\"10\" y=\"30\" width=\"764\" height=\"360\"/></svg>";

const HISTOGRAM: Case = Case {
    file: "input bins = 30; value waits = c(43, 52, 79, 62, 85, 55, 88, 85, 51, 85);
reactive lo { min(waits()) } reactive wide { (max(waits()) - lo()) %/% input$bins + 1 }
reactive counts { fold(seq(0, input$bins - 1), c(), acc, b, c(acc, fold(waits(), 0, n, x, if ((x - lo()) %/% wide() == b) n + 1 else n))) }
plot p cache (counts(), width(p), height(p)) { bars(width(p), height(p), \"Waiting\", counts()) }",
    entries: 10,
    rounds: &[
        Round {
            x: &[
                Step::Set("bins", "3", ""),
                Step::Set("width p", "784", ""),
                Step::Set("height p", "400", ""),
                Step::Force("lo", "43"),
                Step::Force("wide", "16"),
                Step::Run("p", THREE_BARS),
                Step::Alive("lo wide counts p"),
            ],
            y: &[
                Step::SetAny("height p", "400"),
                Step::SetAny("width p", "784"),
                Step::SetAny("bins", "3"),
                Step::Run("p", THREE_BARS),
                Step::Alive("lo wide counts p"),
            ],
        },
        Round {
            x: &[
                Step::Set("bins", "1", "wide counts p"),
                Step::Run("p", ONE_BAR),
                Step::Alive("lo wide counts p"),
            ],
            y: &[
                Step::Set("height p", "100", "p"),
                Step::Set("bins", "1", "wide counts"),
                Step::Set("height p", "400", ""),
                Step::Run("p", ONE_BAR),
                Step::Set("width p", "63", "p"),
                Step::Run("p", "! plot size out of range"),
                Step::Set("width p", "NULL", "p"),
                Step::Run("p", "! wrong kind of value"),
            ],
        },
    ],
    hits: 2,
    filled: 4,
};

#[test]
fn two_sessions_share_a_histogram(rt: HostRuntime) -> Result<(), Fail> {
    play_shared(&rt, rt.alloc(), &HISTOGRAM)?;
    Ok(())
}

/// A bar of 4, and one of -2 below it.
const TWO_BARS: &str =
    "<svg xmlns=\"http://www.w3.org/2000/svg\" width=\"120\" height=\"100\"><text x=\"10\" y=\"20\">t</text><rect x=\"10\" y=\"30\" width=\"50\" height=\"40\"/><rect x=\"60\" y=\"70\" width=\"50\" height=\"20\"/></svg>";

const CACHED_DATA: Case = Case {
    file: "input n = 4; reactive data cache (input$n) { c(input$n, -2) } plot h cache (data()) { bars(120, 100, \"t\", data()) }",
    entries: 10,
    rounds: &[
        Round {
            x: &[Step::Run("h", TWO_BARS), Step::Alive("data h")],
            y: &[Step::Run("h", TWO_BARS), Step::Alive("data h")],
        },
        Round {
            x: &[
                Step::Set("n", "x", "data h"),
                Step::Run("h", "! wrong kind of value"),
            ],
            y: &[
                Step::Set("n", "x", "data h"),
                Step::Run("h", "! wrong kind of value"),
                Step::Set("n", "4", "data h"),
                Step::Run("h", TWO_BARS),
            ],
        },
    ],
    hits: 5,
    filled: 3,
};

#[test]
fn a_plot_is_shared_behind_cached_data(rt: HostRuntime) -> Result<(), Fail> {
    play_shared(&rt, rt.alloc(), &CACHED_DATA)?;
    Ok(())
}

/// Plays the rounds without a cache.
fn play_apart(rt: &impl Abort, alloc: Global, case: &Case) -> Result<(), Fail> {
    let app = Arc::new(alloc, load(alloc, case.file.as_bytes())?)?;
    play_rounds(rt, alloc, &app, &mut NoCache::new(alloc, &app), case.rounds)?;
    Ok(())
}

#[test]
fn sessions_without_a_cache_come_to_the_same(rt: HostRuntime) -> Result<(), Fail> {
    for case in [ONE_ENTRY, SHARED_FAILURE, HISTOGRAM, CACHED_DATA] {
        play_apart(&rt, rt.alloc(), &case)?;
    }
    Ok(())
}
