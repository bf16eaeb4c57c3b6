//! Tests of two sessions over a cache that is asked or passed by, as numbers are drawn.

use crate::drawn::{Answers, DrawnAsker};
use crate::playing::{Round, Step, play_rounds};
use app_check::load;
use book_asker::BookAsker;
use cache_book::Book;
use std::alloc::Global;
use std::process::Abort;
use std::sync::Arc;
use std::test::Fail;
use term_eval::NoCache;

/// A cached output over a cached expression over another one, so that Leaves of all three may be out
/// together.
const FILE: &str =
    "input n = 1; reactive a cache (input$n) { input$n + 1 } reactive e cache (input$n) { a() * 2 } text o cache (e()) { e() + 1 }";

/// What two sessions come to, whatever they take from each other.
const ROUNDS: &[Round<'static>] = &[
    Round {
        x: &[Step::Run("o", "5")],
        y: &[Step::Run("o", "5"), Step::Force("a", "2")],
    },
    Round {
        x: &[Step::SetAny("n", "2"), Step::Run("o", "7")],
        y: &[
            Step::SetAny("n", "2"),
            Step::Force("e", "6"),
            Step::Run("o", "7"),
        ],
    },
    Round {
        x: &[Step::SetAny("n", "1"), Step::Run("o", "5")],
        y: &[
            Step::SetAny("n", "x"),
            Step::Run("o", "! wrong kind of value"),
            Step::SetAny("n", "1"),
            Step::Run("o", "5"),
            Step::Force("a", "2"),
        ],
    },
];

/// Plays the rounds as this seed draws, and tells how the claims were answered.
fn play_drawn(rt: &impl Abort, alloc: Global, seed: u64) -> Result<Answers, Fail> {
    let app = Arc::new(alloc, load(alloc, FILE.as_bytes())?)?;
    let mut book = Book::new(alloc, 10, 10_000)?;
    let mut asker = DrawnAsker::new(alloc, BookAsker::new(&app, &mut book), seed);
    let played = play_rounds(rt, alloc, &app, &mut asker, ROUNDS);
    let answers = asker.answers;
    asker.finish();
    played?;
    Ok(answers)
}

#[test]
fn outcomes_are_the_same_whether_a_cache_is_asked_or_not(rt: HostRuntime) -> Result<(), Fail> {
    let alloc = rt.alloc();
    let app = Arc::new(alloc, load(alloc, FILE.as_bytes())?)?;
    play_rounds(&rt, alloc, &app, &mut NoCache::new(alloc, &app), ROUNDS)?;
    for seed in [0, 1, 2, 3, 5, 8, 13, 21] {
        play_drawn(&rt, alloc, seed)?;
    }
    Ok(())
}

// The claims follow from the rounds and the numbers that the seed 1 draws, which another program told.
#[test]
fn both_sorts_of_leaves_occur(rt: HostRuntime) -> Result<(), Fail> {
    let answers = play_drawn(&rt, rt.alloc(), 1)?;
    let wanted = Answers {
        hits: 4,
        given: 7,
        free: 9,
    };
    assert_eq!(rt; answers, wanted);
    Ok(())
}
