use crate::playing::{Step, play};
use crate::watched::{NOTHING, Watched};
use app_check::load;
use book_asker::BookAsker;
use cache_book::Book;
use std::alloc::Global;
use std::process::Abort;
use std::sync::Arc;
use std::test::Fail;
use term_eval::NoCache;

/// Makes the calls in a session of the file's app without a cache, and then in one over a cache that
/// knows nothing. No item of the file has keys, so the cache is asked for nothing.
fn play_both(rt: &impl Abort, alloc: Global, file: &str, script: &[Step<'_>]) -> Result<(), Fail> {
    let app = Arc::new(alloc, load(alloc, file.as_bytes())?)?;
    play(rt, alloc, &app, &mut NoCache::new(alloc, &app), script)?;
    let mut book = Book::new(alloc, 10, 10_000)?;
    let mut asker = Watched::new(BookAsker::new(&app, &mut book));
    let played = play(rt, alloc, &app, &mut asker, script);
    let Watched { asker, counts } = asker;
    asker.finish();
    played?;
    assert_eq!(rt; counts, NOTHING);
    Ok(())
}

const OVER_ONE_EXPRESSION: [Step<'static>; 16] = [
    Step::Alive(""),
    Step::Ran(""),
    Step::Run("p", "2"),
    Step::Alive("e p"),
    Step::Run("q", "20"),
    Step::Alive("e p q"),
    Step::Ran("e p q"),
    Step::Force("e", "2"),
    Step::Set("a", "2", "e p q"),
    Step::Alive(""),
    Step::Ran("e p q"),
    Step::SetSame("a", "2"),
    Step::Run("p", "3"),
    Step::Alive("e p"),
    Step::Run("q", "30"),
    Step::Alive("e p q"),
];

#[test]
fn two_outputs_over_one_expression(rt: HostRuntime) -> Result<(), Fail> {
    let file = "input a = 1; reactive e { input$a + 1 } text p { e() } text q { e() * 10 }";
    play_both(&rt, rt.alloc(), file, &OVER_ONE_EXPRESSION)
}

const EQUAL_VALUES: [Step<'static>; 9] = [
    Step::Run("p", "1"),
    Step::SetSame("a", "1"),
    Step::Alive("e p"),
    Step::Set("a", "one", "e p"),
    Step::SetSame("a", "one"),
    Step::Alive(""),
    Step::Run("p", "one"),
    Step::SetSame("a", "one"),
    Step::Alive("e p"),
];

#[test]
fn an_equal_value_marks_no_reader(rt: HostRuntime) -> Result<(), Fail> {
    let file = "input a = 1; reactive e { input$a } text p { e() }";
    play_both(&rt, rt.alloc(), file, &EQUAL_VALUES)
}

const DIAMOND: [Step<'static>; 10] = [
    Step::Force("f", "4"),
    Step::Alive("a f"),
    Step::Run("p", "7"),
    Step::Alive("a b f p"),
    Step::Set("n", "5", "a b f p"),
    Step::Force("b", "7"),
    Step::Alive("a b"),
    Step::Set("m", "3", ""),
    Step::Run("p", "19"),
    Step::Alive("a b f p"),
];

#[test]
fn a_diamond_is_marked_by_its_source(rt: HostRuntime) -> Result<(), Fail> {
    let file =
        "input n = 1; input m = 2; reactive a { input$n + 1 } reactive b { a() + 1 } reactive f { a() * 2 } reactive g { input$m } text p { b() + f() }";
    play_both(&rt, rt.alloc(), file, &DIAMOND)
}

const FOUND_ANEW: [Step<'static>; 11] = [
    Step::Run("p", "1"),
    Step::Set("b", "20", ""),
    Step::Set("k", "FALSE", "p"),
    Step::Set("a", "10", ""),
    Step::Run("p", "20"),
    Step::Set("a", "11", ""),
    Step::Alive("p"),
    Step::Set("b", "21", "p"),
    Step::Run("p", "21"),
    Step::Run("p", "21"),
    Step::Alive("p"),
];

#[test]
fn each_run_finds_its_sources_anew(rt: HostRuntime) -> Result<(), Fail> {
    let file =
        "input a = 1; input b = 2; input k = TRUE; text p { if (input$k) input$a else input$b }";
    play_both(&rt, rt.alloc(), file, &FOUND_ANEW)
}

const ISOLATED: [Step<'static>; 8] = [
    Step::Run("p", "2"),
    Step::Run("q", "1"),
    Step::Set("a", "5", "q"),
    Step::Alive("p"),
    Step::Run("q", "5"),
    Step::Alive("p q"),
    Step::Set("b", "2", "p"),
    Step::Run("p", "7"),
];

#[test]
fn an_isolated_read_keeps_what_the_last_run_saw(rt: HostRuntime) -> Result<(), Fail> {
    let file = "input a = 1; input b = 1; text p { isolate(input$a) + input$b } text q { input$a }";
    play_both(&rt, rt.alloc(), file, &ISOLATED)
}

const ISOLATED_EXPRESSION: [Step<'static>; 8] = [
    Step::Run("p", "11"),
    Step::Alive("e f p"),
    Step::Set("a", "5", "e"),
    Step::Alive("f p"),
    Step::Force("f", "10"),
    Step::Set("b", "2", "f p"),
    Step::Run("p", "52"),
    Step::Alive("e f p"),
];

#[test]
fn an_expression_is_isolated_with_all_that_it_reaches(rt: HostRuntime) -> Result<(), Fail> {
    let file =
        "input a = 1; input b = 1; reactive e { input$a } reactive f { isolate(e()) * 10 + input$b - input$b } text p { f() + input$b }";
    play_both(&rt, rt.alloc(), file, &ISOLATED_EXPRESSION)
}

const IGNORED_ONCE: [Step<'static>; 12] = [
    Step::Run("p", "(stop)"),
    Step::Alive("e p"),
    Step::Set("n", "5", ""),
    Step::Force("e", "(stop)"),
    Step::Set("go", "1", "e p"),
    Step::Run("p", "5"),
    Step::Set("n", "6", ""),
    Step::Alive("e p"),
    Step::Force("e", "5"),
    Step::Run("p", "5"),
    Step::Set("go", "2", "e p"),
    Step::Run("p", "6"),
];

#[test]
fn an_event_ignores_its_first_run(rt: HostRuntime) -> Result<(), Fail> {
    let file =
        "input go = 0; input n = 1; event e ignoreInit (input$go) { input$n } text p { e() }";
    play_both(&rt, rt.alloc(), file, &IGNORED_ONCE)
}

const FIRST_RUN_FAILS: [Step<'static>; 5] = [
    Step::Run("p", "! division by zero"),
    Step::Set("n", "5", ""),
    Step::Set("go", "1", "e p"),
    Step::Run("p", "5"),
    Step::Alive("e p"),
];

#[test]
fn a_first_run_that_fails_is_the_first_run(rt: HostRuntime) -> Result<(), Fail> {
    let file =
        "input go = 0; input n = 1; event e ignoreInit (1 %/% input$go) { input$n } text p { e() }";
    play_both(&rt, rt.alloc(), file, &FIRST_RUN_FAILS)
}

const EVENTS_AT_NULL: [Step<'static>; 10] = [
    Step::Run("p", "(stop)"),
    Step::Run("q", "1"),
    Step::Set("n", "2", ""),
    Step::Alive("e f p q"),
    Step::Set("go", "TRUE", "e f p q"),
    Step::Run("p", "2"),
    Step::Run("q", "2"),
    Step::Set("n", "3", ""),
    Step::Set("go", "NULL", "e f p q"),
    Step::Run("p", "(stop)"),
];

#[test]
fn an_event_stops_at_null_unless_it_allows_it(rt: HostRuntime) -> Result<(), Fail> {
    let file =
        "input go = NULL; input n = 1; event e (input$go) { input$n } event f allowNull (input$go) { input$n } text p { e() } text q { f() }";
    play_both(&rt, rt.alloc(), file, &EVENTS_AT_NULL)
}

const FAILURES: [Step<'static>; 12] = [
    Step::Run("p", "! division by zero"),
    Step::Alive("p a b"),
    Step::Force("b", "! division by zero"),
    Step::Force("a", "! division by zero"),
    Step::Run("q", "! division by zero"),
    Step::Alive("p a b q"),
    Step::Set("d", "x", "p a b q"),
    Step::Run("q", "! wrong kind of value"),
    Step::Alive("a q"),
    Step::Set("d", "5", "a q"),
    Step::Run("p", "5"),
    Step::Run("q", "2"),
];

#[test]
fn failures_are_kept_and_answered_again(rt: HostRuntime) -> Result<(), Fail> {
    let file =
        "input d = 0; text p { b() + 1 } reactive a { 10 %/% input$d } reactive b { a() * 2 } text q { a() }";
    play_both(&rt, rt.alloc(), file, &FAILURES)
}

const ENDINGS: [Step<'static>; 12] = [
    Step::Run("wrong", "! wrong kind of value"),
    Step::Run("stopped", "! why"),
    Step::Run("silent", "(stop)"),
    Step::Run("cancelled", "(cancel)"),
    Step::Run("idle", "initial"),
    Step::Run("result_", "(stop)"),
    Step::Run("size", "NULL"),
    Step::Run("number", "! wrong kind of value"),
    Step::Run("picture", "<svg/>"),
    Step::Set("a", "TRUE", "silent cancelled number"),
    Step::Run("silent", "TRUE"),
    Step::Run("cancelled", "TRUE"),
];

#[test]
fn outputs_come_to_each_outcome(rt: HostRuntime) -> Result<(), Fail> {
    let file =
        "input a = FALSE; task t () { 1 } text wrong { 1 + \"x\" } text stopped { stop(\"why\") } text silent { req(input$a) } text cancelled { req(input$a, cancelOutput) } text idle { status(t) } text result_ { result(t) } plot size { width(size) } plot number { input$a } plot picture { \"<svg/>\" }";
    play_both(&rt, rt.alloc(), file, &ENDINGS)
}

const OPERATORS: [Step<'static>; 6] = [
    Step::Run("over", "! number out of range"),
    Step::Run("quotient", "-4"),
    Step::Run("rest", "1"),
    Step::Run("least", "! number out of range"),
    Step::Run("least_rest", "0"),
    Step::Alive("over quotient rest least least_rest"),
];

#[test]
fn numbers_stay_in_their_range(rt: HostRuntime) -> Result<(), Fail> {
    let file =
        "text over { 9223372036854775807 + 1 } text quotient { -7 %/% 2 } text rest { -7 %% 2 } text least { (-9223372036854775807 - 1) %/% -1 } text least_rest { (-9223372036854775807 - 1) %% -1 }";
    play_both(&rt, rt.alloc(), file, &OPERATORS)
}
