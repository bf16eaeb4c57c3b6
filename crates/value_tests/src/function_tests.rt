use crate::samples::{numbers_from, text_of, value_of, words_of};
use rx_value::{Fun, Memory, Outcome, RxText, Value, call};
use std::alloc::Global;
use std::process::Abort;
use std::test::Fail;

/// The length of what is shown for the first so many numbers, from 0 on, with a 7 behind them.
fn joined_list(alloc: Global, count: u32) -> Result<usize, Memory> {
    let list = numbers_from(alloc, 0, count)?;
    let outcome = call(alloc, Fun::C, &[list, Value::Int(7)])?;
    Ok(words_of(alloc, &outcome)?.len())
}

/// The length of a text of so many equal characters with a `b` behind it.
fn joined_text(alloc: Global, count: usize) -> Result<usize, Memory> {
    let text = "a".repeat(alloc, count)?;
    let parts = [text_of(alloc, text.as_str())?, text_of(alloc, "b")?];
    let outcome = call(alloc, Fun::Paste0, &parts)?;
    Ok(words_of(alloc, &outcome)?.len())
}

/// What a function gives for one argument, where it takes one.
fn of_one(alloc: Global, function: Fun, argument: &str) -> Result<RxText, Memory> {
    let argument = value_of(alloc, argument)?;
    match function.argument_count() {
        None | Some(1) => {
            let outcome = call(alloc, function, &[argument])?;
            words_of(alloc, &outcome)
        }
        Some(_) => RxText::from_str(alloc, "not of one"),
    }
}

/// What a function gives for two arguments, where it takes two.
fn of_two(alloc: Global, function: Fun, first: &str, second: &str) -> Result<RxText, Memory> {
    let first = value_of(alloc, first)?;
    let second = value_of(alloc, second)?;
    match function.argument_count() {
        None | Some(2) => {
            let outcome = call(alloc, function, &[first, second])?;
            words_of(alloc, &outcome)
        }
        Some(_) => RxText::from_str(alloc, "not of two"),
    }
}

/// A function, the words of its argument, and those of the outcome.
type OneCase = (Fun, &'static str, &'static str);

fn compare_one(rt: &impl Abort, alloc: Global, cases: &[OneCase]) -> Result<(), Memory> {
    for (function, argument, want) in cases {
        assert_eq!(rt;
            of_one(alloc, *function, *argument)?.as_str(),
            *want,
            "{function:?} of {argument}"
        );
    }
    Ok(())
}

type TwoCase = (Fun, &'static str, &'static str, &'static str);

fn compare_two(rt: &impl Abort, alloc: Global, cases: &[TwoCase]) -> Result<(), Memory> {
    for (function, first, second, want) in cases {
        assert_eq!(rt;
            of_two(alloc, *function, *first, *second)?.as_str(),
            *want,
            "{function:?} of {first} and {second}"
        );
    }
    Ok(())
}

/// Characters counted, and numbers read.
const TEXTS: [OneCase; 28] = [
    (Fun::Nchar, "'", "0"),
    (Fun::Nchar, "'a", "1"),
    (Fun::Nchar, "'é", "1"),
    (Fun::Nchar, "'€", "1"),
    (Fun::Nchar, "'😀", "1"),
    (Fun::Nchar, "'aé€😀\n", "5"),
    (Fun::AsInt, "'-", "NULL"),
    (Fun::AsInt, "'", "NULL"),
    (Fun::AsInt, "'-0", "0"),
    (Fun::AsInt, "'007", "7"),
    (Fun::AsInt, "'00000000000000000001", "1"),
    (Fun::AsInt, "'12345678901234567890", "NULL"),
    (Fun::AsInt, "'18446744073709551617", "NULL"),
    (Fun::AsInt, "'-00000000000000000007", "-7"),
    (Fun::AsInt, "' ", "NULL"),
    (Fun::AsInt, "' 1", "NULL"),
    (Fun::AsInt, "'1 ", "NULL"),
    (Fun::AsInt, "'1 2", "NULL"),
    (Fun::AsInt, "'- 1", "NULL"),
    (Fun::AsInt, "'1-", "NULL"),
    (Fun::AsInt, "'1.0", "NULL"),
    (Fun::AsInt, "'٣", "NULL"),
    (Fun::AsInt, "'+1", "NULL"),
    (Fun::AsInt, "'--1", "NULL"),
    (Fun::AsInt, "'9223372036854775807", "9223372036854775807"),
    (Fun::AsInt, "'9223372036854775808", "NULL"),
    (Fun::AsInt, "'-9223372036854775808", "-9223372036854775808"),
    (Fun::AsInt, "'-9223372036854775809", "NULL"),
];

/// Each function of one argument with each kind of value.
const ONE_ARGUMENT: [OneCase; 42] = [
    (Fun::C, "NULL", ""),
    (Fun::C, "x", "! wrong kind of value"),
    (Fun::Paste0, "TRUE", "TRUE"),
    (Fun::Length, "NULL", "0"),
    (Fun::Length, "FALSE", "1"),
    (Fun::Length, "5", "1"),
    (Fun::Length, "'", "1"),
    (Fun::Length, "abc", "1"),
    (Fun::Length, "c", "0"),
    (Fun::Length, "c 4 5", "2"),
    (Fun::Nchar, "NULL", "! wrong kind of value"),
    (Fun::Nchar, "55", "! wrong kind of value"),
    (Fun::Nchar, "c", "! wrong kind of value"),
    (Fun::Sum, "NULL", "0"),
    (Fun::Sum, "c", "0"),
    (Fun::Sum, "-7", "-7"),
    (Fun::Sum, "TRUE", "! wrong kind of value"),
    (Fun::Sum, "'x", "! wrong kind of value"),
    (
        Fun::Sum,
        "c -9223372036854775808 -1 1",
        "-9223372036854775808",
    ),
    (
        Fun::Sum,
        "c -9223372036854775808 -1",
        "! number out of range",
    ),
    (
        Fun::Sum,
        "c 9223372036854775807 1 -1",
        "9223372036854775807",
    ),
    (
        Fun::Sum,
        "c 9223372036854775807 1 0",
        "! number out of range",
    ),
    (Fun::Min, "c 3 -1 2", "-1"),
    (Fun::Min, "5", "5"),
    (
        Fun::Min,
        "c 9223372036854775807 -9223372036854775808",
        "-9223372036854775808",
    ),
    (Fun::Min, "NULL", "! index out of range"),
    (Fun::Min, "c", "! index out of range"),
    (Fun::Min, "x", "! wrong kind of value"),
    (Fun::Max, "c -5 -3 -4", "-3"),
    (Fun::Max, "-5", "-5"),
    (
        Fun::Max,
        "c -9223372036854775808 9223372036854775807",
        "9223372036854775807",
    ),
    (Fun::Max, "NULL", "! index out of range"),
    (Fun::Max, "c", "! index out of range"),
    (Fun::Max, "FALSE", "! wrong kind of value"),
    (Fun::IsNull, "NULL", "TRUE"),
    (Fun::IsNull, "FALSE", "FALSE"),
    (Fun::IsNull, "'", "FALSE"),
    (Fun::IsNull, "c", "FALSE"),
    (Fun::AsInt, "-5", "-5"),
    (Fun::AsInt, "NULL", "NULL"),
    (Fun::AsInt, "TRUE", "NULL"),
    (Fun::AsInt, "c 1", "NULL"),
];

/// Functions of two arguments with each kind of value, and at the edges.
const TWO_ARGUMENTS: [TwoCase; 27] = [
    (Fun::C, "c 1 2", "3", "1 2 3"),
    (Fun::C, "1", "TRUE", "! wrong kind of value"),
    (Fun::Paste0, "c 1 2", "x", "1 2x"),
    (Fun::Paste0, "NULL", "FALSE", "FALSE"),
    (Fun::Item, "7", "1", "7"),
    (Fun::Item, "7", "2", "! index out of range"),
    (Fun::Item, "NULL", "1", "! index out of range"),
    (Fun::Item, "TRUE", "1", "! wrong kind of value"),
    (Fun::Item, "c 5", "x", "! wrong kind of value"),
    (Fun::Item, "c", "NULL", "! wrong kind of value"),
    (Fun::Item, "c 5 6 7", "1", "5"),
    (Fun::Item, "c 5 6 7", "3", "7"),
    (Fun::Item, "c 5 6 7", "0", "! index out of range"),
    (Fun::Item, "c 5 6 7", "4", "! index out of range"),
    (
        Fun::Item,
        "c 5 6 7",
        "-9223372036854775808",
        "! index out of range",
    ),
    (
        Fun::Item,
        "c 5 6 7",
        "9223372036854775807",
        "! index out of range",
    ),
    (Fun::Seq, "-1", "1", "-1 0 1"),
    (Fun::Seq, "5", "5", "5"),
    (Fun::Seq, "6", "5", ""),
    (Fun::Seq, "0", "1000", "! list too long"),
    (Fun::Seq, "-9223372036854775808", "-2", "! list too long"),
    (
        Fun::Seq,
        "-9223372036854775808",
        "9223372036854775807",
        "! list too long",
    ),
    (Fun::Seq, "9223372036854775807", "-9223372036854775808", ""),
    (
        Fun::Seq,
        "9223372036854775806",
        "9223372036854775807",
        "9223372036854775806 9223372036854775807",
    ),
    (Fun::Seq, "1", "NULL", "! wrong kind of value"),
    (Fun::Seq, "x", "2", "! wrong kind of value"),
    (Fun::Seq, "c 1", "2", "! wrong kind of value"),
];

#[test]
fn takes_arguments_of_their_kinds(rt: HostRuntime) -> Result<(), Fail> {
    compare_one(&rt, rt.alloc(), &TEXTS)?;
    compare_one(&rt, rt.alloc(), &ONE_ARGUMENT)?;
    compare_two(&rt, rt.alloc(), &TWO_ARGUMENTS)?;
    Ok(())
}

#[test]
fn joins_up_to_the_limits(rt: HostRuntime) -> Result<(), Fail> {
    for (count, want) in [(998, 3883), (999, 3887), (1000, 15)] {
        assert_eq!(rt; joined_list(rt.alloc(), count)?, want);
    }
    for (count, want) in [(65_534, 65_535), (65_535, 65_536), (65_536, 15)] {
        assert_eq!(rt; joined_text(rt.alloc(), count)?, want);
    }
    Ok(())
}

#[test]
fn counts_up_to_a_thousand(rt: HostRuntime) -> Result<(), Fail> {
    for (last, want) in [("999", 3887), ("1000", 3892), ("1001", 15)] {
        assert_eq!(rt; of_two(rt.alloc(), Fun::Seq, "1", last)?.len(), want);
    }
    Ok(())
}

#[test]
fn joins_nothing_and_looks_at_kinds_before_lengths(rt: HostRuntime) -> Result<(), Fail> {
    let alloc = rt.alloc();
    let nothing = call(alloc, Fun::C, &[])?;
    assert_eq!(rt; words_of(alloc, &nothing)?.as_str(), "");
    let nothing = call(alloc, Fun::Paste0, &[])?;
    assert_eq!(rt; words_of(alloc, &nothing)?.as_str(), "");
    let list = call(alloc, Fun::Seq, &[Value::Int(1), Value::Int(1000)])?;
    let Outcome::Val(list) = list else {
        return Err(Fail::from(Memory));
    };
    let refused = call(alloc, Fun::C, &[list, Value::Int(1), Value::Bool(true)])?;
    assert_eq!(rt;
        words_of(alloc, &refused)?.as_str(),
        "! wrong kind of value"
    );
    Ok(())
}
