use crate::samples::{value_of, words_of};
use rx_value::{BinOp, Memory, UnOp, Value, binary, unary};
use std::alloc::Global;
use std::process::Abort;
use std::test::Fail;

type NumberCase = (BinOp, i64, i64, &'static str);

fn compare_numbers(rt: &impl Abort, alloc: Global, cases: &[NumberCase]) -> Result<(), Memory> {
    for (operator, a, b, want) in cases {
        let outcome = binary(alloc, *operator, &Value::Int(*a), &Value::Int(*b))?;
        assert_eq!(rt;
            words_of(alloc, &outcome)?.as_str(),
            *want,
            "{operator:?} of {a} and {b}"
        );
    }
    Ok(())
}

/// An operator, the words of its operands, and those of the outcome.
type BinaryCase = (BinOp, &'static str, &'static str, &'static str);

fn compare_binary(rt: &impl Abort, alloc: Global, cases: &[BinaryCase]) -> Result<(), Memory> {
    for (operator, a, b, want) in cases {
        let first = value_of(alloc, *a)?;
        let second = value_of(alloc, *b)?;
        let outcome = binary(alloc, *operator, &first, &second)?;
        assert_eq!(rt;
            words_of(alloc, &outcome)?.as_str(),
            *want,
            "{operator:?} of {a} and {b}"
        );
    }
    Ok(())
}

type UnaryCase = (UnOp, &'static str, &'static str);

fn compare_unary(rt: &impl Abort, alloc: Global, cases: &[UnaryCase]) -> Result<(), Memory> {
    for (operator, a, want) in cases {
        let operand = value_of(alloc, *a)?;
        let outcome = unary(alloc, *operator, &operand)?;
        assert_eq!(rt;
            words_of(alloc, &outcome)?.as_str(),
            *want,
            "{operator:?} of {a}"
        );
    }
    Ok(())
}

/// Numbers at the edges of their range, and quotients and remainders of each sign.
const EDGES: [NumberCase; 51] = [
    (BinOp::Add, i64::MAX, 1, "! number out of range"),
    (BinOp::Add, i64::MIN, -1, "! number out of range"),
    (BinOp::Add, i64::MAX - 1, 1, "9223372036854775807"),
    (BinOp::Add, i64::MIN + 1, -1, "-9223372036854775808"),
    (BinOp::Add, i64::MIN, i64::MAX, "-1"),
    (BinOp::Subtract, -1, i64::MIN, "9223372036854775807"),
    (BinOp::Subtract, 0, i64::MIN, "! number out of range"),
    (BinOp::Subtract, i64::MAX, -1, "! number out of range"),
    (BinOp::Subtract, -i64::MAX, 1, "-9223372036854775808"),
    (BinOp::Subtract, -i64::MAX, 2, "! number out of range"),
    (BinOp::Multiply, i64::MIN, 1, "-9223372036854775808"),
    (BinOp::Multiply, i64::MIN, -1, "! number out of range"),
    (BinOp::Multiply, i64::MIN, i64::MIN, "! number out of range"),
    (BinOp::Multiply, -1, i64::MAX, "-9223372036854775807"),
    (
        BinOp::Multiply,
        7,
        1317624576693539401,
        "9223372036854775807",
    ),
    (
        BinOp::Multiply,
        3037000499,
        3037000499,
        "9223372030926249001",
    ),
    (
        BinOp::Multiply,
        3037000500,
        3037000500,
        "! number out of range",
    ),
    (
        BinOp::Multiply,
        4294967296,
        -2147483648,
        "-9223372036854775808",
    ),
    (BinOp::Divide, 7, 2, "3"),
    (BinOp::Divide, -7, 2, "-4"),
    (BinOp::Divide, 7, -2, "-4"),
    (BinOp::Divide, -7, -2, "3"),
    (BinOp::Divide, -6, 2, "-3"),
    (BinOp::Divide, 6, -2, "-3"),
    (BinOp::Divide, 0, -5, "0"),
    (BinOp::Divide, 1, i64::MIN, "-1"),
    (BinOp::Divide, i64::MIN, i64::MAX, "-2"),
    (BinOp::Divide, i64::MIN, i64::MIN, "1"),
    (BinOp::Divide, i64::MAX, -1, "-9223372036854775807"),
    (BinOp::Divide, i64::MIN, -1, "! number out of range"),
    (BinOp::Divide, i64::MIN, 0, "! division by zero"),
    (BinOp::Divide, 0, 0, "! division by zero"),
    (BinOp::Modulo, 7, 2, "1"),
    (BinOp::Modulo, -7, 2, "1"),
    (BinOp::Modulo, 7, -2, "-1"),
    (BinOp::Modulo, -7, -2, "-1"),
    (BinOp::Modulo, 6, -2, "0"),
    (BinOp::Modulo, 7, 0, "! division by zero"),
    (BinOp::Modulo, i64::MIN, i64::MAX, "9223372036854775806"),
    (BinOp::Modulo, i64::MAX, i64::MIN, "-1"),
    (BinOp::Modulo, i64::MIN, -1, "0"),
    (BinOp::Modulo, 1, i64::MIN, "-9223372036854775807"),
    (BinOp::Less, -2, 1, "TRUE"),
    (BinOp::Less, 3, 3, "FALSE"),
    (BinOp::Less, i64::MAX, i64::MIN, "FALSE"),
    (BinOp::LessOrEqual, 3, 3, "TRUE"),
    (BinOp::LessOrEqual, 4, 3, "FALSE"),
    (BinOp::Greater, 3, 3, "FALSE"),
    (BinOp::Greater, i64::MAX, i64::MIN, "TRUE"),
    (BinOp::GreaterOrEqual, -2, 1, "FALSE"),
    (BinOp::GreaterOrEqual, 3, 3, "TRUE"),
];

/// Each operator with kinds that it takes or does not take.
const KINDS: [BinaryCase; 23] = [
    (BinOp::Add, "NULL", "1", "! wrong kind of value"),
    (BinOp::Subtract, "1", "TRUE", "! wrong kind of value"),
    (BinOp::Multiply, "'2", "3", "! wrong kind of value"),
    (BinOp::Divide, "c 6", "2", "! wrong kind of value"),
    (BinOp::Divide, "x", "0", "! wrong kind of value"),
    (BinOp::Modulo, "NULL", "0", "! wrong kind of value"),
    (BinOp::Modulo, "7", "c", "! wrong kind of value"),
    (BinOp::Less, "1", "'x", "! wrong kind of value"),
    (BinOp::LessOrEqual, "NULL", "NULL", "! wrong kind of value"),
    (BinOp::Greater, "TRUE", "FALSE", "! wrong kind of value"),
    (BinOp::GreaterOrEqual, "c 1", "c 1", "! wrong kind of value"),
    (BinOp::Equal, "NULL", "NULL", "TRUE"),
    (BinOp::Equal, "NULL", "c", "FALSE"),
    (BinOp::Equal, "NULL", "'", "FALSE"),
    (BinOp::Equal, "FALSE", "0", "FALSE"),
    (BinOp::Equal, "1", "c 1", "FALSE"),
    (BinOp::Equal, "TRUE", "TRUE", "TRUE"),
    (BinOp::Equal, "-3", "-3", "TRUE"),
    (BinOp::Equal, "x", "x", "TRUE"),
    (BinOp::Equal, "c 1 -2", "c 1 -2", "TRUE"),
    (BinOp::Equal, "c 1", "c 1 -2", "FALSE"),
    (BinOp::NotEqual, "x", "y", "TRUE"),
    (BinOp::NotEqual, "c", "c", "FALSE"),
];

/// Texts are ordered by their bytes.
const TEXTS: [BinaryCase; 4] = [
    (BinOp::Less, "'a", "'ab", "TRUE"),
    (BinOp::Less, "'a", "'B", "FALSE"),
    (BinOp::Less, "'z", "'é", "TRUE"),
    (BinOp::Less, "'", "'", "FALSE"),
];

/// Each sign with each kind, and with numbers at the edges.
const SIGNS: [UnaryCase; 14] = [
    (UnOp::Negate, "-7", "7"),
    (UnOp::Negate, "0", "0"),
    (UnOp::Negate, "9223372036854775807", "-9223372036854775807"),
    (
        UnOp::Negate,
        "-9223372036854775808",
        "! number out of range",
    ),
    (UnOp::Negate, "NULL", "! wrong kind of value"),
    (UnOp::Negate, "TRUE", "! wrong kind of value"),
    (UnOp::Negate, "x", "! wrong kind of value"),
    (UnOp::Negate, "c 1", "! wrong kind of value"),
    (UnOp::Not, "TRUE", "FALSE"),
    (UnOp::Not, "FALSE", "TRUE"),
    (UnOp::Not, "0", "! condition is not true or false"),
    (UnOp::Not, "NULL", "! condition is not true or false"),
    (UnOp::Not, "'TRUE", "! condition is not true or false"),
    (UnOp::Not, "c", "! condition is not true or false"),
];

#[test]
fn computes_at_the_edges(rt: HostRuntime) -> Result<(), Fail> {
    compare_numbers(&rt, rt.alloc(), &EDGES)?;
    Ok(())
}

#[test]
fn takes_the_kinds_that_an_operator_is_for(rt: HostRuntime) -> Result<(), Fail> {
    compare_binary(&rt, rt.alloc(), &KINDS)?;
    compare_binary(&rt, rt.alloc(), &TEXTS)?;
    compare_unary(&rt, rt.alloc(), &SIGNS)?;
    Ok(())
}
