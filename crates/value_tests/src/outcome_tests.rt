use crate::samples::{key_of, list_of, text_of, value_of};
use rx_value::{Failure, Outcome, RxInts, RxText, SourceValue, TaskView, Value, Values, show};
use std::collections::HashMap;
use std::test::Fail;

#[test]
fn texts_and_lists_grow(rt: HostRuntime) -> Result<(), Fail> {
    let alloc = rt.alloc();
    let mut text = RxText::from_str(alloc, "a")?;
    text.push('é')?;
    text.push_str("z\n")?;
    let copy = text.copy(alloc)?;
    assert_eq!(rt; copy.as_str(), "aéz\n");
    assert!(rt; copy.same(&text));
    assert!(rt; text.len() == 5 && text.get(3) == b'z');
    let mut list = RxInts::new(alloc);
    list.push(4)?;
    list.push(5)?;
    assert_eq!(rt; list.len(), 2);
    assert_eq!(rt; *list.get(0), 4);
    list.set(1, -6);
    assert_eq!(rt; list.copy(alloc)?.as_slice(), [4, -6].as_slice());
    Ok(())
}

#[test]
fn lists_of_values_grow_and_are_copied(rt: HostRuntime) -> Result<(), Fail> {
    let alloc = rt.alloc();
    let mut list = Values::new(alloc);
    list.push(text_of(alloc, "a")?)?;
    list.push(Value::Bool(true))?;
    let mut copy = list.copy_values(alloc)?;
    copy.set(1, Value::Null);
    assert!(rt; list.len() == 2 && copy.len() == 2);
    assert!(rt; copy.get(0).same(list.get(0)));
    assert!(rt; !copy.get(1).same(list.get(1)));
    Ok(())
}

#[test]
fn lists_numbers_and_null_have_numbers(rt: HostRuntime) -> Result<(), Fail> {
    let rows = [
        ("NULL", Some(0)),
        ("-7", Some(1)),
        ("c", Some(0)),
        ("c 4 5 6", Some(3)),
        ("TRUE", None),
        ("'4", None),
    ];
    for (words, want) in rows {
        let value = value_of(rt.alloc(), words)?;
        assert_eq!(rt;
            value.numbers().map(|numbers| numbers.len()),
            want,
            "{words}"
        );
    }
    Ok(())
}

#[test]
fn each_failure_is_told_by_its_text(rt: HostRuntime) -> Result<(), Fail> {
    let rows = [
        (Failure::NumberOutOfRange, "number out of range"),
        (Failure::DivisionByZero, "division by zero"),
        (Failure::WrongKind, "wrong kind of value"),
        (Failure::NotACondition, "condition is not true or false"),
        (Failure::IndexOutOfRange, "index out of range"),
        (Failure::ListTooLong, "list too long"),
        (Failure::TextTooLong, "text too long"),
        (Failure::PlotSizeOutOfRange, "plot size out of range"),
    ];
    for (failure, want) in rows {
        assert_eq!(rt; failure.text(), want);
        let failed = Outcome::Fail(RxText::from_str(rt.alloc(), want)?);
        assert!(rt; failure.outcome(rt.alloc())?.same(&failed), "{want}");
    }
    Ok(())
}

#[test]
fn copies_and_shows_each_kind(rt: HostRuntime) -> Result<(), Fail> {
    let alloc = rt.alloc();
    let rows = [
        (Value::Null, ""),
        (Value::Bool(true), "TRUE"),
        (Value::Bool(false), "FALSE"),
        (Value::Int(-9223372036854775808), "-9223372036854775808"),
        (text_of(alloc, "é \"x\"")?, "é \"x\""),
        (list_of(alloc, &[])?, ""),
        (list_of(alloc, &[1, -2, 30])?, "1 -2 30"),
    ];
    for (value, want) in &rows {
        assert_eq!(rt; show(alloc, value)?.as_str(), *want);
        assert!(rt; value.copy(alloc)?.same(value), "{want}");
    }
    Ok(())
}

#[test]
fn copies_each_outcome(rt: HostRuntime) -> Result<(), Fail> {
    let alloc = rt.alloc();
    let outcomes = [
        Outcome::Val(text_of(alloc, "x")?),
        Outcome::Fail(RxText::from_str(alloc, "x")?),
        Outcome::Stop,
        Outcome::Cancel,
        Outcome::Running,
    ];
    for (place, outcome) in outcomes.iter().enumerate() {
        let copy = outcome.copy(alloc)?;
        for (other_place, other) in outcomes.iter().enumerate() {
            assert_eq!(rt; copy.same(other), place == other_place);
        }
    }
    Ok(())
}

#[test]
fn weighs_each_kind(rt: HostRuntime) -> Result<(), Fail> {
    let alloc = rt.alloc();
    let rows = [
        (Value::Null, 1),
        (Value::Bool(false), 2),
        (Value::Int(-1), 9),
        (text_of(alloc, "éa")?, 8),
        (list_of(alloc, &[])?, 5),
        (list_of(alloc, &[1, 2, 3])?, 29),
    ];
    for (value, want) in &rows {
        assert_eq!(rt; value.weight(), *want);
    }
    assert_eq!(rt; Outcome::Val(Value::Int(5)).weight(), 9);
    assert_eq!(rt; Outcome::Fail(RxText::from_str(alloc, "bad")?).weight(), 8);
    for outcome in [Outcome::Stop, Outcome::Cancel, Outcome::Running] {
        assert_eq!(rt; outcome.weight(), 1);
    }
    Ok(())
}

#[test]
fn keys_are_told_apart_by_number_and_values(rt: HostRuntime) -> Result<(), Fail> {
    let alloc = rt.alloc();
    let mut key = key_of(alloc, 3, Value::Int(7))?;
    assert_eq!(rt; key.weight(), 13);
    assert!(rt; key == key_of(alloc, 3, Value::Int(7))?);
    assert!(rt; !key.same(&key_of(alloc, 4, Value::Int(7))?));
    assert!(rt; !key.same(&key_of(alloc, 3, Value::Int(8))?));
    key.parts.push(text_of(alloc, "x")?)?;
    key.parts.push(list_of(alloc, &[2])?)?;
    assert_eq!(rt; key.weight(), 32);
    let copy = key.copy(alloc)?;
    assert!(rt; copy.same(&key));
    for (bytes, weight) in [(0, 9), (4087, 4096), (4088, 4097)] {
        let text = "k".repeat(alloc, bytes)?;
        let key = key_of(alloc, 0, text_of(alloc, text.as_str())?)?;
        assert_eq!(rt; key.weight(), weight);
    }
    Ok(())
}

#[test]
fn req_lets_truthy_values_pass(rt: HostRuntime) -> Result<(), Fail> {
    let rows = [
        ("NULL", false),
        ("FALSE", false),
        ("TRUE", true),
        ("0", true),
        ("-1", true),
        ("'", false),
        ("'0", true),
        ("'FALSE", true),
        ("c", false),
        ("c 0", true),
    ];
    for (words, want) in rows {
        assert_eq!(rt; value_of(rt.alloc(), words)?.is_truthy(), want, "{words}");
    }
    Ok(())
}

#[test]
fn the_longest_list_is_shown_in_20999_bytes(rt: HostRuntime) -> Result<(), Fail> {
    let mut list = RxInts::new(rt.alloc());
    for _ in 0..1000 {
        list.push(i64::MIN)?;
    }
    assert_eq!(rt; show(rt.alloc(), &Value::Ints(list))?.len(), 20_999);
    Ok(())
}

#[test]
fn views_of_a_task_are_told_apart_by_kind_and_content(rt: HostRuntime) -> Result<(), Fail> {
    let rows = [
        (TaskView::Running, TaskView::Running, true),
        (TaskView::Initial, TaskView::Running, false),
        (
            TaskView::Success(Value::Int(1)),
            TaskView::Success(Value::Int(1)),
            true,
        ),
        (
            TaskView::Success(Value::Int(1)),
            TaskView::Success(Value::Int(2)),
            false,
        ),
        (
            TaskView::Error(Outcome::Stop),
            TaskView::Error(Outcome::Cancel),
            false,
        ),
    ];
    for (first, second, want) in &rows {
        assert_eq!(rt; first.same(second), *want, "{first:?} {second:?}");
    }
    Ok(())
}

fn sources_of_each_kind() -> [SourceValue; 8] {
    [
        SourceValue::Plain(Value::Int(1)),
        SourceValue::Plain(Value::Null),
        SourceValue::Frozen(Value::Int(1)),
        SourceValue::Task(TaskView::Initial),
        SourceValue::Task(TaskView::Running),
        SourceValue::Task(TaskView::Success(Value::Int(1))),
        SourceValue::Task(TaskView::Error(Outcome::Stop)),
        SourceValue::Task(TaskView::Error(Outcome::Val(Value::Int(1)))),
    ]
}

#[test]
fn a_source_is_the_same_as_itself_alone(rt: HostRuntime) -> Result<(), Fail> {
    let (firsts, seconds) = (sources_of_each_kind(), sources_of_each_kind());
    for (place, first) in firsts.iter().enumerate() {
        for (other_place, second) in seconds.iter().enumerate() {
            assert_eq!(rt;
                first.same(second),
                place == other_place,
                "{place} {other_place}"
            );
        }
    }
    Ok(())
}

#[test]
fn equal_keys_find_one_entry(rt: HostRuntime) -> Result<(), Fail> {
    let alloc = rt.alloc();
    let mut places = HashMap::new(alloc);
    places.insert(key_of(alloc, 1, text_of(alloc, "a")?)?, 10)?;
    places.insert(key_of(alloc, 1, list_of(alloc, &[1])?)?, 20)?;
    places.insert(key_of(alloc, 1, Value::Bool(true))?, 30)?;
    places.insert(key_of(alloc, 1, Value::Null)?, 40)?;
    let key = key_of(alloc, 1, list_of(alloc, &[1])?)?;
    assert_eq!(rt; places.get(&key), Some(&20));
    Ok(())
}
