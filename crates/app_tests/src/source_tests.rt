use app_check::{LoadError, load};
use app_tree::{App, Read};
use rx_source::{Change, Sources, starting_values};
use rx_value::{Memory, Outcome, RxText, SourceValue, TaskView, Value};
use std::alloc::Global;
use std::test::Fail;

/// An output, a task, a value, an input and a plot, in an order that is not that of the numbers.
fn app(alloc: Global) -> Result<App, LoadError> {
    let file = b"text o { NULL } task t () { NULL } value v = TRUE; input n = 7; plot p { NULL }";
    load(alloc, file)
}

fn is_answered(
    alloc: Global,
    sources: &Sources,
    read: Read,
    wanted: &Outcome,
) -> Result<bool, Memory> {
    Ok(sources.answer(alloc, read)?.same(wanted))
}

#[test]
fn answers_each_read_at_the_start(rt: HostRuntime) -> Result<(), Fail> {
    let alloc = rt.alloc();
    let sources = Sources::new(alloc, &app(alloc)?)?;
    let initial = Value::Text(RxText::from_str(alloc, "initial")?);
    let rows = [
        (Read::Input(0), Outcome::Val(Value::Int(7))),
        (Read::Value(1), Outcome::Val(Value::Bool(true))),
        (Read::Status(2), Outcome::Val(initial)),
        (Read::Result(2), Outcome::Stop),
        (Read::Width(0), Outcome::Val(Value::Null)),
        (Read::Height(1), Outcome::Val(Value::Null)),
    ];
    for (read, wanted) in &rows {
        assert!(rt; is_answered(alloc, &sources, *read, wanted)?, "{read:?}");
    }
    Ok(())
}

#[test]
fn sets_sources_and_tells_whether_they_changed(rt: HostRuntime) -> Result<(), Fail> {
    let alloc = rt.alloc();
    let mut sources = Sources::new(alloc, &app(alloc)?)?;
    let running = TaskView::Running;
    let ended = TaskView::Error(Outcome::Fail(RxText::from_str(alloc, "bad")?));
    let rows = [
        (0, SourceValue::Plain(Value::Int(7)), Change::Same),
        (0, SourceValue::Frozen(Value::Int(7)), Change::Changed),
        (0, SourceValue::Frozen(Value::Int(7)), Change::Same),
        (0, SourceValue::Plain(Value::Int(7)), Change::Changed),
        (0, SourceValue::Frozen(Value::Int(7)), Change::Changed),
        (2, SourceValue::Task(TaskView::Initial), Change::Same),
        (2, SourceValue::Task(running), Change::Changed),
        (2, SourceValue::Task(ended), Change::Changed),
        (3, SourceValue::Plain(Value::Null), Change::Same),
        (3, SourceValue::Plain(Value::Int(400)), Change::Changed),
        (6, SourceValue::Plain(Value::Int(300)), Change::Changed),
    ];
    for (source, value, wanted) in rows {
        assert_eq!(rt; sources.len(), 7);
        assert!(rt; source < 7);
        assert_eq!(rt; sources.set(source, value), wanted, "{source}");
    }
    let rows = [
        (Read::Input(0), Outcome::Stop),
        (
            Read::Result(2),
            Outcome::Fail(RxText::from_str(alloc, "bad")?),
        ),
        (Read::Width(0), Outcome::Val(Value::Int(400))),
        (Read::Width(1), Outcome::Val(Value::Null)),
        (Read::Height(1), Outcome::Val(Value::Int(300))),
    ];
    for (read, wanted) in &rows {
        assert!(rt; is_answered(alloc, &sources, *read, wanted)?, "{read:?}");
    }
    Ok(())
}

#[test]
fn a_task_is_answered_by_its_status_and_its_result(rt: HostRuntime) -> Result<(), Fail> {
    let alloc = rt.alloc();
    let mut sources = Sources::new(alloc, &app(alloc)?)?;
    let rows = [
        (TaskView::Running, "running", Outcome::Running),
        (
            TaskView::Success(Value::Int(8)),
            "success",
            Outcome::Val(Value::Int(8)),
        ),
        (TaskView::Error(Outcome::Stop), "error", Outcome::Stop),
        (TaskView::Error(Outcome::Cancel), "error", Outcome::Cancel),
        (TaskView::Initial, "initial", Outcome::Stop),
    ];
    for (view, status, result) in rows {
        assert!(rt; sources.len() == 7);
        assert_eq!(rt; sources.set(2, SourceValue::Task(view)), Change::Changed);
        let status = Outcome::Val(Value::Text(RxText::from_str(alloc, status)?));
        assert!(rt; is_answered(alloc, &sources, Read::Status(2), &status)?);
        assert!(rt; is_answered(alloc, &sources, Read::Result(2), &result)?);
    }
    Ok(())
}

/// Whether a source still has its starting value.
fn is_kept(sources: &Sources, source: u32, starting: &[SourceValue]) -> bool {
    if source as usize >= sources.len() {
        return false;
    }
    match starting.get(source as usize) {
        Some(value) => sources.get(source).same(value),
        None => false,
    }
}

#[test]
fn a_source_is_set_alone(rt: HostRuntime) -> Result<(), Fail> {
    let alloc = rt.alloc();
    let app = app(alloc)?;
    let starting = starting_values(alloc, app.items().as_slice())?;
    for changed in 0..7 {
        let mut sources = Sources::new(alloc, &app)?;
        assert!(rt; sources.len() == 7);
        let value = SourceValue::Frozen(Value::Int(changed as i64));
        assert_eq!(rt; sources.set(changed, value), Change::Changed);
        for source in 0..7 {
            assert_eq!(rt;
                is_kept(&sources, source, starting.as_slice()),
                source != changed
            );
        }
    }
    Ok(())
}
