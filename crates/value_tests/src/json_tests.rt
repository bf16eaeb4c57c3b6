use crate::samples::value_of;
use rx_value::{Memory, Outcome, RxText, Value};
use shiny_json::{
    BadMessage, Batch, BatchOutput, BatchOutputs, Client, ClientData, Messages, Pair, read_client,
    write_busy, write_config, write_progress, write_recalc, write_values,
};
use std::alloc::Global;
use std::process::Abort;
use std::test::Fail;

/// An outcome as a table writes it, a value by its words.
#[derive(Clone, Copy, Debug)]
enum Run {
    Gives(&'static str),
    Fails(&'static str),
    Stops,
    Cancels,
    Waits,
}

fn outcome_of(alloc: Global, run: Run) -> Result<Outcome, Memory> {
    match run {
        Run::Gives(words) => Ok(Outcome::Val(value_of(alloc, words)?)),
        Run::Fails(text) => Ok(Outcome::Fail(RxText::from_str(alloc, text)?)),
        Run::Stops => Ok(Outcome::Stop),
        Run::Cancels => Ok(Outcome::Cancel),
        Run::Waits => Ok(Outcome::Running),
    }
}

fn outputs_of(alloc: Global, runs: &[(&str, bool, Run)]) -> Result<BatchOutputs, Memory> {
    let mut outputs = BatchOutputs::new(alloc);
    for (name, plot, run) in runs {
        let name = RxText::from_str(alloc, *name)?;
        let outcome = outcome_of(alloc, *run)?;
        outputs.push(BatchOutput {
            name,
            plot: *plot,
            outcome,
        })?;
    }
    Ok(outputs)
}

fn messages_of(alloc: Global, samples: &[(&str, &str)]) -> Result<Messages, Memory> {
    let mut messages = Messages::new(alloc);
    for (name, sample) in samples {
        let name = RxText::from_str(alloc, *name)?;
        let value = value_of(alloc, *sample)?;
        messages.push(Pair { name, value })?;
    }
    Ok(messages)
}

fn batch_text(
    alloc: Global,
    runs: &[(&str, bool, Run)],
    samples: &[(&str, &str)],
) -> Result<RxText, Memory> {
    let outputs = outputs_of(alloc, runs)?;
    let messages = messages_of(alloc, samples)?;
    write_values(alloc, &Batch { outputs, messages })
}

#[test]
fn writes_the_texts_round_runs(rt: HostRuntime) -> Result<(), Fail> {
    let alloc = rt.alloc();
    let label = RxText::from_str(alloc, "s")?;
    let name = RxText::from_str(alloc, "o")?;
    let texts = [
        (
            write_config(alloc, &label)?,
            r#"{"config":{"sessionId":"s","user":null,"workerId":""}}"#,
        ),
        (write_busy(alloc, true)?, r#"{"busy":"busy"}"#),
        (write_busy(alloc, false)?, r#"{"busy":"idle"}"#),
        (
            write_progress(alloc, &name)?,
            r#"{"progress":{"message":{"id":"o"},"type":"binding"}}"#,
        ),
        (
            write_recalc(alloc, &name, false)?,
            r#"{"recalculating":{"name":"o","status":"recalculating"}}"#,
        ),
        (
            write_recalc(alloc, &name, true)?,
            r#"{"recalculating":{"name":"o","status":"recalculated"}}"#,
        ),
    ];
    for (text, want) in &texts {
        assert_eq!(rt; text.as_str(), *want);
    }
    Ok(())
}

const ONE: Run = Run::Gives("1");

/// Outputs of a batch, each with its name, whether it is a plot and its outcome.
type Runs = &'static [(&'static str, bool, Run)];

/// Batches, and what stands of their texts within the braces.
const BATCHES: [(Runs, &str); 16] = [
    (&[], r#""errors":{},"inputMessages":[],"values":{}"#),
    (
        &[("o", false, ONE)],
        r#""errors":{},"inputMessages":[],"values":{"o":"1"}"#,
    ),
    (
        &[
            ("b", false, Run::Gives("'x")),
            ("a", false, Run::Gives("NULL")),
            ("B", false, Run::Gives("TRUE")),
            ("aa", false, Run::Gives("c 1 -2")),
        ],
        r#""errors":{},"inputMessages":[],"values":{"B":"TRUE","a":"","aa":"1 -2","b":"x"}"#,
    ),
    (
        &[("o2", false, Run::Stops)],
        r#""errors":{"o2":{"message":"","type":["shiny.silent.error"]}},"inputMessages":[],"values":{}"#,
    ),
    (
        &[("p", true, Run::Fails("division by zero"))],
        r#""errors":{"p":{"message":"division by zero"}},"inputMessages":[],"values":{}"#,
    ),
    (
        &[("o", false, Run::Cancels), ("p", true, Run::Waits)],
        r#""errors":{},"inputMessages":[],"values":{}"#,
    ),
    (
        &[("p", true, Run::Gives("'hi"))],
        r#""errors":{},"inputMessages":[],"values":{"p":{"src":"data:image/svg+xml;base64,aGk="}}"#,
    ),
    (
        &[("p", true, Run::Gives("NULL"))],
        r#""errors":{},"inputMessages":[],"values":{"p":null}"#,
    ),
    (
        &[("p", true, ONE)],
        r#""errors":{"p":{"message":"wrong kind of value"}},"inputMessages":[],"values":{}"#,
    ),
    (
        &[("p", true, Run::Gives("FALSE"))],
        r#""errors":{"p":{"message":"wrong kind of value"}},"inputMessages":[],"values":{}"#,
    ),
    (
        &[("o", false, ONE), ("o", false, Run::Gives("2"))],
        r#""errors":{},"inputMessages":[],"values":{"o":"2"}"#,
    ),
    (
        &[
            ("o", false, ONE),
            ("q", false, ONE),
            ("o", false, Run::Fails("x")),
        ],
        r#""errors":{"o":{"message":"x"}},"inputMessages":[],"values":{"q":"1"}"#,
    ),
    (
        &[
            ("o", false, Run::Fails("x")),
            ("q", false, Run::Fails("y")),
            ("o", false, ONE),
        ],
        r#""errors":{"q":{"message":"y"}},"inputMessages":[],"values":{"o":"1"}"#,
    ),
    (
        &[
            ("o", false, ONE),
            ("o", false, Run::Cancels),
            ("q", false, Run::Stops),
            ("q", false, Run::Waits),
        ],
        r#""errors":{"q":{"message":"","type":["shiny.silent.error"]}},"inputMessages":[],"values":{"o":"1"}"#,
    ),
    (
        &[
            ("o", false, Run::Fails("x")),
            ("o", false, ONE),
            ("o", false, Run::Stops),
            ("o", false, ONE),
        ],
        r#""errors":{},"inputMessages":[],"values":{"o":"1"}"#,
    ),
    (
        &[("a\"\\é", false, Run::Gives("'1\n\u{1}/<é"))],
        r#""errors":{},"inputMessages":[],"values":{"a\"\\é":"1\n\u0001/<é"}"#,
    ),
];

fn compare_batches(rt: &impl Abort, alloc: Global, batches: &[(Runs, &str)]) -> Result<(), Fail> {
    for (runs, want) in batches {
        let text = batch_text(alloc, *runs, &[])?;
        let inside = text
            .as_str()
            .strip_prefix("{")
            .and_then(|t| t.strip_suffix("}"));
        assert_eq!(rt; inside.ok_or("an object")?, *want);
    }
    Ok(())
}

#[test]
fn writes_values_and_errors(rt: HostRuntime) -> Result<(), Fail> {
    compare_batches(&rt, rt.alloc(), &BATCHES)
}

#[test]
fn writes_input_messages_in_order(rt: HostRuntime) -> Result<(), Fail> {
    let rows: [(&[(&str, &str)], &str); 2] = [
        (
            &[("n", "7")],
            r#"{"errors":{},"inputMessages":[{"id":"n","message":{"value":7}}],"values":{}}"#,
        ),
        (
            &[
                ("n", "NULL"),
                ("b", "TRUE"),
                ("a", "'x\""),
                ("n", "c -9223372036854775808 9223372036854775807"),
                ("b", "c"),
            ],
            r#"{"errors":{},"inputMessages":[{"id":"n","message":{"value":null}},{"id":"b","message":{"value":true}},{"id":"a","message":{"value":"x\""}},{"id":"n","message":{"value":[-9223372036854775808,9223372036854775807]}},{"id":"b","message":{"value":[]}}],"values":{}}"#,
        ),
    ];
    for (samples, want) in rows {
        let text = batch_text(rt.alloc(), &[], samples)?;
        assert_eq!(rt; text.as_str(), want);
    }
    Ok(())
}

fn read(alloc: Global, text: &str) -> Result<Client, Memory> {
    let text = RxText::from_str(alloc, text)?;
    read_client(alloc, &text)
}

/// The cause with which a text is refused; none where it is read.
fn cause(alloc: Global, text: &str) -> Result<Option<BadMessage>, Memory> {
    match read(alloc, text)? {
        Client::Refused(cause) => Ok(Some(cause)),
        Client::Init(_) | Client::Update(_) => Ok(None),
    }
}

/// Texts, and the causes with which they are refused; none where a text is read.
const CAUSES: [(&str, Option<BadMessage>); 17] = [
    ("", Some(BadMessage::NotJson)),
    ("{", Some(BadMessage::NotJson)),
    (
        r#"{"method":"init","data":{}} x"#,
        Some(BadMessage::NotJson),
    ),
    (
        r#"{"method":"init","data":{"a":1,}}"#,
        Some(BadMessage::NotJson),
    ),
    ("[]", Some(BadMessage::NotObject)),
    ("null", Some(BadMessage::NotObject)),
    (r#""init""#, Some(BadMessage::NotObject)),
    ("{}", Some(BadMessage::NoMethod)),
    (r#"{"method":1,"data":{}}"#, Some(BadMessage::NoMethod)),
    (r#"{"data":[]}"#, Some(BadMessage::NoMethod)),
    (r#"{"method":"close"}"#, Some(BadMessage::BadMethod)),
    (
        r#"{"method":"Init","data":{}}"#,
        Some(BadMessage::BadMethod),
    ),
    (r#"{"method":"init"}"#, Some(BadMessage::NoData)),
    (r#"{"method":"update","data":[]}"#, Some(BadMessage::NoData)),
    (
        r#"{"method":"close","method":"init","data":1,"data":{}}"#,
        None,
    ),
    (
        r#"{"method":"init","method":"close","data":{}}"#,
        Some(BadMessage::BadMethod),
    ),
    (r#" {"data":{},"method":"update","more":[{}]} "#, None),
];

fn compare_causes(
    rt: &impl Abort,
    alloc: Global,
    cases: &[(&str, Option<BadMessage>)],
) -> Result<(), Memory> {
    for (text, want) in cases {
        assert_eq!(rt; cause(alloc, *text)?, *want, "{text}");
    }
    Ok(())
}

#[test]
fn refuses_in_the_order_of_the_causes(rt: HostRuntime) -> Result<(), Fail> {
    compare_causes(&rt, rt.alloc(), &CAUSES)?;
    Ok(())
}

#[test]
fn refuses_at_the_limits(rt: HostRuntime) -> Result<(), Fail> {
    let alloc = rt.alloc();
    let message = r#"{"method":"init","data":{}}"#;
    let rows = [
        (message, " ", 65_536 - message.len(), "", None),
        (
            message,
            " ",
            65_537 - message.len(),
            "",
            Some(BadMessage::TooLong),
        ),
        ("", "[", 65_537, "", Some(BadMessage::TooLong)),
        ("", "[", 127, "]", Some(BadMessage::NotObject)),
        ("", "[", 128, "]", Some(BadMessage::NotJson)),
    ];
    for (front, piece, count, behind, want) in rows {
        let text = format!(in alloc;
            "{front}{}{}",
            piece.repeat(alloc, count)?,
            behind.repeat(alloc, count)?
        )?;
        assert_eq!(rt; cause(alloc, text.as_str())?, want);
    }
    Ok(())
}

/// What an update sets, whose data has these members; none where it is refused.
fn updates(alloc: Global, members: &str) -> Result<Option<ClientData>, Memory> {
    let text = format!(in alloc; "{{\"method\":\"update\",\"data\":{{{members}}}}}")?;
    match read(alloc, text.as_str())? {
        Client::Update(pairs) => Ok(Some(pairs)),
        Client::Init(_pairs) => Ok(None),
        Client::Refused(_cause) => Ok(None),
    }
}

/// A member of the data, the name of the input that it sets, and the words of the value.
const PAIRS: [(&str, &str, &str); 28] = [
    (r#""n:shiny.number":3"#, "n", "3"),
    (r#""n:shiny.number":0"#, "n", "0"),
    (r#""go:shiny.action":0"#, "go", "NULL"),
    (r#""go:shiny.action":1"#, "go", "1"),
    (r#""go:shiny.action":[0]"#, "go", "c 0"),
    (r#""go:shiny.action":"0""#, "go", "'0"),
    (r#""go:shiny.action:x":0"#, "go", "0"),
    (r#""a:b:shiny.action":0"#, "a", "0"),
    (r#"":shiny.action":0"#, "", "NULL"),
    (r#""go:":0"#, "go", "0"),
    (r#""shiny.action":0"#, "shiny.action", "0"),
    (r#""a":null"#, "a", "NULL"),
    (r#""a":true"#, "a", "TRUE"),
    (r#""a":{"b":1}"#, "a", "NULL"),
    (r#""a\"é":"\u00e9\n""#, "a\"é", "'é\n"),
    (r#""a":1.0"#, "a", "NULL"),
    (r#""a":1e0"#, "a", "NULL"),
    (r#""a":-0"#, "a", "NULL"),
    (r#""a":9223372036854775807"#, "a", "9223372036854775807"),
    (r#""a":9223372036854775808"#, "a", "NULL"),
    (r#""a":-9223372036854775808"#, "a", "-9223372036854775808"),
    (r#""a":-9223372036854775809"#, "a", "NULL"),
    (r#""a":[]"#, "a", "NULL"),
    (r#""a":[1,-2]"#, "a", "c 1 -2"),
    (r#""a":[1,2.0]"#, "a", "NULL"),
    (r#""a":[1,"2"]"#, "a", "NULL"),
    (r#""a":[[1]]"#, "a", "NULL"),
    (r#""a":1,"a":2"#, "a", "2"),
];

fn compare_pairs(rt: &impl Abort, alloc: Global, cases: &[(&str, &str, &str)]) -> Result<(), Fail> {
    for (member, name, words) in cases {
        let want = value_of(alloc, *words)?;
        let pairs = updates(alloc, *member)?.ok_or("an update")?;
        assert_eq!(rt; pairs.len(), 1, "{member}");
        assert_eq!(rt; pairs.get(0).name.as_str(), *name, "{member}");
        assert!(rt; pairs.get(0).value.same(&want), "{member}");
    }
    Ok(())
}

#[test]
fn reads_a_pair(rt: HostRuntime) -> Result<(), Fail> {
    compare_pairs(&rt, rt.alloc(), &PAIRS)
}

fn list_len(value: &Value) -> Option<usize> {
    match value {
        Value::Ints(numbers) => Some(numbers.len()),
        _ => None,
    }
}

#[test]
fn reads_lists_of_a_thousand(rt: HostRuntime) -> Result<(), Fail> {
    let alloc = rt.alloc();
    for (more, want) in [(999, Some(1_000)), (1_000, None)] {
        let members = format!(in alloc; "\"a\":[{}0]", "0,".repeat(alloc, more)?)?;
        let pairs = updates(alloc, members.as_str())?.ok_or("an update")?;
        assert_eq!(rt; pairs.len(), 1);
        assert_eq!(rt; list_len(&pairs.get(0).value), want);
    }
    Ok(())
}

#[test]
fn reads_pairs_in_byte_order(rt: HostRuntime) -> Result<(), Fail> {
    let text = r#"{"method":"init","data":{"b:x":1,"a":2,"b":3,"B":4}}"#;
    let Client::Init(pairs) = read(rt.alloc(), text)? else {
        return Err(Fail::from("an init"));
    };
    let want = [("B", 4), ("a", 2), ("b", 3), ("b", 1)];
    assert_eq!(rt; pairs.len(), want.len());
    for (pair, (name, number)) in pairs.as_slice().iter().zip(want.iter()) {
        assert_eq!(rt; pair.name.as_str(), *name);
        assert!(rt; pair.value.same(&Value::Int(*number)), "{name}");
    }
    Ok(())
}
