use crate::status::Status;
use crate::top::run_text;
use rx_ports::{MemFiles, MemSink, MemSource, RxBytes};
use rx_value::Memory;
use std::alloc::{AllocError, Global};
use std::process::Abort;
use std::test::Fail;

const COUNTER: &str = "input n = 1;\ntext o { input$n }\n";

const INIT: &str =
    "s recv {\"method\":\"init\",\"data\":{\"n\":1,\".clientdata_output_o_hidden\":false}}\n";

/// Its line without its line feed.
const INIT_CUT: &str =
    "s recv {\"method\":\"init\",\"data\":{\"n\":1,\".clientdata_output_o_hidden\":false}}";

const EMPTY_INIT: &str = "s recv {\"method\":\"init\",\"data\":{}}\n";

const UPDATE: &str = "s recv {\"method\":\"update\",\"data\":{\"n\":2}}\n";

const EQUAL: &str = "s recv {\"method\":\"update\",\"data\":{\"n\":1}}\n";

const CONFIG: &str = "s send {\"config\":{\"sessionId\":\"s\",\"user\":null,\"workerId\":\"\"}}\n";

const RUN: &str =
    "s send {\"busy\":\"busy\"}\ns send {\"progress\":{\"message\":{\"id\":\"o\"},\"type\":\"binding\"}}\ns send {\"recalculating\":{\"name\":\"o\",\"status\":\"recalculating\"}}\ns send {\"recalculating\":{\"name\":\"o\",\"status\":\"recalculated\"}}\n";

const ONE: &str =
    "s send {\"errors\":{},\"inputMessages\":[],\"values\":{\"o\":\"1\"}}\ns send {\"busy\":\"idle\"}\n";

const TWO: &str =
    "s send {\"errors\":{},\"inputMessages\":[],\"values\":{\"o\":\"2\"}}\ns send {\"busy\":\"idle\"}\n";

const NOTHING: &str =
    "s send {\"busy\":\"busy\"}\ns send {\"errors\":{},\"inputMessages\":[],\"values\":{}}\ns send {\"busy\":\"idle\"}\n";

const OVER: &str = "s over ended\n";

/// What the program ended with, and what it wrote.
#[derive(Drop)]
struct Ran {
    status: Status,
    output: RxBytes,
    note: RxBytes,
}

/// The numbers of the calls that fail.
#[derive(Drop)]
struct Failing<'a> {
    reads: &'a [u64],
    takes: &'a [u64],
    puts: &'a [u64],
    notes: &'a [u64],
}

const NONE_FAILS: Failing<'static> = Failing {
    reads: &[],
    takes: &[],
    puts: &[],
    notes: &[],
};

fn joined(alloc: Global, parts: &[&str]) -> Result<RxBytes, Memory> {
    let mut bytes = RxBytes::new(alloc);
    for part in parts {
        bytes.extend(part.as_bytes())?;
    }
    Ok(bytes)
}

fn two_words(alloc: Global, command: &str, file: &str) -> Result<Vec<String>, AllocError> {
    let mut words = Vec::new(alloc);
    words.push(String::from_str(alloc, command)?)?;
    words.push(String::from_str(alloc, file)?)?;
    Ok(words)
}

/// Runs these words over one file `f`.
fn run_on(
    alloc: Global,
    words: &[String],
    app: &str,
    transcript: RxBytes,
    failing: &Failing<'_>,
) -> Result<Ran, Memory> {
    let mut files = MemFiles::new(alloc);
    files.add(alloc, "f", app.as_bytes())?;
    files.fail_read(alloc, failing.reads)?;
    let mut input = MemSource::new(transcript);
    input.fail_take(alloc, failing.takes)?;
    let mut out = MemSink::new(alloc, 100_000)?;
    out.fail_put(alloc, failing.puts)?;
    let mut note = MemSink::new(alloc, 1_000)?;
    note.fail_put(alloc, failing.notes)?;
    let status = run_text(alloc, words, &mut files, &mut input, &mut out, &mut note);
    let output = RxBytes::from_slice(alloc, out.bytes())?;
    let note = RxBytes::from_slice(alloc, note.bytes())?;
    Ok(Ran {
        status,
        output,
        note,
    })
}

/// Runs a command over an empty input.
fn runs(
    alloc: Global,
    command: &str,
    file: &str,
    app: &str,
    failing: &Failing<'_>,
) -> Result<Ran, Memory> {
    let words = two_words(alloc, command, file)?;
    run_on(alloc, words.as_slice(), app, RxBytes::new(alloc), failing)
}

fn replays(
    alloc: Global,
    app: &str,
    transcript: &[&str],
    failing: &Failing<'_>,
) -> Result<Ran, Memory> {
    let words = two_words(alloc, "replay", "f")?;
    let transcript = joined(alloc, transcript)?;
    run_on(alloc, words.as_slice(), app, transcript, failing)
}

/// Whether the replay ends with status 0 and this output.
fn answers(alloc: Global, app: &str, transcript: &[&str], output: &[&str]) -> Result<bool, Memory> {
    let ran = replays(alloc, app, transcript, &NONE_FAILS)?;
    let output = joined(alloc, output)?;
    Ok(ran.status == Status::Done && ran.output.as_slice() == output.as_slice())
}

/// The worked examples, with ample memory.
#[test]
fn transcripts_are_answered(rt: HostRuntime) -> Result<(), Fail> {
    let alloc = rt.alloc();
    let both = [CONFIG, RUN, ONE, RUN, TWO, OVER];
    assert!(rt; answers(alloc, COUNTER, &[INIT, UPDATE], &both)?);
    assert!(rt; answers(alloc, "", &[], &[])?);
    assert!(rt; answers(alloc, "", &[EMPTY_INIT], &[CONFIG, NOTHING, OVER])?);
    assert!(rt; answers(alloc, COUNTER, &[INIT, EQUAL], &[CONFIG, RUN, ONE, OVER])?);
    assert!(rt;
        answers(
            alloc,
            COUNTER,
            &[EMPTY_INIT, UPDATE],
            &[CONFIG, NOTHING, OVER]
        )?
    );
    assert!(rt; answers(alloc, COUNTER, &[INIT_CUT], &[CONFIG, RUN, ONE, OVER])?);
    Ok(())
}

/// A refused line ends the replay with status 6, and what was written before it stays.
#[test]
fn refused_lines_end_the_replay(rt: HostRuntime) -> Result<(), Fail> {
    let alloc = rt.alloc();
    let second_lines = [
        "\n",
        "s\n",
        "s recv\n",
        "s recv {}\n",
        "t recv {\"method\":\"update\",\"data\":{\"n\":2}}\n",
        "s-1 recv {\"method\":\"update\",\"data\":{\"n\":2}}\n",
        "s send {\"method\":\"update\",\"data\":{\"n\":2}}\n",
        "s recv {\"method\":\"init\",\"data\":{\"n\":2}}\n",
        "s recv {\"method\":\"update\",\"data\":{\"m\":2}}\n",
        "s recv {\"method\":\"update\",\"data\":{\"n\":2.5}}\n",
        "s recv {\"method\":\"update\",\"data\":{\"n\":\"2\"}}\n",
        "s recv {\"method\":\"update\",\"data\":{\"n\":9223372036854775808}}\n",
        "s recv {\"method\":\"update\",\"data\":{\"n:shiny.number\":2}}\n",
        "s recv {\"method\":\"update\",\"data\":{},\"more\":1}\n",
        "s recv {\"method\":\"update\",\"data\":{\".clientdata_output_o_hidden\":true}}\n",
        "s recv {\"method\":\"update\",\"data\":{\"n\":2}",
    ];
    for line in second_lines {
        let ran = replays(alloc, COUNTER, &[INIT, line, UPDATE], &NONE_FAILS)?;
        assert_eq!(rt; ran.status, Status::LineRefused, "{line:?}");
        assert_eq!(rt;
            ran.note.as_slice(),
            "line 2: bad line\n".as_bytes(),
            "{line:?}"
        );
        let output = joined(alloc, &[CONFIG, RUN, ONE])?;
        assert_eq!(rt; ran.output.as_slice(), output.as_slice(), "{line:?}");
    }
    Ok(())
}

/// A file checked, printed and refused; nothing of the input is needed.
#[test]
fn files_are_checked_and_printed(rt: HostRuntime) -> Result<(), Fail> {
    let alloc = rt.alloc();
    let unspaced = "input a=1; text o priority 0{input$a+1 }";
    let canonical = "budget 1000;\ninput a = 1;\ntext o { input$a + 1 }\n";
    let cases = [
        ("check", COUNTER, "ok 2\n"),
        ("check", "", "ok 0\n"),
        ("check", unspaced, "ok 2\n"),
        ("print", unspaced, canonical),
        ("print", canonical, canonical),
        ("print", "", "budget 1000;\n"),
    ];
    for (command, app, output) in cases {
        let ran = runs(alloc, command, "f", app, &NONE_FAILS)?;
        assert_eq!(rt; ran.status, Status::Done, "{command} {app:?}");
        assert_eq!(rt;
            ran.output.as_slice(),
            output.as_bytes(),
            "{command} {app:?}"
        );
        assert_eq!(rt; ran.note.len(), 0, "{command} {app:?}");
    }
    Ok(())
}

const USAGE: &str =
    "usage: check FILE | print FILE | fresh FILE | replay FILE | gen SEED SIZE | serve FILE [options]\n";

/// A command, its file, the file's text, and the status and the note that it ends with.
type Refused = (&'static str, &'static str, &'static str, u8, &'static str);

const REFUSED: [Refused; 11] = [
    ("fresh", "f", COUNTER, 2, USAGE),
    ("Check", "f", COUNTER, 2, USAGE),
    ("check", "nofile", COUNTER, 4, "file absent: nofile\n"),
    ("print", "nofile", COUNTER, 4, "file absent: nofile\n"),
    ("replay", "nofile", COUNTER, 4, "file absent: nofile\n"),
    (
        "check",
        "f",
        "input a = 1;\ninput a = 2;\n",
        3,
        "app refused: NameTwice a at 19\n",
    ),
    (
        "print",
        "f",
        "reactive a { b() }\nreactive b { 1 }\n",
        3,
        "app refused: ForwardRead b at 13\n",
    ),
    (
        "check",
        "f",
        "input a = TRUE;\ninput b = 1;\ninput d = 2;\ntext o cache (input$a, input$b) { if (input$a) input$b else input$d }\n",
        3,
        "app refused: Uncovered o input$d at 47\n",
    ),
    (
        "print",
        "f",
        "input b = 1;\ntext o cache (input$b) { isolate(input$b) }\n",
        3,
        "app refused: IsolateInCached o at 18\n",
    ),
    (
        "replay",
        "f",
        "input n = 1",
        3,
        "app refused: Unexpected at 11\n",
    ),
    (
        "replay",
        "f",
        "input n = 1;\nreactive e { input$n }\n",
        3,
        "app refused: NotYet e at 0\n",
    ),
];

fn compare_refused(rt: &impl Abort, alloc: Global, cases: &[Refused]) -> Result<(), Memory> {
    for (command, file, app, number, note) in cases {
        let ran = runs(alloc, *command, *file, *app, &NONE_FAILS)?;
        assert_eq!(rt; ran.status.number(), *number, "{command} {file} {app:?}");
        assert_eq!(rt; ran.output.len(), 0, "{command} {file} {app:?}");
        assert_eq!(rt;
            ran.note.as_slice(),
            note.as_bytes(),
            "{command} {file} {app:?}"
        );
    }
    Ok(())
}

/// The other statuses, each with its note and nothing written.
#[test]
fn statuses_have_their_causes(rt: HostRuntime) -> Result<(), Fail> {
    compare_refused(&rt, rt.alloc(), &REFUSED)?;
    Ok(())
}

/// Where the note can't be written, that is the status.
#[test]
fn notes_may_fail(rt: HostRuntime) -> Result<(), Fail> {
    let alloc = rt.alloc();
    let failing = Failing {
        reads: &[1],
        takes: &[],
        puts: &[1],
        notes: &[1],
    };
    for command in ["none", "check", "print", "replay"] {
        let ran = runs(alloc, command, "f", COUNTER, &failing)?;
        assert_eq!(rt; ran.status, Status::WriteFault, "{command}");
        assert_eq!(rt; ran.output.len(), 0, "{command}");
    }
    Ok(())
}

/// An app may name its budget, and a session that spends it is over.
#[test]
fn budgets_are_spent(rt: HostRuntime) -> Result<(), Fail> {
    let alloc = rt.alloc();
    let app = "budget 1;\ninput n = 1;\ntext o { input$n }\ntext p { input$n }\n";
    let init =
        "s recv {\"method\":\"init\",\"data\":{\".clientdata_output_o_hidden\":false,\".clientdata_output_p_hidden\":false}}\n";
    let ran = replays(alloc, app, &[init], &NONE_FAILS)?;
    assert_eq!(rt; ran.status, Status::Done);
    let output = joined(alloc, &[CONFIG, RUN, "s over budget\n"])?;
    assert_eq!(rt; ran.output.as_slice(), output.as_slice());
    let ran = replays(alloc, app, &[init, UPDATE], &NONE_FAILS)?;
    assert_eq!(rt; ran.status, Status::LineRefused);
    assert_eq!(rt; ran.note.as_slice(), "line 2: no session\n".as_bytes());
    assert_eq!(rt; ran.output.as_slice(), output.as_slice());
    Ok(())
}

/// Each read, take and put of a run is made to fail in turn: the status says so, and what was
/// written is a front of the whole output.
#[test]
fn faults_leave_a_front_of_the_output(rt: HostRuntime) -> Result<(), Fail> {
    let alloc = rt.alloc();
    let whole = joined(alloc, &[CONFIG, RUN, ONE, RUN, TWO, OVER])?;
    let cases: [(&[u64], &[u64], &[u64], Status); 6] = [
        (&[1], &[], &[], Status::FileFault),
        (&[], &[1], &[], Status::ReadFault),
        (&[], &[2], &[], Status::ReadFault),
        (&[], &[], &[1], Status::WriteFault),
        (&[], &[], &[2], Status::WriteFault),
        (&[], &[], &[3], Status::WriteFault),
    ];
    for (reads, takes, puts, status) in cases {
        let failing = Failing {
            reads,
            takes,
            puts,
            notes: &[],
        };
        let ran = replays(alloc, COUNTER, &[INIT, UPDATE], &failing)?;
        assert_eq!(rt; ran.status, status, "{reads:?} {takes:?} {puts:?}");
        assert!(rt; whole.as_slice().starts_with(ran.output.as_slice()));
    }
    Ok(())
}

/// Whether the replay of a transcript, of which this take of the input fails, ends so with this output.
fn fault_leaves(
    alloc: Global,
    transcript: &[&str],
    take: u64,
    status: Status,
    output: &[&str],
) -> Result<bool, Memory> {
    let takes = [take];
    let failing = Failing {
        reads: &[],
        takes: &takes,
        puts: &[],
        notes: &[],
    };
    let ran = replays(alloc, COUNTER, transcript, &failing)?;
    let output = joined(alloc, output)?;
    let note = match status {
        Status::ReadFault => "read fault\n",
        _ => "",
    };
    Ok(
        ran.status == status
            && ran.output.as_slice() == output.as_slice()
            && ran.note.as_slice() == note.as_bytes(),
    )
}

/// A read fault leaves exactly the output of the lines that were read whole. A source that has told its
/// end is not asked again.
#[test]
fn read_faults_leave_the_output_of_whole_lines(rt: HostRuntime) -> Result<(), Fail> {
    let alloc = rt.alloc();
    let fault = Status::ReadFault;
    let half = "s recv {\"method\":\"upd";
    let long = padded_update(alloc, 5_000)?;
    let one = [CONFIG, RUN, ONE];
    let two = [CONFIG, RUN, ONE, RUN, TWO];
    let whole = [CONFIG, RUN, ONE, OVER];
    assert!(rt; fault_leaves(alloc, &[INIT, half], 1, fault, &[])?);
    assert!(rt; fault_leaves(alloc, &[INIT, half], 2, fault, &one)?);
    assert!(rt; fault_leaves(alloc, &[INIT, UPDATE, half], 2, fault, &two)?);
    assert!(rt; fault_leaves(alloc, &[INIT, long.as_str(), "\n"], 2, fault, &one)?);
    assert!(rt; fault_leaves(alloc, &[INIT_CUT], 2, fault, &[])?);
    assert!(rt; fault_leaves(alloc, &[INIT_CUT], 3, Status::Done, &whole)?);
    assert!(rt; fault_leaves(alloc, &[INIT], 3, Status::Done, &whole)?);
    Ok(())
}

/// An init, and so many updates that change nothing.
fn init_and_updates(alloc: Global, updates: usize) -> Result<String, AllocError> {
    let mut lines = String::from_str(alloc, INIT)?;
    for _ in 0..updates {
        lines.push_str(EQUAL)?;
    }
    Ok(lines)
}

#[test]
fn at_most_200_lines_are_taken(rt: HostRuntime) -> Result<(), Fail> {
    let alloc = rt.alloc();
    let most = init_and_updates(alloc, 199)?;
    let ran = replays(alloc, COUNTER, &[most.as_str()], &NONE_FAILS)?;
    assert_eq!(rt; ran.status, Status::Done);
    let output = joined(alloc, &[CONFIG, RUN, ONE, OVER])?;
    assert_eq!(rt; ran.output.as_slice(), output.as_slice());
    let output = joined(alloc, &[CONFIG, RUN, ONE])?;
    for line in [UPDATE, EQUAL, "\n"] {
        let mut more = init_and_updates(alloc, 199)?;
        more.push_str(line)?;
        let ran = replays(alloc, COUNTER, &[more.as_str()], &NONE_FAILS)?;
        assert_eq!(rt; ran.status, Status::LineRefused, "{line:?}");
        assert_eq!(rt; ran.output.as_slice(), output.as_slice(), "{line:?}");
    }
    Ok(())
}

/// An update in a line of 41 bytes and so many spaces.
fn padded_update(alloc: Global, spaces: usize) -> Result<String, AllocError> {
    let mut line = String::from_str(alloc, "s recv {\"method\":\"update\",\"data\":{\"n\":2}")?;
    for _ in 0..spaces {
        line.push(' ')?;
    }
    line.push('}')?;
    Ok(line)
}

/// A client message has at most 65,536 bytes, and a line at most 70,000.
#[test]
fn long_lines_are_refused(rt: HostRuntime) -> Result<(), Fail> {
    let alloc = rt.alloc();
    let longest = padded_update(alloc, 65_502)?;
    let ran = replays(alloc, COUNTER, &[INIT, longest.as_str()], &NONE_FAILS)?;
    assert_eq!(rt; ran.status, Status::Done);
    let output = joined(alloc, &[CONFIG, RUN, ONE, RUN, TWO, OVER])?;
    assert_eq!(rt; ran.output.as_slice(), output.as_slice());
    let output = joined(alloc, &[CONFIG, RUN, ONE])?;
    for spaces in [65_503, 69_959, 69_960] {
        let line = padded_update(alloc, spaces)?;
        let ran = replays(
            alloc,
            COUNTER,
            &[INIT, line.as_str(), "\n", UPDATE],
            &NONE_FAILS,
        )?;
        assert_eq!(rt; ran.status, Status::LineRefused, "{spaces}");
        assert_eq!(rt; ran.output.as_slice(), output.as_slice(), "{spaces}");
    }
    Ok(())
}

#[test]
fn lines_that_are_not_utf8_are_refused(rt: HostRuntime) -> Result<(), Fail> {
    let alloc = rt.alloc();
    let words = two_words(alloc, "replay", "f")?;
    let output = joined(alloc, &[CONFIG, RUN, ONE])?;
    let lines: [&[u8]; 3] = [
        b"\xff\n",
        b"s recv {\"method\":\"update\",\"data\":{\"n\":2}}\xc3\n",
        b"s recv {\"method\":\"update\",\"data\":{\"\xed\xa0\x80\":2}}\n",
    ];
    for line in lines {
        let mut transcript = joined(alloc, &[INIT])?;
        transcript.extend(line)?;
        let ran = run_on(alloc, words.as_slice(), COUNTER, transcript, &NONE_FAILS)?;
        assert_eq!(rt; ran.status, Status::LineRefused, "{line:?}");
        assert_eq!(rt; ran.output.as_slice(), output.as_slice(), "{line:?}");
    }
    Ok(())
}

/// An app file has at most 262,144 bytes.
#[test]
fn long_files_are_refused(rt: HostRuntime) -> Result<(), Fail> {
    let alloc = rt.alloc();
    let mut app = String::from_str(alloc, "input n = 1;")?;
    for _ in 0..262_132 {
        app.push(' ')?;
    }
    let ran = replays(alloc, app.as_str(), &[], &NONE_FAILS)?;
    assert_eq!(rt; ran.status, Status::Done);
    app.push(' ')?;
    let ran = replays(alloc, app.as_str(), &[], &NONE_FAILS)?;
    assert_eq!(rt; ran.status, Status::AppRefused);
    assert_eq!(rt;
        ran.note.as_slice(),
        "app refused: TooLong at 262144\n".as_bytes()
    );
    assert_eq!(rt; ran.output.len(), 0);
    Ok(())
}
