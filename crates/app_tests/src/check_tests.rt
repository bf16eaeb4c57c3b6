use crate::files::{Case, Repeated, Stage, compare, compare_repeated, reply};
use app_check::load;
use std::alloc::{AllocError, Global};
use std::test::Fail;

const BYTES_AND_TOKENS: [Case; 40] = [
    // bytes that are no UTF-8, as the first, a middle and the last byte, and in a comment
    (b"\xffinput a = 1;", "BadByte at 0"),
    (b"input a\xff = 1;", "BadByte at 7"),
    (b"input a = 1;\xff", "BadByte at 12"),
    (b"# \xc3", "BadByte at 2"),
    (b"\xef\xbb\xbfinput a = 1;", "BadByte at 0"),
    (b"# \xc3\xa9", "accepted"),
    // numbers
    (b"input a = 9223372036854775807;", "accepted"),
    (b"input a = 9223372036854775808;", "BadByte at 10"),
    (b"input a = 0009223372036854775807;", "accepted"),
    (b"input a = -9223372036854775807;", "accepted"),
    (b"input a = -9223372036854775808;", "BadByte at 11"),
    (b"input a = 1a;", "Unexpected at 11"),
    // texts
    (b"input a = \"x\\\"\\\\\\n\";", "accepted"),
    (b"input a = \"\\t\";", "BadByte at 11"),
    (b"input a = \"x\ny\";", "BadByte at 12"),
    (b"input a = \"\x1f\";", "BadByte at 11"),
    (b"input a = \" \";", "accepted"),
    (b"input a = \"abc", "OpenText at 10"),
    (b"input a = \"abc\\", "OpenText at 10"),
    (b"input a = \"ab\xff", "BadByte at 13"),
    // symbols
    (b"input a @ 1;", "BadByte at 8"),
    (b"text o { 1 % 2 }", "BadByte at 11"),
    (b"text o { 1 & 2 }", "BadByte at 11"),
    (b"text o { 1 | 2 }", "BadByte at 11"),
    (b"text o { 1 %% 2 %/% 3 }", "accepted"),
    (b"text o { TRUE && FALSE || TRUE }", "accepted"),
    (b"text o { 1 <= 2 }", "accepted"),
    (b"text o { !TRUE != FALSE }", "accepted"),
    // words
    (b"input text = 1;", "Unexpected at 6"),
    (b"input c = 1;", "Unexpected at 6"),
    (b"input freeze = 1;", "Unexpected at 6"),
    (b"input whileHidden = 1;", "Unexpected at 6"),
    (b"input texts = 1;", "accepted"),
    (b"input a_1 = 1;", "accepted"),
    (b"input _a = 1;", "BadByte at 6"),
    // the first refusal of the tokens comes before that of the grammar, and that before the checks
    (b"input a 1; @", "BadByte at 11"),
    (b"text o { x } text", "Unexpected at 17"),
    (b"text o { x } text p { 1 }", "NameUnknown x at 9"),
    (b"", "accepted"),
    (b" \t\r\n# input n = 1;\n#", "accepted"),
];

const GRAMMAR: [Case; 32] = [
    (b"budget 0;", "Unexpected at 7"),
    (b"budget 1;", "accepted"),
    (b"budget 1000000;", "accepted"),
    (b"budget 1000001;", "Unexpected at 7"),
    (b"budget 5", "Unexpected at 8"),
    (b"input a 1;", "Unexpected at 8"),
    (b"input a = 1", "Unexpected at 11"),
    (b"input a = c();", "accepted"),
    (b"input a = c(1,);", "Unexpected at 14"),
    (b"text o { nchar(1, 2) }", "Unexpected at 16"),
    (b"text o { item(1) }", "Unexpected at 15"),
    (b"text o { length() }", "Unexpected at 16"),
    (b"text o { paste0(c()) }", "accepted"),
    (b"text o { 1 < 2 < 3 }", "Unexpected at 15"),
    (b"text o { (1 < 2) == TRUE }", "accepted"),
    (b"text o { -1 }", "accepted"),
    (b"text o { 1 + if (TRUE) 1 else 2 }", "Unexpected at 13"),
    (b"text o { if (TRUE) 1 else 2 }", "accepted"),
    (b"text o { if (TRUE) 1 }", "Unexpected at 21"),
    (b"observe w priority -2 { }", "accepted"),
    (b"observe w priority { }", "Unexpected at 19"),
    (
        b"event e allowNull ignoreInit (1) { 2 }",
        "Unexpected at 18",
    ),
    (b"event e ignoreInit allowNull (1) { 2 }", "accepted"),
    (b"text o whileHidden { 1 }", "accepted"),
    (b"text o priority 1 whileHidden cache (1) { 1 }", "accepted"),
    (b"text o whileHidden priority 1 { 1 }", "Unexpected at 19"),
    (b"reactive e whileHidden { 1 }", "Unexpected at 11"),
    (b"input a = 1;\nobserve w { freeze a; }", "accepted"),
    (b"observe w { freeze 1; }", "Unexpected at 19"),
    (b"observe w { freeze a = 1; }", "Unexpected at 21"),
    (b"observe w { if (TRUE) { } else { } }", "accepted"),
    (b"observe w { if (TRUE) do 1; }", "Unexpected at 22"),
];

const CHECKS: [Case; 53] = [
    (b"input a = 1;\ninput a = 2;", "NameTwice a at 19"),
    (b"input a = 1;\ntext a { 1 }", "NameTwice a at 18"),
    (b"input a = 1;\ninput b = 2;", "accepted"),
    (b"task t(x, x) { 1 }", "NameTwice x at 10"),
    (b"task t(x, t) { x }", "accepted"),
    (b"text o { fold(c(1), 0, a, a, a) }", "NameTwice a at 26"),
    (b"task t(a) { fold(c(1), 0, a, b, a) }", "accepted"),
    (b"text o { input$b }", "NameUnknown b at 15"),
    (b"text o { b() }", "NameUnknown b at 9"),
    (b"text o { x }", "NameUnknown x at 9"),
    (b"input a = 1;\ntext o { a() }", "NameUnknown a at 22"),
    (b"value a = 1;\ntext o { a() }", "accepted"),
    (b"text o { input$a }\ninput a = 1;", "accepted"),
    (
        b"reactive e { 1 }\ntext o { status(e) }",
        "NameUnknown e at 33",
    ),
    (
        b"task t() { 1 }\ntext o { paste0(status(t), result(t)) }",
        "accepted",
    ),
    (b"input a = 1;\ntext o { width(a) }", "NameUnknown a at 28"),
    (b"plot o { 1 }\ntext p { width(o) + height(p) }", "accepted"),
    (b"observe w { set v = 1; }", "NameUnknown v at 16"),
    (
        b"value v = 1;\nobserve w { update v = 1; }",
        "NameUnknown v at 32",
    ),
    (
        b"value a = 1;\nobserve w { freeze a; }",
        "NameUnknown a at 32",
    ),
    (
        b"text o { if (TRUE) 1 else input$b }",
        "NameUnknown b at 32",
    ),
    (
        b"text o { if (TRUE) input$a else input$b }",
        "NameUnknown a at 25",
    ),
    (
        b"observe w { if (TRUE) { do 1; } else { do x; } }",
        "NameUnknown x at 42",
    ),
    (
        b"text o { fold(c(1), 0, a, b, a) + a }",
        "NameUnknown a at 34",
    ),
    (b"text o { fold(c(1), a, a, b, a) }", "NameUnknown a at 20"),
    (
        b"task t(x) { x }\nobserve w { invoke t(); }",
        "ArgCount t at 35",
    ),
    (
        b"task t() { 1 }\nobserve w { invoke t(1); }",
        "ArgCount t at 34",
    ),
    (
        b"task t(x, y) { x }\nobserve w { invoke t(1, 2); }",
        "accepted",
    ),
    (b"input a = 1;\ntask t() { input$a }", "ReadInTask at 24"),
    (b"task t() { isolate(1) }", "ReadInTask at 11"),
    (b"reactive e { 1 }\ntask t() { e() }", "ReadInTask at 28"),
    (b"task t() { e() }", "NameUnknown e at 11"),
    (b"task t() { input$e }", "ReadInTask at 11"),
    (
        b"reactive a { b() }\nreactive b { 1 }",
        "ForwardRead b at 13",
    ),
    (b"reactive a { a() }", "ForwardRead a at 13"),
    (
        b"event a (b()) { 1 }\nreactive b { 1 }",
        "ForwardRead b at 9",
    ),
    (
        b"reactive a cache (b()) { 1 }\nevent b (1) { 1 }",
        "ForwardRead b at 18",
    ),
    (b"reactive a { 1 }\nreactive b { a() }", "accepted"),
    (b"text o { e() }\nreactive e { 1 }", "accepted"),
    (b"reactive e { v() }\nvalue v = 1;", "accepted"),
    (
        b"text o { fold(c(1), 0, a, x, isolate(1)) }",
        "IsolateInFold at 29",
    ),
    (
        b"text o { fold(c(1), 0, a, x, fold(isolate(c(1)), 0, b, y, b)) }",
        "IsolateInFold at 34",
    ),
    (
        b"text o { fold(isolate(c(1)), isolate(0), a, x, a) }",
        "accepted",
    ),
    (
        b"task t() { fold(c(1), 0, a, x, isolate(1)) }",
        "ReadInTask at 31",
    ),
    (
        b"value v = 0;\nreactive e { set v = 1; 2 }",
        "WriteInExpr at 26",
    ),
    (
        b"value v = 0;\ntext o { set v = 1; 2 }",
        "WriteInExpr at 22",
    ),
    (
        b"input a = 1;\nreactive e { freeze a; 1 }",
        "WriteInExpr at 26",
    ),
    (b"value v = 0;\nobserve w { set v = 1; }", "accepted"),
    (
        b"text o { fold(c(), 0, a, x, fold(c(), 0, a, x, fold(c(), 0, a, x, a))) }",
        "FoldTooDeep at 47",
    ),
    (
        b"text o { fold(c(), 0, a, x, fold(c(), 0, a, x, a)) }",
        "accepted",
    ),
    (
        b"text o { fold(c(), 0, a, x, fold(fold(c(), 0, a, x, c()), 0, a, x, a)) }",
        "accepted",
    ),
    (
        b"input a = 1;\ninput a = 2;\ntext o { b }",
        "NameTwice a at 19",
    ),
    (
        b"text o { b }\ninput a = 1;\ninput a = 2;",
        "NameUnknown b at 9",
    ),
];

/// Files with cached readers.
const CACHED_READERS: [Case; 20] = [
    // a part that isn't taken counts
    (
        b"input a = TRUE;\ninput b = 1;\ninput d = 2;\ntext o cache (input$a, input$b) { if (input$a) input$b else input$d }",
        "Uncovered o input$d at 47",
    ),
    // an expression as a key, and one whose reads are keys
    (
        b"input a = TRUE;\ninput b = 1;\ninput d = 2;\nreactive e { input$b + input$d }\ntext o cache (e()) { e() * 2 }",
        "accepted",
    ),
    (
        b"input a = TRUE;\ninput b = 1;\ninput d = 2;\nreactive e { input$b + input$d }\ntext o cache (input$b, input$d) { e() }",
        "accepted",
    ),
    (
        b"input a = TRUE;\ninput b = 1;\ninput d = 2;\nreactive e { input$b + input$d }\ntext o cache (e()) { input$b }",
        "Uncovered o input$b at 80",
    ),
    (
        b"input a = TRUE;\ninput b = 1;\ninput d = 2;\nreactive e { input$b + input$d }\ntext o cache (input$b) { e() }",
        "Uncovered o input$d at 80",
    ),
    // isolates and events
    (
        b"input b = 1;\ntext o cache (input$b) { isolate(input$b) }",
        "IsolateInCached o at 18",
    ),
    (
        b"input b = 1;\ntext o cache (isolate(input$b)) { 1 }",
        "accepted",
    ),
    (
        b"input b = 1;\nreactive e { isolate(input$b) }\ntext o cache (input$b) { e() }",
        "IsolateInCached o at 50",
    ),
    (
        b"input b = 1;\nevent e (input$b) { 1 }\ntext o cache (input$b) { e() }",
        "IsolateInCached o at 42",
    ),
    (
        b"input b = 1;\nevent e (input$b) { 1 }\ntext o cache (1) { e() }",
        "Uncovered o input$b at 42",
    ),
    (
        b"input b = 1;\nevent e (input$b) { 1 }\ntext o cache (e()) { e() }",
        "accepted",
    ),
    // the keys of an expression are read before its body
    (
        b"input a = 1;\ninput b = 1;\nreactive e cache (input$a, input$b) { input$b }\ntext o cache (input$b) { e() }",
        "Uncovered o input$a at 79",
    ),
    // a key in brackets is none, and what a key reads is not covered
    (
        b"input b = 1;\ntext o cache ((input$b)) { input$b }",
        "Uncovered o input$b at 18",
    ),
    (
        b"input b = 1;\ntext o cache (input$b + 1) { input$b }",
        "Uncovered o input$b at 18",
    ),
    // how each read is spelled
    (
        b"value v = 1;\ntext o cache (1) { v() }",
        "Uncovered o v() at 18",
    ),
    (
        b"task t() { 1 }\ntext o cache (1) { c(status(t), result(t)) }",
        "Uncovered o status(t) at 20",
    ),
    (
        b"task t() { 1 }\nplot p cache (status(t)) { result(t) }",
        "Uncovered p result(t) at 20",
    ),
    (
        b"plot p cache (width(p)) { bars(width(p), height(p), \"\", c()) }",
        "Uncovered p height(p) at 5",
    ),
    // by number among the readers, behind all other checks
    (
        b"input a = 1;\ntext o cache (1) { input$a }\ntext q cache (1) { isolate(1) }",
        "Uncovered o input$a at 18",
    ),
    (
        b"input a = 1;\ntext o cache (1) { input$a }\ntext q { x }",
        "NameUnknown x at 51",
    ),
];

#[test]
fn refuses_cached_readers_that_are_not_covered(rt: HostRuntime) -> Result<(), Fail> {
    compare(&rt, rt.alloc(), Stage::App, &CACHED_READERS)?;
    Ok(())
}

#[test]
fn refuses_at_the_first_place_of_each_step(rt: HostRuntime) -> Result<(), Fail> {
    compare(&rt, rt.alloc(), Stage::App, &BYTES_AND_TOKENS)?;
    compare(&rt, rt.alloc(), Stage::App, &GRAMMAR)?;
    compare(&rt, rt.alloc(), Stage::App, &CHECKS)?;
    Ok(())
}

const LIMITS: [Repeated; 15] = [
    ("", " ", 262_144, "", "", "", "accepted"),
    ("", " ", 262_145, "", "", "", "TooLong at 262144"),
    ("", "\u{ff}", 131_073, "", "", "", "TooLong at 262144"),
    ("input a = \"", "x", 65_536, "\";", "", "", "accepted"),
    ("input a = \"", "x", 65_537, "\";", "", "", "BadByte at 10"),
    ("input a = c(", "1,", 999, "1);", "", "", "accepted"),
    (
        "input a = c(",
        "1,",
        1_000,
        "1);",
        "",
        "",
        "Unexpected at 2012",
    ),
    ("text o { ", "!", 63, "TRUE }", "", "", "accepted"),
    ("text o { ", "!", 64, "TRUE }", "", "", "TooDeep at 73"),
    ("text o { ", "(", 64, "1 }", "", "", "TooDeep at 73"),
    ("text o { ", "(", 63, "1 }", "", "", "Unexpected at 74"),
    ("text o { 1", " + 1", 64, " }", "", "", "accepted"),
    ("text o { 1", " + 1", 65, " }", "", "", "TooDeep at 267"),
    (
        "observe w { ",
        "if (TRUE) { ",
        63,
        "}",
        "",
        "",
        "Unexpected at 769",
    ),
    (
        "observe w { ",
        "if (TRUE) { ",
        64,
        "}",
        "",
        "",
        "TooDeep at 778",
    ),
];

/// So many inputs, each on a line of 16 bytes.
fn inputs(alloc: Global, count: usize) -> Result<String, AllocError> {
    let mut file = String::new(alloc);
    for number in 0..count {
        let item = format!(in alloc; "input n{number:03} = 1;\n")?;
        file.push_str(item.as_str())?;
    }
    Ok(file)
}

#[test]
fn limits_are_met_and_passed(rt: HostRuntime) -> Result<(), Fail> {
    let alloc = rt.alloc();
    compare_repeated(&rt, alloc, Stage::App, &LIMITS)?;
    for (count, want) in [(500, "accepted"), (501, "TooManyItems at 8000")] {
        let file = inputs(alloc, count)?;
        let got = reply(alloc, Stage::App, file.as_bytes())?;
        assert_eq!(rt; got.as_str(), want);
    }
    Ok(())
}

#[test]
fn takes_every_form(rt: HostRuntime) -> Result<(), Fail> {
    let file = "budget 20;
input n = 3; input s = \"a\\n\"; input l = c(1, -2); input b = TRUE; input z = NULL; input m = -4;
value v = 0;
task t(x, y) { fold(c(x, y), 0, sum_, k, sum_ + k) }
reactive e cache (input$n, v()) { input$n + v() }
event g ignoreInit allowNull (e()) { isolate(e()) %% 7 %/% 2 }
text o priority -3 whileHidden cache (e(), g(), status(t), input$b) { paste0(e(), g(), status(t), if (input$b) 1 else stop(\"no\")) }
plot p { bars(width(p), height(p), \"title\", seq(1, input$n)) }
observe w priority 2 {
  set v = req(e(), cancelOutput); invoke t(1, min(input$l)); update n = max(input$l); freeze n;
  do nchar(input$s) == 2 && !is_null(input$z) || as_int(\"1\") >= -1;
  if (req(input$b)) { do item(input$l, 1) * 2 - 1; } else { do length(result(t)) != (1 < 2); }
}
on u priority 1 allowNull (input$n) { if (TRUE) { } }
";
    let app = load(rt.alloc(), file.as_bytes())?;
    assert_eq!(rt; app.budget(), 20);
    let names = [
        "n", "s", "l", "b", "z", "m", "v", "t", "e", "g", "o", "p", "w", "u",
    ];
    assert_eq!(rt; app.items().len(), names.len());
    for (item, name) in app.items().as_slice().iter().zip(names.iter()) {
        assert_eq!(rt; item.name().as_str(), *name);
    }
    Ok(())
}
