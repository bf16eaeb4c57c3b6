//! Worked examples: each production, each refusal's place, and each limit from both sides.

use crate::files::{Case, Repeated, Stage, compare, compare_repeated};
use app_reader::read;
use app_tokens::tokens;
use app_tree::DraftForm;
use std::alloc::Global;
use std::test::Fail;

/// Each production of items, statements and terms.
const ACCEPTED: [Case; 26] = [
    (b"", "ok"),
    (b"budget 1;", "ok"),
    (b"budget 1000000; input a = 1;", "ok"),
    (
        b"input a = -9223372036854775807; input b = 9223372036854775807;",
        "ok",
    ),
    (
        b"input a = \"x\"; value b = TRUE; value c1 = FALSE; value d = NULL;",
        "ok",
    ),
    (b"value a = c(); value b = c(1, -2);", "ok"),
    (b"task t () { 1 } task u (x, y) { x + y }", "ok"),
    (
        b"reactive r { 1 } reactive s cache (input$a, (r())) { 2 }",
        "ok",
    ),
    (
        b"event e (1) { 2 } event f ignoreInit allowNull (1) { 2 }",
        "ok",
    ),
    (
        b"event e allowNull (1) { 2 } event f ignoreInit (1) { 2 }",
        "ok",
    ),
    (
        b"text o { 1 } text p priority -3 whileHidden cache (1) { 2 }",
        "ok",
    ),
    (b"plot o whileHidden { bars(1, 2, 3, 4) }", "ok"),
    (b"observe w { } observe x priority 2 { do 1; }", "ok"),
    (
        b"on w (1) { } on x priority 0 ignoreInit allowNull (1) { do 1; }",
        "ok",
    ),
    (
        b"observe w { set a = 1; invoke t(); invoke t(1, 2); update i = 2; freeze i; }",
        "ok",
    ),
    (
        b"observe w { if (1) { do 1; } if (2) { } else { if (3) { } else { } } }",
        "ok",
    ),
    (
        b"text o { set a = 1; invoke t(); update i = 2; freeze i; 3 }",
        "ok",
    ),
    (b"text o { if (1) 2 else if (3) 4 else 5 + 6 }", "ok"),
    (
        b"text o { 1 || 2 && 3 == 4 + 5 - 6 * 7 %/% 8 %% - ! 9 }",
        "ok",
    ),
    (
        b"text o { (1 < 2) == (1 <= 2) } text p { 1 > 2 } text q { 1 >= 2 } text r { 1 != 2 }",
        "ok",
    ),
    (
        b"text o { \"x\" } text p { TRUE } text q { FALSE } text r { NULL }",
        "ok",
    ),
    (b"text o { input$a } text p { r() } text q { x }", "ok"),
    (
        b"text o { result(t) } text p { status(t) } text q { width(o) } text r { height(o) }",
        "ok",
    ),
    (
        b"text o { isolate(1) } text p { stop(1) } text q { req(1) } text r { req(1, cancelOutput) }",
        "ok",
    ),
    (b"text o { fold(c(1, 2), 0, a, x, a + x) }", "ok"),
    (
        b"text o { c() } text p { paste0() } text q { c(1) } text r { paste0(1, 2, 3) }",
        "ok",
    ),
];

/// Each function with its number of arguments, and with one less or one more.
const ARGUMENTS: [Case; 24] = [
    (
        b"text o { length(1) + nchar(1) + sum(1) + min(1) + max(1) }",
        "ok",
    ),
    (
        b"text o { is_null(1) + as_int(1) + item(1, 2) + seq(1, 2) }",
        "ok",
    ),
    (
        b"plot o { lines(1, 2, 3, 4) } plot p { points(1, 2, 3, 4) }",
        "ok",
    ),
    (b"text o { length() }", "Unexpected(16)"),
    (b"text o { length(1, 2) }", "Unexpected(17)"),
    (b"text o { nchar() }", "Unexpected(15)"),
    (b"text o { nchar(1, 2) }", "Unexpected(16)"),
    (b"text o { sum() }", "Unexpected(13)"),
    (b"text o { sum(1, 2) }", "Unexpected(14)"),
    (b"text o { min(1, 2) }", "Unexpected(14)"),
    (b"text o { max(1, 2) }", "Unexpected(14)"),
    (b"text o { is_null(1, 2) }", "Unexpected(18)"),
    (b"text o { as_int(1, 2) }", "Unexpected(17)"),
    (b"text o { item(1) }", "Unexpected(15)"),
    (b"text o { item(1, 2, 3) }", "Unexpected(18)"),
    (b"text o { seq(1) }", "Unexpected(14)"),
    (b"text o { seq(1, 2, 3) }", "Unexpected(17)"),
    (b"text o { bars(1, 2, 3) }", "Unexpected(21)"),
    (b"text o { bars(1, 2, 3, 4, 5) }", "Unexpected(24)"),
    (b"text o { lines(1, 2, 3) }", "Unexpected(22)"),
    (b"text o { points(1, 2, 3) }", "Unexpected(23)"),
    (b"text o { c(1, ) }", "Unexpected(14)"),
    (b"text o { paste0(, 1) }", "Unexpected(16)"),
    (b"text o { stop() }", "Unexpected(14)"),
];

/// The end of the text in the middle of each item, and tokens where none like them may stand.
const REFUSED: [Case; 60] = [
    (b"input a 1;", "Unexpected(8)"),
    (b"input", "Unexpected(5)"),
    (b"input a", "Unexpected(7)"),
    (b"input a =", "Unexpected(9)"),
    (b"input a = -", "Unexpected(11)"),
    (b"input a = - -1;", "Unexpected(12)"),
    (b"input a = b;", "Unexpected(10)"),
    (b"input a = 1", "Unexpected(11)"),
    (b"value a = c", "Unexpected(11)"),
    (b"value a = c(", "Unexpected(12)"),
    (b"value a = c(1", "Unexpected(13)"),
    (b"value a = c(1,)", "Unexpected(14)"),
    (b"value a = c(TRUE);", "Unexpected(12)"),
    (b"task t", "Unexpected(6)"),
    (b"task t (1", "Unexpected(8)"),
    (b"task t (x,)", "Unexpected(10)"),
    (b"task t (x) { set a = 1; 2 }", "Unexpected(13)"),
    (b"task t () { 1", "Unexpected(13)"),
    (b"reactive r cache () { 1 }", "Unexpected(18)"),
    (b"reactive r priority 1 { 1 }", "Unexpected(11)"),
    (b"reactive r {", "Unexpected(12)"),
    (b"reactive r { }", "Unexpected(13)"),
    (b"reactive r { 1 2 }", "Unexpected(15)"),
    (b"event e allowNull ignoreInit (1) { 2 }", "Unexpected(18)"),
    (b"event e 1", "Unexpected(8)"),
    (b"event e (1)", "Unexpected(11)"),
    (b"text o whileHidden priority 1 { 2 }", "Unexpected(19)"),
    (b"text o cache (1) whileHidden { 2 }", "Unexpected(17)"),
    (b"text o priority { 2 }", "Unexpected(16)"),
    (b"text o { 1; }", "Unexpected(10)"),
    (b"text o { do 1; 2 }", "Unexpected(9)"),
    (b"plot o ( 1 )", "Unexpected(7)"),
    (b"observe w whileHidden { }", "Unexpected(10)"),
    (b"observe w { 1 }", "Unexpected(12)"),
    (b"observe w { set a 1; }", "Unexpected(18)"),
    (b"observe w { set a = 1 }", "Unexpected(22)"),
    (b"observe w { invoke t; }", "Unexpected(20)"),
    (b"observe w { invoke t(1 2); }", "Unexpected(23)"),
    (b"observe w { update 1 = 1; }", "Unexpected(19)"),
    (b"observe w { freeze i = 1; }", "Unexpected(21)"),
    (b"observe w { do 1 }", "Unexpected(17)"),
    (b"observe w { if (1) do 2; }", "Unexpected(19)"),
    (b"observe w { if (1) { } else 2 }", "Unexpected(28)"),
    (b"observe w { else { } }", "Unexpected(12)"),
    (b"observe w {", "Unexpected(11)"),
    (b"on w { }", "Unexpected(5)"),
    (b"on w (1) ignoreInit { }", "Unexpected(9)"),
    (b"observe w { } budget 5;", "Unexpected(14)"),
    (b"budget 0;", "Unexpected(7)"),
    (b"budget 1000001;", "Unexpected(7)"),
    (b"budget 0", "Unexpected(7)"),
    (b"budget -1;", "Unexpected(7)"),
    (b"budget 5", "Unexpected(8)"),
    (b"1", "Unexpected(0)"),
    (b"input input = 1;", "Unexpected(6)"),
    (b"input freeze = 1;", "Unexpected(6)"),
    (b"text whileHidden { 1 }", "Unexpected(5)"),
    (b"task t (x, c) { 1 }", "Unexpected(11)"),
    (b"observe w { set value = 1; }", "Unexpected(16)"),
    (b"input a = 1; input", "Unexpected(18)"),
];

/// Refusals inside terms.
const TERMS_REFUSED: [Case; 20] = [
    (b"text o { 1 < 2 < 3 }", "Unexpected(15)"),
    (b"text o { 1 == 2 != 3 }", "Unexpected(16)"),
    (b"text o { 1 + }", "Unexpected(13)"),
    (b"text o { 1 + if (1) 2 else 3 }", "Unexpected(13)"),
    (b"text o { -if (1) 2 else 3 }", "Unexpected(10)"),
    (b"text o { (1 }", "Unexpected(12)"),
    (b"text o { if 1 }", "Unexpected(12)"),
    (b"text o { if (1) 2 }", "Unexpected(18)"),
    (b"text o { input.a }", "BadByte(14)"),
    (b"text o { input a }", "Unexpected(15)"),
    (b"text o { input$input }", "Unexpected(15)"),
    (b"text o { x(1) }", "Unexpected(11)"),
    (b"text o { x(", "Unexpected(11)"),
    (b"text o { result(1) }", "Unexpected(16)"),
    (b"text o { status(t, u) }", "Unexpected(17)"),
    (b"text o { req(1, 2) }", "Unexpected(16)"),
    (b"text o { req(1, cancelOutput, 2) }", "Unexpected(28)"),
    (b"text o { fold(1, 2, a, 3, 4) }", "Unexpected(23)"),
    (b"text o { fold(1, 2, a, x) }", "Unexpected(24)"),
    (b"text o { isolate(1, 2) }", "Unexpected(18)"),
];

#[test]
fn each_production_is_accepted_or_refused_at_its_place(rt: HostRuntime) -> Result<(), Fail> {
    compare(&rt, rt.alloc(), Stage::Draft, &ACCEPTED)?;
    compare(&rt, rt.alloc(), Stage::Draft, &ARGUMENTS)?;
    compare(&rt, rt.alloc(), Stage::Draft, &REFUSED)?;
    compare(&rt, rt.alloc(), Stage::Draft, &TERMS_REFUSED)?;
    Ok(())
}

/// A term has its place up to level 64.
const TERM_LEVELS: [Repeated; 17] = [
    ("text o { ", "(", 63, "1", ")", " }", "ok"),
    ("text o { ", "(", 64, "1", ")", " }", "TooDeep(73)"),
    ("text o { ", "(", 64, "", "", "", "TooDeep(73)"),
    ("text o { ", "-", 63, "1", "", " }", "ok"),
    ("text o { ", "!", 64, "1", "", " }", "TooDeep(73)"),
    ("text o { ", "isolate(", 63, "1", ")", " }", "ok"),
    ("text o { ", "isolate(", 64, "1", ")", " }", "TooDeep(521)"),
    ("text o { ", "if (", 63, "1", ") 2 else 3", " }", "ok"),
    (
        "text o { ",
        "if (",
        64,
        "1",
        ") 2 else 3",
        " }",
        "TooDeep(265)",
    ),
    ("text o { ", "if (1) 2 else ", 63, "1", "", " }", "ok"),
    (
        "text o { ",
        "if (1) 2 else ",
        64,
        "1",
        "",
        " }",
        "TooDeep(895)",
    ),
    ("text o { ", "length(", 63, "1", ")", " }", "ok"),
    ("text o { ", "length(", 64, "", ")", " }", "TooDeep(457)"),
    ("text o { ", "c(", 64, "", ")", " }", "ok"),
    ("text o { ", "c(", 64, "1", ")", " }", "TooDeep(137)"),
    ("text o { ", "paste0(1, ", 63, "paste0()", ")", " }", "ok"),
    ("on w (", "(", 63, "x()", ")", ") { }", "ok"),
];

/// A block has its place up to level 64, and each whole term of a statement is at level 1.
const BLOCK_LEVELS: [Repeated; 5] = [
    ("observe w {", "if(1){", 63, "do 1;", "}", "}", "ok"),
    ("observe w {", "if(1){", 64, "", "}", "}", "TooDeep(394)"),
    (
        "observe w {",
        "if((1)){",
        63,
        "invoke t((1));",
        "}",
        "}",
        "ok",
    ),
    (
        "observe w {",
        "if(1){}else{",
        63,
        "set a=(1);",
        "}",
        "}",
        "ok",
    ),
    (
        "observe w {",
        "if(1){}else ",
        64,
        "",
        "",
        "",
        "Unexpected(23)",
    ),
];

/// A term has 64 operators at most, outside its brackets.
const OPERATORS: [Repeated; 7] = [
    ("text o { 1", " + 1", 64, "", "", " }", "ok"),
    ("text o { 1", " + 1", 65, "", "", " }", "TooDeep(267)"),
    ("text o { 1", "*1", 32, " < 1", "+1", " }", "TooDeep(140)"),
    ("text o { 1", "*1", 32, "", "+1", " }", "ok"),
    (
        "text o { 1",
        "||1",
        32,
        " && 1",
        "%%1",
        " }",
        "TooDeep(204)",
    ),
    ("text o { (1", " + 1", 64, ")", "-1", " }", "ok"),
    (
        "text o { if (1) 1",
        " - 1",
        64,
        " else 1",
        " + 1",
        " }",
        "ok",
    ),
];

/// A list of constants has 1,000 numbers at most.
const NUMBERS: [Repeated; 4] = [
    ("input a = c(1", ", 1", 999, "", "", ");", "ok"),
    (
        "input a = c(1",
        ", 1",
        1000,
        "",
        "",
        ");",
        "Unexpected(3012)",
    ),
    (
        "input a = c(1",
        ",-1",
        1000,
        "",
        "",
        ");",
        "Unexpected(3012)",
    ),
    ("text o { c(1", ", 1", 1000, "", "", ") }", "ok"),
];

#[test]
fn each_limit_holds_on_both_sides(rt: HostRuntime) -> Result<(), Fail> {
    compare_repeated(&rt, rt.alloc(), Stage::Draft, &TERM_LEVELS)?;
    compare_repeated(&rt, rt.alloc(), Stage::Draft, &BLOCK_LEVELS)?;
    compare_repeated(&rt, rt.alloc(), Stage::Draft, &OPERATORS)?;
    compare_repeated(&rt, rt.alloc(), Stage::Draft, &NUMBERS)?;
    Ok(())
}

/// The first item of a text, which is an output, by its term.
fn term_of(alloc: Global, text: &[u8]) -> Result<String, Fail> {
    let list = tokens(alloc, text)?;
    let draft = read(alloc, &list)?;
    for item in draft.items().as_slice() {
        if let DraftForm::Text(output) = &item.form {
            let shown = format!(in alloc; "{:?}", output.body.term)?;
            return Ok(shown);
        }
    }
    Ok(String::new(alloc))
}

/// Terms, and how they are read.
const TERMS: [Case; 8] = [
    (
        b"text o { 1 + 2 * 3 }",
        "Binary(Strict(Add), Boxed { inner: Int(1) }, Boxed { inner: Binary(Strict(Multiply), Boxed { inner: Int(2) }, Boxed { inner: Int(3) }) })",
    ),
    (
        b"text o { 1 - 2 - 3 }",
        "Binary(Strict(Subtract), Boxed { inner: Binary(Strict(Subtract), Boxed { inner: Int(1) }, Boxed { inner: Int(2) }) }, Boxed { inner: Int(3) })",
    ),
    (
        b"text o { 1 && 2 || 3 }",
        "Binary(Or, Boxed { inner: Binary(And, Boxed { inner: Int(1) }, Boxed { inner: Int(2) }) }, Boxed { inner: Int(3) })",
    ),
    (
        b"text o { 1 < 2 + 3 }",
        "Binary(Strict(Less), Boxed { inner: Int(1) }, Boxed { inner: Binary(Strict(Add), Boxed { inner: Int(2) }, Boxed { inner: Int(3) }) })",
    ),
    (
        b"text o { -1 %/% 2 }",
        "Binary(Strict(Divide), Boxed { inner: Unary(Negate, Boxed { inner: Int(1) }) }, Boxed { inner: Int(2) })",
    ),
    (
        b"text o { input$a }",
        "Read { form: Input, place: 9, name: Name { text: RxText { text: \"a\" }, place: 15 } }",
    ),
    (
        b"text o { isolate(x) }",
        "Isolate(9, Boxed { inner: Variable(Name { text: RxText { text: \"x\" }, place: 17 }) })",
    ),
    (
        b"text o { req((NULL), cancelOutput) }",
        "Require { term: Boxed { inner: Group(Boxed { inner: Null }) }, cancels: true }",
    ),
];

#[test]
fn operators_bind_by_their_ranks(rt: HostRuntime) -> Result<(), Fail> {
    for (text, want) in &TERMS {
        let got = term_of(rt.alloc(), text)?;
        assert_eq!(rt; got.as_str(), *want);
    }
    Ok(())
}

#[test]
fn a_draft_has_its_budget_and_places(rt: HostRuntime) -> Result<(), Fail> {
    let list = tokens(
        rt.alloc(),
        b"budget 7;\ninput a = -0; observe w priority -2 { freeze a; }",
    )?;
    let draft = read(rt.alloc(), &list)?;
    assert_eq!(rt; draft.budget(), 7);
    let shown = format!(in rt.alloc(); "{:?}", draft.items().as_slice())?;
    assert_eq!(rt;
        shown.as_str(),
        "[DraftItem { place: 10, name: Name { text: RxText { text: \"a\" }, place: 16 }, form: Input(Int(0)) }, DraftItem { place: 24, name: Name { text: RxText { text: \"w\" }, place: 32 }, form: Observe { priority: -2, block: Items { items: [Write(DraftWrite { place: 48, action: Freeze(Name { text: RxText { text: \"a\" }, place: 55 }) })] } } }]"
    );
    Ok(())
}

#[test]
fn the_usual_budget_is_1000(rt: HostRuntime) -> Result<(), Fail> {
    let list = tokens(rt.alloc(), b"")?;
    let draft = read(rt.alloc(), &list)?;
    assert_eq!(rt; draft.budget(), 1000);
    Ok(())
}
