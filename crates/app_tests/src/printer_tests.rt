use crate::files::{Stage, reply};
use rx_value::Memory;
use std::alloc::Global;
use std::test::Fail;

/// The canonical text of a file that is taken.
fn printed(alloc: Global, file: &str) -> Result<String, Memory> {
    reply(alloc, Stage::Canonical, file.as_bytes())
}

/// Each file is printed so, and what is printed is printed as itself.
#[test]
fn writes_each_form(rt: HostRuntime) -> Result<(), Fail> {
    let alloc = rt.alloc();
    let rows = [
        ("", "budget 1000;\n"),
        ("budget 1000000;", "budget 1000000;\n"),
        (
            "input a=1; text o priority 0{input$a+1 }",
            "budget 1000;\ninput a = 1;\ntext o { input$a + 1 }\n",
        ),
        (
            "input a=-0;input b=-9223372036854775807;value v=007;value n=NULL;input t=TRUE;value f=FALSE;",
            "budget 1000;\ninput a = 0;\ninput b = -9223372036854775807;\nvalue v = 7;\nvalue n = NULL;\ninput t = TRUE;\nvalue f = FALSE;\n",
        ),
        (
            "input a=c();value v=c(1,-2,-0);input t=\"q\\\"b\\\\l\\n\u{e9}\";",
            "budget 1000;\ninput a = c();\nvalue v = c(1, -2, 0);\ninput t = \"q\\\"b\\\\l\\n\u{e9}\";\n",
        ),
        (
            "task t(){1}task u(x,y){x+y}",
            "budget 1000;\ntask t () { 1 }\ntask u (x, y) { x + y }\n",
        ),
        (
            "input a=1;reactive e cache(input$a,2){input$a}plot p priority -3 whileHidden cache(width(p),height(p),e()){bars(width(p),height(p),\"\",e())}",
            "budget 1000;\ninput a = 1;\nreactive e cache (input$a, 2) { input$a }\nplot p priority -3 whileHidden cache (width(p), height(p), e()) { bars(width(p), height(p), \"\", e()) }\n",
        ),
        (
            "input a=1;event e ignoreInit(input$a){1}event f allowNull(2){e()}event g ignoreInit allowNull(3){f()}event h(4){5}",
            "budget 1000;\ninput a = 1;\nevent e ignoreInit (input$a) { 1 }\nevent f allowNull (2) { e() }\nevent g ignoreInit allowNull (3) { f() }\nevent h (4) { 5 }\n",
        ),
        (
            "input i=1;value v=0;task t(x){x}observe w priority 2{}on z priority -1 allowNull(input$i){set v=1;invoke t(2);update i=3;freeze i;do 4;if(TRUE){}if(v()){do 5;}else{do 6;do 7;}}",
            "budget 1000;\ninput i = 1;\nvalue v = 0;\ntask t (x) { x }\nobserve w priority 2 { }\non z priority -1 allowNull (input$i) { set v = 1; invoke t(2); update i = 3; freeze i; do 4; if (TRUE) { } if (v()) { do 5; } else { do 6; do 7; } }\n",
        ),
    ];
    for (file, wanted) in rows {
        assert_eq!(rt; printed(alloc, file)?.as_str(), wanted, "{file}");
        assert_eq!(rt; printed(alloc, wanted)?.as_str(), wanted, "{file}");
    }
    Ok(())
}

/// A file that is printed as it stands, where its output's term is.
fn around(alloc: Global, term: &str) -> Result<String, Memory> {
    let front =
        "budget 1000;\ninput a = 1;\nvalue v = 0;\ntask t () { 1 }\nreactive e { 2 }\ntext o { ";
    Ok(format!(in alloc; "{front}{term} }}\n")?)
}

#[test]
fn writes_each_term(rt: HostRuntime) -> Result<(), Fail> {
    let alloc = rt.alloc();
    let terms = [
        "9223372036854775807",
        "((input$a))",
        "-(!-v())",
        "e() || TRUE && FALSE",
        "(1 || 2) && 3 == 4",
        "1 - (2 - 3) * 4 %/% 5 %% 6",
        "1 + 2 != 3 * 4",
        "(1 < 2) <= (3 > 4)",
        "(1 >= 2) == NULL",
        "if (input$a) 1 else if (2) 3 else 4",
        "if (status(t) == \"running\") result(t) else width(o) + height(o)",
        "isolate(req(input$a, cancelOutput)) + req(1)",
        "stop(\"bad\\n\")",
        "fold(c(), 0, x, y, fold(c(1), x, z, y, x + y + z))",
        "c(paste0(), length(1), nchar(2), item(3, 4), sum(5), min(6), max(7), seq(8, 9), is_null(1), as_int(2))",
        "c(bars(1, 2, 3, 4), lines(1, 2, 3, 4), points(1, 2, 3, 4))",
    ];
    for term in terms {
        let file = around(alloc, term)?;
        assert_eq!(rt;
            printed(alloc, file.as_str())?.as_str(),
            file.as_str(),
            "{term}"
        );
    }
    Ok(())
}

/// A term of 64 levels is printed, with each pair of its brackets.
#[test]
fn writes_sixty_four_levels(rt: HostRuntime) -> Result<(), Fail> {
    let alloc = rt.alloc();
    let term = format!(in alloc; "{}1{}", "(".repeat(alloc, 63)?, ")".repeat(alloc, 63)?)?;
    let file = around(alloc, term.as_str())?;
    assert_eq!(rt; printed(alloc, file.as_str())?.as_str(), file.as_str());
    Ok(())
}
