//! Worked examples, and at least one just inside and one just outside of each limit.

use crate::samples::{numbers_from, text_of, value_of, words_of};
use rx_value::{Memory, Plot, RxText, Value};
use std::alloc::Global;
use std::process::Abort;
use std::test::Fail;
use svg_plot::{bars, lines, points};

/// What a plot is shown by: its text, or a failure behind `! `.
fn shown(
    alloc: Global,
    plot: Plot,
    sides: (&Value, &Value),
    title: &Value,
    list: &Value,
) -> Result<RxText, Memory> {
    let (width, height) = sides;
    let outcome = match plot {
        Plot::Bars => bars(alloc, width, height, title, list)?,
        Plot::Lines => lines(alloc, width, height, title, list)?,
        Plot::Points => points(alloc, width, height, title, list)?,
    };
    words_of(alloc, &outcome)
}

/// A plot of what four words stand for: the sides, the title and the list.
fn drawn(
    alloc: Global,
    plot: Plot,
    sides: (&str, &str),
    title: &str,
    list: &str,
) -> Result<RxText, Memory> {
    let width = value_of(alloc, sides.0)?;
    let height = value_of(alloc, sides.1)?;
    let title = value_of(alloc, title)?;
    let list = value_of(alloc, list)?;
    shown(alloc, plot, (&width, &height), &title, &list)
}

/// The whole text with these elements.
fn svg(alloc: Global, width: &str, height: &str, elements: &str) -> Result<String, Memory> {
    Ok(format!(in alloc;
        "<svg xmlns=\"http://www.w3.org/2000/svg\" width=\"{width}\" height=\"{height}\">{elements}</svg>"
    )?)
}

/// A text of so many equal characters.
fn title_of(alloc: Global, character: &str, count: usize) -> Result<Value, Memory> {
    let title = character.repeat(alloc, count)?;
    text_of(alloc, title.as_str())
}

/// A plot, the words of its sides, of its title and of its list, and what it comes to.
type PlotCase = (
    Plot,
    &'static str,
    &'static str,
    &'static str,
    &'static str,
    &'static str,
);

/// Compares the elements of whole texts.
fn compare_elements(rt: &impl Abort, alloc: Global, cases: &[PlotCase]) -> Result<(), Memory> {
    for (plot, width, height, title, list, elements) in cases {
        let want = svg(alloc, *width, *height, *elements)?;
        let got = drawn(alloc, *plot, (*width, *height), *title, *list)?;
        assert_eq!(rt; got.as_str(), want.as_str(), "{plot:?} of {list}");
    }
    Ok(())
}

/// A plot with the title `t`, the words of its sides and of its list, and its marks.
type MarkCase = (Plot, &'static str, &'static str, &'static str, &'static str);

fn compare_marks(rt: &impl Abort, alloc: Global, cases: &[MarkCase]) -> Result<(), Memory> {
    for (plot, width, height, list, marks) in cases {
        let elements = format!(in alloc; "<text x=\"10\" y=\"20\">t</text>{marks}")?;
        let want = svg(alloc, *width, *height, elements.as_str())?;
        let got = drawn(alloc, *plot, (*width, *height), "t", *list)?;
        assert_eq!(rt; got.as_str(), want.as_str(), "{plot:?} of {list}");
    }
    Ok(())
}

fn compare_failures(rt: &impl Abort, alloc: Global, cases: &[PlotCase]) -> Result<(), Memory> {
    for (plot, width, height, title, list, want) in cases {
        let got = drawn(alloc, *plot, (*width, *height), *title, *list)?;
        assert_eq!(rt; got.as_str(), *want, "{plot:?} of {list}");
    }
    Ok(())
}

/// Each kind of plot, with a title that is written as it stands and one that is not.
const WHOLE_TEXTS: [PlotCase; 6] = [
    (
        Plot::Bars,
        "64",
        "64",
        "",
        "c",
        "<text x=\"10\" y=\"20\"></text>",
    ),
    (
        Plot::Bars,
        "120",
        "100",
        "A&B",
        "c 5",
        "<text x=\"10\" y=\"20\">A&amp;B</text><rect x=\"10\" y=\"30\" width=\"100\" height=\"60\"/>",
    ),
    (
        Plot::Bars,
        "120",
        "100",
        "t",
        "c 4 -2",
        "<text x=\"10\" y=\"20\">t</text><rect x=\"10\" y=\"30\" width=\"50\" height=\"40\"/><rect x=\"60\" y=\"70\" width=\"50\" height=\"20\"/>",
    ),
    (
        Plot::Lines,
        "120",
        "100",
        "t",
        "c 0 3 6",
        "<text x=\"10\" y=\"20\">t</text><polyline points=\"10,90 60,60 110,30\" fill=\"none\" stroke=\"black\"/>",
    ),
    (
        Plot::Points,
        "120",
        "100",
        "t",
        "c 7",
        "<text x=\"10\" y=\"20\">t</text><circle cx=\"60\" cy=\"30\" r=\"3\"/>",
    ),
    (
        Plot::Bars,
        "784",
        "400",
        "Waiting",
        "c 4 1 5",
        "<text x=\"10\" y=\"20\">Waiting</text><rect x=\"10\" y=\"102\" width=\"254\" height=\"288\"/><rect x=\"264\" y=\"318\" width=\"255\" height=\"72\"/><rect x=\"519\" y=\"30\" width=\"255\" height=\"360\"/>",
    ),
];

/// A number is drawn as a list of one.
const MARKS: [MarkCase; 24] = [
    (
        Plot::Bars,
        "120",
        "100",
        "-5",
        "<rect x=\"10\" y=\"30\" width=\"100\" height=\"60\"/>",
    ),
    (
        Plot::Bars,
        "120",
        "100",
        "c -5",
        "<rect x=\"10\" y=\"30\" width=\"100\" height=\"60\"/>",
    ),
    (Plot::Bars, "64", "64", "c", ""),
    (
        Plot::Bars,
        "120",
        "100",
        "c 5",
        "<rect x=\"10\" y=\"30\" width=\"100\" height=\"60\"/>",
    ),
    (
        Plot::Bars,
        "120",
        "100",
        "c 4 -2",
        "<rect x=\"10\" y=\"30\" width=\"50\" height=\"40\"/><rect x=\"60\" y=\"70\" width=\"50\" height=\"20\"/>",
    ),
    (
        Plot::Bars,
        "120",
        "100",
        "c -3 -6",
        "<rect x=\"10\" y=\"30\" width=\"50\" height=\"30\"/><rect x=\"60\" y=\"30\" width=\"50\" height=\"60\"/>",
    ),
    (
        Plot::Bars,
        "120",
        "100",
        "c 0 0",
        "<rect x=\"10\" y=\"90\" width=\"50\" height=\"0\"/><rect x=\"60\" y=\"90\" width=\"50\" height=\"0\"/>",
    ),
    (
        Plot::Bars,
        "64",
        "64",
        "c 1 1 1",
        "<rect x=\"10\" y=\"30\" width=\"14\" height=\"24\"/><rect x=\"24\" y=\"30\" width=\"15\" height=\"24\"/><rect x=\"39\" y=\"30\" width=\"15\" height=\"24\"/>",
    ),
    (
        Plot::Bars,
        "120",
        "100",
        "c -9223372036854775808 9223372036854775807",
        "<rect x=\"10\" y=\"60\" width=\"50\" height=\"30\"/><rect x=\"60\" y=\"30\" width=\"50\" height=\"30\"/>",
    ),
    (Plot::Lines, "120", "100", "c", ""),
    (
        Plot::Lines,
        "120",
        "100",
        "c 0 3 6",
        "<polyline points=\"10,90 60,60 110,30\" fill=\"none\" stroke=\"black\"/>",
    ),
    (
        Plot::Lines,
        "120",
        "100",
        "c 7",
        "<polyline points=\"60,30\" fill=\"none\" stroke=\"black\"/>",
    ),
    (
        Plot::Lines,
        "120",
        "100",
        "c -9223372036854775808 0 9223372036854775807",
        "<polyline points=\"10,90 60,60 110,30\" fill=\"none\" stroke=\"black\"/>",
    ),
    (
        Plot::Lines,
        "64",
        "100",
        "c 9223372036854775807 9223372036854775806 1 0",
        "<polyline points=\"10,30 24,31 39,90 54,90\" fill=\"none\" stroke=\"black\"/>",
    ),
    (
        Plot::Lines,
        "120",
        "100",
        "c 5 5 5",
        "<polyline points=\"10,30 60,30 110,30\" fill=\"none\" stroke=\"black\"/>",
    ),
    (
        Plot::Lines,
        "120",
        "100",
        "c 0 0",
        "<polyline points=\"10,90 110,90\" fill=\"none\" stroke=\"black\"/>",
    ),
    (
        Plot::Lines,
        "120",
        "100",
        "c -1 -3",
        "<polyline points=\"10,50 110,90\" fill=\"none\" stroke=\"black\"/>",
    ),
    (Plot::Points, "120", "100", "c", ""),
    (
        Plot::Points,
        "120",
        "100",
        "c 7",
        "<circle cx=\"60\" cy=\"30\" r=\"3\"/>",
    ),
    (
        Plot::Points,
        "65",
        "100",
        "c -7",
        "<circle cx=\"32\" cy=\"90\" r=\"3\"/>",
    ),
    (
        Plot::Points,
        "120",
        "100",
        "c 5 5",
        "<circle cx=\"10\" cy=\"30\" r=\"3\"/><circle cx=\"110\" cy=\"30\" r=\"3\"/>",
    ),
    (
        Plot::Points,
        "120",
        "100",
        "c 0 0",
        "<circle cx=\"10\" cy=\"90\" r=\"3\"/><circle cx=\"110\" cy=\"90\" r=\"3\"/>",
    ),
    (
        Plot::Points,
        "120",
        "100",
        "c -1 -3",
        "<circle cx=\"10\" cy=\"50\" r=\"3\"/><circle cx=\"110\" cy=\"90\" r=\"3\"/>",
    ),
    (
        Plot::Points,
        "120",
        "100",
        "c -9223372036854775808 0 9223372036854775807",
        "<circle cx=\"10\" cy=\"90\" r=\"3\"/><circle cx=\"60\" cy=\"60\" r=\"3\"/><circle cx=\"110\" cy=\"30\" r=\"3\"/>",
    ),
];

/// A kind is refused before a size.
const FAILURES: [PlotCase; 16] = [
    (Plot::Bars, "63", "64", "", "c", "! plot size out of range"),
    (Plot::Bars, "NULL", "64", "", "c", "! wrong kind of value"),
    (
        Plot::Bars,
        "63",
        "64",
        "t",
        "NULL",
        "! plot size out of range",
    ),
    (
        Plot::Lines,
        "64",
        "63",
        "t",
        "1",
        "! plot size out of range",
    ),
    (
        Plot::Points,
        "4097",
        "4096",
        "t",
        "NULL",
        "! plot size out of range",
    ),
    (
        Plot::Bars,
        "4096",
        "4097",
        "t",
        "NULL",
        "! plot size out of range",
    ),
    (
        Plot::Lines,
        "-64",
        "64",
        "t",
        "NULL",
        "! plot size out of range",
    ),
    (
        Plot::Bars,
        "NULL",
        "64",
        "t",
        "NULL",
        "! wrong kind of value",
    ),
    (
        Plot::Lines,
        "64",
        "wide",
        "t",
        "NULL",
        "! wrong kind of value",
    ),
    (
        Plot::Points,
        "64",
        "64",
        "NULL",
        "NULL",
        "! wrong kind of value",
    ),
    (Plot::Bars, "64", "64", "7", "NULL", "! wrong kind of value"),
    (
        Plot::Lines,
        "64",
        "64",
        "t",
        "TRUE",
        "! wrong kind of value",
    ),
    (
        Plot::Points,
        "64",
        "64",
        "t",
        "text",
        "! wrong kind of value",
    ),
    (Plot::Bars, "63", "63", "7", "NULL", "! wrong kind of value"),
    (
        Plot::Lines,
        "63",
        "63",
        "t",
        "TRUE",
        "! wrong kind of value",
    ),
    (
        Plot::Points,
        "63",
        "NULL",
        "t",
        "NULL",
        "! wrong kind of value",
    ),
];

#[test]
fn draws_each_plot(rt: HostRuntime) -> Result<(), Fail> {
    compare_elements(&rt, rt.alloc(), &WHOLE_TEXTS)?;
    compare_marks(&rt, rt.alloc(), &MARKS)?;
    Ok(())
}

#[test]
fn refuses_kinds_before_sizes(rt: HostRuntime) -> Result<(), Fail> {
    compare_failures(&rt, rt.alloc(), &FAILURES)?;
    Ok(())
}

#[test]
fn draws_a_thousand_bars(rt: HostRuntime) -> Result<(), Fail> {
    let alloc = rt.alloc();
    let side = Value::Int(4096);
    let title = text_of(alloc, "")?;
    let list = numbers_from(alloc, 1, 1000)?;
    let text = shown(alloc, Plot::Bars, (&side, &side), &title, &list)?;
    let text = text.as_str();
    assert!(rt;
        text.starts_with(
            "<svg xmlns=\"http://www.w3.org/2000/svg\" width=\"4096\" height=\"4096\"><text x=\"10\" y=\"20\"></text><rect x=\"10\" y=\"4082\" width=\"4\" height=\"4\"/><rect x=\"14\" "
        )
    );
    assert!(rt; text.ends_with("/><rect x=\"4081\" y=\"30\" width=\"5\" height=\"4056\"/></svg>"));
    assert_eq!(rt; text.matches("<rect ").count(), 1000);
    Ok(())
}

#[test]
fn writes_titles_as_xml(rt: HostRuntime) -> Result<(), Fail> {
    let alloc = rt.alloc();
    let rows = [
        ("", ""),
        ("A&B", "A&amp;B"),
        ("a'b/é€\u{1f600}", "a'b/é€\u{1f600}"),
        ("<a b=\"c\">&amp;", "&lt;a b=&quot;c&quot;&gt;&amp;amp;"),
        (
            "[\u{0}\u{1}\u{2}\u{3}\u{4}\u{5}\u{6}\u{7}\u{8}]",
            "[         ]",
        ),
        ("[\t\n\r]", "[\t\n\r]"),
        ("[\u{b}\u{c}\u{e}\u{f}]", "[    ]"),
        (
            "[\u{10}\u{11}\u{12}\u{13}\u{14}\u{15}\u{16}\u{17}]",
            "[        ]",
        ),
        (
            "[\u{18}\u{19}\u{1a}\u{1b}\u{1c}\u{1d}\u{1e}\u{1f}]",
            "[        ]",
        ),
        ("\u{20}!\u{7f}\u{80}", "\u{20}!\u{7f}\u{80}"),
        (
            "[\u{fffd}\u{fffe}\u{ffff}\u{10000}]",
            "[\u{fffd}  \u{10000}]",
        ),
        ("\u{d7ff}\u{e000}\u{1fffe}", "\u{d7ff}\u{e000}\u{1fffe}"),
    ];
    let side = Value::Int(64);
    for (title, written) in rows {
        let mark = format!(in alloc; "<text x=\"10\" y=\"20\">{written}</text>")?;
        let want = svg(alloc, "64", "64", mark.as_str())?;
        let title = text_of(alloc, title)?;
        assert_eq!(rt;
            shown(alloc, Plot::Lines, (&side, &side), &title, &Value::Null)?.as_str(),
            want.as_str()
        );
    }
    Ok(())
}

#[test]
fn limits_the_text(rt: HostRuntime) -> Result<(), Fail> {
    let alloc = rt.alloc();
    let too_long = "! text too long";
    // without its title and marks a text has 96 bytes; a lone bar has 44, a line 53, a circle 31
    let rows = [
        (Plot::Bars, "a", 65440, 0, "<svg "),
        (Plot::Lines, "a", 65441, 0, too_long),
        (Plot::Points, "&", 13088, 0, "<svg "),
        (Plot::Bars, "&", 13089, 0, too_long),
        (Plot::Lines, "é", 32720, 0, "<svg "),
        (Plot::Points, "é", 100000, 0, too_long),
        (Plot::Bars, "a", 65396, 1, "<svg "),
        (Plot::Bars, "a", 65397, 1, too_long),
        (Plot::Lines, "a", 65387, 1, "<svg "),
        (Plot::Lines, "a", 65388, 1, too_long),
        (Plot::Points, "a", 65409, 1, "<svg "),
        (Plot::Points, "a", 65410, 1, too_long),
        (Plot::Bars, "a", 0, 5000, too_long),
        (Plot::Lines, "a", 0, 20000, too_long),
        (Plot::Points, "a", 0, 5000, too_long),
    ];
    let side = Value::Int(64);
    for (plot, character, times, numbers, front) in rows {
        let title = title_of(alloc, character, times)?;
        let list = numbers_from(alloc, 1, numbers)?;
        let text = shown(alloc, plot, (&side, &side), &title, &list)?;
        let length = if front == too_long {
            too_long.len()
        } else {
            65536
        };
        assert!(rt; text.as_str().starts_with(front));
        assert_eq!(rt; text.len(), length);
    }
    Ok(())
}

#[test]
fn refuses_a_size_before_a_long_text(rt: HostRuntime) -> Result<(), Fail> {
    let alloc = rt.alloc();
    let side = Value::Int(63);
    let title = title_of(alloc, "a", 70000)?;
    assert_eq!(rt;
        shown(alloc, Plot::Bars, (&side, &side), &title, &Value::Null)?.as_str(),
        "! plot size out of range"
    );
    Ok(())
}
