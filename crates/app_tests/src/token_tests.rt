//! Worked examples, and two cases at least for each rule: one just inside, one just outside.

use crate::files::{Case, Stage, compare};
use app_tokens::{Kind, Symbol, TokenError, Word, tokens};
use std::alloc::{AllocError, Global};
use std::test::Fail;

/// The first byte that is no part of UTF-8, and what comes before it.
const NOT_UTF8: [Case; 15] = [
    (b"\xFF", "BadByte(0)"),
    (b"a \xC3(", "BadByte(2)"),
    (b"a\xC3", "BadByte(1)"),
    (b"\xC0\x80", "BadByte(0)"),
    (b"\xED\xA0\x80", "BadByte(0)"),
    (b"# \xFF\n", "BadByte(2)"),
    (b"\"a\xFF\"", "BadByte(2)"),
    (b"\"a\xFF", "BadByte(2)"),
    (b"\"a\\\xFF", "BadByte(2)"),
    (b"@ \xFF", "BadByte(0)"),
    (b"9223372036854775808\xFF", "BadByte(0)"),
    (b"\xC3\xA9", "BadByte(0)"),
    (b"# \xC3\xA9", "4 end"),
    (b"\"\xC3\xA9\"", "0 text [é], 4 end"),
    (b"\xEF\xBB\xBFa", "BadByte(0)"),
];

/// What stands between tokens.
const BLANKS_AND_COMMENTS: [Case; 9] = [
    (b"", "0 end"),
    (b" \t\n\r a", "5 name a, 6 end"),
    (b"\x0Ba", "BadByte(0)"),
    (b"a\x00", "BadByte(1)"),
    (b"# @\" \\\na", "7 name a, 8 end"),
    (b"a#b", "0 name a, 3 end"),
    (b"#a\rb", "4 end"),
    (b"#\x00\n@", "BadByte(3)"),
    (b"#", "1 end"),
];

/// Words, names and numbers, with the greatest number and one more.
const WORDS_AND_NUMBERS: [Case; 15] = [
    (
        b"input a = 1;",
        "0 Input, 6 name a, 8 Assign, 10 1, 11 Semicolon, 12 end",
    ),
    (b"input a = @;", "BadByte(10)"),
    (b"a_1Z", "0 name a_1Z, 4 end"),
    (b"_a", "BadByte(0)"),
    (b"inputs", "0 name inputs, 6 end"),
    (b"Input", "0 name Input, 5 end"),
    (b"True", "0 name True, 4 end"),
    (b"1a", "0 1, 1 name a, 2 end"),
    (b"a1", "0 name a1, 2 end"),
    (b"0", "0 0, 1 end"),
    (b"007", "0 7, 3 end"),
    (b"9223372036854775807", "0 9223372036854775807, 19 end"),
    (b"9223372036854775808", "BadByte(0)"),
    (b"0009223372036854775807", "0 9223372036854775807, 22 end"),
    (b"a 99999999999999999999999", "BadByte(2)"),
];

/// Texts, their pairs and their ends.
const TEXTS: [Case; 15] = [
    (b"\"\"", "0 text [], 2 end"),
    (b"a\"b\"c", "0 name a, 1 text [b], 4 C, 5 end"),
    (b"\"\\\"\\\\\\n\"", "0 text [\"\\\n], 8 end"),
    (b"\" \"", "0 text [ ], 3 end"),
    (b"\"\x1F\"", "BadByte(1)"),
    (b"\"\x7F\"", "0 text [\u{7f}], 3 end"),
    (b"\"a\tb\"", "BadByte(2)"),
    (b"\"a\\t\"", "BadByte(2)"),
    (b"\"a\\\n\"", "BadByte(2)"),
    (b"\"a\\", "OpenText(0)"),
    (b"\"", "OpenText(0)"),
    (b"\"a\\\"", "OpenText(0)"),
    (b"text o { \"abc", "OpenText(9)"),
    (b"\"a\x01", "BadByte(2)"),
    (b"\"a\" \"b", "OpenText(4)"),
];

/// Symbols, the longest first.
const SYMBOLS: [Case; 19] = [
    (b"%/%%%", "0 Quotient, 3 Remainder, 5 end"),
    (b"===", "0 Equal, 2 Assign, 3 end"),
    (b"!==", "0 NotEqual, 2 Assign, 3 end"),
    (b"!!", "0 Not, 1 Not, 2 end"),
    (b"<==", "0 AtMost, 2 Assign, 3 end"),
    (b">>=", "0 Greater, 1 AtLeast, 3 end"),
    (b"&&&", "BadByte(2)"),
    (b"|||", "BadByte(2)"),
    (b"%", "BadByte(0)"),
    (b"%/", "BadByte(0)"),
    (b"a %/ b", "BadByte(2)"),
    (b"&", "BadByte(0)"),
    (b"|", "BadByte(0)"),
    (b"/", "BadByte(0)"),
    (b"(@", "BadByte(1)"),
    (b".", "BadByte(0)"),
    (b"'a'", "BadByte(0)"),
    (b"[", "BadByte(0)"),
    (b"a\\", "BadByte(1)"),
];

/// Every reserved word, and every symbol.
const WHOLE_TABLES: [Case; 2] = [
    (
        b"budget input value task reactive event text plot observe on priority ignoreInit \
         allowNull cache set invoke update do if else TRUE FALSE NULL c isolate req \
         cancelOutput stop fold result status width height paste0 length nchar item sum \
         min max seq is_null as_int bars lines points freeze whileHidden",
        "0 Budget, 7 Input, 13 Value, 19 Task, 24 Reactive, 33 Event, 39 Text, 44 Plot, 49 \
         Observe, 57 On, 60 Priority, 69 IgnoreInit, 80 AllowNull, 90 Cache, 96 Set, 100 \
         Invoke, 107 Update, 114 Do, 117 If, 120 Else, 125 True, 130 False, 136 Null, 141 \
         C, 143 Isolate, 151 Req, 155 CancelOutput, 168 Stop, 173 Fold, 178 Result, 185 \
         Status, 192 Width, 198 Height, 205 Paste0, 212 Length, 219 Nchar, 225 Item, 230 \
         Sum, 234 Min, 238 Max, 242 Seq, 246 IsNull, 254 AsInt, 261 Bars, 266 Lines, 272 \
         Points, 279 Freeze, 286 WhileHidden, 297 end",
    ),
    (
        b"( ) { } , ; = $ + - * %/% %% ! == != < <= > >= && ||",
        "0 Open, 2 Close, 4 OpenBrace, 6 CloseBrace, 8 Comma, 10 Semicolon, 12 Assign, 14 \
         Dollar, 16 Plus, 18 Minus, 20 Star, 22 Quotient, 26 Remainder, 29 Not, 31 Equal, \
         34 NotEqual, 37 Less, 39 AtMost, 42 Greater, 44 AtLeast, 47 And, 50 Or, 52 end",
    ),
];

#[test]
fn each_rule_holds_on_both_sides_of_its_limit(rt: HostRuntime) -> Result<(), Fail> {
    compare(&rt, rt.alloc(), Stage::Tokens, &NOT_UTF8)?;
    compare(&rt, rt.alloc(), Stage::Tokens, &BLANKS_AND_COMMENTS)?;
    compare(&rt, rt.alloc(), Stage::Tokens, &WORDS_AND_NUMBERS)?;
    compare(&rt, rt.alloc(), Stage::Tokens, &TEXTS)?;
    compare(&rt, rt.alloc(), Stage::Tokens, &SYMBOLS)?;
    compare(&rt, rt.alloc(), Stage::Tokens, &WHOLE_TABLES)?;
    Ok(())
}

/// A blank, a text of so many bytes whose first is a line feed, and what follows them.
fn long_text(alloc: Global, size: usize, behind: &[u8]) -> Result<Vec<u8>, AllocError> {
    let mut bytes = Vec::new(alloc);
    bytes.extend_from_slice(b" \"\\n")?;
    for _ in 1..size {
        bytes.push(b'x')?;
    }
    bytes.extend_from_slice(behind)?;
    Ok(bytes)
}

#[test]
fn only_a_whole_text_is_too_long(rt: HostRuntime) -> Result<(), Fail> {
    let cases: [(usize, &[u8], Result<usize, TokenError>); 5] = [
        (65536, b"\"", Ok(1)),
        (65537, b"\"", Err(TokenError::BadByte(1))),
        (65537, b"\x01\"", Err(TokenError::BadByte(65540))),
        (65537, b"", Err(TokenError::OpenText(1))),
        (65537, b"\xFF", Err(TokenError::BadByte(65540))),
    ];
    for (size, behind, want) in &cases {
        let bytes = long_text(rt.alloc(), *size, behind)?;
        let got = match tokens(rt.alloc(), bytes.as_slice()) {
            Ok(list) => Ok(list.len()),
            Err(error) => Err(error),
        };
        assert_eq!(rt; got, *want);
    }
    Ok(())
}

#[test]
fn a_list_gives_its_tokens(rt: HostRuntime) -> Result<(), Fail> {
    let list = tokens(rt.alloc(), b"- \"a\\n\" 12")?;
    assert_eq!(rt; list.len(), 3);
    assert!(rt; !list.is_empty());
    assert_eq!(rt; list.end(), 10);
    let minus = &list.get(0).kind;
    assert!(rt; minus.is_symbol(Symbol::Minus));
    assert!(rt; !minus.is_symbol(Symbol::Plus));
    assert!(rt; !minus.is_word(Word::Input));
    let text = list.get(1);
    assert_eq!(rt; text.place, 2);
    assert_eq!(rt; text.spelling.as_str(), "\"a\\n\"");
    let Kind::Number(number) = &list.get(2).kind else {
        return Err("no number")?;
    };
    assert_eq!(rt; number.value(), 12);
    assert_eq!(rt; number.positive(), 12);
    assert_eq!(rt; number.negative(), -12);
    Ok(())
}
