//! Scripts with the tokens or the first fault that `groovy_lex` gives.

use groovy_lex::{LexRefusal, lex, place_of};
use model_syntax::{Place, Token, TokenKind};
use model_text::Text;
use std::alloc::Global;
use std::process::Abort;
use std::test::Fail;

/// A text as it stands in a listing.
fn quoted(alloc: Global, before: &str, text: &Text) -> Result<String, Fail> {
    match str::from_utf8(text.as_slice()) {
        Ok(plain) => Ok(format!(in alloc; "{before}{plain:?}")?),
        Err(_) => Ok(format!(in alloc; "{before}?")?),
    }
}

fn plain(alloc: Global, text: &Text) -> Result<String, Fail> {
    match str::from_utf8(text.as_slice()) {
        Ok(name) => Ok(format!(in alloc; "{name}")?),
        Err(_) => Ok(format!(in alloc; "?")?),
    }
}

fn shown_kind(alloc: Global, kind: &TokenKind) -> Result<String, Fail> {
    match kind {
        TokenKind::Name(name) => plain(alloc, name),
        TokenKind::Int(value) => Ok(format!(in alloc; "{value}")?),
        TokenKind::Text(text) => quoted(alloc, "", text),
        TokenKind::GStringOpen => Ok(format!(in alloc; "Opens")?),
        TokenKind::GStringPart(text) => quoted(alloc, "part", text),
        TokenKind::ExpressionOpen => Ok(format!(in alloc; "Braces")?),
        TokenKind::PathOpen => Ok(format!(in alloc; "Dollar")?),
        TokenKind::GStringClose => Ok(format!(in alloc; "Closes")?),
        TokenKind::Sign(sign) => Ok(format!(in alloc; "{sign:?}")?),
        TokenKind::Word(word) => Ok(format!(in alloc; "{word:?}")?),
        TokenKind::Newline => Ok(format!(in alloc; "NL")?),
    }
}

/// The kinds of the tokens, with blanks between them.
fn shown(alloc: Global, tokens: &[Token]) -> Result<String, Fail> {
    let mut out = String::new(alloc);
    for token in tokens {
        if !out.is_empty() {
            out.push(' ')?;
        }
        out.push_str(shown_kind(alloc, &token.kind)?.as_str())?;
    }
    Ok(out)
}

/// The kinds of the tokens of a script; or those before its fault, the fault and its place.
fn listing(alloc: Global, script: &[u8]) -> Result<String, Fail> {
    match lex(alloc, script) {
        Ok(tokens) => shown(alloc, tokens.as_slice()),
        Err(LexRefusal::Memory) => Ok(format!(in alloc; "no memory")?),
        Err(LexRefusal::Fault { before, at, kind }) => {
            let begun = shown(alloc, before.as_slice())?;
            Ok(format!(in alloc; "{begun} | {kind} at {at}")?)
        }
    }
}

/// The spans and the places of the tokens of a script.
fn spans(alloc: Global, script: &[u8]) -> Result<String, Fail> {
    let mut out = String::new(alloc);
    if let Ok(tokens) = lex(alloc, script) {
        for token in tokens.as_slice() {
            let Place { line, column } = token.place;
            let span = format!(in alloc; "{}-{}@{line}:{column} ", token.start, token.end)?;
            out.push_str(span.as_str())?;
        }
    }
    Ok(out)
}

/// Asserts that the scripts have these listings.
fn assert_listed(rt: &impl Abort, alloc: Global, cases: &[(&str, &str)]) -> Result<(), Fail> {
    for (script, expected) in cases {
        assert_eq!(rt; listing(alloc, script.as_bytes())?.as_str(), *expected);
    }
    Ok(())
}

#[test]
fn each_lexical_fault_has_its_place_and_the_tokens_before_it(rt: HostRuntime) -> Result<(), Fail> {
    let cases: &[(&str, &str)] = &[
        ("echo 'a", "echo | unended text at 5"),
        (
            "echo \"${2147483648}\"",
            "echo Opens Braces | bad number at 8",
        ),
        ("a /* b", "a | unended comment at 2"),
        ("a ^", "a | unexpected character at 2"),
        ("'é' é", "\"é\" | unexpected character at 5"),
        ("(1 'ab\\q", "ParenOpen 1 | bad escape at 6"),
        (
            "(1 \"a${b} c\\q",
            "ParenOpen 1 Opens part\"a\" Braces b BraceClose part\" c\" | bad escape at 11",
        ),
        ("\"a $ b\"", " | bad escape at 3"),
        ("'a\\", " | unended text at 0"),
        ("'\\ud800'", " | bad escape at 1"),
        ("'\\u12g4'", " | bad escape at 1"),
        ("12 007", "12 | bad number at 3"),
        ("1.5", " | bad number at 0"),
        ("12a", " | bad number at 0"),
        ("12_", " | bad number at 0"),
        ("'a\nb'", " | unended text at 0"),
        (
            "\"ab ${ 'cd",
            "Opens part\"ab \" Braces | unended text at 7",
        ),
        ("\"ab ${ x", " | unended text at 0"),
        ("a\n\"b${c", "a NL | unended text at 2"),
        ("x # y", "x | unexpected character at 2"),
        ("a & b", "a | unexpected character at 2"),
    ];
    assert_listed(&rt, rt.alloc(), cases)
}

#[test]
fn texts_that_are_cut_off_are_unended_at_the_end_alone(rt: HostRuntime) -> Result<(), Fail> {
    let alloc = rt.alloc();
    let cases: &[(&str, &str)] = &[
        ("x = 'ab\\", "x Assign | unended text at 4"),
        ("x = \"ab$", "x Assign | unended text at 4"),
        ("x = 'ab\\u00", "x Assign | unended text at 4"),
        ("x = \"\"\"ab\\u00e", "x Assign | unended text at 4"),
        ("\"a${'b\\", "Opens part\"a\" Braces | unended text at 4"),
        ("'ab\\u00'", " | bad escape at 3"),
        ("'ab\\u00\n", " | bad escape at 3"),
        ("'ab\\ud800", " | bad escape at 3"),
        ("\"ab$\n", " | bad escape at 3"),
        ("\"ab$é", " | bad escape at 3"),
    ];
    assert_listed(&rt, alloc, cases)?;
    assert_eq!(rt; listing(alloc, b"'ab\\\xff")?.as_str(), " | not UTF-8 at 4");
    assert_eq!(rt;
        listing(alloc, b"'ab\\u0\xff")?.as_str(),
        " | not UTF-8 at 6"
    );
    assert_eq!(rt; listing(alloc, b"\"ab$\xff")?.as_str(), " | not UTF-8 at 4");
    Ok(())
}

#[test]
fn bytes_that_are_no_characters_are_faults(rt: HostRuntime) -> Result<(), Fail> {
    let alloc = rt.alloc();
    assert_eq!(rt; listing(alloc, b"a \xff")?.as_str(), "a | not UTF-8 at 2");
    assert_eq!(rt; listing(alloc, b"'\xc3'")?.as_str(), " | not UTF-8 at 1");
    assert_eq!(rt;
        listing(alloc, b"a // \xed\xa0\x80")?.as_str(),
        "a | not UTF-8 at 5"
    );
    assert_eq!(rt;
        listing(alloc, b"/* \xf8 */")?.as_str(),
        " | not UTF-8 at 3"
    );
    assert_eq!(rt;
        listing(alloc, b"#! \xc0\x80\n")?.as_str(),
        " | not UTF-8 at 3"
    );
    Ok(())
}

#[test]
fn faults_are_told_by_line_and_column(rt: HostRuntime) -> Result<(), Fail> {
    assert_eq!(rt; place_of(b"echo 'a", 5), Place { line: 1, column: 6 });
    assert_eq!(rt;
        place_of("'é' é".as_bytes(), 5),
        Place { line: 1, column: 5 }
    );
    assert_eq!(rt;
        place_of("\u{feff}€\n\u{1d11e}x".as_bytes(), 11),
        Place { line: 2, column: 2 }
    );
    assert_eq!(rt; place_of(b"\xef\xbb\xbfx", 3), Place { line: 1, column: 1 });
    assert_eq!(rt; place_of(b"a\r\nb", 3), Place { line: 2, column: 1 });
    Ok(())
}

#[test]
fn escapes_stand_for_their_characters(rt: HostRuntime) -> Result<(), Fail> {
    let cases: &[(&str, &str)] = &[
        (r"'\n\t\r\b\f'", "\"\\n\\t\\r\\u{8}\\u{c}\""),
        (r#"'\\ \' \" \$'"#, "\"\\\\ ' \\\" $\""),
        (r"'\u0041\u00e9\u20ac'", "\"Aé€\""),
        ("'a\\\nb'", "\"ab\""),
        ("\"a\\\nb\"", "\"ab\""),
        ("'$x'", "\"$x\""),
        ("'''$x'''", "\"$x\""),
        ("''", "\"\""),
        ("''''''", "\"\""),
        ("'''a\n'b''c'''", "\"a\\n'b''c\""),
        ("\"\"\"a\"b\"\"c\n\\$\"\"\"", "\"a\\\"b\\\"\\\"c\\n$\""),
        ("'€𝄞'", "\"€𝄞\""),
    ];
    assert_listed(&rt, rt.alloc(), cases)
}

#[test]
fn texts_hold_expressions(rt: HostRuntime) -> Result<(), Fail> {
    let cases: &[(&str, &str)] = &[
        (
            "\"$a.b.c. $d\"",
            "Opens Dollar a Dot b Dot c part\". \" Dollar d Closes",
        ),
        ("\"n=${n}\"", "Opens part\"n=\" Braces n BraceClose Closes"),
        (
            "\"${\"in ${x} \"}\"",
            "Opens Braces Opens part\"in \" Braces x BraceClose part\" \" Closes BraceClose Closes",
        ),
        ("\"$else\"", "Opens Dollar Else Closes"),
        ("\"\\\n${x}\"", "Opens Braces x BraceClose Closes"),
        (
            "\"\"\"a\"b${{ c -> d }}\n\"\"\"",
            "Opens part\"a\\\"b\" Braces BraceOpen c Arrow d BraceClose BraceClose part\"\\n\" Closes",
        ),
        ("\"\"\"${a\n}\"\"\"", "Opens Braces a BraceClose Closes"),
        ("\"$a)b\"", "Opens Dollar a part\")b\" Closes"),
        ("\"${a\n}\"", " | unended text at 0"),
    ];
    assert_listed(&rt, rt.alloc(), cases)
}

#[test]
fn three_quotes_open_a_triple_text_and_the_first_three_close_it(
    rt: HostRuntime,
) -> Result<(), Fail> {
    let alloc = rt.alloc();
    assert_eq!(rt;
        listing(alloc, b"\"\"\"a\"\"\"\"")?.as_str(),
        "\"a\" | unended text at 7"
    );
    assert_eq!(rt; listing(alloc, b"'''")?.as_str(), " | unended text at 0");
    assert_eq!(rt; listing(alloc, b"'' 'a'")?.as_str(), "\"\" \"a\"");
    Ok(())
}

#[test]
fn the_longest_sign_is_read(rt: HostRuntime) -> Result<(), Fail> {
    let cases: &[(&str, &str)] = &[
        (
            "( ) [ ] { } , ; : ?",
            "ParenOpen ParenClose BracketOpen BracketClose BraceOpen BraceClose Comma Semicolon Colon Question",
        ),
        (
            "?: . ?. .. -> = += -= *= %=",
            "Elvis Dot SafeDot Range Arrow Assign PlusAssign MinusAssign TimesAssign ModAssign",
        ),
        (
            "++ -- || && == != < <= > >=",
            "Increment Decrement Or And Equal NotEqual Less LessEqual Greater GreaterEqual",
        ),
        ("+ - * % !", "Plus Minus Times Mod Not"),
        (
            "===<=>>==",
            "Equal Assign LessEqual Greater GreaterEqual Assign",
        ),
        ("...?..+++", "Range Dot SafeDot Dot Increment Plus"),
        ("a1..2-->b", "a1 Range 2 Decrement Greater b"),
        ("a/b", "a | unexpected character at 1"),
    ];
    assert_listed(&rt, rt.alloc(), cases)
}

#[test]
fn words_are_no_names(rt: HostRuntime) -> Result<(), Fail> {
    let cases: &[(&str, &str)] = &[
        (
            "def void if else while for in return break continue",
            "Def Void If Else While For In Return Break Continue",
        ),
        (
            "try catch finally throw new true false null",
            "Try Catch Finally Throw New True False Null",
        ),
        (
            "import package class interface enum trait extends implements",
            "Import Package Class Interface Enum Trait Extends Implements",
        ),
        (
            "static final switch case default do assert as instanceof this super",
            "Static Final Switch Case Default Do Assert As InstanceOf This Super",
        ),
        ("defx Def _ in1 ifs i", "defx Def _ in1 ifs i"),
        (
            "a_1 B2 2147483647 0 00",
            "a_1 B2 2147483647 0 | bad number at 20",
        ),
    ];
    assert_listed(&rt, rt.alloc(), cases)
}

#[test]
fn newlines_are_tokens_where_they_may_end_a_statement(rt: HostRuntime) -> Result<(), Fail> {
    let cases: &[(&str, &str)] = &[
        ("\n\na\nb\n", "a NL b NL"),
        ("a\n\n// c\n \n/* d\n */ b", "a NL b"),
        ("(\na\n)", "ParenOpen a ParenClose"),
        ("[a,\nb\n]\nc", "BracketOpen a Comma b BracketClose NL c"),
        ("a {\nb\n}\nc", "a BraceOpen b NL BraceClose NL c"),
        (
            "({\na\nb\n})",
            "ParenOpen BraceOpen a NL b NL BraceClose ParenClose",
        ),
        (
            "a +\nb ==\nc =\nd ..\ne",
            "a Plus b Equal c Assign d Range e",
        ),
        (
            "a ?\nb :\nc ?:\nd ->\ne;\nf",
            "a Question b Colon c Elvis d Arrow e Semicolon f",
        ),
        ("a\n.b\n?.c", "a Dot b SafeDot c"),
        ("a\n\nelse\n", "a Else NL"),
        ("}\ncatch\nfinally", "BraceClose Catch Finally"),
        ("a++\nb!\nc in\nd", "a Increment NL b Not NL c In NL d"),
        ("a /* x\n */ b", "a b"),
        ("a // x\nb", "a NL b"),
        ("a // x", "a"),
    ];
    assert_listed(&rt, rt.alloc(), cases)
}

#[test]
fn the_first_bytes_may_be_a_mark_and_a_line_for_the_system(rt: HostRuntime) -> Result<(), Fail> {
    let alloc = rt.alloc();
    assert_eq!(rt; listing(alloc, b"#!/usr/bin/env groovy\nx")?.as_str(), "x");
    assert_eq!(rt; listing(alloc, b"\xef\xbb\xbf#!a\r\nx")?.as_str(), "x");
    assert_eq!(rt; listing(alloc, b"\xef\xbb\xbfx\r\n\ty")?.as_str(), "x NL y");
    assert_eq!(rt;
        listing(alloc, b" #!")?.as_str(),
        " | unexpected character at 1"
    );
    assert_eq!(rt; listing(alloc, b"")?.as_str(), "");
    Ok(())
}

#[test]
fn tokens_have_their_spans_and_places(rt: HostRuntime) -> Result<(), Fail> {
    let alloc = rt.alloc();
    assert_eq!(rt;
        spans(alloc, b"a // b\n\n.c\n")?.as_str(),
        "0-1@1:1 8-9@3:1 9-10@3:2 10-11@3:3 "
    );
    assert_eq!(rt;
        spans(alloc, b"a\n\n b")?.as_str(),
        "0-1@1:1 1-2@1:2 4-5@3:2 "
    );
    assert_eq!(rt;
        spans(alloc, "'é' + \"\"\"€\n$d.e\"\"\" f".as_bytes())?.as_str(),
        "0-4@1:1 5-6@1:5 7-10@1:7 10-14@1:10 14-15@2:1 15-16@2:2 16-17@2:3 17-18@2:4 18-21@2:5 22-23@2:9 "
    );
    Ok(())
}

/// How many tokens a script of this many opening parentheses and what stands behind them has, or those before its fault
/// and the fault.
fn opened(alloc: Global, count: usize, behind: &[u8]) -> Result<String, Fail> {
    let mut script = Vec::new(alloc);
    for _ in 0..count {
        script.push(b'(')?;
    }
    script.extend_from_slice(behind)?;
    match lex(alloc, script.as_slice()) {
        Ok(tokens) => Ok(format!(in alloc; "{}", tokens.len())?),
        Err(LexRefusal::Memory) => Ok(format!(in alloc; "no memory")?),
        Err(LexRefusal::Fault { before, at, kind }) => {
            Ok(format!(in alloc; "{} | {kind} at {at}", before.len())?)
        }
    }
}

#[test]
fn at_most_128_brackets_are_open(rt: HostRuntime) -> Result<(), Fail> {
    let alloc = rt.alloc();
    assert_eq!(rt; opened(alloc, 128, b"")?.as_str(), "128");
    assert_eq!(rt;
        opened(alloc, 129, b"")?.as_str(),
        "128 | nesting over 128 at 128"
    );
    assert_eq!(rt; opened(alloc, 127, b"\"${a}\"")?.as_str(), "132");
    assert_eq!(rt;
        opened(alloc, 127, b"\"${[a]}\"")?.as_str(),
        "129 | nesting over 128 at 130"
    );
    assert_eq!(rt;
        opened(alloc, 128, b"\"b${a}\"")?.as_str(),
        "128 | nesting over 128 at 130"
    );
    assert_eq!(rt; opened(alloc, 128, b"'a' ) (")?.as_str(), "131");
    Ok(())
}
