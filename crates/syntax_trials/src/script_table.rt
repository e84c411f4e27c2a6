//! Scripts with the trees or the first faults that `groovy_parse` gives, rule by rule. What is expected was worked out by hand from the rules of
//! docs/LANGUAGE.md.

use crate::sketch::sketch_of;
use groovy_parse::parse;
use model_syntax::{ScriptFault, ScriptRefusal};
use std::alloc::Global;
use std::process::Abort;
use std::test::Fail;

/// The sketch of a script's tree, or its first fault.
fn said(alloc: Global, script: &[u8]) -> Result<String, Fail> {
    match parse(alloc, script) {
        Ok(tree) => Ok(sketch_of(alloc, &tree)?),
        Err(ScriptRefusal::Fault(fault)) => {
            let ScriptFault { line, column, kind } = fault;
            Ok(format!(in alloc; "{line}:{column} {kind}")?)
        }
        Err(ScriptRefusal::TooLong) => Ok(format!(in alloc; "too long")?),
        Err(ScriptRefusal::Memory) => Ok(format!(in alloc; "no memory")?),
    }
}

/// Asserts that these scripts have these trees and faults.
fn assert_said(rt: &impl Abort, alloc: Global, cases: &[(&str, &str)]) -> Result<(), Fail> {
    for (script, expected) in cases {
        let found = said(alloc, script.as_bytes())?;
        assert_eq!(rt; found.as_str(), *expected, "{script}");
    }
    Ok(())
}

#[test]
fn statements_stand_between_newlines_and_semicolons(rt: HostRuntime) -> Result<(), Fail> {
    let cases = [
        ("", ""),
        ("\n\n", ""),
        ("; ;", ""),
        ("echo 'a'\necho 'b'", "echo('a'); echo('b')"),
        ("\n\necho 'a'; echo 'b';\n", "echo('a'); echo('b')"),
        ("a;\n\nb", "a; b"),
        ("; a", "1:3 unexpected token"),
        ("a b c", "1:5 unexpected token"),
        ("foo bar baz", "1:9 unexpected token"),
        ("{ a }", "1:1 unexpected token"),
        ("f(1)\n{ 2 }", "2:1 unexpected token"),
        ("a\n  .b\n  ?.c()", "a.b?.c()"),
        ("x =\n  1 +\n  2", "x = (1 + 2)"),
        ("x = 1\n  + 2", "x = 1; (+2)"),
        ("a /* \n */ b", "a(b)"),
    ];
    assert_said(&rt, rt.alloc(), &cases)
}

#[test]
fn declarations_and_assignments(rt: HostRuntime) -> Result<(), Fail> {
    let cases = [
        ("def x", "def x"),
        ("def x = f 1", "def x = f(1)"),
        ("String s = 'a'", "def s = 'a'"),
        ("T x", "T(x)"),
        ("x += 2", "x += 2"),
        ("a.b -= 1", "a.b -= 1"),
        ("a[0] = 1", "a[0] = 1"),
        ("a[0] *= 2", "a[0] *= 2"),
        ("a.b[1].c %= 3", "a.b[1].c %= 3"),
        ("x++; a.b--; a[1]++", "x++; a.b--; a[1]++"),
        ("x = y = 1", "1:7 unexpected token"),
        ("a.b() = 1", "1:7 unexpected token"),
        ("a?.b = 1", "1:6 unexpected token"),
        ("a + b = 1", "1:7 unexpected token"),
        ("(a) = 1", "1:5 unexpected token"),
        ("def 5", "1:5 unexpected token"),
        ("return", "return"),
        ("return f 1", "return f(1)"),
        ("throw new Error('x')", "throw new Error('x')"),
        ("throw f 1", "1:9 unexpected token"),
    ];
    assert_said(&rt, rt.alloc(), &cases)
}

#[test]
fn operators_bind_in_their_ranks(rt: HostRuntime) -> Result<(), Fail> {
    let cases = [
        ("x = 1 + 2 * 3 - 4 % 5", "x = (1 + (2 * 3) - (4 % 5))"),
        (
            "x = a || b && c == d < e..f",
            "x = (a || (b && (c == (d < (e .. f)))))",
        ),
        ("x = a && b && c || d", "x = ((a && b && c) || d)"),
        ("x = a != b", "x = (a != b)"),
        ("x = a <= b", "x = (a <= b)"),
        ("x = a > b", "x = (a > b)"),
        ("x = a >= b", "x = (a >= b)"),
        ("x = !-a.b", "x = (!-a.b)"),
        ("x = +a", "x = (+a)"),
        ("x = (1 + 2) * 3", "x = (group((1 + 2)) * 3)"),
        ("x = a ? b : c ?: d", "x = (a ? b : c ?: d)"),
        ("f -1", "(f - 1)"),
        ("a && b", "(a && b)"),
        ("x = a ? b ? c : d : e", "1:11 unexpected token"),
        ("x = a == b == c", "1:12 unexpected token"),
        ("x = 1 < 2 < 3", "1:11 unexpected token"),
        ("x = 1..2..3", "1:9 unexpected token"),
        ("x = 1 +", "1:8 unexpected end"),
        ("x = * 1", "1:5 unexpected token"),
    ];
    assert_said(&rt, rt.alloc(), &cases)
}

#[test]
fn calls_and_their_arguments(rt: HostRuntime) -> Result<(), Fail> {
    let cases = [
        ("f()", "f()"),
        ("f 1, 'a', b", "f(1, 'a', b)"),
        ("f true, false, null", "f(true, false, null)"),
        ("f(1) { 2 }", "f(1, {2})"),
        ("f { 2 }", "f({2})"),
        ("f() { 2 }", "f({2})"),
        ("f(a: 1, 'b': 2)", "f(a: 1, b: 2)"),
        ("f a: 1", "f(a: 1)"),
        ("f(a: 1) { 2 }", "f(a: 1, {2})"),
        ("f [1]", "f[1]"),
        ("a.b(1).c { it }", "a.b(1).c({it})"),
        (
            "sh script: 'ls', returnStdout: true",
            "sh(script: 'ls', returnStdout: true)",
        ),
        ("f a: 1, 2", "1:9 unexpected token"),
        ("f(1, a: 2)", "1:7 unexpected token"),
        ("f(1,)", "1:5 unexpected token"),
        ("a.f 1", "1:5 unexpected token"),
        ("a.1", "1:3 unexpected token"),
        ("f(1", "1:4 unexpected end"),
        ("echo 'a' 'b'", "1:10 unexpected token"),
    ];
    assert_said(&rt, rt.alloc(), &cases)
}

#[test]
fn texts_and_their_escapes(rt: HostRuntime) -> Result<(), Fail> {
    let cases = [
        (
            r#"x = 'a\n\t\r\b\f\\\'\"\$\u0041'"#,
            "x = 'a\n\t\r\u{8}\u{c}\\'\"$A'",
        ),
        (
            r#"x = '''a\n\t\r\b\f\\\'\"\$\u0041'''"#,
            "x = 'a\n\t\r\u{8}\u{c}\\'\"$A'",
        ),
        (
            r#"x = "a\n\t\r\b\f\\\'\"\$\u0041""#,
            "x = 'a\n\t\r\u{8}\u{c}\\'\"$A'",
        ),
        (
            r#"x = """a\n\t\r\b\f\\\'\"\$\u0041""""#,
            "x = 'a\n\t\r\u{8}\u{c}\\'\"$A'",
        ),
        (
            r#"x = "a\n\t\r\b\f\\\'\"\$\u0041${b}""#,
            "x = \"a\n\t\r\u{8}\u{c}\\'\"$A${b}\"",
        ),
        ("x = 'a\\\nb'", "x = 'ab'"),
        ("x = '''a\n'b'''", "x = 'a\n'b'"),
        ("x = ''", "x = ''"),
        ("x = \"a\"", "x = 'a'"),
        ("x = \"a${b}c\"", "x = \"a${b}c\""),
        ("x = \"$a.b.c\"", "x = \"${a.b.c}\""),
        ("x = \"$a. b\"", "x = \"${a}. b\""),
        ("x = \"${\"${a}\"}\"", "x = \"${\"${a}\"}\""),
        ("x = \"\"\"a\n\"b${c + 1}\"\"\"", "x = \"a\n\"b${(c + 1)}\""),
        ("x = \"${}\"", "1:8 unexpected token"),
        ("x = \"${a b}\"", "1:10 unexpected token"),
        ("x = \"$this\"", "1:7 unexpected token"),
    ];
    assert_said(&rt, rt.alloc(), &cases)
}

#[test]
fn lists_maps_and_closures(rt: HostRuntime) -> Result<(), Fail> {
    let cases = [
        ("x = []", "x = []"),
        ("x = [:]", "x = [:]"),
        ("x = [1, 2,]", "x = [1, 2]"),
        ("x = [[1], [b: [2]]]", "x = [[1], [b: [2]]]"),
        (
            "x = [a: 1, 'b': 2, 3: 4, (c): 5,]",
            "x = [a: 1, b: 2, 3: 4, (c): 5]",
        ),
        ("x = [\"a${b}\": 1]", "x = [(\"a${b}\"): 1]"),
        ("x = { }", "x = {}"),
        ("x = { -> 1 }", "x = { -> 1}"),
        ("x = { a -> a }", "x = {a -> a}"),
        ("x = { a, b -> a; b }", "x = {a, b -> a; b}"),
        ("x = { def a -> a }", "x = {a -> a}"),
        ("x = { String a -> a }", "x = {a -> a}"),
        ("x = { a b }", "x = {a(b)}"),
        ("x = [1, a: 2]", "1:10 unexpected token"),
        ("x = [a: 1, 2]", "1:13 unexpected token"),
        ("x = [,]", "1:6 unexpected token"),
        ("x = [:1]", "1:7 unexpected token"),
        ("x = [1, 2", "1:10 unexpected end"),
        ("x = { a, b }", "1:12 unexpected token"),
        ("x = { def a, b -> a }", "1:12 unexpected token"),
        ("x = {", "1:6 unexpected end"),
    ];
    assert_said(&rt, rt.alloc(), &cases)
}

#[test]
fn functions_stand_at_the_top(rt: HostRuntime) -> Result<(), Fail> {
    let cases = [
        ("def f() { }", "function f() {}"),
        (
            "void f(a, def b, String c) { return a }",
            "function f(a, b, c) {return a}",
        ),
        ("def f(a)\n{\n  a\n}\nf(1)", "function f(a) {a}; f(1)"),
        ("def f(a,) { }", "1:9 unexpected token"),
        ("def f(1) { }", "1:7 unexpected token"),
        ("def f(a b c) { }", "1:11 unexpected token"),
        ("def f()", "1:8 unexpected end"),
        ("def f() a", "1:9 unexpected token"),
        ("void f = 1", "1:8 unexpected token"),
        ("void 1", "1:6 unexpected token"),
        ("if (a) { def f() { } }", "1:15 unexpected token"),
        ("def f() { } a", "1:13 unexpected token"),
    ];
    assert_said(&rt, rt.alloc(), &cases)
}

#[test]
fn conditions_and_loops(rt: HostRuntime) -> Result<(), Fail> {
    let cases = [
        ("if (a) b else c", "if (a) {b} else {c}"),
        (
            "if (a) { b } else if (c) { d } else { e }",
            "if (a) {b} else if (c) {d} else {e}",
        ),
        ("if (a)\n  b\nelse\n  c", "if (a) {b} else {c}"),
        ("if (a) b else if (c) d", "if (a) {b} else if (c) {d}"),
        ("while (a < 3) { a++ }", "while ((a < 3)) {a++}"),
        ("while (a)\n  a--", "while (a) {a--}"),
        ("for (x in [1]) { }", "for (x in [1]) {}"),
        ("for (def x in y) z", "for (x in y) {z}"),
        ("for (String x : y) { }", "for (x in y) {}"),
        ("for (def x : y) { }", "for (x in y) {}"),
        ("for (x in y)\n  z", "for (x in y) {z}"),
        (
            "for (int i = 0; i < 3; i++) { continue }",
            "for (def i = 0; (i < 3); i++) {continue}",
        ),
        (
            "for (a.i = 0; a.i < 3; a.i += 1) { break }",
            "for (a.i = 0; (a.i < 3); a.i += 1) {break}",
        ),
        ("if (x y) { }", "1:7 unexpected token"),
        ("if (x) {", "1:9 unexpected end"),
        ("if x", "1:4 unexpected token"),
        ("if (a) if (b) c", "1:8 unexpected token"),
        ("else { }", "1:1 unexpected token"),
        ("for (x : y) { }", "1:8 unexpected token"),
        ("for (;;) { }", "1:6 unexpected token"),
        ("for (def i; a; i++) { }", "1:11 unexpected token"),
        ("for (i = 0; i < 3; i) { }", "1:21 unexpected token"),
        ("while () { }", "1:8 unexpected token"),
    ];
    assert_said(&rt, rt.alloc(), &cases)
}

#[test]
fn catches_and_throwables(rt: HostRuntime) -> Result<(), Fail> {
    let cases = [
        (
            "try { a } catch (e) { b }",
            "try {a} catch (Exception e) {b}",
        ),
        (
            "try { a } catch (Exception e) { b } catch (Throwable t) { c } finally { d }",
            "try {a} catch (Exception e) {b} catch (Throwable t) {c} finally {d}",
        ),
        (
            "try\n{ a }\ncatch (e)\n{ b }",
            "try {a} catch (Exception e) {b}",
        ),
        ("try { a }\nfinally\n{ b }", "try {a} finally {b}"),
        ("try { a }", "1:10 unexpected end"),
        ("try { a }\nb", "1:10 unexpected token"),
        ("try a", "1:5 unexpected token"),
        ("try { } catch (IOException e) { }", "1:28 unexpected token"),
        ("try { } catch () { }", "1:16 unexpected token"),
        ("try { } finally { } catch (e) { }", "1:21 unexpected token"),
        ("x = new Error()", "x = new Error()"),
        ("x = new Exception('a')", "x = new Exception('a')"),
        ("x = new RuntimeException(a)", "x = new RuntimeException(a)"),
        ("x = new Foo()", "1:9 unexpected token"),
        ("x = new Error", "1:14 unexpected end"),
        ("x = new Error(1, 2)", "1:16 unexpected token"),
    ];
    assert_said(&rt, rt.alloc(), &cases)
}

#[test]
fn what_is_no_token_is_a_lexical_fault(rt: HostRuntime) -> Result<(), Fail> {
    let cases = [
        ("echo 'a", "1:6 unended text"),
        ("echo 'a\nb'", "1:6 unended text"),
        ("echo \"\"\"a", "1:6 unended text"),
        ("a\n/* b", "2:1 unended comment"),
        ("x = 'a\\q'", "1:7 bad escape"),
        ("x = '\\u12'", "1:6 bad escape"),
        ("x = '\\uD800'", "1:6 bad escape"),
        ("x = \"a$\"", "1:7 bad escape"),
        ("x = \"$ \"", "1:6 bad escape"),
        ("echo \"${2147483648}\"", "1:9 bad number"),
        ("x = 2147483647", "x = 2147483647"),
        ("x = 01", "1:5 bad number"),
        ("x = 1a", "1:5 bad number"),
        ("x = 1.5", "1:5 bad number"),
        ("x = a | b", "1:7 unexpected character"),
        ("@", "1:1 unexpected character"),
        (
            "try { } catch (Exception | Error e) { }",
            "1:26 unexpected character",
        ),
    ];
    assert_said(&rt, rt.alloc(), &cases)
}

#[test]
fn the_first_of_a_lexical_and_a_syntax_fault_is_told(rt: HostRuntime) -> Result<(), Fail> {
    let cases = [
        ("a b c @", "1:5 unexpected token"),
        ("a @ b c", "1:3 unexpected character"),
        ("if @", "1:4 unexpected character"),
        ("x y z 'open", "1:5 unexpected token"),
        ("echo \"a ${b c} and open", "1:6 unended text"),
    ];
    assert_said(&rt, rt.alloc(), &cases)
}

#[test]
fn words_without_a_rule_are_refused_where_they_stand(rt: HostRuntime) -> Result<(), Fail> {
    let words = [
        "import",
        "package",
        "class",
        "interface",
        "enum",
        "trait",
        "extends",
        "implements",
        "static",
        "final",
        "switch",
        "case",
        "default",
        "do",
        "assert",
        "as",
        "instanceof",
        "this",
        "super",
        "in",
        "else",
        "catch",
        "finally",
    ];
    for word in words {
        let found = said(rt.alloc(), word.as_bytes())?;
        assert_eq!(rt; found.as_str(), "1:1 unexpected token", "{word}");
        let value = format!(in rt.alloc(); "x = {word}")?;
        let found = said(rt.alloc(), value.as_bytes())?;
        assert_eq!(rt; found.as_str(), "1:5 unexpected token", "{word}");
    }
    Ok(())
}

#[test]
fn names_are_declared_once_in_a_scope(rt: HostRuntime) -> Result<(), Fail> {
    let cases = [
        ("def x = 1\ndef x = 2", "2:5 name already declared"),
        ("def x\nif (a) { def x }", "def x; if (a) {def x}"),
        ("def f(a, a) { }", "1:10 name already declared"),
        ("def f(a) { def a }", "1:16 name already declared"),
        ("x = { a -> def a }", "1:16 name already declared"),
        ("x = { a, a -> a }", "1:10 name already declared"),
        ("try { } catch (e) { def e }", "1:25 name already declared"),
        (
            "for (def i = 0; a; i++) { def i }",
            "for (def i = 0; a; i++) {def i}",
        ),
        ("def f() { }\ndef f(a) { }", "2:5 function already declared"),
        ("def f() { }\ndef f", "function f() {}; def f"),
        ("break\n)", "2:1 unexpected token"),
        ("def x; def y; def x; def y", "1:19 name already declared"),
    ];
    assert_said(&rt, rt.alloc(), &cases)
}

#[test]
fn break_and_continue_stand_in_loops(rt: HostRuntime) -> Result<(), Fail> {
    let cases = [
        ("break\ncontinue", "1:1 break outside a loop"),
        ("if (a) { continue }", "1:10 continue outside a loop"),
        ("def f() { break }", "1:11 break outside a loop"),
        (
            "while (a) { x.each { break } }",
            "1:22 break outside a loop",
        ),
        ("while (a) { if (b) break }", "while (a) {if (b) {break}}"),
        (
            "x.each { for (y in z) { continue } }",
            "x.each({for (y in z) {continue}})",
        ),
    ];
    assert_said(&rt, rt.alloc(), &cases)
}

#[test]
fn columns_count_characters_and_lines_count_line_feeds(rt: HostRuntime) -> Result<(), Fail> {
    let cases = [
        ("\u{feff}echo 'a'", "echo('a')"),
        ("\u{feff}@", "1:1 unexpected character"),
        ("#!/usr/bin/env groovy\necho 'a'", "echo('a')"),
        ("\n#!x", "2:1 unexpected character"),
        ("echo 'a'\r\necho 'b'\r\n", "echo('a'); echo('b')"),
        ("a\r\n\r\n@", "3:1 unexpected character"),
        ("/* \u{e9} */ @", "1:9 unexpected character"),
        ("echo '\u{e9}\u{1d11e}' 'b'", "1:11 unexpected token"),
        ("x = \u{e9}", "1:5 unexpected character"),
        ("echo 'a' // end", "echo('a')"),
        ("echo 'a' /* end */", "echo('a')"),
        ("// only", ""),
        ("\t@", "1:2 unexpected character"),
    ];
    assert_said(&rt, rt.alloc(), &cases)
}

#[test]
fn bytes_that_are_no_characters_are_refused(rt: HostRuntime) -> Result<(), Fail> {
    let cases: [(&[u8], &str); 4] = [
        (b"x = '\xff'", "1:6 not UTF-8"),
        (b"// \xc3", "1:4 not UTF-8"),
        (b"\x80", "1:1 not UTF-8"),
        (b"a b c\xff", "1:5 unexpected token"),
    ];
    for (script, expected) in cases {
        let found = said(rt.alloc(), script)?;
        assert_eq!(rt; found.as_str(), expected);
    }
    Ok(())
}

const USUAL: &str = r#"#!/usr/bin/env groovy
def version
node('linux') {
    stage('Prepare') {
        version = sh(script: 'cat VERSION', returnStdout: true).trim()
        echo "version ${version}"
    }
}
stage('Test') {
    def runs = [:]
    for (name in ['unit', 'web']) {
        def n = name
        runs[n] = {
            node('linux') { sh "make ${n}" }
        }
    }
    parallel runs
}
stage('Ship') {
    node('linux-1') { withEnv(['MODE=prod']) { sh 'make ship' } }
}
"#;

#[test]
fn the_usual_jenkinsfile_has_this_tree(rt: HostRuntime) -> Result<(), Fail> {
    let parts = [
        "def version",
        "node('linux', {stage('Prepare', {version = sh(script: 'cat VERSION', returnStdout: true).trim(); \
         echo(\"version ${version}\")})})",
        "stage('Test', {def runs = [:]; for (name in ['unit', 'web']) {def n = name; \
         runs[n] = {node('linux', {sh(\"make ${n}\")})}}; parallel(runs)})",
        "stage('Ship', {node('linux-1', {withEnv(['MODE=prod'], {sh('make ship')})})})",
    ];
    let mut expected = String::new(rt.alloc());
    for (index, part) in parts.iter().enumerate() {
        if index > 0 {
            expected.push_str("; ")?;
        }
        expected.push_str(part)?;
    }
    let found = said(rt.alloc(), USUAL.as_bytes())?;
    assert_eq!(rt; found.as_str(), expected.as_str());
    Ok(())
}
