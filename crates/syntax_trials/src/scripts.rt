//! Scripts and their first faults, by `groovy_parse`, and expressions one behind the other, by `expr_parser`.

use crate::sketch::sketch_of_expression;
use expr_parser::{ExprRefusal, Parser, is_shallow};
use groovy_expr::Refusal;
use groovy_lex::lex;
use groovy_parse::{SCRIPT_LIMIT, parse, parse_tokens};
use model_syntax::{FaultKind, Place, ScriptFault, ScriptRefusal, Sign, Token, TokenKind};
use std::alloc::{AllocError, Global};
use std::test::Fail;

/// The first fault of a script.
fn fault(alloc: Global, script: &[u8]) -> Option<ScriptFault> {
    match parse(alloc, script) {
        Err(ScriptRefusal::Fault(fault)) => Some(fault),
        _ => None,
    }
}

/// A fault of this kind at this place.
fn told(line: u32, column: u32, kind: FaultKind) -> Option<ScriptFault> {
    Some(ScriptFault { line, column, kind })
}

#[test]
fn functions_and_statements_are_read(rt: HostRuntime) -> Result<(), Fail> {
    let alloc = rt.alloc();
    let cases: [(&[u8], usize); 6] = [
        (b"", 0),
        (b"\n;\n;", 0),
        (b"def greet(name) { echo name }\ngreet('you')", 2),
        (b"\nvoid run(def a, String b) { }; run(1, 'b');\n", 2),
        (b"def x = 1", 1),
        (b"if (x) { }\nelse { }\nfoo()", 2),
    ];
    for (script, tops) in cases {
        assert_eq!(rt; parse(alloc, script)?.tops.len(), tops, "{script:?}");
    }
    Ok(())
}

#[test]
fn faults_of_one_token_are_told(rt: HostRuntime) {
    let alloc = rt.alloc();
    let cases: [(&[u8], u32, FaultKind); 9] = [
        (b"echo 'a", 6, FaultKind::UnendedText),
        (b"echo \"${2147483648}\"", 9, FaultKind::BadNumber),
        (b"if (x y) { }", 7, FaultKind::UnexpectedToken),
        (b"foo bar baz", 9, FaultKind::UnexpectedToken),
        (b"a = 1 }", 7, FaultKind::UnexpectedToken),
        (b";foo()", 2, FaultKind::UnexpectedToken),
        (b"def f(a b c) { }", 11, FaultKind::UnexpectedToken),
        (b"void f()", 9, FaultKind::UnexpectedEnd),
        (b"if (x) {", 9, FaultKind::UnexpectedEnd),
    ];
    for (script, column, kind) in cases {
        assert_eq!(rt; fault(alloc, script), told(1, column, kind), "{script:?}");
    }
}

#[test]
fn the_first_of_two_faults_is_told(rt: HostRuntime) {
    let alloc = rt.alloc();
    let cases: [(&[u8], u32, FaultKind); 4] = [
        (b"foo bar baz 'a", 9, FaultKind::UnexpectedToken),
        (b"foo bar 'a", 9, FaultKind::UnendedText),
        (b"echo 'a\\q' )", 8, FaultKind::BadEscape),
        (b"break\nfoo bar baz", 9, FaultKind::UnexpectedToken),
    ];
    for (script, column, kind) in cases {
        let line = if script.starts_with(b"break") { 2 } else { 1 };
        assert_eq!(rt;
            fault(alloc, script),
            told(line, column, kind),
            "{script:?}"
        );
    }
}

#[test]
fn scope_faults_are_told(rt: HostRuntime) {
    let alloc = rt.alloc();
    let twice = b"def x = 1\ndef x = 1";
    let named = told(2, 5, FaultKind::NameAlreadyDeclared);
    assert_eq!(rt; fault(alloc, twice), named);
    let closure = b"while (true) { run { break } }";
    let outside = told(1, 22, FaultKind::BreakOutsideLoop);
    assert_eq!(rt; fault(alloc, closure), outside);
}

#[test]
fn brackets_nest_to_128(rt: HostRuntime) -> Result<(), Fail> {
    let alloc = rt.alloc();
    let most = vec![in alloc; b'('; 128]?;
    let end = told(1, 129, FaultKind::UnexpectedEnd);
    assert_eq!(rt; fault(alloc, &most), end);
    let more = vec![in alloc; b'('; 129]?;
    let over = told(1, 129, FaultKind::NestingOver128);
    assert_eq!(rt; fault(alloc, &more), over);
    Ok(())
}

/// These bytes, and then these so often.
fn repeated(alloc: Global, front: &[u8], part: &[u8], times: usize) -> Result<Vec<u8>, AllocError> {
    let mut script = front.to_vec(alloc)?;
    for _ in 0..times {
        script.extend_from_slice(part)?;
    }
    Ok(script)
}

/// What the grammar puts behind one another takes no deeper calls, however long it is.
#[test]
fn only_brackets_nest(rt: HostRuntime) -> Result<(), Fail> {
    let alloc = rt.alloc();
    let cases: [(&[u8], &[u8], usize); 8] = [
        (b"x = a", b" + 1", 6_000),
        (b"x = a", b" && b", 6_000),
        (b"x = a", b" ?: b", 6_000),
        (b"x = a", b" ? b : c", 6_000),
        (b"x = a", b".b", 6_000),
        (b"x = a", b"[1]", 6_000),
        (b"if (a) b", b" else if (a) b", 6_000),
        (b"x = \"", b"$a", 6_000),
    ];
    for (front, part, times) in cases {
        let mut script = repeated(alloc, front, part, times)?;
        if front.ends_with(b"\"") {
            script.push(b'"')?;
        }
        assert_eq!(rt; parse(alloc, &script)?.tops.len(), 1, "{front:?}");
    }
    Ok(())
}

#[test]
fn signs_before_an_operand_do_not_nest(rt: HostRuntime) -> Result<(), Fail> {
    let alloc = rt.alloc();
    let mut script = repeated(alloc, b"x = ", b"- ", 6_000)?;
    script.push(b'1')?;
    assert_eq!(rt; parse(alloc, &script)?.tops.len(), 1);
    Ok(())
}

#[test]
fn a_script_of_one_byte_too_many_is_too_long(rt: HostRuntime) -> Result<(), Fail> {
    let alloc = rt.alloc();
    let longest = vec![in alloc; b' '; SCRIPT_LIMIT]?;
    assert_eq!(rt; parse(alloc, &longest)?.tops.len(), 0);
    let longer = vec![in alloc; b' '; SCRIPT_LIMIT + 1]?;
    let refusal = parse(alloc, &longer).err();
    assert_eq!(rt; refusal, Some(ScriptRefusal::TooLong));
    Ok(())
}

#[test]
fn the_token_of_a_fault_is_told(rt: HostRuntime) -> Result<(), Fail> {
    let alloc = rt.alloc();
    let Ok(tokens) = lex(alloc, b"foo bar baz") else {
        return Err("no tokens".into());
    };
    if !is_shallow(tokens.as_slice()) {
        return Err("deep brackets".into());
    }
    let refusal = parse_tokens(alloc, tokens.as_slice()).err();
    assert_eq!(rt; refusal, Some(Refusal::Fault(2)));
    Ok(())
}

/// The text of the parser's next expression.
fn next_sketch(alloc: Global, parser: &mut Parser) -> Result<String, Fail> {
    let Ok(value) = parser.expr() else {
        return Err("no expression".into());
    };
    Ok(sketch_of_expression(alloc, &value)?)
}

#[test]
fn expressions_are_read_one_behind_the_other_and_a_fault_is_told_again(
    rt: HostRuntime,
) -> Result<(), Fail> {
    let alloc = rt.alloc();
    let Ok(tokens) = lex(alloc, b"a + 1 'b' )") else {
        return Err("no tokens".into());
    };
    if tokens.len() != 5 || !is_shallow(tokens.as_slice()) {
        return Err("not five tokens, or deep brackets".into());
    }
    let mut parser = Parser::new(alloc, tokens.as_slice());
    assert_eq!(rt; next_sketch(alloc, &mut parser)?.as_str(), "(a + 1)");
    assert_eq!(rt; next_sketch(alloc, &mut parser)?.as_str(), "'b'");
    let fault = Some(ExprRefusal::Fault { token: 4 });
    assert_eq!(rt; parser.expr().err(), fault);
    assert_eq!(rt; parser.expr().err(), fault);
    Ok(())
}

#[test]
fn an_expression_that_ends_too_early_has_its_fault_at_the_end(rt: HostRuntime) -> Result<(), Fail> {
    let alloc = rt.alloc();
    let Ok(tokens) = lex(alloc, b"a * (b +") else {
        return Err("no tokens".into());
    };
    if tokens.len() != 5 || !is_shallow(tokens.as_slice()) {
        return Err("not five tokens, or deep brackets".into());
    }
    let mut parser = Parser::new(alloc, tokens.as_slice());
    let fault = Some(ExprRefusal::Fault { token: 5 });
    assert_eq!(rt; parser.expr().err(), fault);
    assert_eq!(rt; parser.expr().err(), fault);
    Ok(())
}

#[test]
fn the_token_that_may_not_follow_an_expression_is_its_fault(rt: HostRuntime) -> Result<(), Fail> {
    let alloc = rt.alloc();
    let scripts: [&[u8]; 2] = [b"1 (2)", b"1 { }"];
    for script in scripts {
        let Ok(tokens) = lex(alloc, script) else {
            return Err("no tokens".into());
        };
        if tokens.len() > 4 || !is_shallow(tokens.as_slice()) {
            return Err("more than four tokens, or deep brackets".into());
        }
        let mut parser = Parser::new(alloc, tokens.as_slice());
        let fault = Some(ExprRefusal::Fault { token: 1 });
        assert_eq!(rt; parser.expr().err(), fault, "{script:?}");
    }
    Ok(())
}

/// As many `(` as this, one behind the other.
fn opened(alloc: Global, count: usize) -> Result<Vec<Token>, AllocError> {
    let mut tokens = Vec::new(alloc);
    for start in 0..count {
        tokens.push(Token {
            kind: TokenKind::Sign(Sign::ParenOpen),
            start,
            end: start + 1,
            place: Place { line: 1, column: 1 },
        })?;
    }
    Ok(tokens)
}

#[test]
fn brackets_are_shallow_up_to_128(rt: HostRuntime) -> Result<(), Fail> {
    let alloc = rt.alloc();
    assert!(rt; is_shallow(&opened(alloc, 128)?));
    assert!(rt; !is_shallow(&opened(alloc, 129)?));
    Ok(())
}
