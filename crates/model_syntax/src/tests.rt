use crate::{
    Expr, FaultKind, Operand, Operator, Place, ScriptRefusal, Sign, Stmt, Token, TokenKind, Tokens,
    Top, Tree,
};
use model_text::Text;
use sqlite_items::{Boxed, Items};
use std::alloc::Global;
use std::test::Fail;

#[test]
fn fault_kinds_have_their_texts(rt: HostRuntime) -> Result<(), Fail> {
    let kinds = [
        (FaultKind::NotUtf8, "not UTF-8"),
        (FaultKind::UnexpectedCharacter, "unexpected character"),
        (FaultKind::UnendedText, "unended text"),
        (FaultKind::UnendedComment, "unended comment"),
        (FaultKind::BadEscape, "bad escape"),
        (FaultKind::BadNumber, "bad number"),
        (FaultKind::NestingOver128, "nesting over 128"),
        (FaultKind::UnexpectedToken, "unexpected token"),
        (FaultKind::UnexpectedEnd, "unexpected end"),
        (FaultKind::NameAlreadyDeclared, "name already declared"),
        (
            FaultKind::FunctionAlreadyDeclared,
            "function already declared",
        ),
        (FaultKind::BreakOutsideLoop, "break outside a loop"),
        (FaultKind::ContinueOutsideLoop, "continue outside a loop"),
    ];
    for (kind, text) in kinds {
        assert_eq!(rt; format!(in rt.alloc(); "{kind}")?.as_str(), text);
    }
    Ok(())
}

fn copied(alloc: Global, bytes: &[u8]) -> Result<Text, ScriptRefusal> {
    Ok(Text::from_slice(alloc, bytes)?)
}

#[test]
fn with_ample_memory_no_copy_is_refused(rt: HostRuntime) -> Result<(), Fail> {
    assert_eq!(rt; copied(rt.alloc(), b"x").map(|text| text.len()), Ok(1));
    Ok(())
}

#[test]
fn tokens_are_copied_and_compared(rt: HostRuntime) -> Result<(), Fail> {
    let place = Place { line: 1, column: 3 };
    let name = Token {
        kind: TokenKind::Name(Text::from_str(rt.alloc(), "x")?),
        start: 2,
        end: 3,
        place,
    };
    let sign = Token {
        kind: TokenKind::Sign(Sign::Assign),
        start: 2,
        end: 3,
        place,
    };
    assert!(rt; name != sign);
    let mut tokens = Tokens::new(rt.alloc());
    tokens.push(name.clone()?)?;
    tokens.push(sign)?;
    assert!(rt; tokens.clone()? == tokens);
    assert!(rt; tokens.get(0) == Some(&name));
    Ok(())
}

#[test]
fn a_tree_of_one_sum_is_built_and_dropped(rt: HostRuntime) -> Result<(), Fail> {
    let alloc = rt.alloc();
    let mut operands = Items::new(alloc);
    operands.push(Operand {
        operator: Operator::Plus,
        value: Expr::Number(1),
    })?;
    let first = Boxed::new(alloc, Expr::Variable(Text::from_str(alloc, "x")?))?;
    let sum = Stmt::Evaluate(Expr::Joined(first, operands));
    let mut tops = Items::new(alloc);
    tops.push(Top::Statement(Place { line: 1, column: 1 }, sum))?;
    let tree = Tree { tops };
    assert_eq!(rt; tree.tops.len(), 1);
    Ok(())
}
