//! Scripts as the numbered nodes of `cps_code`, and their parts.

use cps_code::{Code, number};
use model_syntax::{Arguments, Choice, Declared, Expr, Function, NodeForm, Place, Stmt, Top, Tree};
use model_text::Text;
use sqlite_items::{Boxed, Items};
use std::alloc::{AllocError, Global};
use std::test::Fail;

const HERE: Place = Place { line: 1, column: 1 };

fn one<T: Drop>(alloc: Global, item: T) -> Result<Items<T>, AllocError> {
    let mut items = Vec::new(alloc);
    items.push(item)?;
    Ok(Items::from_vec(items))
}

fn declared(alloc: Global, name: &str) -> Result<Declared, AllocError> {
    Ok(Declared {
        name: Text::from_str(alloc, name)?,
        place: HERE,
    })
}

fn variable(alloc: Global, name: &str) -> Result<Expr, AllocError> {
    Ok(Expr::Variable(Text::from_str(alloc, name)?))
}

/// `return n`
fn returned(alloc: Global) -> Result<Items<Stmt>, AllocError> {
    one(alloc, Stmt::Return(Some(variable(alloc, "n")?)))
}

/// `def f(n) { return n }`
fn function(alloc: Global) -> Result<Top, AllocError> {
    Ok(Top::Function(Function {
        place: HERE,
        name: declared(alloc, "f")?,
        parameters: one(alloc, declared(alloc, "n")?)?,
        body: returned(alloc)?,
    }))
}

/// `f(7)`
fn call(alloc: Global) -> Result<Expr, AllocError> {
    let arguments = Arguments {
        named: Items::new(alloc),
        ordered: one(alloc, Expr::Number(7))?,
    };
    Ok(Expr::Call(Text::from_str(alloc, "f")?, arguments))
}

/// `f(7) ? 1 : [2]`
fn choice(alloc: Global) -> Result<Expr, AllocError> {
    let choices = one(alloc, Choice::IfTrue(call(alloc)?, Expr::Number(1)))?;
    let list = Expr::List(one(alloc, Expr::Number(2))?);
    Ok(Expr::Chosen(choices, Boxed::new(alloc, list)?))
}

fn statement(statement: Stmt) -> Top {
    Top::Statement(HERE, statement)
}

/// `while (true) { }`
fn endless(alloc: Global) -> Result<Tree, AllocError> {
    let endless = Stmt::While(Expr::True, Items::new(alloc));
    Ok(Tree {
        tops: one(alloc, statement(endless))?,
    })
}

/// The function and the choice.
fn two_tops(alloc: Global) -> Result<Tree, AllocError> {
    let mut tops = Vec::new(alloc);
    tops.push(function(alloc)?)?;
    tops.push(statement(Stmt::Evaluate(choice(alloc)?)))?;
    Ok(Tree {
        tops: Items::from_vec(tops),
    })
}

/// `null` in so many brackets.
fn nested(alloc: Global, depth: usize) -> Result<Expr, AllocError> {
    let mut inner = Expr::Null;
    for _ in 0..depth {
        inner = Expr::Group(Boxed::new(alloc, inner)?);
    }
    Ok(inner)
}

/// A statement of 128 brackets, and 10,000 short ones behind it.
fn deep_and_long(alloc: Global) -> Result<Tree, AllocError> {
    let mut tops = Vec::new(alloc);
    tops.push(statement(Stmt::Evaluate(nested(alloc, 128)?)))?;
    for _ in 0..10000 {
        tops.push(statement(Stmt::Evaluate(Expr::Null)))?;
    }
    Ok(Tree {
        tops: Items::from_vec(tops),
    })
}

/// Whether a node has just these parts.
fn has_parts(code: &Code, node: u32, parts: &[u32]) -> bool {
    if node >= code.len() || code.parts(node) as usize != parts.len() {
        return false;
    }
    let mut at: u32 = 0;
    for part in parts {
        if code.part(node, at) != Some(*part) {
            return false;
        }
        at = at.saturating_add(1);
    }
    code.part(node, at).is_none()
}

/// Whether a node is a variable of this name.
fn is_variable(code: &Code, node: u32, name: &[u8]) -> bool {
    if node >= code.len() {
        return false;
    }
    match code.kind(node) {
        NodeForm::Variable(found) => found.as_slice() == name,
        _ => false,
    }
}

/// Whether a node is this number.
fn is_number(code: &Code, node: u32, number: i32) -> bool {
    if node >= code.len() {
        return false;
    }
    match code.kind(node) {
        NodeForm::Number(found) => *found == number,
        _ => false,
    }
}

// The nodes: 0 script, 1 the loop, 2 its test, 3 its block.
#[test]
fn a_loop_stands_before_its_test_and_its_block(rt: HostRuntime) -> Result<(), Fail> {
    let code = number(rt.alloc(), endless(rt.alloc())?)?;
    let rows: [&[u32]; 4] = [&[1], &[2, 3], &[], &[]];
    assert!(rt; code.len() == 4);
    let mut node: u32 = 0;
    for parts in rows {
        assert!(rt; has_parts(&code, node, parts), "at {node}");
        node = node.saturating_add(1);
    }
    assert!(rt; matches!(code.kind(2), NodeForm::True));
    assert!(rt; matches!(code.kind(3), NodeForm::Block));
    Ok(())
}

// The nodes: 0 script, 1 function, 2 block, 3 return, 4 `n`, 5 the statement, 6 the choice, 7 its test with its value,
// 8 the call, 9 `7`, 10 `1`, 11 the list, 12 `2`.
#[test]
fn nodes_are_numbered_in_the_order_of_the_script(rt: HostRuntime) -> Result<(), Fail> {
    let code = number(rt.alloc(), two_tops(rt.alloc())?)?;
    let rows: [&[u32]; 13] = [
        &[1, 5],
        &[2],
        &[3],
        &[4],
        &[],
        &[6],
        &[7, 11],
        &[8, 10],
        &[9],
        &[],
        &[],
        &[12],
        &[],
    ];
    assert!(rt; code.len() == 13);
    let mut node: u32 = 0;
    for parts in rows {
        assert!(rt; has_parts(&code, node, parts), "at {node}");
        node = node.saturating_add(1);
    }
    assert!(rt; is_variable(&code, 4, b"n"));
    assert!(rt; is_number(&code, 12, 2));
    Ok(())
}

// Of two functions of one name the first is found.
#[test]
fn a_function_is_found_by_its_name(rt: HostRuntime) -> Result<(), Fail> {
    let alloc = rt.alloc();
    let mut tops = Vec::new(alloc);
    tops.push(function(alloc)?)?;
    tops.push(function(alloc)?)?;
    let tops = Items::from_vec(tops);
    let code = number(alloc, Tree { tops })?;
    assert!(rt; code.function(&Text::from_str(alloc, "f")?) == Some(1));
    assert!(rt; code.function(&Text::from_str(alloc, "g")?).is_none());
    Ok(())
}

#[test]
fn a_deep_and_long_script_is_numbered(rt: HostRuntime) -> Result<(), Fail> {
    let code = number(rt.alloc(), deep_and_long(rt.alloc())?)?;
    assert!(rt; code.len() == 20131);
    assert!(rt; code.parts(0) == 10001);
    assert!(rt; code.part(0, 0) == Some(1));
    assert!(rt; code.part(0, 10000) == Some(20129));
    assert!(rt; code.part(0, 10001).is_none());
    Ok(())
}
