//! Trees with their first fault of scope, by `scope_check`.

use model_syntax::{
    Arguments, Arm, Assignment, Catch, Caught, Declared, Expr, FaultKind, Function, Place,
    ScriptFault, ScriptRefusal, Stmt, Target, Top, Tree,
};
use model_text::Text;
use scope_check::check;
use sqlite_items::{Boxed, Items};
use std::alloc::{AllocError, Global};

const NOWHERE: Place = Place { line: 1, column: 1 };

fn named(alloc: Global, name: &str, line: u32, column: u32) -> Result<Declared, AllocError> {
    Ok(Declared {
        name: Text::from_str(alloc, name)?,
        place: Place { line, column },
    })
}

fn names(alloc: Global, of: &[(&str, u32, u32)]) -> Result<Items<Declared>, AllocError> {
    let mut names = Items::new(alloc);
    for (name, line, column) in of {
        names.push(named(alloc, name, *line, *column)?)?;
    }
    Ok(names)
}

/// `def NAME`, the name at this place.
fn def(alloc: Global, name: &str, line: u32, column: u32) -> Result<Stmt, AllocError> {
    Ok(Stmt::Declare(named(alloc, name, line, column)?, None))
}

/// These statements.
fn one(alloc: Global, statement: Stmt) -> Result<Items<Stmt>, AllocError> {
    let mut statements = Items::new(alloc);
    statements.push(statement)?;
    Ok(statements)
}

/// `def NAME` for each of these.
fn defs(alloc: Global, of: &[(&str, u32, u32)]) -> Result<Items<Stmt>, AllocError> {
    let mut statements = Items::new(alloc);
    for (name, line, column) in of {
        statements.push(def(alloc, name, *line, *column)?)?;
    }
    Ok(statements)
}

/// `while (true) { .. }`
fn endless(body: Items<Stmt>) -> Stmt {
    Stmt::While(Expr::True, body)
}

/// `f { .. }` or `f { a, b -> .. }`
fn call(
    alloc: Global,
    parameters: Option<Items<Declared>>,
    body: Items<Stmt>,
) -> Result<Stmt, AllocError> {
    let mut ordered = Items::new(alloc);
    ordered.push(Expr::Closure(parameters, body))?;
    let named = Items::new(alloc);
    let name = Text::from_str(alloc, "f")?;
    Ok(Stmt::Evaluate(Expr::Call(name, Arguments { named, ordered })))
}

/// A script of these statements.
fn script(alloc: Global, statements: Items<Stmt>) -> Result<Tree, AllocError> {
    let mut statements = statements;
    let mut tops = Vec::new(alloc);
    for _ in 0..statements.len() {
        if let Some(statement) = statements.pop() {
            tops.push(Top::Statement(NOWHERE, statement))?;
        }
    }
    tops.reverse();
    Ok(Tree {
        tops: Items::from_vec(tops),
    })
}

fn fault(line: u32, column: u32, kind: FaultKind) -> Result<(), ScriptRefusal> {
    Err(ScriptRefusal::Fault(ScriptFault { line, column, kind }))
}

/// What is told of a script of these statements.
fn answer(alloc: Global, statements: Items<Stmt>) -> Result<(), ScriptRefusal> {
    let tree = script(alloc, statements)?;
    check(alloc, &tree)
}

/// `def NAME` for each of these, and behind them this statement.
fn answer_behind(
    alloc: Global,
    before: &[(&str, u32, u32)],
    last: Stmt,
) -> Result<(), ScriptRefusal> {
    let mut statements = defs(alloc, before)?;
    statements.push(last)?;
    answer(alloc, statements)
}

fn answer_to_defs(alloc: Global, of: &[(&str, u32, u32)]) -> Result<(), ScriptRefusal> {
    answer(alloc, defs(alloc, of)?)
}

#[test]
fn a_name_is_declared_once_in_a_scope(rt: HostRuntime) {
    let alloc = rt.alloc();
    let twice = fault(2, 5, FaultKind::NameAlreadyDeclared);
    assert_eq!(rt; answer_to_defs(alloc, &[("x", 1, 5), ("x", 2, 5)]), twice);
    assert_eq!(rt; answer_to_defs(alloc, &[("x", 1, 5), ("y", 2, 5)]), Ok(()));
}

/// `def x`, and in the second line `while (true) { def x }`
fn declared_anew_in_a_block(alloc: Global) -> Result<(), ScriptRefusal> {
    let inner = defs(alloc, &[("x", 2, 20)])?;
    answer_behind(alloc, &[("x", 1, 5)], endless(inner))
}

/// `def i`, and in the second line `for (i in null) { def i }`
fn declared_anew_in_a_head_and_its_body(alloc: Global) -> Result<(), ScriptRefusal> {
    let body = defs(alloc, &[("i", 2, 23)])?;
    let name = named(alloc, "i", 2, 6)?;
    answer_behind(alloc, &[("i", 1, 5)], Stmt::ForEach(name, Expr::Null, body))
}

/// `def i`, and in the second line `for (def i = null; true; i++) { def i }`
fn declared_anew_in_a_head_of_steps(alloc: Global) -> Result<(), ScriptRefusal> {
    let name = named(alloc, "i", 2, 10)?;
    let counted = Assignment::Increment(Target::ToName(Text::from_str(alloc, "i")?));
    let step = Boxed::new(alloc, counted)?;
    let body = defs(alloc, &[("i", 2, 37)])?;
    let head = Stmt::ForDeclared(name, Expr::Null, Expr::True, step, body);
    answer_behind(alloc, &[("i", 1, 5)], head)
}

/// `def a`, and in the second line `f { a -> def c }`
fn declared_anew_by_a_closure(alloc: Global) -> Result<(), ScriptRefusal> {
    let parameters = names(alloc, &[("a", 2, 5)])?;
    let body = defs(alloc, &[("c", 2, 14)])?;
    answer_behind(alloc, &[("a", 1, 5)], call(alloc, Some(parameters), body)?)
}

#[test]
fn an_inner_scope_may_declare_a_name_anew(rt: HostRuntime) {
    let alloc = rt.alloc();
    assert_eq!(rt; declared_anew_in_a_block(alloc), Ok(()));
    assert_eq!(rt; declared_anew_in_a_head_and_its_body(alloc), Ok(()));
    assert_eq!(rt; declared_anew_in_a_head_of_steps(alloc), Ok(()));
    assert_eq!(rt; declared_anew_by_a_closure(alloc), Ok(()));
}

/// `f { a, b -> def b }`
fn parameter_declared_again(alloc: Global) -> Result<(), ScriptRefusal> {
    let parameters = names(alloc, &[("a", 1, 5), ("b", 1, 8)])?;
    let body = defs(alloc, &[("b", 1, 17)])?;
    answer(alloc, one(alloc, call(alloc, Some(parameters), body)?)?)
}

/// `f { def it }`, and with these heads in place of none
fn it_declared(alloc: Global, heads: Option<Items<Declared>>) -> Result<(), ScriptRefusal> {
    let body = defs(alloc, &[("it", 1, 9)])?;
    answer(alloc, one(alloc, call(alloc, heads, body)?)?)
}

/// `f { a -> def it }`
fn it_declared_behind_heads(alloc: Global) -> Result<(), ScriptRefusal> {
    let heads = names(alloc, &[("a", 1, 5)])?;
    it_declared(alloc, Some(heads))
}

/// `f { f { } }`
fn closure_in_a_closure(alloc: Global) -> Result<(), ScriptRefusal> {
    let inner = call(alloc, None, Items::new(alloc))?;
    answer(alloc, one(alloc, call(alloc, None, one(alloc, inner)?)?)?)
}

/// `f { def it }` is refused by Groovy: "The current scope already contains a variable of the name it".
#[test]
fn a_closure_without_heads_has_the_parameter_it(rt: HostRuntime) {
    let alloc = rt.alloc();
    let again = fault(1, 9, FaultKind::NameAlreadyDeclared);
    assert_eq!(rt; it_declared(alloc, None), again);
    assert_eq!(rt; it_declared_behind_heads(alloc), Ok(()));
    assert_eq!(rt; closure_in_a_closure(alloc), Ok(()));
}

/// `try {} catch (e) { def e }`
fn caught_name_declared_again(alloc: Global) -> Result<(), ScriptRefusal> {
    let mut catches = Items::new(alloc);
    catches.push(Catch {
        caught: Caught::Exceptions,
        name: named(alloc, "e", 1, 15)?,
        body: defs(alloc, &[("e", 1, 24)])?,
    })?;
    answer(
        alloc,
        one(alloc, Stmt::Try(Items::new(alloc), catches, None))?,
    )
}

#[test]
fn what_stands_in_one_scope_with_its_statements(rt: HostRuntime) {
    let alloc = rt.alloc();
    let again = FaultKind::NameAlreadyDeclared;
    assert_eq!(rt; parameter_declared_again(alloc), fault(1, 17, again));
    assert_eq!(rt; caught_name_declared_again(alloc), fault(1, 24, again));
}

/// `def NAME(PARAMETERS) {}`
fn function(
    alloc: Global,
    name: Declared,
    parameters: &[(&str, u32, u32)],
) -> Result<Top, AllocError> {
    Ok(Top::Function(Function {
        place: NOWHERE,
        name,
        parameters: names(alloc, parameters)?,
        body: Items::new(alloc),
    }))
}

/// `def f(a, a) {}`
fn parameter_twice(alloc: Global) -> Result<(), ScriptRefusal> {
    let mut tops = Items::new(alloc);
    let name = named(alloc, "f", 1, 5)?;
    tops.push(function(alloc, name, &[("a", 1, 7), ("a", 1, 10)])?)?;
    check(alloc, &Tree { tops })
}

/// `def f(a) {}`, and in the second line `def f(b) {}`
fn function_twice(alloc: Global) -> Result<(), ScriptRefusal> {
    let mut tops = Items::new(alloc);
    let name = named(alloc, "f", 1, 5)?;
    tops.push(function(alloc, name, &[("a", 1, 7)])?)?;
    let name = named(alloc, "f", 2, 5)?;
    tops.push(function(alloc, name, &[("b", 2, 7)])?)?;
    check(alloc, &Tree { tops })
}

#[test]
fn functions_and_parameters_are_declared_once(rt: HostRuntime) {
    let alloc = rt.alloc();
    assert_eq!(rt;
        parameter_twice(alloc),
        fault(1, 10, FaultKind::NameAlreadyDeclared)
    );
    assert_eq!(rt;
        function_twice(alloc),
        fault(2, 5, FaultKind::FunctionAlreadyDeclared)
    );
}

fn break_at(column: u32) -> Stmt {
    Stmt::Break(Place { line: 1, column })
}

/// `continue`
fn continue_alone(alloc: Global) -> Result<(), ScriptRefusal> {
    answer(alloc, one(alloc, Stmt::Continue(NOWHERE))?)
}

/// `while (true) { if (true) { break } }`
fn break_in_a_block_in_a_loop(alloc: Global) -> Result<(), ScriptRefusal> {
    let test = Expr::True;
    let body = one(alloc, break_at(28))?;
    let mut arms = Items::new(alloc);
    arms.push(Arm { test, body })?;
    answer(
        alloc,
        one(alloc, endless(one(alloc, Stmt::If(arms, None))?))?,
    )
}

/// `while (true) { f { break } }`
fn break_in_a_closure_in_a_loop(alloc: Global) -> Result<(), ScriptRefusal> {
    let inner = call(alloc, None, one(alloc, break_at(20))?)?;
    answer(alloc, one(alloc, endless(one(alloc, inner)?))?)
}

#[test]
fn break_and_continue_stand_in_a_loop_of_their_closure(rt: HostRuntime) {
    let alloc = rt.alloc();
    assert_eq!(rt;
        continue_alone(alloc),
        fault(1, 1, FaultKind::ContinueOutsideLoop)
    );
    assert_eq!(rt; break_in_a_block_in_a_loop(alloc), Ok(()));
    let outside = fault(1, 20, FaultKind::BreakOutsideLoop);
    assert_eq!(rt; break_in_a_closure_in_a_loop(alloc), outside);
}

/// `def x; break; def x`
fn two_faults(alloc: Global) -> Result<(), ScriptRefusal> {
    let mut statements = defs(alloc, &[("x", 1, 5)])?;
    statements.push(break_at(8))?;
    statements.push(def(alloc, "x", 1, 19)?)?;
    answer(alloc, statements)
}

#[test]
fn the_first_of_two_faults_is_told(rt: HostRuntime) {
    let first = fault(1, 8, FaultKind::BreakOutsideLoop);
    assert_eq!(rt; two_faults(rt.alloc()), first);
}

/// `def name1` to `def name100000`, a line each, and `def name1` once more.
fn many_names(alloc: Global) -> Result<(), ScriptRefusal> {
    let mut statements = Items::new(alloc);
    for line in 1..=100_000 {
        let name = format!(in alloc; "name{line}")?;
        statements.push(def(alloc, name.as_str(), line, 5)?)?;
    }
    statements.push(def(alloc, "name1", 100_001, 5)?)?;
    answer(alloc, statements)
}

/// A check that compares each name with each would need more time than a test has.
#[test]
fn many_names_in_one_scope_take_little_time(rt: HostRuntime) {
    let twice = fault(100_001, 5, FaultKind::NameAlreadyDeclared);
    assert_eq!(rt; many_names(rt.alloc()), twice);
}
