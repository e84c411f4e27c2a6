//! Rows of the table of frames, by `frame_rows`.

use cps_code::{Code, number};
use frame_rows::{
    Sort, Spot, Within, frame_kind, frame_row, kind_number, left_at, may_stand, spot_in, value_fits,
};
use model_run::FrameKind;
use model_syntax::{Arguments, Expr, Place, Stmt, Top, Tree};
use model_text::Text;
use model_values::{Cell, Env, Value};
use sqlite_items::Items;
use std::alloc::{AllocError, Global};
use std::test::Fail;

const HERE: Place = Place { line: 1, column: 1 };

/// `f(7, 8)`: the script, its statement, the call and its two arguments.
fn call(alloc: Global) -> Result<Code, AllocError> {
    let mut ordered = Vec::new(alloc);
    ordered.push(Expr::Number(7))?;
    ordered.push(Expr::Number(8))?;
    let arguments = Arguments {
        named: Items::new(alloc),
        ordered: Items::from_vec(ordered),
    };
    let call = Expr::Call(Text::from_str(alloc, "f")?, arguments);
    let mut tops = Vec::new(alloc);
    tops.push(Top::Statement(HERE, Stmt::Evaluate(call)))?;
    number(
        alloc,
        Tree {
            tops: Items::from_vec(tops),
        },
    )
}

#[test]
fn kinds_have_the_numbers_of_images(rt: HostRuntime) {
    let rows = [
        (0, FrameKind::Statement),
        (23, FrameKind::Gathered),
        (43, FrameKind::InputWait),
        (45, FrameKind::BranchBody),
    ];
    for (number, kind) in rows {
        assert_eq!(rt; frame_kind(number), Some(kind));
        assert_eq!(rt; kind_number(kind), number);
    }
    assert_eq!(rt; frame_kind(46), None);
}

#[test]
fn a_call_keeps_an_argument_for_each_that_is_done(rt: HostRuntime) -> Result<(), Fail> {
    let code = call(rt.alloc())?;
    let env = Env::new(rt.alloc());
    if code.len() != 5 {
        return Err("five nodes")?;
    }
    for (left, done) in [(1, 0), (0, 1)] {
        let row = frame_row(&code, FrameKind::Gathered, 2, left, &env);
        assert!(rt; row.stands && row.told);
        assert_eq!(rt; (row.limit, row.done, row.any), (2, done, done as usize));
        assert_eq!(rt; row.inside, Within::Part(done));
        assert_eq!(rt; left_at(&code, FrameKind::Gathered, 2, done), left);
    }
    assert!(rt; frame_row(&code, FrameKind::Statement, 0, 0, &env).stands);
    assert!(rt; !frame_row(&code, FrameKind::WhileTest, 2, 0, &env).stands);
    Ok(())
}

#[test]
fn a_call_stands_in_the_place_of_its_statement(rt: HostRuntime) -> Result<(), Fail> {
    let code = call(rt.alloc())?;
    if code.len() != 5 {
        return Err("five nodes")?;
    }
    assert_eq!(rt; spot_in(&code, 2, Within::Part(1)), Spot::Begun(4));
    let rows = [
        (FrameKind::Gathered, 2, Spot::Begun(1), true),
        (FrameKind::Gathered, 2, Spot::Begun(0), false),
        (FrameKind::CallBody, 0, Spot::Begun(1), true),
        (FrameKind::CallBody, 0, Spot::Begun(3), false),
        (FrameKind::BranchBody, 0, Spot::AnyBranch, true),
        (FrameKind::BranchBody, 0, Spot::Executor, false),
    ];
    for (kind, node, spot, stands) in rows {
        assert!(rt; node < code.len());
        assert_eq!(rt; may_stand(&code, kind, node, spot), stands);
    }
    Ok(())
}

#[test]
fn values_are_of_the_sorts_of_a_row(rt: HostRuntime) {
    let cells = [Cell::Variable(Value::Null)];
    let rows = [
        (Sort::Any, Value::Cell(0), true),
        (Sort::Any, Value::Cell(1), false),
        (Sort::UpTo(4), Value::Int(4), true),
        (Sort::UpTo(4), Value::Int(5), false),
        (Sort::Count, Value::Int(-1), false),
        (Sort::FlowNode, Value::Int(1), false),
        (Sort::FlowNode, Value::Int(4), true),
        (Sort::FlowNode, Value::Int(5), false),
        (Sort::Closure, Value::Cell(0), false),
        (Sort::TextOrNull, Value::Null, true),
    ];
    for (sort, value, fits) in rows {
        assert_eq!(rt; value_fits(&cells, 3, sort, &value), fits);
    }
}
