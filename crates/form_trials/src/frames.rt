//! Frames of an image, and what `image_frames` tells of each first.

use cps_code::number;
use image_form::ImageFrame;
use image_frames::{FrameFault, Table, frame_fault};
use model_syntax::{Place, Stmt, Top, Tree};
use model_values::{Env, Values};
use script_names::given_names;
use sqlite_items::Items;
use std::alloc::{AllocError, Global};
use std::test::Fail;

const HERE: Place = Place { line: 1, column: 1 };

/// `return`: the script and its statement.
fn script(alloc: Global) -> Result<Tree, AllocError> {
    let mut tops = Vec::new(alloc);
    tops.push(Top::Statement(HERE, Stmt::Return(None)))?;
    Ok(Tree {
        tops: Items::from_vec(tops),
    })
}

#[test]
fn the_first_fault_of_a_frame_is_told(rt: HostRuntime) -> Result<(), Fail> {
    let alloc = rt.alloc();
    let code = number(alloc, script(alloc)?)?;
    let names = given_names(alloc, &code)?;
    let cells = Vec::new(alloc);
    let table = Table {
        code: &code,
        names: &names,
        cells: cells.as_slice(),
        nodes: 1,
    };
    let rows = [
        (0, 0, 0, None),
        (46, 0, 0, Some(FrameFault::Kind)),
        (0, 1, 0, Some(FrameFault::Node)),
        (0, 0, 1, Some(FrameFault::Place)),
    ];
    for (kind, node, at, fault) in rows {
        let frame = ImageFrame {
            kind,
            node,
            at,
            env: Env::new(alloc),
            values: Values::new(alloc),
        };
        assert_eq!(rt; frame_fault(&table, true, &frame), fault);
    }
    Ok(())
}
