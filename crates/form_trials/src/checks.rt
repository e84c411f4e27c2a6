//! Images with one byte changed, and the fault that `image_check` tells.

use cps_code::{Code, number};
use image_check::{CheckKind, Finding, ImageRefusal, check};
use image_form::read_image;
use model_run::{Executor, Executors, Site};
use model_syntax::{Arguments, Declared, Expr, Place, Stmt, Top, Tree};
use model_text::{Text, Texts};
use sqlite_items::Items;
use std::alloc::{AllocError, Global};
use std::test::Fail;

// A build of the script below that waits for its task, as data/checked_image.py spells it.
const SOUND: &[u8] = b"\
    \x00\x00\x00\x02\x00\x00\x00\x01\x00\x00\x00\x00\x00\x01\x00\x00\x00\x01\x78\x00\x00\x00\x00\x00\x00\
    \x00\x01\x00\x00\x00\x00\x00\x02\x00\x00\x00\x00\x00\x00\x00\x00\x00\x00\x00\x00\x00\x01\x00\x00\x00\
    \x02\x73\x68\x00\x00\x00\x00\x00\x00\x00\x01\x00\x00\x00\x02\x00\x00\x00\x00\x00\x00\x00\x01\x00\x00\
    \x00\x01\x00\x00\x00\x00\x01\x00\x00\x00\x00\x00\x00\x00\x02\x2f\x77\x00\x00\x00\x02\x2f\x77\x00\x00\
    \x00\x00\x00\x00\x00\x01\x31\x00\x00\x00\x00\x00\x00\x00\x00\x00\x00\x00\x00\x00\x00\x00\x00\x00\x00\
    \x00\x00\x00\x01\x00\x00\x00\x00\x00\x00\x00\x00\x03\x00\x00\x00\x00\x01\x00\x00\x00\x00\x00\x00\x00\
    \x00\x00\x00\x00\x00\x00\x00\x00\x02\x00\x00\x00\x00\x00\x00\x00\x00\x01\x00\x00\x00\x01\x00\x00\x00\
    \x01\x61\x00\x00\x00\x00\x00\x00\x00\x00\x2a\x00\x00\x00\x03\x00\x00\x00\x01\x00\x00\x00\x01\x00\x00\
    \x00\x01\x61\x00\x00\x00\x00\x00\x00\x00\x02\x01\x02\
";

const HERE: Place = Place { line: 1, column: 1 };

/// `def a` and `sh 1`: the script, the declaration, the statement behind it, the call and its argument.
fn script(alloc: Global) -> Result<Code, AllocError> {
    let declared = Declared {
        name: Text::from_str(alloc, "a")?,
        place: HERE,
    };
    let mut ordered = Vec::new(alloc);
    ordered.push(Expr::Number(1))?;
    let arguments = Arguments {
        named: Items::new(alloc),
        ordered: Items::from_vec(ordered),
    };
    let call = Expr::Call(Text::from_str(alloc, "sh")?, arguments);
    let mut tops = Vec::new(alloc);
    tops.push(Top::Statement(HERE, Stmt::Declare(declared, None)))?;
    tops.push(Top::Statement(HERE, Stmt::Evaluate(call)))?;
    number(
        alloc,
        Tree {
            tops: Items::from_vec(tops),
        },
    )
}

/// A site with one executor, 0.
fn site(alloc: Global) -> Result<Site, AllocError> {
    let mut executors = Vec::new(alloc);
    executors.push(Executor {
        number: 0,
        agent: Text::from_str(alloc, "linux")?,
        root: Text::from_str(alloc, "/w")?,
        labels: Texts::new(alloc),
        slot: 0,
    })?;
    Ok(Site {
        job: Text::from_str(alloc, "demo")?,
        looks: 10,
        executors: Executors::from_vec(executors),
    })
}

/// Whether the image with this byte changed has this as its first fault.
fn is_told(
    alloc: Global,
    place: usize,
    byte: u8,
    fault: Option<Finding>,
) -> Result<bool, AllocError> {
    let mut bytes = SOUND.to_vec(alloc)?;
    if place < bytes.len() {
        bytes[place] = byte;
    }
    let (code, site) = (script(alloc)?, site(alloc)?);
    match read_image(alloc, &bytes) {
        Ok(image) => match check(alloc, &image, &code, &site) {
            Ok(()) => Ok(fault.is_none()),
            Err(ImageRefusal::Fault(found)) => Ok(fault == Some(found)),
            Err(ImageRefusal::Memory) => Err(AllocError),
        },
        Err(_) => Ok(false),
    }
}

#[test]
fn one_changed_byte_is_the_fault_of_its_part(rt: HostRuntime) -> Result<(), Fail> {
    let rows = [
        (3, 2, u32::MAX, u32::MAX, None),
        (3, 1, u32::MAX, u32::MAX, Some(CheckKind::Request)),
        (7, 0, u32::MAX, u32::MAX, Some(CheckKind::Parent)),
        (22, 1, u32::MAX, u32::MAX, Some(CheckKind::MissingCell)),
        (85, 1, u32::MAX, u32::MAX, Some(CheckKind::Executor)),
        (137, 4, 0, u32::MAX, Some(CheckKind::Node)),
        (185, 46, 0, 1, Some(CheckKind::Kind)),
        (189, 9, 0, 1, Some(CheckKind::Node)),
        (193, 0, 0, 1, Some(CheckKind::At)),
        (211, 0, 0, 1, Some(CheckKind::Values)),
        (206, 5, 0, 1, Some(CheckKind::MissingCell)),
        (202, 98, 0, 1, Some(CheckKind::Name)),
    ];
    for (place, byte, thread, frame, kind) in rows {
        let fault = kind.map(|kind| Finding {
            thread,
            frame,
            kind,
        });
        assert!(rt; is_told(rt.alloc(), place, byte, fault)?);
    }
    Ok(())
}
