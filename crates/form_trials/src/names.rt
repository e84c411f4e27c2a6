//! Which names each node of a script sees, by `script_names`.

use cps_code::number;
use model_syntax::{Declared, Place, Stmt, Top, Tree};
use model_text::Text;
use model_values::{Binding, Env};
use script_names::given_names;
use sqlite_items::Items;
use std::alloc::{AllocError, Global};
use std::test::Fail;

const HERE: Place = Place { line: 1, column: 1 };

/// `def a` and `return`: the script, the declaration and the statement behind it.
fn script(alloc: Global) -> Result<Tree, AllocError> {
    let declared = Declared {
        name: Text::from_str(alloc, "a")?,
        place: HERE,
    };
    let mut tops = Vec::new(alloc);
    tops.push(Top::Statement(HERE, Stmt::Declare(declared, None)))?;
    tops.push(Top::Statement(HERE, Stmt::Return(None)))?;
    Ok(Tree {
        tops: Items::from_vec(tops),
    })
}

#[test]
fn a_name_is_seen_behind_its_declaration(rt: HostRuntime) -> Result<(), Fail> {
    let alloc = rt.alloc();
    let code = number(alloc, script(alloc)?)?;
    let names = given_names(alloc, &code)?;
    let none = Env::new(alloc);
    let a = Env::new(alloc).with(Binding {
        name: Text::from_str(alloc, "a")?,
        cell: 0,
    })?;
    if code.len() > 2 && code.parts(0) > 1 {
        assert_eq!(rt; names.are_seen(&code, 1, &none), true);
        assert_eq!(rt; names.are_seen(&code, 2, &none), false);
        assert_eq!(rt; names.are_seen(&code, 2, &a), true);
        assert_eq!(rt; names.are_seen_at(&code, 0, 0, &a), false);
        assert_eq!(rt; names.are_seen_at(&code, 0, 1, &a), true);
    }
    Ok(())
}
