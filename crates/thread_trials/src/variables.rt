//! Variables that are found and written by `cps_variables`.

use cell_heap::Heap;
use cps_variables::{look, value_at, write_name};
use model_text::Text;
use model_values::{Binding, Env, Value, Values};
use std::test::Fail;

#[test]
fn the_innermost_of_two_variables_is_found(rt: HostRuntime) -> Result<(), Fail> {
    let alloc = rt.alloc();
    let mut env = Env::new(alloc);
    for (cell, name) in ["x", "y", "x"].iter().enumerate() {
        env = env.with(Binding {
            name: Text::from_str(alloc, name)?,
            cell: cell as u32,
        })?;
    }
    assert_eq!(rt; look(b"x", &env), Some(2));
    assert_eq!(rt; look(b"y", &env), Some(1));
    assert_eq!(rt; look(b"xy", &env), None);
    Ok(())
}

#[test]
fn a_name_without_a_variable_gets_a_binding_variable(rt: HostRuntime) -> Result<(), Fail> {
    let alloc = rt.alloc();
    let mut heap = Heap::new(alloc);
    let mut binding = Vec::new(alloc);
    let env = Env::new(alloc);
    write_name(&mut heap, &mut binding, b"x", &env, Value::Int(7))?;
    assert_eq!(rt; heap.len(), 1);
    assert_eq!(rt; binding.len(), 1);
    Ok(())
}

#[test]
fn a_value_that_is_not_kept_is_null(rt: HostRuntime) -> Result<(), Fail> {
    let mut values = Values::new(rt.alloc());
    values.push(Value::Int(3))?;
    assert_eq!(rt; value_at(&values, 0), Value::Int(3));
    assert_eq!(rt; value_at(&values, 1), Value::Null);
    Ok(())
}
