ghost use Rattle.std.specs.Prelude.{◌≡◌, ◌↔◌, IsTrue, IfOk};

use model_text::Text;
use model_values::{Cell, Entries, Key, Value, Values};
use std::alloc::{AllocError, Global};
use std::test::Fail;

fn copied_cell(cell: &Cell) -> Result<Cell, AllocError>
    ensures { IfOk result (λ copy. copy ≡ cell.now) }
{
    cell.clone()
}

fn is_same_key(a: &Key, b: &Key) -> bool
    ensures { IsTrue result ↔ (a.now ≡ b.now) }
{
    a == b
}

/// The key of a word: a text behind `'`, and else a number.
fn key(alloc: Global, word: &str) -> Result<Key, AllocError> {
    Ok(match word.strip_prefix("'") {
        Some(text) => Key::Text(Text::from_str(alloc, text)?),
        None => Key::Int(word.parse::<i32>().unwrap_or(0)),
    })
}

#[test]
fn keys_are_numbers_or_texts(rt: HostRuntime) -> Result<(), Fail> {
    for (a, b, is_same) in [
        ("'3", "'3", true),
        ("3", "3", true),
        ("3", "4", false),
        ("3", "'3", false),
        ("'3", "3", false),
    ] {
        let (a, b) = (key(rt.alloc(), a)?, key(rt.alloc(), b)?.clone()?);
        assert_eq!(rt; is_same_key(&a, &b), is_same);
    }
    Ok(())
}

/// What is done with the entry of a key.
#[derive(Clone, Copy)]
enum Step {
    Put(Value),
    Remove,
    Get,
}

/// Whether each step, in order, answers so.
fn all_answer(
    alloc: Global,
    entries: &mut Entries,
    steps: &[(&str, Step, Option<Value>)],
) -> Result<bool, AllocError> {
    for (word, step, want) in steps {
        let key = key(alloc, word)?;
        let answer = match *step {
            Step::Put(value) => entries.put(key, value)?,
            Step::Remove => entries.remove(&key),
            Step::Get => entries.get(&key),
        };
        if answer != *want {
            return Ok(false);
        }
    }
    Ok(true)
}

#[test]
fn entries_keep_their_order(rt: HostRuntime) -> Result<(), Fail> {
    let puts = [
        ("7", Step::Put(Value::Null), None),
        ("'a", Step::Put(Value::Int(1)), None),
        ("9", Step::Put(Value::Bool(true)), None),
        ("7", Step::Put(Value::Cell(2)), Some(Value::Null)),
    ];
    let others = [
        ("'a", Step::Remove, Some(Value::Int(1))),
        ("1", Step::Remove, None),
        ("7", Step::Get, Some(Value::Cell(2))),
        ("8", Step::Get, None),
    ];
    let mut entries = Entries::new(rt.alloc());
    assert!(rt; entries.is_empty());
    assert!(rt; all_answer(rt.alloc(), &mut entries, &puts)?);
    assert_eq!(rt; entries.len(), 3);
    let copy = entries.clone()?;
    assert!(rt; all_answer(rt.alloc(), &mut entries, &others)?);
    assert_eq!(rt; copy.len(), 3);
    Ok(())
}

#[test]
fn cells_copy(rt: HostRuntime) -> Result<(), Fail> {
    let mut values = Values::new(rt.alloc());
    values.push(Value::Int(4))?;
    match copied_cell(&Cell::List(values))? {
        Cell::List(copy) => assert_eq!(rt; copy.get(0), Some(&Value::Int(4))),
        _ => assert!(rt; false),
    }
    Ok(())
}
