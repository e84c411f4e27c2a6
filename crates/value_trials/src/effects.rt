use cell_heap::Heap;
use model_text::{Text, Texts};
use model_values::{Value, Values};
use std::test::Fail;
use value_ops::{Effect, perform};
use value_view::text_of;

#[test]
fn texts_and_a_list_of_them_are_made_together(rt: HostRuntime) -> Result<(), Fail> {
    let alloc = rt.alloc();
    let mut texts = Texts::new(alloc);
    texts.push(Text::from_str(alloc, "a")?)?;
    texts.push(Text::from_str(alloc, "b")?)?;
    let mut values = Values::new(alloc);
    values.push(Value::Cell(1))?;
    values.push(Value::Cell(0))?;
    let mut heap = Heap::new(alloc);
    let answer = perform(&mut heap, Effect::NewListOf(texts, values));
    assert_eq!(rt; answer, Ok(Value::Cell(2)));
    if let Ok(list) = answer {
        let text = text_of(alloc, &heap, &list)?;
        assert_eq!(rt; text.as_slice(), b"[b, a]".as_slice());
    }
    Ok(())
}
