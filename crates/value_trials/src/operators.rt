use cell_heap::Heap;
use model_values::{LimitKind, Op, Value};
use std::test::Fail;
use value_operators::apply;
use value_view::OpRefusal;

#[test]
fn a_list_has_at_most_65536_entries(rt: HostRuntime) -> Result<(), Fail> {
    let mut heap = Heap::new(rt.alloc());
    let full = Err(OpRefusal::Limit(LimitKind::CollectionSize));
    for (last, want) in [(65536, Ok(Value::Cell(0))), (65537, full)] {
        let (a, b) = (Value::Int(1), Value::Int(last));
        assert_eq!(rt; apply(rt.alloc(), &mut heap, Op::Range, &a, &b), want);
    }
    Ok(())
}
