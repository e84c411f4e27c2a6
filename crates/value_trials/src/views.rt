use model_text::Text;
use model_values::LimitKind;
use std::test::Fail;
use value_view::{OpRefusal, character_count, character_range, write_bytes};

#[test]
fn a_text_has_at_most_1048576_bytes(rt: HostRuntime) -> Result<(), Fail> {
    let mut text = Text::from_str(rt.alloc(), "a")?;
    for _ in 0..19 {
        let same = text.clone()?;
        text.append(same.as_slice())?;
    }
    let half = text.clone()?;
    assert_eq!(rt; write_bytes(half.as_slice(), &mut text), Ok(()));
    let met = OpRefusal::Limit(LimitKind::TextLength);
    assert_eq!(rt; write_bytes(b"c", &mut text), Err(met));
    assert_eq!(rt; text.len(), 1048576);
    Ok(())
}

#[test]
fn characters_of_one_to_four_bytes(rt: HostRuntime) {
    let text = "a\u{f1}\u{20ac}\u{1f600}z".as_bytes();
    assert_eq!(rt; character_count(text), 5);
    assert_eq!(rt; character_range(text, 1, 3), "\u{f1}\u{20ac}".as_bytes());
    assert_eq!(rt; character_range(text, 3, 9), "\u{1f600}z".as_bytes());
}
