use label_expr::{LabelExpr, LabelRefusal, parse, read_label};
use model_text::Text;
use std::alloc::{AllocError, Global};
use std::test::Fail;

/// Whether an executor with these labels fits the label.
fn fits(alloc: Global, label: &str, labels: &[&str]) -> Result<bool, LabelRefusal> {
    let mut texts = Vec::new(alloc);
    for text in labels {
        let text = Text::from_str(alloc, text)?;
        texts.push(text).map_err(AllocError::from)?;
    }
    let expr = parse(alloc, label.as_bytes())?;
    Ok(expr.matches(texts.as_slice()))
}

/// So many of these bytes, and then the others.
fn repeated(alloc: Global, byte: u8, times: usize, behind: &str) -> Result<Text, AllocError> {
    let mut text = Text::new(alloc);
    for _ in 0..times {
        text.push(byte)?;
    }
    text.append(behind.as_bytes())?;
    Ok(text)
}

#[test]
fn labels_fit_by_the_signs_of_jenkins(rt: HostRuntime) -> Result<(), Fail> {
    let alloc = rt.alloc();
    assert!(rt; fits(alloc, "linux && !win", &["linux"])?);
    assert!(rt; !fits(alloc, "linux && !win", &["linux", "win"])?);
    assert!(rt; fits(alloc, "a || b && c", &["a"])?);
    assert!(rt; !fits(alloc, "(a || b) && c", &["a"])?);
    assert!(rt; fits(alloc, "a -> b", &["c"])?);
    assert!(rt; !fits(alloc, "a -> b", &["a"])?);
    assert!(rt; fits(alloc, "a <-> b", &[])?);
    assert!(rt; fits(alloc, "\"big machine\"", &["big machine"])?);
    assert!(rt; LabelExpr::Any.matches(&[]));
    Ok(())
}

#[test]
fn faults_tell_the_byte_of_the_first_bad_token(rt: HostRuntime) -> Result<(), Fail> {
    let faults = [
        ("", 0),
        (" \t", 2),
        ("a -> b -> c", 7),
        ("a <-> b <-> c", 8),
        ("a &&", 4),
        ("a && ", 5),
        ("(a", 2),
        ("a )", 2),
        ("a b", 2),
        ("a & b", 2),
        ("a || \"b", 5),
        ("\"\"", 0),
        ("-> b", 0),
        ("a = b", 2),
    ];
    for (label, at) in faults {
        let refusal = parse(rt.alloc(), label.as_bytes()).err();
        assert_eq!(rt; refusal, Some(LabelRefusal::Fault { at }));
    }
    Ok(())
}

#[test]
fn a_step_without_a_label_or_with_a_blank_one_takes_any_executor(
    rt: HostRuntime,
) -> Result<(), Fail> {
    let alloc = rt.alloc();
    assert!(rt; read_label(alloc, None)?.matches(&[]));
    assert!(rt; read_label(alloc, Some(&Text::from_str(alloc, " \t")?))?.matches(&[]));
    let refusal = read_label(alloc, Some(&Text::from_str(alloc, " (")?)).err();
    assert_eq!(rt; refusal, Some(LabelRefusal::Fault { at: 2 }));
    Ok(())
}

#[test]
fn sixty_four_parentheses_may_be_open(rt: HostRuntime) -> Result<(), Fail> {
    let alloc = rt.alloc();
    let mut label = repeated(alloc, b'(', 64, "a")?;
    let closing = repeated(alloc, b')', 64, "")?;
    label.append(closing.as_slice())?;
    assert!(rt; parse(alloc, label.as_slice()).is_ok());
    let deeper = repeated(alloc, b'(', 65, "a")?;
    let refusal = parse(alloc, deeper.as_slice()).err();
    assert_eq!(rt; refusal, Some(LabelRefusal::Fault { at: 64 }));
    Ok(())
}

#[test]
fn long_rows_of_one_sign_need_no_depth(rt: HostRuntime) -> Result<(), Fail> {
    let alloc = rt.alloc();
    let label = repeated(alloc, b'!', 300_001, "a")?;
    let expr = parse(alloc, label.as_slice())?;
    assert!(rt; expr.matches(&[]));
    Ok(())
}
