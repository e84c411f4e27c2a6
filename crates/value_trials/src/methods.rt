use method_names::Method;
use std::test::Fail;

#[test]
fn a_method_by_its_name(rt: HostRuntime) -> Result<(), Fail> {
    assert_eq!(rt; Method::named(b"getMessage"), Some(Method::GetMessage));
    assert_eq!(rt; Method::named(b"getmessage"), None);
    assert_eq!(rt; Method::Intdiv.name(), "intdiv");
    Ok(())
}
